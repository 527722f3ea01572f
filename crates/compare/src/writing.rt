//! What writing a document asks of an area: whether the claim's holder may have one, and the broken
//! pair that it is of.
ghost use Rattle.std.specs.Prelude.{length};
ghost use Rattle.refusal.specs.Order.{Refuses};
ghost use Rattle.schema.specs.Meaning.{tables_of};
ghost use Rattle.compare.specs.View.{view};
ghost use Rattle.compare.specs.Writing.{write_kept_from, BrokenOf};

use crate::area::Area;
use crate::claim::Numbers;
use crate::event::Event;
use crate::pairs::Pairs;
use crate::phase::{Kind, Phase};
use crate::trail::broken_index;
use refusal::fault::Refusal;
use schema::tested::Tested;
use search::pairs::RowPair;
use search::slots::RowSlots;

/// The broken pair of a comparison that came out apart: the list that it stands in, its index
/// there, and how it is broken.
#[derive(Clone, Copy)]
pub struct BrokenPair<'a> {
    pub pairs: &'a Pairs,
    pub index: usize,
    pub kind: Kind,
}

/// The row pairs for a document of the claim, or what keeps two schemas from it: `symbols`,
/// `foreign`, `ousted`, `schemas`, `early` or `scratch`.
pub fn permits_write<'a, D>(
    area: &Area,
    first: &Tested<D>,
    second: &Tested<D>,
    claim: Numbers,
    scratch: &'a mut [RowPair],
) -> Result<RowSlots<'a>, Refusal>
    ensures { Refuses
        (write_kept_from (view area.now) (tables_of first.now) (tables_of second.now)
        claim (length scratch.old))
        result }
{
    area.permits_held(first, second, claim)?;
    area.permits(Event::Write)?;
    RowSlots::new(scratch)
}

/// The broken pair, where the area is apart.
pub fn broken_pair(area: &Area) -> Option<BrokenPair>
    ensures { BrokenOf area.now result }
{
    match area.phase {
        Phase::Apart(kind) => Some(BrokenPair {
            pairs: &area.pairs,
            index: broken_index(area),
            kind,
        }),
        _ => None,
    }
}
