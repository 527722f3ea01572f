//! The document of a comparison that came out apart: a tree that the first schema accepts and the
//! second does not.
ghost use Rattle.std.specs.Prelude.{◌≡◌, ◌≤◌, None, length};
ghost use Rattle.refusal.specs.Order.{Refuses};
ghost use Rattle.schema.specs.declared.tables.TheConstants.{STATES};
ghost use Rattle.schema.specs.Meaning.{meaning, tables_of};
ghost use Rattle.schema.specs.Tables.{tables, sets};
ghost use Rattle.compare.specs.Refusals.{other_counts};
ghost use Rattle.compare.specs.View.{view};
ghost use Rattle.document.specs.declared.document.TheConstants.{LEVELS};
ghost use Rattle.document.specs.Laws.{DocumentLaws, DocumentLimits};
ghost use Rattle.document.specs.Nodes.{Ready};
ghost use Rattle.document.specs.Counterexamples.{TracedIn};
ghost use Rattle.document.specs.Writing.{Documenting, DocumentAnswer, TreeAnswer, document_kept_from};

use crate::counterexample::Counterexample;
use codec::item::Level;
use codec::pile::Pile;
use compare::area::{Area, refusal};
use compare::claim::Numbers;
use compare::compared::Compared;
use compare::pairs::PLACES;
use compare::writing::{broken_pair, permits_write};
use domain::domain::Domain;
use refusal::fault::{Fault, Refusal};
use samples::node::NodeKey;
use samples::output::Output;
use samples::samples::Samples;
use samples::size::LONGEST;
use schema::tables::{STATES, Schema};
use schema::tested::Tested;
use search::pairs::RowPair;
use search::slots::RowSlots;

/// How many levels have to be lent: one for each pair that a path can have, and one for each level
/// of a sample.
pub const LEVELS: usize = PLACES + STATES;

/// The row pairs for a document of the claim, or what keeps two schemas from it before any is
/// looked for: `symbols`, `foreign`, `ousted`, `schemas`, `early` or `scratch`.
fn permits<'a, D>(
    area: &Area,
    first: &Tested<D>,
    second: &Tested<D>,
    claim: Numbers,
    scratch: &'a mut [RowPair],
    levels: usize,
) -> Result<RowSlots<'a>, Refusal>
    ensures { Refuses
        (document_kept_from (view area.now) (tables_of first.now) (tables_of second.now)
        claim (length scratch.old) levels)
        result }
{
    let slots = permits_write(area, first, second, claim, scratch)?;
    if levels < LEVELS {
        return Err(Fault::Scratch.at(LEVELS));
    }
    Ok(slots)
}

impl<D: Domain> Counterexample<'_, '_, '_, '_, '_, D> {
    /// Writes the document that was traced at the output's front, and tells its length; or `room`,
    /// where it is too long.
    fn write_traced(
        &self,
        place: usize,
        size: u32,
        slots: &mut RowSlots,
        levels: &mut Pile<Level<NodeKey>>,
        bytes: &mut [u8],
    ) -> Result<usize, Refusal>
        ensures { Ready D.Domain.holds self.now → STATES ≤ length levels.old.free →
            (d : TracedIn D.Domain.holds self.now place size levels.old.entries) →
            TreeAnswer d.tree bytes.old result bytes.new }
    {
        let room = Fault::Room.at(size as usize);
        if size > LONGEST || bytes.len() < size as usize {
            return Err(room);
        }
        let mut output = Output { bytes, place: 0 };
        self.write(place, slots, levels, &mut output).ok_or(room)?;
        Ok(output.place)
    }
}

/// Writes the document of the area's broken pair at the output's front, and tells its length; or
/// `schemas` or `room`. LEVELS levels are lent.
fn write_document<D: Domain>(
    area: &Area,
    first: &Tested<D>,
    second: &Tested<D>,
    slots: &mut RowSlots,
    levels: &mut [Level<NodeKey>],
    bytes: &mut [u8],
) -> Result<usize, Refusal>
    ensures { other_counts (view area.now) (tables_of first.now) (tables_of second.now) ≡ None →
        LEVELS ≤ length levels.old →
        let A = meaning D.Domain.holds first.now in
        let B = meaning D.Domain.holds second.now in
        DocumentAnswer A B (view area.now) bytes.old result bytes.new }
{
    let none = refusal(area, Fault::Schemas);
    let Some(broken) = broken_pair(area) else {
        return Err(none);
    };
    let counterexample = Counterexample {
        compared: Compared {
            first,
            second,
            live: first.live_states(),
        },
        samples: Samples::of(first, slots),
        pairs: broken.pairs,
        kind: broken.kind,
    };
    let mut levels = Pile::new(levels);
    let Some(size) = counterexample.trace(broken.index, slots, &mut levels) else {
        return Err(none);
    };
    counterexample.write_traced(broken.index, size, slots, &mut levels, bytes)
}

/// Writes the document of a comparison that came out apart at the output's front, and tells its
/// length. The claim is told by its two numbers. Or `size`, `state`, `row`, `domain`, `symbols`,
/// `foreign`, `ousted`, `schemas`, `early`, `scratch` or `room`, and the output is as it was. The
/// row pairs and levels hold anything afterwards.
#[tactic(auto, using(crate::proofs::Laws::document_laws))]
pub fn document<D: Domain>(
    area: &Area,
    claim: Numbers,
    first: &Schema<D>,
    second: &Schema<D>,
    scratch: &mut [RowPair],
    levels: &mut [Level<NodeKey>],
    output: &mut [u8],
) -> Result<usize, Refusal>
    ensures outcome { Documenting (tables first.now) (tables second.now)
        (sets D.Domain.holds first.now) (sets D.Domain.holds second.now)
        claim (length scratch.old) (length levels.old) area.now output.old result output.new }
    ensures laws { DocumentLaws }
    ensures limits { DocumentLimits }
{
    let (first, second) = Tested::both(first, second)?;
    let mut slots = permits(area, &first, &second, claim, scratch, levels.len())?;
    write_document(area, &first, &second, &mut slots, levels, output)
}
