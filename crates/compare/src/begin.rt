//! Taking a free area for a comparison, and ousting the one that holds it.
ghost use Rattle.schema.specs.Tables.{tables, sets};
ghost use Rattle.compare.specs.declared.event.Event.TheVariants.{Take, Oust};
ghost use Rattle.compare.specs.Beginning.{Beginning};
ghost use Rattle.compare.specs.Laws.{BeginLaws};

use crate::area::Area;
use crate::claim::Claim;
use crate::compared::Compared;
use crate::event::Event;
use domain::domain::Domain;
use refusal::fault::Refusal;
use schema::tables::Schema;
use schema::tested::Tested;

/// Begins a comparison of two schemas, or refuses and leaves the area as it was.
fn begin<D: Domain>(
    area: &mut Area,
    first: &Schema<D>,
    second: &Schema<D>,
    event: Event,
) -> Result<Claim, Refusal>
    ensures { Beginning event (tables first.now) (tables second.now)
        (sets D.Domain.holds first.now) area.old result area.new }
{
    let (first, second) = Tested::both(first, second)?;
    area.permits_start(&first, &second, event)?;
    area.start(&Compared::of(&first, &second));
    Ok(area.claim())
}

/// Takes a free area for a comparison of two schemas: (0, 0) is listed, or, where the first schema
/// accepts nothing, the area is ready with included. Or `size`, `state`, `row`, `domain`,
/// `symbols`, `busy` or `worn`.
#[tactic(auto, using(crate::proofs::Laws::take_laws))]
pub fn take<D: Domain>(
    area: &mut Area,
    first: &Schema<D>,
    second: &Schema<D>,
) -> Result<Claim, Refusal>
    ensures outcome { Beginning Take (tables first.now) (tables second.now)
        (sets D.Domain.holds first.now) area.old result area.new }
    ensures laws { BeginLaws Take }
{
    begin(area, first, second, Event::Take)
}

/// Takes an area in whatever phase it is. A claim that held it is ousted. Refusals as for `take`,
/// but for `busy`.
#[tactic(auto, using(crate::proofs::Laws::oust_laws))]
pub fn oust<D: Domain>(
    area: &mut Area,
    first: &Schema<D>,
    second: &Schema<D>,
) -> Result<Claim, Refusal>
    ensures outcome { Beginning Oust (tables first.now) (tables second.now)
        (sets D.Domain.holds first.now) area.old result area.new }
    ensures laws { BeginLaws Oust }
{
    begin(area, first, second, Event::Oust)
}
