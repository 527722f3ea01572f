//! Two schemas that are compared, with the live states of the first.
ghost use Rattle.std.specs.Prelude.{◌≡◌};
ghost use Rattle.compare.specs.Schemas.{MarksLive};

use domain::domain::Domain;
use schema::tested::Tested;

/// Two schemas without a fault, and the live states of the first, one a bit.
// That the mask is exact is no invariant: a type that keeps it would ask more of who makes one than
// the contracts do.
#[derive(Drop)]
pub struct Compared<'a, 'b, 'c, 'd, D> {
    pub first: &'a Tested<'b, D>,
    pub second: &'c Tested<'d, D>,
    pub live: u64,
}

impl<'a, 'b, 'c, 'd, D: Domain> Compared<'a, 'b, 'c, 'd, D> {
    /// The two schemas, with the live states of the first.
    pub fn of(first: &'a Tested<'b, D>, second: &'c Tested<'d, D>) -> Compared<'a, 'b, 'c, 'd, D>
        ensures first { result.first.now ≡ first.now }
        ensures second { result.second.now ≡ second.now }
        ensures live { MarksLive D.Domain.holds result }
    {
        Compared {
            first,
            second,
            live: first.live_states(),
        }
    }
}
