//! Joint domains: two domains of any kinds, one on each half of the values.
ghost use Rattle.std.specs.Prelude.{◌≡◌, ℕ, Bool};
ghost use Rattle.domain.specs.Kinds.{joined};
ghost use Rattle.domain.specs.Sets.{Smallest};

use crate::domain::Domain;

/// The first value that the right domain answers for. What either domain has from here on is not in
/// the joint.
pub const MIDDLE: u32 = 2_147_483_648;

/// A left and a right domain, each of any kind.
#[derive(Clone, Copy, Debug, PartialEq, Eq)]
pub struct Joint<L, R> {
    pub left: L,
    pub right: R,
}

/// The smallest value of two halves, from the smallest value of each set.
fn lower(left: Option<u32>, right: Option<u32>) -> Option<u32>
    ensures { (p q : ℕ → Bool) → Smallest p left →
        Smallest q right →
        Smallest (joined p q) result }
{
    let low = left.filter(|value| *value < MIDDLE);
    let high = right.filter(|value| *value < MIDDLE);
    low.or(high.map(|value| MIDDLE + value))
}

impl<L: Domain, R: Domain> Domain for Joint<L, R> {
    ghost holds = { λ j. joined (L.Domain.holds j.left) (R.Domain.holds j.right) };

    fn has(&self, value: u32) -> bool {
        if value < MIDDLE {
            self.left.has(value)
        } else {
            self.right.has(value - MIDDLE)
        }
    }

    fn least(&self) -> Option<u32> {
        lower(self.left.least(), self.right.least())
    }

    fn gap(&self, other: &Joint<L, R>) -> Option<u32> {
        lower(self.left.gap(&other.left), self.right.gap(&other.right))
    }
}
