//! Coverage domains: up to eight ranges of code points.
ghost use Rattle.std.specs.Prelude.{◌≡◌, ℕ, ◌+◌, Bool, nat_eq};
ghost use Rattle.domain.specs.Kinds.{some, in_range, begins, follows, ranges_of, has_letter};
ghost use Rattle.domain.specs.Sets.{Smallest, alone, either, both};

use crate::domain::Domain;

pub mod making;

/// The most ranges that a coverage has.
pub const RANGES: usize = 8;

/// A range of code points, both ends included.
#[derive(Clone, Copy, Debug, PartialEq, Eq)]
pub struct Range {
    pub first: u32,
    pub last: u32,
}

impl Range {
    /// Whether the value lies in the range.
    pub fn has(&self, value: u32) -> bool
        ensures { result ≡ in_range self.now value }
    {
        self.first <= value && value <= self.last
    }

    /// The first value of the range, or none where its ends are the wrong way round.
    pub fn least(&self) -> Option<u32>
        ensures { Smallest (in_range self.now) result }
    {
        (self.first <= self.last).then_some(self.first)
    }
}

/// A set of code points: the first `count` of the ranges are in use.
// An array with its count beside it: a coverage lies plain in a list that the caller lends.
#[derive(Clone, Copy, Debug, PartialEq, Eq)]
pub struct Coverage {
    ranges: [Range; RANGES],
    count: u8,
}

/// The smallest value of two sets together, from the smallest value of each.
fn smaller(a: Option<u32>, b: Option<u32>) -> Option<u32>
    ensures { (p q : ℕ → Bool) → Smallest p a → Smallest q b → Smallest (either p q) result }
{
    match (a, b) {
        (Some(x), Some(y)) => Some(x.min(y)),
        (Some(x), None) => Some(x),
        (None, y) => y,
    }
}

impl Coverage {
    /// The ranges in use.
    fn used(&self) -> &[Range]
        ensures { result.now ≡ ranges_of self.now }
    {
        let count = (self.count as usize).min(RANGES);
        &self.ranges[0..count]
    }

    /// The value, where this coverage has it and the other has not.
    fn only(&self, other: &Coverage, value: u32) -> Option<u32>
        ensures { Smallest
            (both (alone (has_letter self.now) (has_letter other.now)) (nat_eq value)) result }
    {
        (self.has(value) && !other.has(value)).then_some(value)
    }

    /// The smallest value in this coverage alone at which one of its ranges begins.
    fn begins_alone(&self, other: &Coverage) -> Option<u32>
        ensures { Smallest
            (both
            (alone (has_letter self.now) (has_letter other.now))
            (some begins (ranges_of self.now)))
            result }
    {
        let mut best = None;
        for range in self.used() {
            best = smaller(best, self.only(other, range.first));
        }
        best
    }

    /// The smallest value in this coverage alone that is one past a range of the other.
    fn follows_alone(&self, other: &Coverage) -> Option<u32>
        ensures { Smallest
            (both
            (alone (has_letter self.now) (has_letter other.now))
            (some follows (ranges_of other.now)))
            result }
    {
        let mut best = None;
        for range in other.used() {
            if let Some(next) = range.last.checked_add(1) {
                best = smaller(best, self.only(other, next));
            }
        }
        best
    }
}

impl Domain for Coverage {
    ghost holds = { has_letter };

    fn has(&self, value: u32) -> bool {
        for range in self.used() {
            if range.has(value) {
                return true;
            }
        }
        false
    }

    fn least(&self) -> Option<u32> {
        let mut best = None;
        for range in self.used() {
            best = smaller(best, range.least());
        }
        best
    }

    // The smallest value that this coverage has alone begins one of its ranges, or follows one of
    // the other's.
    fn gap(&self, other: &Coverage) -> Option<u32> {
        smaller(self.begins_alone(other), self.follows_alone(other))
    }
}
