//! Keyword domains: 64 bits, a value below 64 being a member when its bit is set.
ghost use Rattle.domain.specs.Kinds.{has_keyword};

use crate::domain::Domain;
use bits::sets::{has_member, lowest, lowest_alone};

/// A set of values below 64, one a bit, bit 0 the lowest.
#[derive(Clone, Copy, Debug, PartialEq, Eq)]
pub struct Keywords {
    pub bits: u64,
}

impl Domain for Keywords {
    ghost holds = { has_keyword };

    fn has(&self, value: u32) -> bool {
        value < 64 && has_member(self.bits, value as u8)
    }

    fn least(&self) -> Option<u32> {
        lowest(self.bits).map(u32::from)
    }

    fn gap(&self, other: &Keywords) -> Option<u32> {
        lowest_alone(self.bits, other.bits).map(u32::from)
    }
}
