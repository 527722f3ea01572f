//! Making a coverage: the rule that its ranges follow, and the refusals of those that do not.
ghost use Rattle.std.specs.Prelude.{◌≡◌, length, MatchOption};
ghost use Rattle.domain.specs.Making.{Follows, Breaks, Makes, MakingLaws};

use super::{Coverage, RANGES, Range};
use refusal::fault::{Fault, Refusal};

/// The last code point that a coverage may have.
pub const LAST_CODE_POINT: u32 = 1_114_111;

/// What a place of a coverage holds that is not in use.
const UNUSED: Range = Range { first: 0, last: 0 };

/// The first range that breaks the rule with those before it, or none.
fn first_broken(ranges: &[Range]) -> Option<usize>
    ensures { MatchOption result (Follows ranges.now (length ranges.now)) (Breaks ranges.now) }
{
    // the lowest code point at which the next range may begin
    let mut free = 0;
    for (place, range) in ranges.iter().enumerate() {
        if range.first < free || range.last < range.first || LAST_CODE_POINT < range.last {
            return Some(place);
        }
        free = range.last + 2;
    }
    None
}

impl Coverage {
    /// The coverage of these ranges, or the refusal of too many or of the first that breaks the
    /// rule.
    pub fn new(ranges: &[Range]) -> Result<Coverage, Refusal>
        ensures answer { Makes ranges.now result }
        ensures laws { MakingLaws }
    {
        if ranges.len() > RANGES {
            return Err(Fault::Size.at(0));
        }
        if let Some(place) = first_broken(ranges) {
            return Err(Fault::Range.at(place));
        }
        let mut table = [UNUSED; RANGES];
        let count = ranges.len();
        table[0..count].copy_from_slice(ranges);
        Ok(Coverage {
            ranges: table,
            count: count as u8,
        })
    }
}
