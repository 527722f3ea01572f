//! Domains as text: keywords as the set of their values, `0,3,7`; a coverage as a list of ranges,
//! `65-90,8364`, a lone number being a range of one; a joint domain as the words of its two.
ghost use Rattle.std.specs.Prelude.{◌≡◌, IfErr};
ghost use Rattle.api.specs.declared.Refusal.{Refusal};
ghost use Rattle.notation.specs.declared.trouble.Trouble.TheVariants.{Refused};

use crate::lists::{Part, list};
use crate::sets::members;
use crate::trouble::Trouble;
use crate::words::{Words, digits};
use api::{Coverage, Joint, Keywords, Range};

/// A kind of domain with a text form.
pub trait FromWords: Copy {
    /// The domain that the next words say. They alone are taken, however many follow.
    fn read<'a>(words: &mut Words<'a>) -> Result<Self, Trouble<'a>>;
}

impl FromWords for Keywords {
    fn read<'a>(words: &mut Words<'a>) -> Result<Keywords, Trouble<'a>> {
        let bits = members(words.word()?)?;
        Ok(Keywords { bits })
    }
}

/// The ends of a range may stand in any order. Whether ranges make a coverage is not asked of one.
impl Part for Range {
    fn part(text: &str) -> Option<Range> {
        let (first, last) = text.split_once('-').unwrap_or((text, text));
        Some(Range {
            first: digits(first)?,
            last: digits(last)?,
        })
    }
}

/// The coverage of the ranges. A list that makes none is refused as such, and is not called
/// unreadable.
fn coverage_of<'a>(list: &[Range]) -> Result<Coverage, Trouble<'a>>
    ensures { IfErr result (λ e. (x : Refusal) × (e ≡ Refused x)) }
{
    Ok(Coverage::new(list)?)
}

impl FromWords for Coverage {
    fn read<'a>(words: &mut Words<'a>) -> Result<Coverage, Trouble<'a>> {
        let ranges = list(words.heap, words.word()?)?;
        coverage_of(ranges.as_slice())
    }
}

impl<L: FromWords, R: FromWords> FromWords for Joint<L, R> {
    fn read<'a>(words: &mut Words<'a>) -> Result<Joint<L, R>, Trouble<'a>> {
        Ok(Joint {
            left: L::read(words)?,
            right: R::read(words)?,
        })
    }
}
