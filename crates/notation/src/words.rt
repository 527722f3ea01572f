//! The words of a line, and the numbers that they say.
ghost use Rattle.std.specs.Prelude.{◌≡◌, ◌^◌};
ghost use Rattle.std.specs.Option.{SomeIff, ok_or};
ghost use Rattle.std.specs.Str.Iter.{split_whitespace_rest};
ghost use Rattle.notation.specs.Words.{Takes, IsNumberBelow, number_in, NumberOf, EndOf};

use crate::trouble::Trouble;
use std::alloc::Global;
use std::str::SplitWhitespace;

/// The next word of what is left of a line.
pub fn word<'a>(left: &mut SplitWhitespace<'a>) -> Result<&'a str, Trouble<'a>>
    ensures { Takes left.old left.new (λ w r. r ≡ ok_or w Trouble.Ended) result }
{
    left.next().ok_or(Trouble::Ended)
}

/// Nothing, where no word is left; a word too many is not read over.
pub fn end<'a>(left: &mut SplitWhitespace<'a>) -> Result<(), Trouble<'a>>
    ensures { Takes left.old left.new EndOf result }
{
    match left.next() {
        Some(word) => Err(Trouble::Unreadable(word)),
        None => Ok(()),
    }
}

/// The number that the next word says.
pub fn number<'a>(left: &mut SplitWhitespace<'a>) -> Result<u32, Trouble<'a>>
    ensures { Takes left.old left.new NumberOf result }
{
    let word = word(left)?;
    digits(word).ok_or(Trouble::Unreadable(word))
}

/// The words of a line that are still to be read, and where the lists that they say are kept.
#[derive(Clone, Debug, Drop)]
pub struct Words<'a> {
    pub heap: Global,
    pub left: SplitWhitespace<'a>,
}

impl<'a> Words<'a> {
    /// The words of a line, all of them still to be read.
    pub fn new(heap: Global, line: &'a str) -> Words<'a>
        ensures { split_whitespace_rest result.left ≡ line.now }
    {
        Words {
            heap,
            left: line.split_whitespace(),
        }
    }

    /// The words of a line some of whose words may have been read.
    pub fn over(heap: Global, left: SplitWhitespace<'a>) -> Words<'a>
        ensures { result.left ≡ left.entry }
    {
        Words { heap, left }
    }

    /// The next word.
    pub fn word(&mut self) -> Result<&'a str, Trouble<'a>>
        ensures { Takes self.old.left self.new.left (λ w r. r ≡ ok_or w Trouble.Ended) result }
    {
        word(&mut self.left)
    }

    /// Nothing, where no word is left; a word too many is not read over.
    pub fn end(&mut self) -> Result<(), Trouble<'a>>
        ensures { Takes self.old.left self.new.left EndOf result }
    {
        end(&mut self.left)
    }

    /// The number that the next word says.
    pub fn number(&mut self) -> Result<u32, Trouble<'a>>
        ensures { Takes self.old.left self.new.left NumberOf result }
    {
        number(&mut self.left)
    }
}

/// The number that a text of digits says, or none where it is no such text or the number is too
/// large.
pub fn digits(text: &str) -> Option<u32>
    ensures { SomeIff result (IsNumberBelow (2 ^ 32) text.now) (number_in text.now) }
{
    if text.starts_with('+') {
        return None;
    }
    text.parse::<u32>().ok()
}

/// Whether a line is there for its reader alone: blank, or a comment behind '#'.
pub fn is_comment(line: &str) -> bool {
    let text = line.trim();
    text.is_empty() || text.starts_with('#')
}
