//! Lists as text, parts joined by commas and `-` for none, and the commonest of them: bytes,
//! `0,1,255`.
ghost use Rattle.std.specs.Prelude.{◌^◌, Some};
ghost use Rattle.std.specs.Iterator.{IsFinite};
ghost use Rattle.std.specs.Option.{SomeIff};
ghost use Rattle.notation.specs.Words.{Takes, IsNumberBelow, number_in};
ghost use Rattle.notation.specs.Lists.{ListOf};

use crate::trouble::Trouble;
use crate::words::{Words, digits};
use std::alloc::Global;
use std::fmt;

/// What a list is made of.
pub trait Part: Copy {
    /// What a text says, or none where it says no such part.
    fn part(text: &str) -> Option<Self>;
}

/// The parts that a word says, as many as it has and in its order.
pub fn list<'a, T: Part>(heap: Global, word: &'a str) -> Result<Vec<T>, Trouble<'a>>
    ensures { ListOf (Some word.entry) result }
{
    if word == "-" {
        return Ok(Vec::new(heap));
    }
    word.split(',')
        .map(|text| T::part(text).ok_or(Trouble::Unreadable(word)))
        .try_collect(heap)
}

/// Prints items as a list.
pub(crate) fn write_list<I: Iterator + Drop, W: fmt::Write>(
    mut items: I,
    f: &mut fmt::Formatter<W>,
) -> fmt::Result
where
    I::Item: fmt::Display + Drop,
    requires can { I.can_next items }
    requires ends { IsFinite (I.remaining items) }
{
    let Some(first) = items.next() else {
        return write!(f, "-");
    };
    write!(f, "{first}")?;
    for item in items {
        write!(f, ",{item}")?;
    }
    Ok(())
}

/// The byte that a text says, or none where it says no number that fits.
fn byte(text: &str) -> Option<u8>
    ensures { SomeIff result (IsNumberBelow (2 ^ 8) text.now) (number_in text.now) }
{
    u8::try_from(digits(text)?).ok()
}

impl Part for u8 {
    fn part(text: &str) -> Option<u8> {
        byte(text)
    }
}

impl<'a> Words<'a> {
    /// The bytes that the next word says.
    pub fn bytes(&mut self) -> Result<Vec<u8>, Trouble<'a>>
        ensures { Takes self.old.left self.new.left ListOf result }
    {
        let word = self.word()?;
        list(self.heap, word)
    }
}

/// Bytes to be printed.
#[derive(Clone, Copy, Debug, PartialEq, Eq)]
pub struct Bytes<'a>(pub &'a [u8]);

impl<'a> fmt::Display for Bytes<'a> {
    fn fmt<W: fmt::Write>(&self, f: &mut fmt::Formatter<W>) -> fmt::Result {
        write_list(self.0.iter(), f)
    }
}
