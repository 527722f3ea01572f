//! Sets of small numbers as text, `0,3,7` and `-` for none: symbols and keywords as they are read,
//! states as they are printed.
ghost use Rattle.std.specs.Prelude.{◌^◌, ◌<◌, Some};
ghost use Rattle.std.specs.Option.{SomeIff};
ghost use Rattle.notation.specs.Words.{Takes, IsNumberBelow, number_in};
ghost use Rattle.notation.specs.Sets.{SetOf};

use crate::lists::write_list;
use crate::trouble::Trouble;
use crate::words::{Words, digits, word};
use std::fmt;
use std::str::SplitWhitespace;

/// The set of this number alone, or none where no bit stands for it.
fn bit(member: u32) -> Option<u64>
    ensures { SomeIff result (member < u64.BITS) (2 ^ member) }
{
    1u64.checked_shl(member)
}

/// The set of the number alone that a text says, or none where it says no number that a bit stands
/// for.
fn member(text: &str) -> Option<u64>
    ensures { SomeIff result (IsNumberBelow u64.BITS text.now) (2 ^ number_in text.now) }
{
    bit(digits(text)?)
}

/// The numbers that a word says, one a bit. A number may stand in it more than once.
// read without memory, so that only the word itself can refuse a set
pub fn members(word: &str) -> Result<u64, Trouble<'_>>
    ensures { SetOf (Some word.entry) result }
{
    if word == "-" {
        return Ok(0);
    }
    word.split(',')
        .try_fold(0, |bits, text| Some(bits | member(text)?))
        .ok_or(Trouble::Unreadable(word))
}

/// The symbols that the next word of what is left of a line says, one a bit: numbers below 32.
pub fn symbols<'a>(left: &mut SplitWhitespace<'a>) -> Result<u32, Trouble<'a>>
    ensures { Takes left.old left.new SetOf result }
{
    let word = word(left)?;
    u32::try_from(members(word)?)
        .ok()
        .ok_or(Trouble::Unreadable(word))
}

impl<'a> Words<'a> {
    /// The symbols that the next word says, one a bit: numbers below 32.
    pub fn symbols(&mut self) -> Result<u32, Trouble<'a>>
        ensures { Takes self.old.left self.new.left SetOf result }
    {
        symbols(&mut self.left)
    }
}

/// A set of states, one a bit.
#[derive(Clone, Copy, Debug, PartialEq, Eq)]
pub struct States(pub u64);

impl fmt::Display for States {
    fn fmt<W: fmt::Write>(&self, f: &mut fmt::Formatter<W>) -> fmt::Result {
        let states = self.0;
        let is_in = |state: &u32| bit(*state).is_some_and(|bit| states & bit != 0);
        write_list((0..u64::BITS).filter(is_in), f)
    }
}
