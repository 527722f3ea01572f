//! Why a text came to nothing: it says nothing that is read there, what it says is refused, or
//! memory is gone.
ghost use Rattle.std.specs.Prelude.{◌≡◌};
ghost use Rattle.notation.specs.declared.trouble.Trouble.TheVariants.{Memory, Refused};

use api::Refusal;
use std::alloc::{AllocError, AllocFailed};
use std::error::Error;
use std::fmt;

/// What kept a text from being read.
#[derive(Clone, Copy, Debug, PartialEq, Eq)]
pub enum Trouble<'a> {
    /// This word is not of the form that is read there.
    Unreadable(&'a str),
    /// The text ends where another word is wanted.
    Ended,
    /// The text is of the right form, and the call on what it says was refused.
    Refused(Refusal),
    /// There is no memory for what the text says.
    Memory,
}

impl<'a> From<Refusal> for Trouble<'a> {
    ghost from_gives = { λ refusal e. e ≡ Refused refusal };

    fn from(refusal: Refusal) -> Trouble<'a> {
        Trouble::Refused(refusal)
    }
}

impl<'a, T: Drop> From<AllocFailed<T>> for Trouble<'a> {
    ghost from_gives = { λ _ e. e ≡ Memory };

    fn from(_error: AllocFailed<T>) -> Trouble<'a> {
        Trouble::Memory
    }
}

impl<'a> From<AllocError> for Trouble<'a> {
    ghost from_gives = { λ _ e. e ≡ Memory };

    fn from(_error: AllocError) -> Trouble<'a> {
        Trouble::Memory
    }
}

impl<'a> fmt::Display for Trouble<'a> {
    fn fmt<W: fmt::Write>(&self, f: &mut fmt::Formatter<W>) -> fmt::Result {
        match self {
            Trouble::Unreadable(word) => write!(f, "unreadable {word}"),
            Trouble::Ended => write!(f, "unreadable, a word is missing"),
            Trouble::Refused(refusal) => write!(f, "refused {refusal}"),
            Trouble::Memory => write!(f, "no memory"),
        }
    }
}

impl<'a> Error for Trouble<'a> {}
