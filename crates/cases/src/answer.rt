//! What a case comes to, and how it is printed.
use crate::reply::{Reply, left};
use api::Refusal;
use notation::answers::Truth;
use notation::lists::Bytes;
use notation::memory::{Counts, Outputs};
use notation::sets::States;
use std::fmt;

/// The answer to a case.
#[derive(Debug, Drop, PartialEq, Eq)]
pub enum Answer {
    /// The letters that a number stands for.
    Word(&'static str),
    /// What was asked for was made.
    Taken,
    /// What was said is known to the cases after it.
    Read,
    /// Whether something holds.
    Truth(bool),
    /// A value, or none.
    Value(Option<u32>),
    /// States, one a bit.
    States(u64),
    /// A trimmed schema's counts, and the outputs with its tables.
    Trimmed(Counts, Outputs),
    /// Why a schema was not trimmed, and whether the outputs are as they were.
    Untrimmed { refusal: Refusal, as_found: bool },
    /// What a call on an area came to.
    Called(Reply),
}

/// Prints the three outputs, each whole.
fn print_outputs<W: fmt::Write>(outputs: &Outputs, f: &mut fmt::Formatter<W>) -> fmt::Result {
    write!(f, "{}; ", Bytes(outputs.transitions.as_slice()))?;
    write!(f, "{}; ", Bytes(outputs.states.as_slice()))?;
    write!(f, "{}", Bytes(outputs.rows.as_slice()))
}

impl fmt::Display for Answer {
    fn fmt<W: fmt::Write>(&self, f: &mut fmt::Formatter<W>) -> fmt::Result {
        match self {
            Answer::Word("") => write!(f, "no letters"),
            Answer::Word(letters) => write!(f, "{letters}"),
            Answer::Taken => write!(f, "taken"),
            Answer::Read => write!(f, "read"),
            Answer::Truth(truth) => write!(f, "{}", Truth(*truth)),
            Answer::Value(Some(value)) => write!(f, "{value}"),
            Answer::Value(None) => write!(f, "none"),
            Answer::States(0) => write!(f, "no states"),
            Answer::States(states) => write!(f, "states {}", States(*states)),
            Answer::Trimmed(counts, outputs) => {
                write!(f, "{} states, {} rows; ", counts.states, counts.rows)?;
                print_outputs(outputs, f)
            }
            Answer::Untrimmed { refusal, as_found } => {
                write!(f, "refused {refusal}; outputs {}", left(*as_found))
            }
            Answer::Called(reply) => write!(f, "{reply}"),
        }
    }
}
