//! Whether trees keep to a book's schema: `schema NAME TABLES`, in force until the next, and `tree
//! NAME BYTES`.
use crate::domains::Book;
use crate::job::Task;
use notation::answers::Truth;
use notation::memory::{CHECK_LEVEL, filled};
use notation::schemas::Tables;
use notation::trouble::Trouble;
use notation::words::Words;
use std::fmt;

/// How many levels a tree may have.
const LEVELS: usize = 8;

/// What a line comes to.
#[derive(Clone, Copy, Debug, PartialEq, Eq)]
pub enum Outcome {
    /// The schema is in force.
    InForce,
    /// Whether the schema accepts the tree.
    Accepted(Truth),
}

impl fmt::Display for Outcome {
    fn fmt<W: fmt::Write>(&self, f: &mut fmt::Formatter<W>) -> fmt::Result {
        match self {
            Outcome::InForce => write!(f, "in force"),
            Outcome::Accepted(truth) => write!(f, "{truth}"),
        }
    }
}

/// The task, with the schema in force, where there is one.
#[derive(Drop)]
pub struct Trees {
    tables: Option<Tables<Book>>,
}

/// Whether the schema of the tables accepts the tree of the next word.
fn accepted<'a>(tables: &Tables<Book>, words: &mut Words<'a>) -> Result<bool, Trouble<'a>> {
    let tree = words.bytes()?;
    words.end()?;
    let mut levels = filled(words.heap, LEVELS, CHECK_LEVEL)?;
    Ok(api::check(&tables.schema(), tree.as_slice(), levels.as_mut_slice())?)
}

impl Trees {
    /// The task, with no schema in force.
    pub fn new() -> Trees {
        Trees { tables: None }
    }

    /// Puts the schema of the next words in force. Where they say none, none is in force.
    fn enforce<'a>(&mut self, words: &mut Words<'a>) -> Result<(), Trouble<'a>> {
        self.tables = None;
        let tables = Tables::read(words)?;
        words.end()?;
        self.tables = Some(tables);
        Ok(())
    }
}

impl Task for Trees {
    type Outcome = Outcome;

    fn outcome<'a>(
        &mut self,
        kind: &'a str,
        words: &mut Words<'a>,
    ) -> Result<Outcome, Trouble<'a>> {
        match (kind, &self.tables) {
            ("schema", _) => {
                self.enforce(words)?;
                Ok(Outcome::InForce)
            }
            ("tree", Some(tables)) => Ok(Outcome::Accepted(Truth(accepted(tables, words)?))),
            _ => Err(Trouble::Unreadable(kind)),
        }
    }
}
