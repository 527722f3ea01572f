//! Which states of a book's schema accept a tree, and which accept none: `schema NAME TABLES`.
use crate::domains::Book;
use crate::job::Task;
use notation::schemas::Tables;
use notation::sets::States;
use notation::trouble::Trouble;
use notation::words::Words;
use std::fmt;

/// The live and the dead states of a schema.
#[derive(Clone, Copy, Debug, PartialEq, Eq)]
pub struct Split {
    live: States,
    dead: States,
}

impl fmt::Display for Split {
    fn fmt<W: fmt::Write>(&self, f: &mut fmt::Formatter<W>) -> fmt::Result {
        write!(f, "live {}; dead {}", self.live, self.dead)
    }
}

/// The first so many states, at most 64, one a bit.
fn first(count: usize) -> u64 {
    if count < 64 {
        !(u64::MAX << count)
    } else {
        u64::MAX
    }
}

/// The live and the dead states of the schema of the next words.
fn live_and_dead<'a>(words: &mut Words<'a>) -> Result<Split, Trouble<'a>> {
    let tables: Tables<Book> = Tables::read(words)?;
    words.end()?;
    let schema = tables.schema();
    let live = api::live(&schema)?;
    Ok(Split {
        live: States(live),
        dead: States(first(schema.states) & !live),
    })
}

/// The task.
#[derive(Clone, Copy, Debug, PartialEq, Eq)]
pub struct Live;

impl Task for Live {
    type Outcome = Split;

    fn outcome<'a>(&mut self, kind: &'a str, words: &mut Words<'a>) -> Result<Split, Trouble<'a>> {
        match kind {
            "schema" => live_and_dead(words),
            _ => Err(Trouble::Unreadable(kind)),
        }
    }
}
