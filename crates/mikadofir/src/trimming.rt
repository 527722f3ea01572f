//! A book's schema over some of its symbols: `schema NAME SYMBOLS TABLES`.
use crate::domains::Book;
use crate::job::Task;
use notation::lists::Bytes;
use notation::memory::{Counts, Outputs};
use notation::schemas::Tables;
use notation::trouble::Trouble;
use notation::words::Words;
use std::fmt;

/// Room for the transitions of the most states, 64, under the most symbols, 32.
const TRANSITION_BYTES: usize = 64 * 32;

/// Room for the four bytes of each of 64 states.
const STATE_BYTES: usize = 64 * 4;

/// Room for 16 rows of each of 64 states, each with an end mark and 32 entries.
const ROW_BYTES: usize = 64 * 16 * 33;

/// A trimmed schema: its symbol count, its counts before and after, and its tables.
#[derive(Debug, Drop, PartialEq, Eq)]
pub struct Trimmed {
    symbols: usize,
    before: Counts,
    after: Counts,
    tables: Outputs,
}

impl fmt::Display for Trimmed {
    fn fmt<W: fmt::Write>(&self, f: &mut fmt::Formatter<W>) -> fmt::Result {
        let Counts { states, rows } = self.after;
        write!(f, "states {} to {states}, ", self.before.states)?;
        write!(f, "rows {} to {rows}: ", self.before.rows)?;
        write!(f, "{} {states} {rows} ", self.symbols)?;
        write!(f, "{} ", Bytes(self.tables.transitions.as_slice()))?;
        write!(f, "{} ", Bytes(self.tables.states.as_slice()))?;
        write!(f, "{}", Bytes(self.tables.rows.as_slice()))
    }
}

/// The schema of the next words, behind the symbols that it is trimmed to.
fn reduced<'a>(words: &mut Words<'a>) -> Result<Trimmed, Trouble<'a>> {
    let permitted = words.symbols()?;
    let read: Tables<Book> = Tables::read(words)?;
    words.end()?;
    let schema = read.schema();
    let mut tables = Outputs::new(words.heap, TRANSITION_BYTES, STATE_BYTES, ROW_BYTES, 0)?;
    let after = tables.trim(&schema, permitted)?;
    tables.shorten(schema.symbols, after);
    Ok(Trimmed {
        symbols: schema.symbols,
        before: Counts {
            states: schema.states,
            rows: schema.rows,
        },
        after,
        tables,
    })
}

/// The task.
#[derive(Clone, Copy, Debug, PartialEq, Eq)]
pub struct Trim;

impl Task for Trim {
    type Outcome = Trimmed;

    fn outcome<'a>(
        &mut self,
        kind: &'a str,
        words: &mut Words<'a>,
    ) -> Result<Trimmed, Trouble<'a>> {
        match kind {
            "schema" => reduced(words),
            _ => Err(Trouble::Unreadable(kind)),
        }
    }
}
