//! Schemas as text: `SYMBOLS STATES ROWS TRANSITIONS STATES ROWS DOMAINS`, three counts, three
//! tables, and the domains behind their count.
ghost use Rattle.std.specs.Prelude.{◌≡◌};

use crate::domains::FromWords;
use crate::trouble::Trouble;
use crate::words::Words;
use api::Schema;

/// The counts, tables and domains that a text said. Whether they make a schema is not asked.
#[derive(Debug, Drop, PartialEq, Eq)]
pub struct Tables<D> {
    symbols: usize,
    states: usize,
    rows: usize,
    transitions: Vec<u8>,
    state_table: Vec<u8>,
    row_table: Vec<u8>,
    domains: Vec<D>,
}

/// The domains that the next words say, behind their count.
fn domains<'a, D: FromWords>(words: &mut Words<'a>) -> Result<Vec<D>, Trouble<'a>> {
    let heap = words.heap;
    (0..words.number()?)
        .map(|_| D::read(words))
        .try_collect(heap)
}

impl<D: FromWords> Tables<D> {
    /// What the next words say. They alone are taken, however many follow.
    pub fn read<'a>(words: &mut Words<'a>) -> Result<Tables<D>, Trouble<'a>> {
        Ok(Tables {
            symbols: words.number()? as usize,
            states: words.number()? as usize,
            rows: words.number()? as usize,
            transitions: words.bytes()?,
            state_table: words.bytes()?,
            row_table: words.bytes()?,
            domains: domains(words)?,
        })
    }
}

impl<D> Tables<D> {
    /// The schema that these lend.
    pub fn schema(&self) -> Schema<'_, D>
        ensures symbols { result.symbols ≡ self.now.symbols }
        ensures states { result.states ≡ self.now.states }
        ensures rows { result.rows ≡ self.now.rows }
        ensures transitions { result.transitions.now ≡ self.now.transitions.items }
        ensures state_table { result.state_table.now ≡ self.now.state_table.items }
        ensures row_table { result.row_table.now ≡ self.now.row_table.items }
        ensures domains { result.domains.now ≡ self.now.domains.items }
    {
        Schema {
            symbols: self.symbols,
            states: self.states,
            rows: self.rows,
            transitions: self.transitions.as_slice(),
            state_table: self.state_table.as_slice(),
            row_table: self.row_table.as_slice(),
            domains: self.domains.as_slice(),
        }
    }
}
