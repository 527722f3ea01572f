//! A schema whose counts and table lengths fit, and the bytes of its tables by what they are for.
ghost use Rattle.std.specs.Prelude.{◌≡◌, ◌^◌, ◌<◌, false, Some, MatchResult, slice_index_or};
ghost use Rattle.schema.specs.Tables.{tables, transition_byte, state_byte, first_row, row_start, «end_mark», row_byte};
ghost use Rattle.schema.specs.Faults.{size_wrong, size_fault};

use crate::faults::NONE;
use crate::tables::{STATE_BYTES, Schema};
use refusal::fault::{Fault, Refusal};

/// A schema that passed the test of its counts and lengths.
#[derive(Drop)]
pub struct Measured<'a, D> {
    pub schema: Schema<'a, D>,
    ghost sized: { size_wrong (tables schema) ≡ false },
}

/// The byte at an index of a table, or another one past its end.
fn byte_at(table: &[u8], index: usize, other: u8) -> u8
    ensures { result ≡ slice_index_or table.now index other }
{
    table.get(index).copied().unwrap_or(other)
}

impl<'a, D> Measured<'a, D> {
    /// The schema, tested for `size`.
    pub fn new(schema: &Schema<'a, D>) -> Result<Measured<'a, D>, Refusal>
        ensures { MatchResult result
            (λ m. m.schema ≡ schema.now) (λ e. size_fault (tables schema.now) ≡ Some e) }
    {
        if schema.counts_fit() && schema.lengths_fit() {
            Ok(Measured { schema: *schema })
        } else {
            Err(Fault::Size.at(0))
        }
    }

    /// The transition of a state under a symbol: a state, or 255 for none.
    pub fn transition_byte(&self, state: u8, symbol: u8) -> u8
        ensures { result ≡ transition_byte (tables self.now.schema) state symbol }
    {
        byte_at(
            self.schema.transitions,
            state as usize * self.schema.symbols + symbol as usize,
            NONE,
        )
    }

    /// One of the four bytes of a state.
    pub fn state_byte(&self, state: u8, index: u8) -> u8
        ensures { result ≡ state_byte (tables self.now.schema) state index }
    {
        byte_at(
            self.schema.state_table,
            STATE_BYTES * state as usize + index as usize,
            0,
        )
    }

    /// The state's first row in the row table.
    pub fn first_row(&self, state: u8) -> usize
        ensures value { result ≡ first_row (tables self.now.schema) state }
        ensures small { result < 2 ^ 16 }
    {
        self.state_byte(state, 2) as usize + 256 * self.state_byte(state, 3) as usize
    }

    /// Where a row of the state begins in the row table.
    fn row_start(&self, state: u8, row: u8) -> usize
        ensures value { result ≡ row_start (tables self.now.schema) state row }
        ensures small { result < 2 ^ 32 }
    {
        (self.first_row(state) + row as usize) * (self.schema.symbols + 1)
    }

    /// The end mark of a row: 1 where a sequence may end.
    pub fn end_mark(&self, state: u8, row: u8) -> u8
        ensures { result ≡ end_mark (tables self.now.schema) state row }
    {
        byte_at(self.schema.row_table, self.row_start(state, row), 0)
    }

    /// The entry of a row under a symbol: the next row, or 255 for none.
    pub fn row_byte(&self, state: u8, row: u8, symbol: u8) -> u8
        ensures { result ≡ row_byte (tables self.now.schema) state row symbol }
    {
        byte_at(
            self.schema.row_table,
            self.row_start(state, row) + 1 + symbol as usize,
            NONE,
        )
    }
}
