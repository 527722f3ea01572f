//! The tests of what the tables hold: transitions, rows and domain numbers, state by state.
ghost use Rattle.std.specs.Prelude.{◌≡◌};
ghost use Rattle.refusal.specs.Order.{Refuses};
ghost use Rattle.schema.specs.Tables.{tables};
ghost use Rattle.schema.specs.Faults.{stray, state_wrong, entries_wrong, line_wrong, lines_wrong, row_wrong, wrong_at, at_lowest, either_at_lowest};

use crate::measured::Measured;
use refusal::fault::{Fault, Refusal};

/// The most rows that a state has.
pub const STATE_ROWS: u8 = 16;

/// The entry that says none.
// A number, since the format of the tables fixes it; `Tested` answers options.
pub const NONE: u8 = 255;

/// Whether an entry is neither 255 nor below the limit.
fn is_stray(limit: usize, entry: u8) -> bool
    ensures { result ≡ stray limit entry }
{
    entry != NONE && entry as usize >= limit
}

impl<D> Measured<'_, D> {
    /// Whether a transition of the state is neither 255 nor a state.
    fn transitions_are_wrong(&self, state: u8) -> bool
        ensures { result ≡ state_wrong (tables self.now.schema) state }
    {
        (0..self.schema.symbols).any(|symbol| {
            is_stray(
                self.schema.states,
                self.transition_byte(state, symbol as u8),
            )
        })
    }

    /// Whether an entry of a row is neither 255 nor one of the state's rows.
    fn entries_are_wrong(&self, state: u8, row: u8) -> bool
        ensures { result ≡ entries_wrong (tables self.now.schema) state row }
    {
        let count = self.state_byte(state, 1) as usize;
        (0..self.schema.symbols).any(|symbol| is_stray(
            count,
            self.row_byte(state, row, symbol as u8),
        ))
    }

    /// Whether a row has a wrong end mark or entry.
    fn line_is_wrong(&self, state: u8, row: u8) -> bool
        ensures { result ≡ line_wrong (tables self.now.schema) state row }
    {
        self.end_mark(state, row) > 1 || self.entries_are_wrong(state, row)
    }

    /// Whether one of the state's rows is wrong.
    fn lines_are_wrong(&self, state: u8) -> bool
        ensures { result ≡ lines_wrong (tables self.now.schema) state }
    {
        (0..self.state_byte(state, 1)).any(|row| self.line_is_wrong(state, row))
    }

    /// Whether the state's row count or first row is out of range, or one of its rows is wrong.
    fn rows_are_wrong(&self, state: u8) -> bool
        ensures { result ≡ row_wrong (tables self.now.schema) state }
    {
        let count = self.state_byte(state, 1);
        !(1..=STATE_ROWS).contains(&count)
            || self.schema.rows < self.first_row(state) + count as usize
            || self.lines_are_wrong(state)
    }

    /// Whether the state has the fault.
    fn is_wrong(&self, fault: Fault, state: u8) -> bool
        ensures { result ≡ wrong_at (tables self.now.schema) fault state }
    {
        match fault {
            Fault::State => self.transitions_are_wrong(state),
            Fault::Row => self.rows_are_wrong(state),
            Fault::Domain => self.schema.domains.len() <= self.state_byte(state, 0) as usize,
            _ => false,
        }
    }

    /// The test for a fault of states: refused for the lowest state that has it.
    pub fn first_fault(&self, fault: Fault) -> Result<(), Refusal>
        ensures { Refuses (at_lowest (tables self.now.schema) fault) result }
    {
        match (0..self.schema.states).find(|state| self.is_wrong(fault, *state as u8)) {
            Some(state) => Err(fault.at(state)),
            None => Ok(()),
        }
    }

    /// The test for a fault of this schema's states, and then of the other's.
    pub(crate) fn either_fault(&self, other: &Measured<D>, fault: Fault) -> Result<(), Refusal>
        ensures { Refuses
            (either_at_lowest (tables self.now.schema) (tables other.now.schema) fault) result }
    {
        self.first_fault(fault)?;
        other.first_fault(fault)
    }
}
