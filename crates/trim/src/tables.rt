//! The trimmed tables, written state by state.
ghost use Rattle.std.specs.Prelude.{◌≡◌, ◌+◌, ◌≤◌, length, true};
ghost use Rattle.trim.specs.Lent.{held, loans, LinesFit, with_lines};
ghost use Rattle.trim.specs.Outcome.{tables_fit, written};
ghost use Rattle.trim.specs.Trimming.{old_tables, rows_before_of, transition_line_of, row_line_of, row_lines_of, new_tables};

use crate::trimming::Trimming;
use schema::tables::STATE_BYTES;

/// The three outputs, as the caller lends them.
#[derive(Drop)]
pub(crate) struct Outputs<'a> {
    pub transitions: &'a mut [u8],
    pub states: &'a mut [u8],
    pub rows: &'a mut [u8],
}

impl<D> Trimming<'_, '_, D> {
    /// Writes a state's transitions.
    fn write_transitions(&self, state: u8, line: &mut [u8])
        requires { length line.old ≡ (old_tables self.now).symbols }
        ensures { line.new ≡ transition_line_of self.now state }
    {
        for (symbol, byte) in line.iter_mut().enumerate() {
            *byte = self.transition(state, symbol as u8);
        }
    }

    /// Writes a row: its end mark and its entries.
    fn write_row(&self, state: u8, row: u8, line: &mut [u8])
        requires { length line.old ≡ (old_tables self.now).symbols + 1 }
        ensures { line.new ≡ row_line_of self.now state row }
    {
        line[0] = self.end_mark(state, row);
        for (symbol, byte) in line[1..].iter_mut().enumerate() {
            *byte = self.entry(state, row, symbol as u8);
        }
    }

    /// Writes a state's rows, one after the other.
    fn write_rows(&self, state: u8, lines: &mut [u8])
        requires { length lines.old ≡ length (row_lines_of self.now state) }
        ensures { lines.new ≡ row_lines_of self.now state }
    {
        let width = self.symbols() + 1;
        // by index, since nothing is known of chunks once they are given back
        for row in 0..self.row_count(state) {
            let start = row as usize * width;
            self.write_row(state, row, &mut lines[start..start + width]);
        }
    }

    /// Writes the lines of a kept state at their places in the outputs; its rows begin at `first`.
    fn write_lines(&self, state: u8, first: usize, outputs: &mut Outputs)
        requires fit { LinesFit self.now state (held outputs.old) }
        requires begins { first ≡ rows_before_of self.now state }
        ensures lent { loans outputs.new ≡ loans outputs.old }
        ensures after { held outputs.new ≡ with_lines self.now state (held outputs.old) }
    {
        let symbols = self.symbols();
        let number = self.number(state) as usize;
        let start = number * symbols;
        self.write_transitions(state, &mut outputs.transitions[start..start + symbols]);
        let start = number * STATE_BYTES;
        outputs.states[start..start + STATE_BYTES].copy_from_slice(&self.state_line(state, first));
        let start = first * (symbols + 1);
        let length = self.row_count(state) as usize * (symbols + 1);
        self.write_rows(state, &mut outputs.rows[start..start + length]);
    }

    /// How long the trimmed tables are: the transitions, the states and the rows.
    fn lengths(&self) -> (usize, usize, usize)
        ensures transitions { result.0 ≡ length (new_tables self.now).transitions }
        ensures states { result.1 ≡ length (new_tables self.now).state_table }
        ensures rows { result.2 ≡ length (new_tables self.now).row_table }
    {
        let symbols = self.symbols();
        let (states, rows) = self.counts();
        (states * symbols, STATE_BYTES * states, rows * (symbols + 1))
    }

    /// Whether the trimmed tables have room in the outputs.
    pub(crate) fn has_room(&self, outputs: &Outputs) -> bool
        ensures { result ≡ tables_fit (new_tables self.now) (held outputs.now) }
    {
        let (transitions, states, rows) = self.lengths();
        transitions <= outputs.transitions.len()
            && states <= outputs.states.len()
            && rows <= outputs.rows.len()
    }

    /// Writes the trimmed tables at the fronts of the outputs, and gives their state count and row
    /// count.
    pub(crate) fn write_tables(&self, outputs: &mut Outputs) -> (usize, usize)
        requires { tables_fit (new_tables self.now) (held outputs.old) ≡ true }
        ensures states { result.0 ≡ (new_tables self.now).states }
        ensures rows { result.1 ≡ (new_tables self.now).rows }
        ensures lent { loans outputs.new ≡ loans outputs.old }
        ensures after { held outputs.new ≡ written (new_tables self.now) (held outputs.old) }
    {
        let states = self.states();
        let mut first = 0;
        for state in 0..states {
            if self.keeps(state) {
                self.write_lines(state, first, outputs);
                first += self.row_count(state) as usize;
            }
        }
        (self.number(states) as usize, first)
    }
}
