//! Which rows of a state the sequences over a set of symbols lead to, and whether one of them may
//! end.
ghost use Rattle.std.specs.Prelude.{◌≡◌, ℕ, ◌<◌, ◌&&◌, if◌then◌else◌, None, Decides};
ghost use Rattle.bits.specs.Bits.{bit};
ghost use Rattle.schema.specs.Automata.{passes};
ghost use Rattle.schema.specs.Rows.{After, RowsReached, RowsReachedFrom, RunsOver, RunsOverFrom};
ghost use Rattle.schema.specs.Meaning.{IsState, meaning, meaning_over, tables_of};
ghost use Rattle.schema.specs.Tables.{row_count};

use crate::tested::Tested;
use bits::gathering::{gather, gather_onto};
use bits::sets::{has_member, lowest_alone, with_member};
use domain::domain::Domain;

impl<D: Domain> Tested<'_, D> {
    /// Whether a symbol leads into a set of states.
    fn leads_into(&self, state: u8, symbol: u8, states: u64) -> bool
        ensures { result ≡
            passes ((meaning D.Domain.holds self.now).next state symbol) (bit states) }
    {
        self.next_state(state, symbol)
            .is_some_and(|next| has_member(states, next))
    }

    /// The symbols that lead from the state into a set of states.
    pub fn symbols_into(&self, state: u8, states: u64) -> u64
        ensures { (a : ℕ) →
            bit result a ≡ passes ((meaning D.Domain.holds self.now).next state a) (bit states) }
    {
        gather(self.symbols() as u8, |symbol| {
            self.leads_into(state, symbol, states)
        })
    }

    /// The permitted symbols that lead from the state into a set of states. No other is looked up.
    pub fn symbols_into_over(&self, state: u8, states: u64, permitted: u64) -> u64
        ensures { (a : ℕ) →
            bit result a ≡
            passes
            ((meaning_over permitted D.Domain.holds self.now).next state a)
            (bit states) }
    {
        gather(self.symbols() as u8, |symbol| {
            has_member(permitted, symbol) && self.leads_into(state, symbol, states)
        })
    }

    /// The row after a row under a symbol, where the symbol is in the set.
    fn row_after(&self, state: u8, row: u8, symbols: u64, symbol: u8) -> Option<u8>
        ensures { result ≡
            (if bit symbols symbol then
            (meaning D.Domain.holds self.now).step state row symbol else None) }
    {
        if has_member(symbols, symbol) {
            self.next_row(state, row, symbol)
        } else {
            None
        }
    }

    /// The rows reached before, and those that follow a row under the symbols of the set.
    fn rows_after(&self, state: u8, row: u8, symbols: u64, before: u64) -> u64
        ensures { After (meaning D.Domain.holds self.now) state (bit symbols) row before result }
    {
        gather_onto(before, self.symbols() as u8, |symbol| {
            self.row_after(state, row, symbols, symbol)
        })
    }

    /// The rows that sequences over the set lead to from a row of the state; its first row is 0.
    pub fn rows_reached_from(&self, state: u8, from: u8, symbols: u64) -> u64
        ensures any_row { IsState self.now state →
            from < row_count (tables_of self.now) state →
            RowsReachedFrom (meaning D.Domain.holds self.now) state (bit symbols) from result }
        ensures first_row { IsState self.now state →
            from ≡ 0 →
            RowsReached (meaning D.Domain.holds self.now) state (bit symbols) result }
    {
        let mut reached = with_member(0, from);
        let mut done = 0;
        // a work list: the set grows while the loop goes over it
        while let Some(row) = lowest_alone(reached, done) {
            done = with_member(done, row);
            reached = self.rows_after(state, row, symbols, reached);
        }
        reached
    }

    /// Whether a row was reached and a sequence may end there.
    fn ends_at(&self, state: u8, row: u8, reached: u64) -> bool
        ensures { result ≡ (bit reached row && (meaning D.Domain.holds self.now).ends state row) }
    {
        has_member(reached, row) && self.may_end(state, row)
    }

    /// Whether some sequence over the set runs from a row of the state to a row where it may end;
    /// its first row is 0.
    pub fn has_sequence_from(&self, state: u8, from: u8, symbols: u64) -> bool
        ensures any_row { IsState self.now state →
            from < row_count (tables_of self.now) state →
            Decides result
            (RunsOverFrom (meaning D.Domain.holds self.now) state (bit symbols) from) }
        ensures first_row { IsState self.now state →
            from ≡ 0 →
            Decides result (RunsOver (meaning D.Domain.holds self.now) state (bit symbols)) }
    {
        let reached = self.rows_reached_from(state, from, symbols);
        (0..self.measured.state_byte(state, 1)).any(|row| self.ends_at(state, row, reached))
    }
}
