//! Which symbols are live at a state: those that a sequence into live states holds.
ghost use Rattle.std.specs.Prelude.{◌≡◌, ℕ, ◌<◌, ◌&&◌, Decides};
ghost use Rattle.bits.specs.Bits.{bit};
ghost use Rattle.schema.specs.Automata.{passes};
ghost use Rattle.schema.specs.Below.{«some_below»};
ghost use Rattle.schema.specs.Live.{LiveMask, LiveSymbol};
ghost use Rattle.schema.specs.Rows.{Held, RunsOverFrom};
ghost use Rattle.schema.specs.Meaning.{IsState, meaning, meaning_over, states_of, tables_of};
ghost use Rattle.schema.specs.Tables.{row_count};

use crate::tested::Tested;
use bits::gathering::gather;
use bits::sets::has_member;
use domain::domain::Domain;

impl<D: Domain> Tested<'_, D> {
    /// The rows of the state from which a sequence over the set runs to a row where it may end.
    fn rows_ending(&self, state: u8, symbols: u64) -> u64
        ensures { IsState self.now state →
            (i : ℕ) →
            Decides
            (bit result i)
            ((i < row_count (tables_of self.now) state)
            × RunsOverFrom (meaning D.Domain.holds self.now) state (bit symbols) i) }
    {
        gather(self.measured.state_byte(state, 1), |row| {
            self.has_sequence_from(state, row, symbols)
        })
    }

    /// Whether the symbol leads from a row that was reached to one that goes on to an end.
    fn passes_row(&self, state: u8, row: u8, symbol: u8, reached: u64, ending: u64) -> bool
        ensures { result ≡
            (bit reached row && passes
            ((meaning D.Domain.holds self.now).step state row symbol) (bit ending)) }
    {
        has_member(reached, row)
            && self
                .next_row(state, row, symbol)
                .is_some_and(|next| has_member(ending, next))
    }

    /// Whether the symbol leads from some row that was reached to one that goes on to an end.
    fn passes_rows(&self, state: u8, symbol: u8, reached: u64, ending: u64) -> bool
        ensures { result ≡
            some_below
            (row_count (tables_of self.now) state)
            (λ i.
            bit reached i && passes
            ((meaning D.Domain.holds self.now).step state i symbol) (bit ending)) }
    {
        (0..self.measured.state_byte(state, 1)).any(|row| self.passes_row(
            state, row, symbol, reached, ending,
        ))
    }

    /// The symbols that some sequence over the set holds, from the first row to a row where it may
    /// end.
    pub fn symbols_held(&self, state: u8, symbols: u64) -> u64
        ensures { IsState self.now state →
            (a : ℕ) →
            Decides (bit result a) (Held (meaning D.Domain.holds self.now) state (bit symbols) a) }
    {
        let reached = self.rows_reached_from(state, 0, symbols);
        let ending = self.rows_ending(state, symbols);
        gather(self.symbols() as u8, |symbol| {
            has_member(symbols, symbol) && self.passes_rows(state, symbol, reached, ending)
        })
    }

    /// The symbols that are live at the state over the permitted ones, where the live states are
    /// given.
    pub fn live_symbols(&self, state: u8, live: u64, permitted: u64) -> u64
        ensures { IsState self.now state →
            LiveMask (meaning_over permitted D.Domain.holds self.now) (states_of self.now) live →
            (a : ℕ) →
            Decides
            (bit result a)
            (LiveSymbol (meaning_over permitted D.Domain.holds self.now) state a) }
    {
        self.symbols_held(state, self.symbols_into_over(state, live, permitted))
    }
}
