//! A schema with what is kept of it, and the bytes of its trimmed tables one by one.
ghost use Rattle.std.specs.Prelude.{◌≡◌, ◌^◌, ◌<◌, ◌≤◌, IfOk, IfErr};
ghost use Rattle.schema.specs.Tables.{row_count, end_mark};
ghost use Rattle.trim.specs.Trimmed.{state_bytes};
ghost use Rattle.trim.specs.Trimming.{TrimmingOf, NoneKept, old_tables, kept_of, new_number_of, rows_before_of, transition_stays_of, new_transition_of, new_entry_of, new_tables};

use crate::kept::{START, kept_states};
use bits::sets::{has_member, members_below};
use domain::domain::Domain;
use refusal::fault::{Fault, Refusal};
use schema::faults::NONE;
use schema::tables::STATE_BYTES;
use schema::tested::Tested;

/// A tested schema with what is kept of it: the permitted symbols and the kept states, one a bit
/// each.
#[derive(Drop)]
pub(crate) struct Trimming<'a, 'b, D> {
    tested: &'a Tested<'b, D>,
    permitted: u64,
    kept: u64,
}

impl<'a, 'b, D: Domain> Trimming<'a, 'b, D> {
    /// What trimming keeps, or `nothing` where no tree over the permitted symbols is accepted.
    pub(crate) fn new(tested: &'a Tested<'b, D>, permitted: u64) -> Result<Self, Refusal>
        ensures kept { IfOk result (λ t. TrimmingOf t D.Domain.holds tested.now permitted) }
        ensures nothing { IfErr result (λ e. NoneKept D.Domain.holds tested.now permitted e) }
    {
        let live = tested.live_over(permitted);
        if !has_member(live, START) {
            return Err(Fault::Nothing.at(0));
        }
        Ok(Trimming {
            tested,
            permitted,
            kept: kept_states(tested, live, permitted),
        })
    }
}

impl<D> Trimming<'_, '_, D> {
    /// How many symbols the schema has.
    pub(crate) fn symbols(&self) -> usize
        ensures { result ≡ (old_tables self.now).symbols }
    {
        self.tested.symbols()
    }

    /// How many states the schema has.
    pub(crate) fn states(&self) -> u8
        ensures { result ≡ (old_tables self.now).states }
    {
        self.tested.states() as u8
    }

    /// How many rows a state has.
    pub(crate) fn row_count(&self, state: u8) -> u8
        ensures { result ≡ row_count (old_tables self.now) state }
    {
        self.tested.measured.state_byte(state, 1)
    }

    /// The end mark of a row, which stays as it was.
    pub(crate) fn end_mark(&self, state: u8, row: u8) -> u8
        ensures { result ≡ end_mark (old_tables self.now) state row }
    {
        self.tested.measured.end_mark(state, row)
    }

    /// Whether a state is kept.
    pub(crate) fn keeps(&self, state: u8) -> bool
        ensures { result ≡ kept_of self.now state }
    {
        has_member(self.kept, state)
    }

    /// How many kept states come before a state.
    pub(crate) fn number(&self, state: u8) -> u8
        ensures { result ≡ new_number_of self.now state }
    {
        members_below(self.kept, state)
    }

    /// How many rows the kept states before a state have.
    pub(crate) fn rows_before(&self, state: u8) -> usize
        requires { state ≤ (old_tables self.now).states }
        ensures { result ≡ rows_before_of self.now state }
    {
        let mut rows = 0;
        for before in 0..state {
            if self.keeps(before) {
                rows += self.row_count(before) as usize;
            }
        }
        rows
    }

    /// How many states and how many rows the trimmed tables have.
    pub(crate) fn counts(&self) -> (usize, usize)
        ensures states { result.0 ≡ (new_tables self.now).states }
        ensures rows { result.1 ≡ (new_tables self.now).rows }
    {
        let states = self.states();
        (self.number(states) as usize, self.rows_before(states))
    }

    /// Whether the transition of a state under a symbol stays.
    fn does_stay(&self, state: u8, symbol: u8) -> bool
        ensures { result ≡ transition_stays_of self.now state symbol }
    {
        has_member(self.permitted, symbol)
            && has_member(
                self.kept,
                self.tested.measured.transition_byte(state, symbol),
            )
    }

    /// The transition in the trimmed table: renumbered, or 255.
    pub(crate) fn transition(&self, state: u8, symbol: u8) -> u8
        ensures { result ≡ new_transition_of self.now state symbol }
    {
        let next = self.tested.measured.transition_byte(state, symbol);
        if self.does_stay(state, symbol) {
            self.number(next)
        } else {
            NONE
        }
    }

    /// The row entry in the trimmed table: as it was, or 255.
    pub(crate) fn entry(&self, state: u8, row: u8, symbol: u8) -> u8
        ensures { result ≡ new_entry_of self.now state row symbol }
    {
        if !self.does_stay(state, symbol) {
            return NONE;
        }
        self.tested.measured.row_byte(state, row, symbol)
    }

    /// A state's four bytes: its domain number and row count as they were, and where its rows
    /// begin, low byte first.
    pub(crate) fn state_line(&self, state: u8, first: usize) -> [u8; STATE_BYTES]
        requires { first < 2 ^ 16 }
        ensures { result ≡ state_bytes (old_tables self.now) state first }
    {
        let domain = self.tested.measured.state_byte(state, 0);
        let [low, high] = (first as u16).to_le_bytes();
        [domain, self.row_count(state), low, high]
    }
}
