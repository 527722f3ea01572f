//! A schema that passed every test of its tables, and its automaton by look-up.
ghost use Rattle.std.specs.Prelude.{◌≡◌, ℕ, ◌^◌, ◌<◌, Bool, false, List, Some, MatchOption, MatchResult};
ghost use Rattle.std.specs.Slice.{IsItemAt};
ghost use Rattle.domain.specs.Sets.{Empty};
ghost use Rattle.schema.specs.Tables.{entry, tables, domain_number, automaton};
ghost use Rattle.schema.specs.Faults.{faulty, table_fault, either_fault};

use crate::faults::NONE;
use crate::measured::Measured;
use crate::tables::Schema;
use domain::domain::Domain;
use refusal::fault::{Fault, Refusal};

/// A schema whose tables have no fault.
#[derive(Drop)]
pub struct Tested<'a, D> {
    pub measured: Measured<'a, D>,
    ghost sound: { faulty (tables measured.schema) ≡ false },
}

/// What an entry says: a number, or none.
fn known(byte: u8) -> Option<u8>
    ensures { result ≡ entry byte }
{
    (byte != NONE).then_some(byte)
}

impl<'a, D> Tested<'a, D> {
    ghost use Rattle.schema.specs.Meaning.{states_of, symbols_of, tables_of};

    /// The schema, tested for `size`, `state`, `row` and `domain` in that order.
    pub fn new(schema: &Schema<'a, D>) -> Result<Tested<'a, D>, Refusal>
        ensures { MatchResult result
            (λ t. t.measured.schema ≡ schema.now)
            (λ e. table_fault (tables schema.now) ≡ Some e) }
    {
        let measured = Measured::new(schema)?;
        measured.first_fault(Fault::State)?;
        measured.first_fault(Fault::Row)?;
        measured.first_fault(Fault::Domain)?;
        Ok(Tested { measured })
    }

    /// Two schemas, each test of the first before the same of the second, and that before the next.
    pub fn both<'b>(
        first: &Schema<'a, D>,
        second: &Schema<'b, D>,
    ) -> Result<(Tested<'a, D>, Tested<'b, D>), Refusal>
        ensures { MatchResult result
            (λ t. (t.0.measured.schema ≡ first.now) × (t.1.measured.schema ≡ second.now))
            (λ e. either_fault (tables first.now) (tables second.now) ≡ Some e) }
    {
        let first = Measured::new(first)?;
        let second = Measured::new(second)?;
        first.either_fault(&second, Fault::State)?;
        first.either_fault(&second, Fault::Row)?;
        first.either_fault(&second, Fault::Domain)?;
        Ok((Tested { measured: first }, Tested { measured: second }))
    }

    /// How many symbols the schema has.
    pub fn symbols(&self) -> usize
        ensures { result ≡ symbols_of self.now }
    {
        self.measured.schema.symbols
    }

    /// How many states the schema has.
    pub fn states(&self) -> usize
        ensures { result ≡ states_of self.now }
    {
        self.measured.schema.states
    }

    /// The state under a symbol.
    pub fn next_state(&self, state: u8, symbol: u8) -> Option<u8>
        ensures { (ds : List (ℕ → Bool)) →
            result ≡ (automaton (tables_of self.now) ds).next state symbol }
    {
        if (symbol as usize) < self.measured.schema.symbols {
            known(self.measured.transition_byte(state, symbol))
        } else {
            None
        }
    }

    /// The row after a row under a symbol.
    pub fn next_row(&self, state: u8, row: u8, symbol: u8) -> Option<u8>
        ensures { (ds : List (ℕ → Bool)) →
            result ≡ (automaton (tables_of self.now) ds).step state row symbol }
    {
        if (symbol as usize) < self.measured.schema.symbols {
            known(self.measured.row_byte(state, row, symbol))
        } else {
            None
        }
    }

    /// Whether a sequence may end at a row.
    pub fn may_end(&self, state: u8, row: u8) -> bool
        ensures { (ds : List (ℕ → Bool)) →
            result ≡ (automaton (tables_of self.now) ds).ends state row }
    {
        self.measured.end_mark(state, row) == 1
    }
}

impl<D: Domain> Tested<'_, D> {
    ghost use Rattle.schema.specs.Meaning.{meaning, tables_of};

    /// The domain with the state's number.
    pub fn domain(&self, state: u8) -> Option<&D>
        ensures listed { IsItemAt self.now.measured.schema.domains.now
            (domain_number (tables_of self.now) state) result }
        ensures values { MatchOption result
            (Empty ((meaning D.Domain.holds self.now).has state))
            (λ d.
            (v : ℕ) → v < 2 ^ 32 →
            D.Domain.holds d.now v ≡ (meaning D.Domain.holds self.now).has state v) }
    {
        self.measured
            .schema
            .domains
            .get(self.measured.state_byte(state, 0) as usize)
    }

    /// Whether the state's domain has a value.
    pub fn has(&self, state: u8, value: u32) -> bool
        ensures { result ≡ (meaning D.Domain.holds self.now).has state value }
    {
        self.domain(state).is_some_and(|domain| domain.has(value))
    }
}
