//! Which states accept a finite tree, and their ranks. A round finds those that need only states
//! found before it.
ghost use Rattle.std.specs.Prelude.{◌≡◌, ℕ, ◌<◌, IfOk, if◌then◌else◌, Some, Decides, slice_get};
ghost use Rattle.bits.specs.Bits.{bit};
ghost use Rattle.domain.specs.Sets.{Smallest};
ghost use Rattle.schema.specs.Live.{FoundOver, NewlyFound, Ranked, LiveMask, RankMask};
ghost use Rattle.schema.specs.Outcome.{LiveAnswer, LiveLaws};
ghost use Rattle.schema.specs.Meaning.{IsState, meaning, meaning_over, states_of};
ghost use Rattle.schema.specs.Tables.{tables, sets, automaton_of};

use crate::tables::{STATES, Schema};
use crate::tested::Tested;
use bits::gathering::gather;
use bits::sets::has_member;
use domain::domain::Domain;
use refusal::fault::Refusal;

/// Every symbol is permitted.
pub const ALL_SYMBOLS: u64 = u64::MAX;

/// The live states, one a bit, and the rank of each; none for the others.
#[derive(Clone, Copy, Debug, PartialEq, Eq)]
pub struct Ranks {
    pub live: u64,
    pub rank: [Option<u8>; STATES],
}

/// Notes a number at each state of the set.
fn note(ranks: &mut [Option<u8>; STATES], states: u64, number: u8)
    ensures { (q : ℕ) → q < 64 →
        slice_get ranks.new q ≡
        (if bit states q then Some (Some number) else slice_get ranks.old q) }
{
    for (state, rank) in ranks.iter_mut().enumerate() {
        if has_member(states, state as u8) {
            *rank = Some(number);
        }
    }
}

impl<D: Domain> Tested<'_, D> {
    /// The least value that the state's domain has.
    pub fn least(&self, state: u8) -> Option<u32>
        ensures { Smallest ((meaning D.Domain.holds self.now).has state) result }
    {
        self.domain(state).and_then(|domain| domain.least())
    }

    /// Whether a state has a value and a sequence of permitted symbols into states of the set.
    fn is_found(&self, state: u8, live: u64, permitted: u64) -> bool
        ensures { IsState self.now state →
            Decides result
            (FoundOver (meaning_over permitted D.Domain.holds self.now) (bit live) state) }
    {
        let Some(_) = self.least(state) else {
            return false;
        };
        let symbols = self.symbols_into_over(state, live, permitted);
        self.has_sequence_from(state, 0, symbols)
    }

    /// Whether a state is not in the set yet, and is found over it.
    fn is_new(&self, state: u8, live: u64, permitted: u64) -> bool
        ensures { IsState self.now state →
            Decides result
            (NewlyFound (meaning_over permitted D.Domain.holds self.now) (bit live) state) }
    {
        !has_member(live, state) && self.is_found(state, live, permitted)
    }

    /// The states that a round over the set finds.
    fn round(&self, live: u64, permitted: u64) -> u64
        ensures { (q : ℕ) →
            Decides
            (bit result q)
            (IsState self.now q
            × NewlyFound (meaning_over permitted D.Domain.holds self.now) (bit live) q) }
    {
        gather(self.states() as u8, |state| {
            self.is_new(state, live, permitted)
        })
    }

    /// The states that are live over the permitted symbols, and the rank of each: the number of the
    /// round that finds it.
    pub fn ranks_over(&self, permitted: u64) -> Ranks
        ensures { Ranked
            (meaning_over permitted D.Domain.holds self.now) (states_of self.now) result.live
            result.rank }
    {
        let mut live = 0;
        let mut rank = [None; STATES];
        for round in 0..STATES as u8 {
            let found = self.round(live, permitted);
            if found == 0 {
                break;
            }
            note(&mut rank, found, round);
            live |= found;
        }
        Ranks { live, rank }
    }

    /// The live states, and the rank of each.
    pub fn ranks(&self) -> Ranks
        ensures { Ranked (meaning D.Domain.holds self.now) (states_of self.now)
            result.live result.rank }
    {
        self.ranks_over(ALL_SYMBOLS)
    }

    /// The states that are live over the permitted symbols, one a bit.
    pub fn live_over(&self, permitted: u64) -> u64
        ensures live { LiveMask
            (meaning_over permitted D.Domain.holds self.now) (states_of self.now) result }
        ensures ranks { RankMask
            (meaning_over permitted D.Domain.holds self.now) (states_of self.now) result }
    {
        self.ranks_over(permitted).live
    }

    /// The live states, one a bit.
    pub fn live_states(&self) -> u64
        ensures live { LiveMask (meaning D.Domain.holds self.now) (states_of self.now) result }
        ensures ranks { RankMask (meaning D.Domain.holds self.now) (states_of self.now) result }
    {
        self.ranks().live
    }
}

/// The states that accept a finite tree, as a mask: bit i for state i, and no bit past the states;
/// or the refusal of the tables.
#[tactic(auto, using(crate::proofs::Unique::live_laws))]
pub fn live<D: Domain>(schema: &Schema<D>) -> Result<u64, Refusal>
    ensures answer { LiveAnswer (tables schema.now) (sets D.Domain.holds schema.now) result }
    ensures ranks { IfOk result
        (RankMask (automaton_of D.Domain.holds schema.now) schema.now.states) }
    ensures laws { LiveLaws }
{
    let tested = Tested::new(schema)?;
    Ok(tested.live_states())
}
