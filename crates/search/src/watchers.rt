//! The watchers: for any sequence, for one that holds a symbol, and for one that a state of another
//! schema refuses.
ghost use Rattle.std.specs.Prelude.{◌≡◌, ℕ, ◌<◌, not, List, Decides};
ghost use Rattle.std.proofs.Common.{lit≤};
ghost use Rattle.schema.specs.Automata.{allowed};
ghost use Rattle.schema.specs.Meaning.{IsState, meaning};
ghost use Rattle.search.specs.declared.watcher.TheConstants.{WATCHER_STATES};
ghost use Rattle.search.specs.Watching.{wanted, anything, anything_low, holding, holding_low, Holds, refusing, refusing_low, row_or_gone};

use crate::watcher::Watcher;
use domain::domain::Domain;
use schema::faults::STATE_ROWS;
use schema::tested::Tested;

/// Wants every sequence.
#[derive(Clone, Copy, Debug, PartialEq, Eq)]
pub struct Anything;

impl Watcher for Anything {
    ghost watching = { λ _. anything };

    ghost states = { 1 };

    ghost low = { λ _. anything_low };

    ghost few = { lit≤ tt };

    fn start(&self) -> u8 {
        0
    }

    fn after(&self, _state: u8, _symbol: u8) -> u8 {
        0
    }

    fn wants(&self, _state: u8) -> bool {
        true
    }
}

/// Wants the sequences that hold a symbol.
#[derive(Clone, Copy, Debug, PartialEq, Eq)]
pub struct Holding {
    symbol: u8,
}

impl Holding {
    /// A watcher for the sequences that hold the symbol.
    pub fn new(symbol: u8) -> Holding
        ensures is { result.symbol ≡ symbol }
        ensures means { (w : List ℕ) → Decides (wanted (holding result.symbol) w) (Holds symbol w) }
    {
        Holding { symbol }
    }
}

impl Watcher for Holding {
    ghost watching = { λ h. holding h.symbol };

    ghost states = { 2 };

    ghost low = { λ h. holding_low h.symbol };

    ghost few = { lit≤ tt };

    fn start(&self) -> u8 {
        0
    }

    fn after(&self, state: u8, symbol: u8) -> u8 {
        if state == 1 || symbol == self.symbol {
            1
        } else {
            0
        }
    }

    fn wants(&self, state: u8) -> bool {
        state == 1
    }
}

/// The state of a watcher that has no row any more.
// A number: a watcher's state is a bit of the search's masks and a byte of the pairs.
const GONE: u8 = STATE_ROWS;

/// The next row, where there is a next state too, or gone.
fn row_there(row: Option<u8>, state: Option<u8>) -> u8
    ensures { result ≡ row_or_gone row state }
{
    match (row, state) {
        (Some(row), Some(_)) => row.min(GONE),
        _ => GONE,
    }
}

/// Wants the sequences that are not allowed at a state of a schema.
#[derive(Drop)]
pub struct Refused<'a, 'b, D> {
    tested: &'a Tested<'b, D>,
    state: u8,
}

impl<'a, 'b, D: Domain> Refused<'a, 'b, D> {
    /// A watcher for the sequences that are not allowed at the state.
    pub fn new(tested: &'a Tested<'b, D>, state: u8) -> Refused<'a, 'b, D>
        ensures schema { result.tested.now ≡ tested.now }
        ensures at { result.state ≡ state }
        ensures means { IsState tested.now state →
            (w : List ℕ) →
            wanted (refusing (meaning D.Domain.holds result.tested.now) result.state) w ≡
            not (allowed (meaning D.Domain.holds tested.now) state w) }
    {
        Refused { tested, state }
    }
}

impl<D: Domain> Watcher for Refused<'_, '_, D> {
    ghost watching = { λ r. refusing (meaning D.Domain.holds r.tested.now) r.state };

    ghost states = { WATCHER_STATES };

    ghost low = { λ r. refusing_low (meaning D.Domain.holds r.tested.now) r.state };

    ghost few = { lit≤ tt };

    fn start(&self) -> u8 {
        0
    }

    fn after(&self, state: u8, symbol: u8) -> u8 {
        if state >= GONE {
            return GONE;
        }
        row_there(
            self.tested.next_row(self.state, state, symbol),
            self.tested.next_state(self.state, symbol),
        )
    }

    fn wants(&self, state: u8) -> bool {
        state >= GONE || !self.tested.may_end(self.state, state)
    }
}
