//! Which states are kept: those that live symbols lead to from the start.
ghost use Rattle.std.specs.Prelude.{◌≡◌, true};
ghost use Rattle.bits.specs.Bits.{bit};
ghost use Rattle.schema.specs.Live.{LiveMask};
ghost use Rattle.schema.specs.Meaning.{meaning, meaning_over, states_of};
ghost use Rattle.schema.specs.Permitted.{permit};
ghost use Rattle.schema.specs.Rows.{AfterEdge};
ghost use Rattle.trim.specs.Kept.{KeptMask, LedTo};

use bits::gathering::gather_onto;
use bits::sets::{has_member, lowest_alone, with_member};
use domain::domain::Domain;
use schema::tested::Tested;

/// The state that a schema starts from.
pub(crate) const START: u8 = 0;

/// The state that a symbol leads to, where it is in the set.
fn state_after<D: Domain>(tested: &Tested<D>, state: u8, symbols: u64, symbol: u8) -> Option<u8>
    ensures { result ≡
        (permit (bit symbols) (meaning D.Domain.holds tested.now)).next state symbol }
{
    if has_member(symbols, symbol) {
        tested.next_state(state, symbol)
    } else {
        None
    }
}

/// The states of a set, and those that follow a state under the symbols of another set.
fn states_after<D: Domain>(tested: &Tested<D>, state: u8, symbols: u64, before: u64) -> u64
    ensures { AfterEdge (LedTo (meaning D.Domain.holds tested.now) (bit symbols))
        state before result }
{
    gather_onto(before, tested.symbols() as u8, |symbol| {
        state_after(tested, state, symbols, symbol)
    })
}

/// The states that live symbols among the permitted ones lead to from the start, which is live.
pub(crate) fn kept_states<D: Domain>(tested: &Tested<D>, live: u64, permitted: u64) -> u64
    ensures { LiveMask (meaning_over permitted D.Domain.holds tested.now)
        (states_of tested.now) live →
        bit live START ≡ true →
        KeptMask (meaning D.Domain.holds tested.now) (bit permitted) result }
{
    let mut reached = with_member(0, START);
    let mut done = 0;
    while let Some(state) = lowest_alone(reached, done) {
        done = with_member(done, state);
        let symbols = tested.live_symbols(state, live, permitted);
        reached = states_after(tested, state, symbols, reached);
    }
    reached
}
