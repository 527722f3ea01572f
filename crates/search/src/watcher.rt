//! Watchers: each reads a sequence symbol by symbol, and says whether it wants what it has read.
ghost use Rattle.std.specs.Prelude.{◌≡◌, ℕ, ◌≤◌};
ghost use Rattle.search.specs.declared.watcher.TheConstants.{WATCHER_STATES};
ghost use Rattle.search.specs.Watching.{Watching, WatcherStatesBelow};

use schema::faults::STATE_ROWS;

/// How many states a watcher has at most: one for each row that a state of a schema can have, and
/// one more.
pub const WATCHER_STATES: u8 = STATE_ROWS + 1;

/// A small machine over symbols, with states below WATCHER_STATES.
pub trait Watcher {
    // the machine
    ghost watching: { Self → Watching };

    // how many states it has
    ghost states: { ℕ };

    /// The state before the first symbol.
    fn start(&self) -> u8
        ensures { result ≡ (watching self.now).start };

    /// The state after one symbol more.
    fn after(&self, state: u8, symbol: u8) -> u8
        ensures { result ≡ (watching self.now).after state symbol };

    /// Whether a sequence that leads to the state is wanted.
    fn wants(&self, state: u8) -> bool
        ensures { result ≡ (watching self.now).wants state };

    // its states are numbered from 0
    ghost low: { (w : Self) → WatcherStatesBelow states (watching w) };

    // they are WATCHER_STATES at most
    ghost few: { states ≤ WATCHER_STATES };
}
