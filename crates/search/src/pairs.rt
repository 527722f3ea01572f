//! Pairs of a row and a watcher's state, as the search keeps them.
use crate::watcher::WATCHER_STATES;
use schema::faults::STATE_ROWS;

/// How many pairs there are at most: each row that a state can have with each state of a watcher.
pub const ROW_PAIRS: usize = STATE_ROWS as usize * WATCHER_STATES as usize;

/// A row of the state and a state of the watcher, the symbol that led to them, and the entry that
/// it led from.
// Numbers: the pairs lie in slots that the caller lends.
#[derive(Clone, Copy, Debug, PartialEq, Eq)]
pub struct RowPair {
    pub row: u8,
    pub watch: u8,
    pub symbol: u8,
    pub parent: u16,
}
