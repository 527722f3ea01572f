//! Which pairs are listed: a mask of the watcher's states for each row.
ghost use Rattle.std.specs.Prelude.{◌≡◌, ℕ, ◌<◌, false, ◌&&◌, ◌||◌, ◌==◌};
ghost use Rattle.search.specs.Visits.{is_visited, Visits};

use crate::pairs::RowPair;
use bits::sets::{has_member, with_member};
use codec::pile::Pile;
use schema::faults::STATE_ROWS;

/// One mask for each row that a state can have.
const MASKS: usize = STATE_ROWS as usize;

/// The listed pairs of a row and a watcher's state.
#[derive(Drop)]
pub(crate) struct Visited {
    masks: [u64; MASKS],
}

impl Visited {
    /// No pair is listed.
    pub(crate) fn new() -> Visited
        ensures { (r s : ℕ) → is_visited result r s ≡ false }
    {
        Visited { masks: [0; MASKS] }
    }

    /// Whether the pair is listed.
    fn has(&self, pair: RowPair) -> bool
        ensures { result ≡ is_visited self.now pair.row pair.watch }
    {
        self.masks
            .get(usize::from(pair.row))
            .is_some_and(|mask| has_member(*mask, pair.watch))
    }

    /// Lists the pair.
    fn add(&mut self, pair: RowPair)
        ensures { pair.row < 16 →
            pair.watch < 64 →
            (r s : ℕ) →
            is_visited self.new r s ≡
            (is_visited self.old r s || (pair.row == r && pair.watch == s)) }
    {
        let row = usize::from(pair.row);
        if row < MASKS {
            self.masks[row] = with_member(self.masks[row], pair.watch);
        }
    }

    /// Puts a pair that is not listed yet on the pile, and says where.
    pub(crate) fn visit(&mut self, pile: &mut Pile<RowPair>, pair: RowPair) -> Option<usize>
        ensures { Visits pair self.old pile.old result self.new pile.new }
    {
        if self.has(pair) {
            return None;
        }
        let index = pile.len();
        pile.push(pair);
        self.add(pair);
        Some(index)
    }
}
