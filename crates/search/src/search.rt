//! The breadth-first search over pairs of a row and a watcher's state.
ghost use Rattle.std.specs.Prelude.{◌≡◌, ◌+◌, ◌*◌, ◌≤◌, [], length};
ghost use Rattle.schema.specs.declared.faults.TheConstants.{STATE_ROWS};
ghost use Rattle.schema.specs.Meaning.{IsState};
ghost use Rattle.search.specs.Questions.{first_pair_of, next_pair_of, is_goal_of, Answers, ShortestOf};
ghost use Rattle.search.specs.Sequences.{OneShortest};

use crate::pairs::{ROW_PAIRS, RowPair};
use crate::slots::RowSlots;
use crate::visited::Visited;
use crate::watcher::Watcher;
use crate::word::Word;
use bits::sets::has_member;
use codec::pile::Pile;
use domain::domain::Domain;
use schema::tested::Tested;

/// A question for the sequences over a set of symbols that run at a state of a schema and that a
/// watcher wants.
#[derive(Drop)]
pub struct Question<'a, 'b, D, W> {
    pub tested: &'a Tested<'b, D>,
    pub state: u8,
    pub symbols: u64,
    pub watcher: &'a W,
}

impl<D: Domain, W: Watcher> Question<'_, '_, D, W> {
    /// The pair of the first row and the watcher's start.
    fn first_pair(&self) -> RowPair
        ensures { result ≡ first_pair_of W.Watcher.watching self.now }
    {
        RowPair {
            row: 0,
            watch: self.watcher.start(),
            symbol: 0,
            parent: 0,
        }
    }

    /// The pair that a symbol of the set leads to from a pair, which is the entry `parent`.
    fn next_pair(&self, pair: RowPair, symbol: u8, parent: u16) -> Option<RowPair>
        ensures { result ≡
            next_pair_of D.Domain.holds W.Watcher.watching self.now pair symbol parent }
    {
        if !has_member(self.symbols, symbol) {
            return None;
        }
        let row = self.tested.next_row(self.state, pair.row, symbol)?;
        Some(RowPair {
            row,
            watch: self.watcher.after(pair.watch, symbol),
            symbol,
            parent,
        })
    }

    /// Whether a sequence that leads to the pair is sought.
    fn is_goal(&self, pair: RowPair) -> bool
        ensures { result ≡ is_goal_of D.Domain.holds W.Watcher.watching self.now pair }
    {
        self.tested.may_end(self.state, pair.row) && self.watcher.wants(pair.watch)
    }

    /// The entry of the pile that the shortest sequence that is sought ends at, or none where none
    /// is sought. The pile has to be empty and to have ROW_PAIRS slots.
    fn search(&self, pile: &mut Pile<RowPair>) -> Option<usize>
        ensures { IsState self.now.tested.now self.now.state →
            pile.old.entries ≡ [] →
            ROW_PAIRS ≤ length pile.old.free →
            Answers D.Domain.holds W.Watcher.watching self.now W.Watcher.states pile.new.entries result }
    {
        let first = self.first_pair();
        let mut visited = Visited::new();
        let bottom = visited.visit(pile, first);
        if self.is_goal(first) {
            return bottom;
        }
        let mut found = None;
        // Two loops left by a label: the first goal ends both. The pile grows while the outer one
        // goes over it.
        'search: for cursor in 0..ROW_PAIRS {
            let Some(pair) = pile.read(cursor) else {
                break 'search;
            };
            'symbols: for symbol in 0..self.tested.symbols() {
                // `as` is proved to lose nothing here; `try_from` would add a case that cannot come.
                let Some(next) = self.next_pair(pair, symbol as u8, cursor as u16) else {
                    continue 'symbols;
                };
                let Some(index) = visited.visit(pile, next) else {
                    continue 'symbols;
                };
                if self.is_goal(next) {
                    found = Some(index);
                    break 'search;
                }
            }
        }
        found
    }

    /// The shortest sequence that is sought, and of those that are as short the first by its
    /// symbols; or none where none is sought. It has at most N symbols, where N allows for all that
    /// the rows of a state and the states of the watcher can take.
    #[tactic(auto, using(crate::proofs::Orders::one_shortest))]
    pub fn shortest<const N: usize>(&self, slots: &mut RowSlots) -> Option<Word<N>>
        ensures answer { IsState self.now.tested.now self.now.state →
            STATE_ROWS * W.Watcher.states ≤ N + 1 →
            ShortestOf D.Domain.holds W.Watcher.watching self.now result }
        ensures one { OneShortest }
    {
        let mut pile = Pile::new(&mut *slots.slots);
        let index = self.search(&mut pile)?;
        Some(Word::read(&pile, index))
    }
}
