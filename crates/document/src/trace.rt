//! The path from a broken pair back to the pair (0, 0), with the bytes that the document needs.
ghost use Rattle.std.specs.Prelude.{◌≡◌, ℕ, ◌<◌, ◌≤◌, [], ◌∷◌, ◌++◌, length, Decides, IfSome};
ghost use Rattle.codec.specs.Piles.{slots as slots_of};
ghost use Rattle.codec.specs.Trees.{Children, node as node_of, word as word_of};
ghost use Rattle.schema.specs.Meaning.{meaning, IsState};
ghost use Rattle.samples.specs.Kept.{needed};
ghost use Rattle.compare.specs.declared.pairs.TheConstants.{PLACES};
ghost use Rattle.compare.specs.declared.pairs.Listed.{Listed as ListedPair};
ghost use Rattle.document.specs.Documents.{LeadsTo};
ghost use Rattle.document.specs.Contexts.{Context, context_bytes};
ghost use Rattle.document.specs.Nodes.{Ready};
ghost use Rattle.document.specs.Counterexamples.{EndBytesIn, SamplesIn, StepsBackIn, TracesBackIn};

use crate::counterexample::{Counterexample, NODE_SYMBOLS, around};
use codec::item::Level;
use codec::number::number_length;
use codec::pile::Pile;
use compare::pairs::Listed;
use compare::trail::led_to;
use domain::domain::Domain;
use samples::node::{Node, NodeKey};
use samples::size::add;
use search::slots::RowSlots;

/// One step back: where the pair is that led here, how many children its node has after the one
/// that goes on, and its bytes but for that child's tree.
#[derive(Clone, Copy, Debug, PartialEq, Eq)]
struct Step {
    at: usize,
    left: u32,
    size: u32,
}

impl<D: Domain> Counterexample<'_, '_, '_, '_, '_, D> {
    /// How many bytes the node at the end has with its children, up to TOO_LONG.
    fn end_size(&self, state: u8, node: &Node<NODE_SYMBOLS>) -> u32
        ensures { Ready D.Domain.holds self.now → IsState self.now.compared.first.now state →
            (cs : Children) → SamplesIn D.Domain.holds self.now state cs →
            word_of cs ≡ node.now.word →
            result ≡ needed (node_of node.now.value cs) }
    {
        let head = number_length(node.value) + number_length(node.word.len() as u32);
        let word = node.word.as_slice();
        let children = self.samples.children_size(self.compared.first, state, word);
        add(head as u32, children)
    }

    /// How many bytes a node on the path has but for the tree of the child that goes on, up to
    /// TOO_LONG.
    fn context_size(
        &self,
        state: u8,
        node: &Node<NODE_SYMBOLS>,
        symbol: u8,
        before: &[u8],
        after: &[u8],
    ) -> u32
        ensures { Ready D.Domain.holds self.now → IsState self.now.compared.first.now state →
            let A = meaning D.Domain.holds self.now.compared.first.now in
            let B = meaning D.Domain.holds self.now.compared.second.now in
            (q : ℕ) (e : ListedPair) (f : Context A B state q e) → e.symbol ≡ symbol →
            f.value ≡ node.now.value →
            word_of f.before ++ e.symbol ∷ word_of f.after ≡ node.now.word →
            word_of f.before ≡ before.now → word_of f.after ≡ after.now →
            result ≡ context_bytes A B f }
    {
        let tested = self.compared.first;
        let numbers = number_length(node.value)
            + number_length(node.word.len() as u32)
            + number_length(u32::from(symbol));
        let others = add(
            self.samples.children_size(tested, state, before),
            self.samples.children_size(tested, state, after),
        );
        add(numbers as u32, others)
    }

    /// Whether a pair's symbol leads both schemas from the states of the pair that led to it to its
    /// own.
    fn leads(&self, from: Listed, pair: Listed) -> bool
        ensures { let A = meaning D.Domain.holds self.now.compared.first.now in
            let B = meaning D.Domain.holds self.now.compared.second.now in
            Decides result (LeadsTo A B from.first from.second pair) }
    {
        self.compared.first.next_state(from.first, pair.symbol) == Some(pair.first)
            && self.compared.second.next_state(from.second, pair.symbol) == Some(pair.second)
    }

    /// The step back from the pair at a place of the list.
    fn step(&self, place: usize, slots: &mut RowSlots) -> Option<Step>
        ensures back { Ready D.Domain.holds self.now →
            StepsBackIn D.Domain.holds self.now place result }
        ensures low { IfSome result (λ s. (s.at < place) × (place < PLACES)) }
    {
        let pair = led_to(self.pairs, place)?;
        let at = usize::from(pair.parent);
        let from = self.pairs.entry(at)?;
        if !self.leads(from, pair) {
            return None;
        }
        let node = self.node_on_path(from.first, pair.symbol, slots)?;
        let (before, after) = around(node.word.as_slice(), pair.symbol)?;
        let size = self.context_size(from.first, &node, pair.symbol, before, after);
        let left = after.len() as u32;
        Some(Step { at, left, size })
    }

    /// How many bytes the tree at the end has, for the broken pair at a place of the list, up to
    /// TOO_LONG.
    fn end(&self, place: usize, slots: &mut RowSlots) -> Option<u32>
        ensures { Ready D.Domain.holds self.now → EndBytesIn D.Domain.holds self.now place result }
    {
        let pair = self.pairs.entry(place)?;
        let node = self.node_at_end(pair, slots)?;
        Some(self.end_size(pair.first, &node))
    }

    /// Goes from the broken pair at a place of the list back to the pair (0, 0): how many bytes the
    /// document needs, up to TOO_LONG, or none where there is no document. It leaves the levels of
    /// the pairs on the path, the broken one's at the bottom. Levels are lent for all listed pairs.
    pub fn trace(
        &self,
        place: usize,
        slots: &mut RowSlots,
        levels: &mut Pile<Level<NodeKey>>,
    ) -> Option<u32>
        ensures traced { Ready D.Domain.holds self.now → levels.old.entries ≡ [] →
            PLACES ≤ length levels.old.free →
            TracesBackIn D.Domain.holds self.now place result levels.new.entries }
        ensures slots { slots_of levels.new ≡ slots_of levels.old }
    {
        let mut size = self.end(place, slots)?;
        let mut at = place;
        while at > 0 {
            let step = self.step(at, slots)?;
            size = add(size, step.size);
            levels.push(Level {
                left: step.left,
                at: NodeKey::Pair(at as u16),
            });
            at = step.at;
        }
        let start = self.pairs.entry(0)?;
        (start.first == 0 && start.second == 0).then_some(size)
    }
}
