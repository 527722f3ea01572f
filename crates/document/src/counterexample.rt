//! What a document is written from, and what its nodes begin with: one on the path, and the one at
//! its end.
ghost use Rattle.compare.specs.declared.phase.Kind.TheVariants.{Value};
ghost use Rattle.compare.specs.Schemas.{StatePair};
ghost use Rattle.schema.specs.Meaning.{meaning, IsState};
ghost use Rattle.search.specs.Watching.{wanted};
ghost use Rattle.document.specs.Documents.{AtEnd, OnPath};
ghost use Rattle.document.specs.Nodes.{NodeOrNone, Around, FirstPlace, LeastWith, Ready};

use bits::sets::has_member;
use compare::compared::Compared;
use compare::pairs::{Listed, Pairs};
use compare::phase::Kind;
use domain::domain::Domain;
use samples::node::Node;
use samples::samples::Samples;
use search::pairs::ROW_PAIRS;
use search::search::Question;
use search::slots::RowSlots;
use search::watcher::Watcher;
use search::watchers::{Holding, Refused};
use search::word::Word;

/// The most symbols of a node's children: a search goes through no pair of a row and a watcher's
/// state twice.
pub const NODE_SYMBOLS: usize = ROW_PAIRS - 1;

/// Where a symbol stands first in a sequence.
fn place_of(word: &[u8], symbol: u8) -> Option<usize>
    ensures { FirstPlace symbol word.now result }
{
    word.iter().position(|a| *a == symbol)
}

/// The symbols of a sequence before the first such symbol, and those after it.
pub fn around(word: &[u8], symbol: u8) -> Option<(&[u8], &[u8])>
    ensures { Around symbol word.now result }
{
    let place = place_of(word, symbol)?;
    Some((&word[..place], &word[place + 1..]))
}

/// Two schemas that a pair of their states tells apart: with the samples of the first, the listed
/// pairs, and how the broken one is broken.
#[derive(Drop)]
pub struct Counterexample<'a, 'b, 'c, 'd, 'e, D> {
    pub compared: Compared<'a, 'b, 'c, 'd, D>,
    pub samples: Samples,
    pub pairs: &'e Pairs,
    pub kind: Kind,
}

impl<D: Domain> Counterexample<'_, '_, '_, '_, '_, D> {
    /// The node at a state with its least value, and the shortest live sequence that the watcher
    /// wants, of equally short ones the first.
    fn least_with<W: Watcher>(
        &self,
        state: u8,
        watcher: &W,
        slots: &mut RowSlots,
    ) -> Option<Node<NODE_SYMBOLS>>
        ensures { Ready D.Domain.holds self.now → IsState self.now.compared.first.now state →
            let A = meaning D.Domain.holds self.now.compared.first.now in
            NodeOrNone (LeastWith A state (wanted (W.Watcher.watching watcher.now))) result }
    {
        let tested = self.compared.first;
        let value = tested.least(state)?;
        let question = Question {
            tested,
            state,
            symbols: tested.symbols_into(state, self.compared.live),
            watcher,
        };
        let word = question.shortest(slots)?;
        Some(Node { value, word })
    }

    /// The node on the path at a state, which goes on by a symbol.
    pub fn node_on_path(
        &self,
        state: u8,
        symbol: u8,
        slots: &mut RowSlots,
    ) -> Option<Node<NODE_SYMBOLS>>
        ensures { Ready D.Domain.holds self.now → IsState self.now.compared.first.now state →
            let A = meaning D.Domain.holds self.now.compared.first.now in
            let B = meaning D.Domain.holds self.now.compared.second.now in
            NodeOrNone (OnPath A B state symbol) result }
    {
        self.least_with(state, &Holding::new(symbol), slots)
    }

    /// The node at the end, a pair of states that is broken in value: the smallest value in the
    /// first state's domain alone, with the sequence of the state's sample.
    fn gap_node(&self, pair: Listed) -> Option<Node<NODE_SYMBOLS>>
        ensures { Ready D.Domain.holds self.now →
            StatePair self.now.compared pair.first pair.second →
            let A = meaning D.Domain.holds self.now.compared.first.now in
            let B = meaning D.Domain.holds self.now.compared.second.now in
            NodeOrNone (AtEnd A B Value pair.first pair.second) result }
    {
        if !has_member(self.compared.live, pair.first) {
            return None;
        }
        let value = self.compared.gap(pair.first, pair.second)?;
        let root = self.samples.root(pair.first)?;
        let word = Word::of(root.word.as_slice());
        Some(Node { value, word })
    }

    /// The node at the end.
    pub fn node_at_end(&self, pair: Listed, slots: &mut RowSlots) -> Option<Node<NODE_SYMBOLS>>
        ensures { Ready D.Domain.holds self.now →
            StatePair self.now.compared pair.first pair.second →
            let A = meaning D.Domain.holds self.now.compared.first.now in
            let B = meaning D.Domain.holds self.now.compared.second.now in
            NodeOrNone (AtEnd A B self.now.kind pair.first pair.second) result }
    {
        match self.kind {
            Kind::Value => self.gap_node(pair),
            Kind::Content => {
                let watcher = Refused::new(self.compared.second, pair.second);
                self.least_with(pair.first, &watcher, slots)
            }
        }
    }
}
