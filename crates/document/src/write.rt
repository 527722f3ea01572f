//! Writing a document: down the path to its end, the end, and up again.
ghost use Rattle.std.specs.Prelude.{◌≡◌, ℕ, ◌≤◌, List, [], length, Some};
ghost use Rattle.std.specs.List.{slice_get};
ghost use Rattle.codec.specs.Encoding.{tree_bytes, children_bytes};
ghost use Rattle.codec.specs.Piles.{slots as slots_of};
ghost use Rattle.codec.specs.Trees.{Tree, Children, word as word_of};
ghost use Rattle.schema.specs.declared.tables.TheConstants.{STATES};
ghost use Rattle.schema.specs.Meaning.{meaning, IsState};
ghost use Rattle.samples.specs.Outputs.{Within};
ghost use Rattle.samples.specs.Writing.{Leaves};
ghost use Rattle.compare.specs.declared.pairs.Listed.{Listed as ListedPair};
ghost use Rattle.compare.specs.Listing.{entries_of};
ghost use Rattle.document.specs.Documents.{Built};
ghost use Rattle.document.specs.Counterexamples.{SamplesIn, StepIn, TracedIn};
ghost use Rattle.document.specs.Nodes.{Ready};
ghost use Rattle.document.specs.PathNodes.{path_node_of};
ghost use Rattle.document.specs.Steps.{path_level, levels_of, all_before, all_after, step_before, step_after};

use crate::counterexample::{Counterexample, NODE_SYMBOLS, around};
use codec::item::Level;
use codec::pile::Pile;
use domain::domain::Domain;
use samples::node::{Node, NodeKey};
use samples::output::Output;
use samples::writing::write_children;
use search::slots::RowSlots;

/// A node on the path: its state in the first schema, the symbol by which the path goes on, and
/// what it begins with.
#[derive(Clone, Copy)]
struct PathNode {
    state: u8,
    symbol: u8,
    node: Node<NODE_SYMBOLS>,
}

impl<D: Domain> Counterexample<'_, '_, '_, '_, '_, D> {
    /// The node from which the path goes on to the pair of a level.
    fn path_node(&self, level: Level<NodeKey>, slots: &mut RowSlots) -> Option<PathNode>
        ensures { Ready D.Domain.holds self.now →
            (s : StepIn D.Domain.holds self.now) → level ≡ path_level s →
            result ≡ Some (path_node_of s) }
    {
        let NodeKey::Pair(place) = level.at else {
            return None;
        };
        let pair = self.pairs.entry(usize::from(place))?;
        let from = self.pairs.entry(usize::from(pair.parent))?;
        let node = self.node_on_path(from.first, pair.symbol, slots)?;
        Some(PathNode {
            state: from.first,
            symbol: pair.symbol,
            node,
        })
    }

    /// Writes the children of a state under the symbols of a sequence, each a sample.
    fn write_samples(
        &self,
        state: u8,
        word: &[u8],
        levels: &mut Pile<Level<NodeKey>>,
        output: &mut Output,
    ) -> Option<()>
        ensures written { Ready D.Domain.holds self.now → STATES ≤ length levels.old.free →
            Within output.old →
            IsState self.now.compared.first.now state → (cs : Children) →
            SamplesIn D.Domain.holds self.now state cs → word_of cs ≡ word.now →
            Leaves (children_bytes cs) levels.old.entries output.old result levels.new output.new }
        ensures slots { slots_of levels.new ≡ slots_of levels.old }
    {
        write_children(
            self.compared.first,
            &self.samples,
            state,
            word,
            levels,
            output,
        )
    }

    /// Writes what a node on the path has before the tree of the child that goes on: its value, its
    /// child count, the children before, and the symbol.
    fn write_before(
        &self,
        path_node: &PathNode,
        levels: &mut Pile<Level<NodeKey>>,
        output: &mut Output,
    ) -> Option<()>
        ensures written { Ready D.Domain.holds self.now → STATES ≤ length levels.old.free →
            (s : StepIn D.Domain.holds self.now) → path_node.now ≡ path_node_of s →
            Leaves (step_before s) levels.old.entries output.old result levels.new output.new }
        ensures slots { slots_of levels.new ≡ slots_of levels.old }
    {
        let (before, _) = around(path_node.node.word.as_slice(), path_node.symbol)?;
        output.head(path_node.node.value, path_node.node.word.len() as u32)?;
        self.write_samples(path_node.state, before, levels, output)?;
        output.number(u32::from(path_node.symbol))
    }

    /// Writes what it has after that tree: the children after.
    fn write_after(
        &self,
        path_node: &PathNode,
        levels: &mut Pile<Level<NodeKey>>,
        output: &mut Output,
    ) -> Option<()>
        ensures written { Ready D.Domain.holds self.now → STATES ≤ length levels.old.free →
            Within output.old →
            (s : StepIn D.Domain.holds self.now) → path_node.now ≡ path_node_of s →
            Leaves (step_after s) levels.old.entries output.old result levels.new output.new }
        ensures slots { slots_of levels.new ≡ slots_of levels.old }
    {
        let (_, after) = around(path_node.node.word.as_slice(), path_node.symbol)?;
        self.write_samples(path_node.state, after, levels, output)
    }

    /// Writes the children after, for the node of a level; the node is looked for only where there
    /// are such children.
    fn write_level_after(
        &self,
        level: Level<NodeKey>,
        slots: &mut RowSlots,
        levels: &mut Pile<Level<NodeKey>>,
        output: &mut Output,
    ) -> Option<()>
        ensures written { Ready D.Domain.holds self.now → STATES ≤ length levels.old.free →
            Within output.old →
            (s : StepIn D.Domain.holds self.now) → level ≡ path_level s →
            Leaves (step_after s) levels.old.entries output.old result levels.new output.new }
        ensures slots { slots_of levels.new ≡ slots_of levels.old }
    {
        if level.left == 0 {
            return Some(());
        }
        let path_node = self.path_node(level, slots)?;
        self.write_after(&path_node, levels, output)
    }

    /// Writes what the nodes on the path have before the trees of the children that go on, from the
    /// first node down. The levels are those of the path's pairs, the last one's at the bottom.
    fn write_down(
        &self,
        slots: &mut RowSlots,
        levels: &mut Pile<Level<NodeKey>>,
        output: &mut Output,
    ) -> Option<()>
        ensures written { Ready D.Domain.holds self.now → STATES ≤ length levels.old.free →
            Within output.old →
            (steps : List (StepIn D.Domain.holds self.now)) → levels.old.entries ≡ levels_of steps →
            Leaves (all_before steps) levels.old.entries output.old result levels.new output.new }
        ensures slots { slots_of levels.new ≡ slots_of levels.old }
    {
        for index in (0..levels.len()).rev() {
            let path_node = self.path_node(levels.read(index)?, slots)?;
            self.write_before(&path_node, levels, output)?;
        }
        Some(())
    }

    /// Writes what they have after those trees, from the last node up.
    fn write_up(
        &self,
        slots: &mut RowSlots,
        levels: &mut Pile<Level<NodeKey>>,
        output: &mut Output,
    ) -> Option<()>
        ensures written { Ready D.Domain.holds self.now → STATES ≤ length levels.old.free →
            Within output.old →
            (steps : List (StepIn D.Domain.holds self.now)) → levels.old.entries ≡ levels_of steps →
            Leaves (all_after steps) levels.old.entries output.old result levels.new output.new }
        ensures slots { slots_of levels.new ≡ slots_of levels.old }
    {
        for index in 0..levels.len() {
            self.write_level_after(levels.read(index)?, slots, levels, output)?;
        }
        Some(())
    }

    /// Writes the tree at the end, for the broken pair at a place of the list.
    fn write_end(
        &self,
        place: usize,
        slots: &mut RowSlots,
        levels: &mut Pile<Level<NodeKey>>,
        output: &mut Output,
    ) -> Option<()>
        ensures written { Ready D.Domain.holds self.now → STATES ≤ length levels.old.free →
            let A = meaning D.Domain.holds self.now.compared.first.now in
            let B = meaning D.Domain.holds self.now.compared.second.now in
            (x : ListedPair) (t : Tree) → slice_get (entries_of self.now.pairs.now) place ≡ Some x →
            Built A B self.now.kind x.first x.second [] t →
            Leaves (tree_bytes t) levels.old.entries output.old result levels.new output.new }
        ensures slots { slots_of levels.new ≡ slots_of levels.old }
    {
        let pair = self.pairs.entry(place)?;
        let node = self.node_at_end(pair, slots)?;
        output.head(node.value, node.word.len() as u32)?;
        self.write_samples(pair.first, node.word.as_slice(), levels, output)
    }

    /// Writes the document for the broken pair at a place of the list, with the levels that tracing
    /// its path has left; STATES levels are wanted above those.
    pub fn write(
        &self,
        place: usize,
        slots: &mut RowSlots,
        levels: &mut Pile<Level<NodeKey>>,
        output: &mut Output,
    ) -> Option<()>
        ensures written { Ready D.Domain.holds self.now → STATES ≤ length levels.old.free →
            Within output.old →
            (size : ℕ) (d : TracedIn D.Domain.holds self.now place size levels.old.entries) →
            Leaves (tree_bytes d.tree) levels.old.entries output.old result levels.new output.new }
        ensures slots { slots_of levels.new ≡ slots_of levels.old }
    {
        self.write_down(slots, levels, output)?;
        self.write_end(place, slots, levels, output)?;
        self.write_up(slots, levels, output)
    }
}
