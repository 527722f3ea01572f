//! Writing samples, by levels and without recursion.
ghost use Rattle.std.specs.Prelude.{◌≡◌, ℕ, ◌+◌, ◌<◌, ◌≤◌, List, [], ◌∷◌, ◌++◌, length, Some};
ghost use Rattle.codec.specs.declared.item.Level.{Level as Leveled};
ghost use Rattle.codec.specs.Encoding.{tree_bytes, children_bytes};
ghost use Rattle.codec.specs.Piles.{slots};
ghost use Rattle.codec.specs.Trees.{Tree, node, Children, child, word as word_of, height, heights};
ghost use Rattle.schema.specs.Automata.{Automaton};
ghost use Rattle.schema.specs.Meaning.{meaning, IsState};
ghost use Rattle.samples.specs.declared.node.NodeKey.{NodeKey as Key};
ghost use Rattle.samples.specs.Kept.{HasSamples, Sampled};
ghost use Rattle.samples.specs.Outputs.{Within};
ghost use Rattle.samples.specs.Samples.{Sample, Samples as AreSamples};
ghost use Rattle.samples.specs.Writing.{head_bytes, level_of, LastOf, Leaves, WritesNext, ahead};

use crate::node::NodeKey;
use crate::output::Output;
use crate::samples::Samples;
use codec::item::Level;
use codec::pile::Pile;
use domain::domain::Domain;
use schema::tested::Tested;

/// Begins the sample of a state: its value and its child count, and a level for its children.
fn begin(
    samples: &Samples,
    state: u8,
    levels: &mut Pile<Level<NodeKey>>,
    output: &mut Output,
) -> Option<()>
    ensures begins { (A : Automaton) (n v : ℕ) (cs : Children) → Sampled A n samples.now →
        state < n →
        Sample A state (node v cs) →
        0 < length levels.old.free →
        Leaves (head_bytes v cs) (levels.old.entries ++ level_of state cs ∷ [])
        output.old result levels.new output.new }
    ensures slots { slots levels.new ≡ slots levels.old }
    ensures less { result ≡ Some tt → ahead levels.new output.new < ahead levels.old output.old }
{
    let root = samples.root(state)?;
    let count = root.word.len() as u32;
    output.head(root.value, count)?;
    let level = Level {
        left: count,
        at: NodeKey::State(state),
    };
    levels.push(level).then_some(())
}

/// A child that comes next: its symbol, and the state that it leads to.
#[derive(Clone, Copy)]
struct Child {
    symbol: u8,
    state: u8,
}

/// The symbol of a sequence with so many left, itself counted.
fn symbol_left(word: &[u8], left: u32) -> Option<u8>
    ensures { (before : List ℕ) (a : ℕ) (after : List ℕ) →
        word.now ≡ before ++ a ∷ after → left ≡ length after + 1 → result ≡ Some a }
{
    let index = word.len().checked_sub(left as usize)?;
    word.get(index).copied()
}

/// The child that comes next at the level of a sample's node.
fn next_child<D: Domain>(
    tested: &Tested<D>,
    samples: &Samples,
    level: Level<NodeKey>,
) -> Option<Child>
    ensures { HasSamples D.Domain.holds tested.now samples.now →
        (q a p : ℕ) (t : Tree) (cs : Children) →
        level ≡ level_of q (child a t cs) →
        IsState tested.now q →
        LastOf (meaning D.Domain.holds tested.now) q (child a t cs) →
        (meaning D.Domain.holds tested.now).next q a ≡ Some p →
        result ≡ Some (record { symbol = a; state = p }) }
{
    let NodeKey::State(state) = level.at else {
        return None;
    };
    let root = samples.root(state)?;
    let symbol = symbol_left(root.word.as_slice(), level.left)?;
    let state = tested.next_state(state, symbol)?;
    Some(Child { symbol, state })
}

/// One step of the node on top: it ends, or its next child begins.
fn turn<D: Domain>(
    tested: &Tested<D>,
    samples: &Samples,
    levels: &mut Pile<Level<NodeKey>>,
    output: &mut Output,
) -> Option<()>
    ensures turns { HasSamples D.Domain.holds tested.now samples.now →
        (below : List (Leveled Key)) (q : ℕ) (cs : Children) →
        levels.old.entries ≡ below ++ level_of q cs ∷ [] →
        IsState tested.now q →
        LastOf (meaning D.Domain.holds tested.now) q cs →
        heights cs ≤ length levels.old.free →
        WritesNext (meaning D.Domain.holds tested.now) below q cs
        output.old result levels.new output.new }
    ensures slots { slots levels.new ≡ slots levels.old }
    ensures less { result ≡ Some tt → ahead levels.new output.new < ahead levels.old output.old }
{
    let level = levels.top()?;
    if level.left == 0 {
        levels.pop();
        return Some(());
    }
    let child = next_child(tested, samples, level)?;
    output.number(u32::from(child.symbol))?;
    levels.replace(Level {
        left: level.left - 1,
        ..level
    });
    begin(samples, child.state, levels, output)
}

/// Writes the sample of a state. One level is wanted for each level of it.
fn write_sample<D: Domain>(
    tested: &Tested<D>,
    samples: &Samples,
    state: u8,
    levels: &mut Pile<Level<NodeKey>>,
    output: &mut Output,
) -> Option<()>
    ensures written { HasSamples D.Domain.holds tested.now samples.now → (t : Tree) →
        IsState tested.now state →
        Sample (meaning D.Domain.holds tested.now) state t →
        height t < length levels.old.free →
        Leaves (tree_bytes t) levels.old.entries output.old result levels.new output.new }
    ensures slots { slots levels.new ≡ slots levels.old }
{
    let base = levels.len();
    begin(samples, state, levels, output)?;
    while levels.len() > base {
        turn(tested, samples, levels, output)?;
    }
    Some(())
}

/// Writes the children of a state under the symbols of a sequence, each the sample of the state
/// that its symbol leads to. One level is wanted for each level of them.
pub fn write_children<D: Domain>(
    tested: &Tested<D>,
    samples: &Samples,
    state: u8,
    word: &[u8],
    levels: &mut Pile<Level<NodeKey>>,
    output: &mut Output,
) -> Option<()>
    ensures written { HasSamples D.Domain.holds tested.now samples.now → (cs : Children) →
        IsState tested.now state →
        AreSamples (meaning D.Domain.holds tested.now) state cs →
        word_of cs ≡ word.now →
        heights cs ≤ length levels.old.free →
        Within output.old →
        Leaves (children_bytes cs) levels.old.entries output.old result levels.new output.new }
    ensures slots { slots levels.new ≡ slots levels.old }
{
    for symbol in word {
        let next = tested.next_state(state, *symbol)?;
        output.number(u32::from(*symbol))?;
        write_sample(tested, samples, next, levels, output)?;
    }
    Some(())
}
