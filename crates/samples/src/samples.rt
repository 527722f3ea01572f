//! The samples of a schema's live states: what each begins with, and how many bytes it has.
ghost use Rattle.std.specs.Prelude.{◌≡◌, ℕ, ◌+◌, ◌<◌, true, List, length, min, Some, Decides, MatchOption, nat_lt, slice_index};
ghost use Rattle.codec.specs.Encoding.{children_bytes};
ghost use Rattle.codec.specs.Trees.{Children, word as word_of};
ghost use Rattle.bits.specs.Bits.{bit};
ghost use Rattle.schema.specs.Automata.{Automaton, passes};
ghost use Rattle.schema.specs.declared.tables.TheConstants.{STATES};
ghost use Rattle.schema.specs.Live.{Live, Rank, Ranked};
ghost use Rattle.schema.specs.Meaning.{meaning, states_of, IsState};
ghost use Rattle.search.specs.Sequences.{Sought, Shortest};
ghost use Rattle.search.specs.Watching.{anything};
ghost use Rattle.samples.specs.declared.samples.TheConstants.{SAMPLE_SYMBOLS};
ghost use Rattle.samples.specs.declared.size.TheConstants.{TOO_LONG};
ghost use Rattle.samples.specs.Kept.{bytes_below, child_bytes, noted_at, node_bytes, HasRoots, HasSamples, RanksOf, Root, RootOf, Sampled, SampledBelow};
ghost use Rattle.samples.specs.Samples.{Samples as AreSamples};

use crate::node::Node;
use crate::size::add;
use bits::gathering::gather;
use codec::number::number_length;
use domain::domain::Domain;
use schema::faults::STATE_ROWS;
use schema::live::Ranks;
use schema::tables::STATES;
use schema::tested::Tested;
use search::search::Question;
use search::slots::RowSlots;
use search::watchers::Anything;
use search::word::Word;

/// The most symbols of a sample's sequence: it goes through no row twice.
pub const SAMPLE_SYMBOLS: usize = STATE_ROWS as usize - 1;

/// The samples of the live states of a schema, found once: what each begins with, and how many
/// bytes it has.
#[derive(Drop)]
pub struct Samples {
    roots: [Option<Node<SAMPLE_SYMBOLS>>; STATES],
    sizes: [u32; STATES],
}

/// The rank of a state, where it has one.
fn rank_at(ranks: &Ranks, state: u8) -> Option<u8>
    ensures { result ≡ noted_at ranks.now.rank state }
{
    ranks.rank.get(usize::from(state)).copied()?
}

/// Whether a state has a rank below this one.
fn is_below(ranks: &Ranks, rank: u8, state: u8) -> bool
    ensures { result ≡ passes (noted_at ranks.now.rank state) (λ m. nat_lt m rank) }
{
    rank_at(ranks, state).is_some_and(|lower| lower < rank)
}

/// The states of a rank below this one.
fn states_below(ranks: &Ranks, rank: u8) -> u64
    ensures { (A : Automaton) (n s : ℕ) → Ranked A n ranks.now.live ranks.now.rank → s < STATES →
        Decides (bit result s)
        ((bit ranks.now.live s ≡ true) × ((m : ℕ) × Rank A s m × (m < rank))) }
{
    gather(STATES as u8, |state| is_below(ranks, rank, state))
}

/// The first sequence of a state over a set of symbols, where there is one.
fn first_over<D: Domain>(
    tested: &Tested<D>,
    state: u8,
    symbols: u64,
    slots: &mut RowSlots,
) -> Option<Word<SAMPLE_SYMBOLS>>
    ensures { IsState tested.now state →
        MatchOption result
        ((w : List ℕ) →
        Sought (meaning D.Domain.holds tested.now) state (bit symbols) anything w → ⊥)
        (Shortest (meaning D.Domain.holds tested.now) state (bit symbols) anything) }
{
    let question = Question {
        tested,
        state,
        symbols,
        watcher: &Anything,
    };
    question.shortest(slots)
}

/// What the sample of a state begins with, where the state is live.
fn root_of<D: Domain>(
    tested: &Tested<D>,
    ranks: &Ranks,
    state: u8,
    slots: &mut RowSlots,
) -> Option<Node<SAMPLE_SYMBOLS>>
    ensures { RanksOf D.Domain.holds tested.now ranks.now → bit ranks.now.live state ≡ true →
        (s : Root) × (result ≡ Some s) × RootOf (meaning D.Domain.holds tested.now) state s }
{
    let rank = rank_at(ranks, state)?;
    let value = tested.least(state)?;
    let symbols = tested.symbols_into(state, states_below(ranks, rank));
    let word = first_over(tested, state, symbols, slots)?;
    Some(Node { value, word })
}

/// What the sample of each live state begins with.
fn roots_of<D: Domain>(
    tested: &Tested<D>,
    ranks: &Ranks,
    slots: &mut RowSlots,
) -> [Option<Node<SAMPLE_SYMBOLS>>; STATES]
    ensures { RanksOf D.Domain.holds tested.now ranks.now →
        HasRoots (meaning D.Domain.holds tested.now) (states_of tested.now) result }
{
    let mut roots = [None; STATES];
    // by index: through an item of `iter_mut` nothing is known of a root that was written
    for state in 0..STATES {
        roots[state] = root_of(tested, ranks, state as u8, slots);
    }
    roots
}

impl Samples {
    /// The samples of a schema's live states.
    pub fn of<D: Domain>(tested: &Tested<D>, slots: &mut RowSlots) -> Samples
        ensures samples { HasSamples D.Domain.holds tested.now result }
        ensures symbols { SAMPLE_SYMBOLS ≡ 15 }
    {
        let ranks = tested.ranks();
        let mut samples = Samples {
            roots: roots_of(tested, &ranks, slots),
            sizes: [0; STATES],
        };
        for rank in 0..STATES as u8 {
            samples.note_sizes(tested, &ranks, rank);
        }
        samples
    }

    /// Notes the size of the sample of each state of a rank, where those of lower ranks are noted.
    fn note_sizes<D: Domain>(&mut self, tested: &Tested<D>, ranks: &Ranks, rank: u8)
        ensures roots { self.new.roots ≡ self.old.roots }
        ensures sizes { let A = meaning D.Domain.holds tested.now in
            SampledBelow A (states_of tested.now) rank ranks.now self.old →
            SampledBelow A (states_of tested.now) (rank + 1) ranks.now self.new }
    {
        for state in 0..STATES {
            if rank_at(ranks, state as u8) == Some(rank) {
                self.sizes[state] = self.sample_size(tested, state as u8);
            }
        }
    }

    /// What is noted for a state.
    fn noted(&self, state: u8) -> Option<Node<SAMPLE_SYMBOLS>>
        ensures { result ≡ noted_at self.now.roots state }
    {
        self.roots.get(usize::from(state)).copied()?
    }

    /// What the sample of a live state begins with.
    pub fn root(&self, state: u8) -> Option<Node<SAMPLE_SYMBOLS>>
        ensures { (A : Automaton) (n : ℕ) → Sampled A n self.now → state < n → Live A state →
            (s : Root) × (result ≡ Some s) × RootOf A state s }
    {
        self.noted(state)
    }

    /// How many bytes the sample of a state has, up to TOO_LONG.
    fn size(&self, state: u8) -> u32
        ensures { result ≡ slice_index self.now.sizes state }
    {
        self.sizes.get(usize::from(state)).copied().unwrap_or(0)
    }

    /// How many bytes a symbol and the sample of the state that it leads to have, up to TOO_LONG.
    fn child_size<D: Domain>(&self, tested: &Tested<D>, state: u8, symbol: u8) -> u32
        ensures { let A = meaning D.Domain.holds tested.now in
            result ≡ min (child_bytes A self.now.sizes state symbol) TOO_LONG }
    {
        let below = match tested.next_state(state, symbol) {
            Some(next) => self.size(next),
            None => 0,
        };
        add(number_length(u32::from(symbol)) as u32, below)
    }

    /// How many bytes the children of a state under the symbols of a sequence have, where each is a
    /// sample, up to TOO_LONG.
    pub fn children_size<D: Domain>(&self, tested: &Tested<D>, state: u8, word: &[u8]) -> u32
        ensures noted { let A = meaning D.Domain.holds tested.now in
            result ≡ min (bytes_below A self.now.sizes state word.now) TOO_LONG }
        ensures samples { HasSamples D.Domain.holds tested.now self.now → IsState tested.now state →
            (cs : Children) → AreSamples (meaning D.Domain.holds tested.now) state cs →
            word_of cs ≡ word.now →
            result ≡ min (length (children_bytes cs)) TOO_LONG }
    {
        let mut size = 0;
        for symbol in word {
            size = add(size, self.child_size(tested, state, *symbol));
        }
        size
    }

    /// How many bytes the sample of a state has by what it begins with, up to TOO_LONG, or 0 where
    /// that is not known.
    fn sample_size<D: Domain>(&self, tested: &Tested<D>, state: u8) -> u32
        ensures { let A = meaning D.Domain.holds tested.now in
            MatchOption (noted_at self.now.roots state) (result ≡ 0)
            (λ s. result ≡ min (node_bytes A self.now.sizes state s) TOO_LONG) }
    {
        let Some(root) = self.noted(state) else {
            return 0;
        };
        let word = root.word.as_slice();
        let head = number_length(root.value) + number_length(word.len() as u32);
        add(head as u32, self.children_size(tested, state, word))
    }
}
