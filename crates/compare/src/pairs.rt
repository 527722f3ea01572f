//! The pairs of states that a work area lists, with what is kept of them at every moment.
ghost use Rattle.std.specs.Prelude.{◌≡◌, true};
ghost use Rattle.compare.specs.Pairs.{kept_pairs};

use schema::tables::STATES;

pub mod listing;

/// How many pairs there are of a state of one schema and a state of another.
pub const PLACES: usize = STATES * STATES;

/// A listed pair: the first schema's state, the second's, the index of the pair that led to it, and
/// the symbol that did.
#[derive(Clone, Copy, Debug, PartialEq, Eq)]
pub struct Listed {
    pub first: u8,
    pub second: u8,
    pub parent: u16,
    pub symbol: u8,
}

/// The pair (0, 0), which no pair led to. A slot without an entry holds it too.
// Its parent and symbol are 0 and no option: what led to a pair is asked only where its parent
// stands before it.
pub const START: Listed = Listed {
    first: 0,
    second: 0,
    parent: 0,
    symbol: 0,
};

/// The pairs in the order in which they were listed, inside two state counts, and for each first
/// state a bit for each listed second.
// A buffer with its length beside it and no list that grows: an area has memory for every pair from
// the start, so no step can lack it. No model beside the fields: contracts say `entries_of` of what
// was listed and the counts by name, and a model's value would say no more.
#[derive(Drop)]
pub struct Pairs {
    firsts: u8,
    seconds: u8,
    entries: [Listed; PLACES],
    length: usize,
    bits: [u64; STATES],
    ghost sound: { kept_pairs firsts seconds entries length bits ≡ true },
}
