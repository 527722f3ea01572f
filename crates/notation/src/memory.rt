//! What calls are lent, by how much of it there is to be: what scratch is filled with, and the
//! three outputs of a trimming.
ghost use Rattle.std.specs.Prelude.{◌≡◌, replicate, IfOk, vec_len};

use crate::trouble::Trouble;
use api::{Cursor, Domain, Level, NodeKey, Refusal, RowPair, Schema};
use std::alloc::Global;

/// That many times the item.
// by a closure, since nothing is known of what the clones of `vec!` are
pub fn filled<'a, T: Copy>(heap: Global, count: usize, item: T) -> Result<Vec<T>, Trouble<'a>>
    ensures length { IfOk result (λ v. vec_len v ≡ count) }
    ensures items { IfOk result (λ v. v.items ≡ replicate count item) }
{
    let mut list = Vec::new(heap);
    list.resize_with(count, || item)?;
    Ok(list)
}

/// A row pair that no search has written.
pub const SEARCH_PAIR: RowPair = RowPair {
    row: 0,
    watch: 0,
    symbol: 0,
    parent: 0,
};

/// A level of a check that no node has taken.
pub const CHECK_LEVEL: Level<Cursor> = Level {
    left: 0,
    at: Cursor { state: 0, row: 0 },
};

/// A level of a document that no node has taken.
pub const DOCUMENT_LEVEL: Level<NodeKey> = Level {
    left: 0,
    at: NodeKey::State(0),
};

/// How many bytes the state table has for each state.
const STATE_BYTES: usize = 4;

/// How many states and rows a schema has.
#[derive(Clone, Copy, Debug, PartialEq, Eq)]
pub struct Counts {
    pub states: usize,
    pub rows: usize,
}

/// The three outputs of a trimming, each at its own length.
#[derive(Debug, Drop, PartialEq, Eq)]
pub struct Outputs {
    pub transitions: Vec<u8>,
    pub states: Vec<u8>,
    pub rows: Vec<u8>,
}

impl Outputs {
    /// Outputs of these lengths, filled with a byte.
    pub fn new<'a>(
        heap: Global,
        transitions: usize,
        states: usize,
        rows: usize,
        byte: u8,
    ) -> Result<Outputs, Trouble<'a>> {
        Ok(Outputs {
            transitions: filled(heap, transitions, byte)?,
            states: filled(heap, states, byte)?,
            rows: filled(heap, rows, byte)?,
        })
    }

    /// Trims a schema to the permitted symbols, bit i for symbol i, and gives the counts of the
    /// trimmed one.
    pub fn trim<D: Domain>(
        &mut self,
        schema: &Schema<D>,
        permitted: u32,
    ) -> Result<Counts, Refusal> {
        let (states, rows) = api::trim(
            schema,
            permitted,
            self.transitions.as_mut_slice(),
            self.states.as_mut_slice(),
            self.rows.as_mut_slice(),
        )?;
        Ok(Counts { states, rows })
    }

    /// Leaves of each output no more than the table at its front, by the counts of the trimmed
    /// schema.
    pub fn shorten(&mut self, symbols: usize, counts: Counts) {
        let Counts { states, rows } = counts;
        self.transitions.truncate(states.saturating_mul(symbols));
        self.states.truncate(states.saturating_mul(STATE_BYTES));
        self.rows
            .truncate(rows.saturating_mul(symbols.saturating_add(1)));
    }
}
