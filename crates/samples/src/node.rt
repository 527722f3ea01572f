//! The nodes of trees that are written: what one begins with, and the key of one that writing is
//! in.

use search::word::Word;

/// What a node begins with: its value, and its children's symbols, of which there are at most N.
#[derive(Clone, Copy)]
pub struct Node<const N: usize> {
    pub value: u32,
    pub word: Word<N>,
}

/// The key of a node: the place of its pair in a list of pairs, or the state that it is the sample
/// of.
#[derive(Clone, Copy, Debug, PartialEq, Eq)]
pub enum NodeKey {
    Pair(u16),
    State(u8),
}
