//! What checking keeps for each node.

/// A node's state, and the row that its children's symbols have led to.
#[derive(Clone, Copy, Debug, PartialEq, Eq)]
pub struct Cursor {
    pub state: u8,
    pub row: u8,
}
