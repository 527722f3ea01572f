//! What a reader hands out, and what it keeps for each node that it is in.

/// One step of a walk over a tree. A value and a symbol come with their bytes of the input, a
/// value's with those of its child count.
#[derive(Clone, Copy, Debug, PartialEq, Eq)]
pub enum Item<'i> {
    Value(u32, u32, &'i [u8]),
    Symbol(u32, &'i [u8]),
    End,
}

/// A node on the way down: how many of its children are left to read, and what the caller keeps
/// beside that.
#[derive(Clone, Copy, Debug, PartialEq, Eq)]
pub struct Level<S> {
    pub left: u32,
    pub at: S,
}
