//! What an area is at: its phase, the verdict of a ready one, and the kind of an apart.

/// How a pair of states is broken: in value or in content.
#[derive(Clone, Copy, Debug, PartialEq, Eq)]
pub enum Kind {
    Value,
    Content,
}

/// What a comparison comes to: every tree of the first schema is accepted by the second, or some
/// tree is not.
#[derive(Clone, Copy, Debug, PartialEq, Eq)]
pub enum Verdict {
    Included,
    Apart(Kind),
}

/// What an area is at: no comparison, one under way, one with its verdict, one concluded apart.
#[derive(Clone, Copy, Debug, PartialEq, Eq)]
pub enum Phase {
    Free,
    Running,
    Ready(Verdict),
    Apart(Kind),
}
