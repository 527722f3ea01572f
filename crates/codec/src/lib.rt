//! The tree encoding: numbers and trees as bytes, the pile that a walk over a tree keeps its levels
//! in, and the reader of items.
#![tactic(auto)]

pub mod item;
pub mod number;
pub mod pile;
pub mod reader;
