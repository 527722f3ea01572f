//! Sets of numbers below 64, one a bit: states, rows, symbols and keywords.
#![tactic(auto)]

pub mod gathering;
pub mod sets;
