//! Schemas: the tables that a caller lends, their test, and the automaton that they lay out.
#![tactic(auto)]

pub mod faults;
pub mod live;
pub mod measured;
pub mod rows;
pub mod symbols;
pub mod tables;
pub mod tested;
