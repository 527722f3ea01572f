//! Shortest sequences of symbols at a state of a schema, for any question that a small watcher can
//! put.
#![tactic(auto)]

pub mod pairs;
mod reading;
pub mod search;
pub mod slots;
#[cfg(test)]
mod tests;
mod visited;
pub mod watcher;
pub mod watchers;
pub mod word;
