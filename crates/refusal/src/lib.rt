//! Why a call says no: the faults, the layer each belongs to, its word, and the refusal that
//! carries one up.
#![tactic(auto)]

pub mod fault;
pub mod show;
#[cfg(test)]
mod tests;
pub mod words;
