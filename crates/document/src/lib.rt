//! Documents: the tree that tells two schemas apart, written along the path to a broken pair.
#![tactic(auto)]

pub mod counterexample;
pub mod document;
pub mod trace;
pub mod write;
