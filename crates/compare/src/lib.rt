//! Comparing: is every tree that the first schema accepts accepted by the second? Pair by pair of
//! states, in a work area.
#![tactic(auto)]

pub mod area;
pub mod begin;
mod broken;
pub mod claim;
pub mod compared;
pub mod conclude;
pub mod event;
pub mod pairs;
pub mod phase;
pub mod step;
pub mod trail;
pub mod writing;
