//! The law over every history of an area, on the call that makes areas.
#![tactic(auto)]

pub mod open;
