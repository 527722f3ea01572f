//! Value domains: fixed sets of values that say what they have, their least value, and what another
//! lacks.
#![tactic(auto)]

pub mod coverage;
pub mod domain;
pub mod joint;
pub mod keywords;
