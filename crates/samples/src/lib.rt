//! Samples: one small tree for each live state of a schema, what each begins with, its length in
//! bytes, and its bytes.
#![tactic(auto)]

pub mod node;
pub mod output;
pub mod samples;
pub mod size;
pub mod writing;
