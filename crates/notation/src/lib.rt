//! The text forms of the programs, words split at blanks: domains, schemas, bytes and sets of
//! symbols as they are read, answers as they are printed, and the memory that the programs lend to
//! calls.
#![tactic(auto)]

pub mod answers;
pub mod domains;
pub mod lists;
pub mod memory;
pub mod schemas;
pub mod sets;
#[cfg(test)]
mod tests;
pub mod trouble;
pub mod words;
