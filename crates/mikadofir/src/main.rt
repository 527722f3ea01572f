//! The program: does the jobs that lie in the folder it is run in, one after the other, and prints
//! what took place.
#![tactic(auto)]

use crate::domains::Domains;
use crate::live::Live;
use crate::ousting::Ousting;
use crate::trees::Trees;
use crate::trimming::Trim;

mod answers;
mod claims;
mod domains;
mod job;
mod live;
mod ousting;
mod sides;
mod trees;
mod trimming;

/// The job on domains: a line for each pair of a maker's and an engine's.
const DOMAINS: &'static str = "domains.txt";

/// The job on trees: a line for each schema and each tree.
const TREES: &'static str = "trees.txt";

/// The job on live states: a line for each schema.
const LIVE: &'static str = "live.txt";

/// The job on trimming: a line for each schema with the symbols that it is trimmed to.
const TRIM: &'static str = "trim.txt";

/// The job on comparing: a line for each schema of a book or an engine, and several for each engine
/// that a comparison is ousted for.
const COMPARE: &'static str = "compare.txt";

/// Does each task in turn.
fn run(rt: &HostRuntime) -> anyhow::Result<()> {
    job::run(rt, &mut Domains, DOMAINS)?;
    job::run(rt, &mut Trees::new(), TREES)?;
    job::run(rt, &mut Live, LIVE)?;
    job::run(rt, &mut Trim, TRIM)?;
    job::run(rt, &mut Ousting::new(), COMPARE)?;
    Ok(())
}

fn main(rt: HostRuntime) -> anyhow::Result<()> {
    run(&rt)
}
