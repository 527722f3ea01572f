//! Trimming: the schema over permitted symbols, without the states that no accepted tree needs.
#![tactic(auto)]

ghost use Rattle.bits.specs.Bits.{bit};
ghost use Rattle.schema.specs.Tables.{tables, sets};
ghost use Rattle.trim.specs.Law.{TrimLaws};
ghost use Rattle.trim.specs.Outcome.{outputs, Outcome};

use crate::tables::Outputs;
use crate::trimming::Trimming;
use domain::domain::Domain;
use refusal::fault::{Fault, Refusal};
use schema::tables::Schema;
use schema::tested::Tested;

mod kept;
mod tables;
mod trimming;

/// Writes the schema over the permitted symbols, bit i for symbol i, at the fronts of the three
/// outputs, and gives its state count and row count; or the refusal of the tables, `nothing` or
/// `room`, and then the outputs are as they were.
#[tactic(auto, using(crate::proofs::Law::trim_laws))]
pub fn trim<D: Domain>(
    schema: &Schema<D>,
    permitted: u32,
    transitions: &mut [u8],
    states: &mut [u8],
    rows: &mut [u8],
) -> Result<(usize, usize), Refusal>
    ensures outcome { Outcome (tables schema.now) (sets D.Domain.holds schema.now) (bit permitted)
        (outputs transitions.old states.old rows.old) result
        (outputs transitions.new states.new rows.new) }
    ensures laws { TrimLaws }
{
    let tested = Tested::new(schema)?;
    let trimming = Trimming::new(&tested, u64::from(permitted))?;
    let mut outputs = Outputs {
        transitions,
        states,
        rows,
    };
    if !trimming.has_room(&outputs) {
        return Err(Fault::Room.at(0));
    }
    Ok(trimming.write_tables(&mut outputs))
}
