//! Cases on trimming: `trim NAME PERMITTED LENGTH LENGTH LENGTH`, with outputs that are filled
//! beforehand, so that each byte that was written is seen.
use crate::answer::Answer;
use crate::trees::Asked;
use api::{Domain, Refusal};
use notation::memory::Outputs;
use notation::schemas::Tables;
use notation::trouble::Trouble;
use notation::words::Words;

/// What each output is filled with.
pub const FILLING: u8 = 170;

/// Whether nothing was written to an output.
pub fn is_as_found(output: &[u8]) -> bool {
    output.iter().all(|byte| *byte == FILLING)
}

/// Whether nothing was written to any of the outputs.
fn are_as_found(outputs: &Outputs) -> bool {
    is_as_found(outputs.transitions.as_slice())
        && is_as_found(outputs.states.as_slice())
        && is_as_found(outputs.rows.as_slice())
}

/// What a schema is, trimmed to the symbols of a number, into three outputs of the lengths behind
/// it.
#[derive(Debug, Drop, PartialEq, Eq)]
pub struct Trim {
    permitted: u32,
    outputs: Outputs,
}

impl Asked for Trim {
    fn read<'a>(words: &mut Words<'a>) -> Result<Trim, Trouble<'a>> {
        let permitted = words.number()?;
        let transitions = words.number()? as usize;
        let states = words.number()? as usize;
        let rows = words.number()? as usize;
        let outputs = Outputs::new(words.heap, transitions, states, rows, FILLING)?;
        Ok(Trim { permitted, outputs })
    }

    fn answer<D: Domain>(self, tables: &Tables<D>) -> Result<Answer, Refusal> {
        let Trim {
            permitted,
            mut outputs,
        } = self;
        Ok(match outputs.trim(&tables.schema(), permitted) {
            Ok(counts) => Answer::Trimmed(counts, outputs),
            Err(refusal) => Answer::Untrimmed {
                refusal,
                as_found: are_as_found(&outputs),
            },
        })
    }
}
