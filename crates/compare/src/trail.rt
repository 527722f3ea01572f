//! The trail to the broken pair of a comparison that came out apart.
ghost use Rattle.std.specs.Prelude.{◌≡◌, ℕ, ◌≤◌, List, length};
ghost use Rattle.compare.specs.Claims.{less_claim, ComesBack};
ghost use Rattle.compare.specs.Laws.{TrailLaws};
ghost use Rattle.compare.specs.Listing.{entries_of};
ghost use Rattle.compare.specs.Trailing.{Trail, Trailing, TrailWritten, led_to, broken_index};
ghost use Rattle.compare.specs.View.{view};

use crate::area::Area;
use crate::claim::{ConcludedApart, Lease};
use crate::event::Event;
use crate::pairs::{Listed, Pairs};
use refusal::fault::{Fault, Refusal};

/// The pair at an index, where the pair that led to it stands before it.
pub fn led_to(pairs: &Pairs, index: usize) -> Option<Listed>
    ensures { result ≡ led_to (entries_of pairs.now) index }
{
    pairs
        .entry(index)
        .filter(|pair| (pair.parent as usize) < index)
}

/// How many symbols the trail of a listed pair has.
fn trail_length(pairs: &Pairs, index: usize) -> usize
    ensures most { result ≤ index }
    ensures count { (w : List ℕ) → Trail (entries_of pairs.now) index w → result ≡ length w }
{
    match led_to(pairs, index) {
        Some(pair) => trail_length(pairs, pair.parent as usize) + 1,
        None => 0,
    }
}

/// Writes the trail of a listed pair at the output's front, where it has room, and gives the place
/// after it.
fn write_trail(pairs: &Pairs, index: usize, output: &mut [u8]) -> usize
    ensures most { result ≤ index }
    ensures written { TrailWritten (entries_of pairs.now) index output.old result output.new }
{
    match led_to(pairs, index) {
        Some(pair) => {
            let place = write_trail(pairs, pair.parent as usize, output);
            if place < output.len() {
                output[place] = pair.symbol;
            }
            place + 1
        }
        None => 0,
    }
}

/// The index of the broken pair: the one that was examined last.
pub(crate) fn broken_index(area: &Area) -> usize
    ensures { result ≡ broken_index (view area.now) }
{
    let last = area.examined.saturating_sub(1) as usize;
    if last < area.pairs.length() { last } else { 0 }
}

/// Writes the symbols that lead from the pair (0, 0) to the broken pair at the output's front, a
/// byte each, and tells how many. Or `foreign`, `ousted`, `early` or `room`. The claim comes back
/// either way.
#[tactic(auto, using(crate::proofs::Laws::trail_laws))]
pub fn trail<S: ConcludedApart>(
    area: &Area,
    claim: Lease<S>,
    output: &mut [u8],
) -> Result<(usize, Lease<S>), (Refusal, Lease<S>)>
    ensures outcome { Trailing area.now claim.numbers output.old (less_claim result) output.new }
    ensures back { ComesBack claim result }
    ensures laws { TrailLaws }
{
    // no `?`: the claim goes back with the refusal
    if let Err(refusal) = area.permits_claim(claim.numbers(), Event::Write) {
        return Err((refusal, claim));
    }
    let index = broken_index(area);
    let needed = trail_length(&area.pairs, index);
    if output.len() < needed {
        return Err((Fault::Room.at(needed), claim));
    }
    let written = write_trail(&area.pairs, index, output);
    Ok((written, claim))
}
