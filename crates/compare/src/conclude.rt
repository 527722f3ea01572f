//! Concluding a comparison, and giving one up.
ghost use Rattle.compare.specs.Claims.{less_refused, RefusedBack};
ghost use Rattle.compare.specs.Concluding.{Conclusion, GivingUp};
ghost use Rattle.compare.specs.Laws.{ConcludeLaws, GiveUpLaws};

use crate::area::{Area, refusal};
use crate::claim::{ApartClaim, Claim, Held, Numbers};
use crate::event::{Decision, Event, decide};
use crate::phase::{Kind, Phase};
use refusal::fault::{Fault, Refusal};

/// What a comparison came to, with the count of pairs examined; apart comes with its kind and a
/// claim that holds the area on.
pub enum Concluded {
    Included(usize),
    Apart(Kind, usize, ApartClaim),
}

/// Concludes the comparison of a ready area. Included spends the claim and frees the area, apart
/// gives an apart claim for it. Or `foreign`, `ousted` or `early`, with the claim.
#[tactic(auto, using(crate::proofs::Laws::conclude_laws))]
pub fn conclude(area: &mut Area, claim: Claim) -> Result<Concluded, (Refusal, Claim)>
    ensures outcome { Conclusion area.old claim result area.new }
    ensures laws { ConcludeLaws }
{
    // no `?`: the claim goes back with the refusal
    if let Err(refusal) = area.permits_holder(claim.numbers()) {
        return Err((refusal, claim));
    }
    let examined = area.examined as usize;
    match decide(area.phase, Event::Conclude) {
        Decision::Release => {
            claim.spend();
            area.release();
            Ok(Concluded::Included(examined))
        }
        Decision::Part(kind) => {
            area.phase = Phase::Apart(kind);
            Ok(Concluded::Apart(kind, examined, claim.part()))
        }
        Decision::Refuse(fault) => Err((refusal(area, fault), claim)),
        Decision::Begin | Decision::Examine | Decision::Stay => unreachable!(),
    }
}

/// Gives a claim of any kind up. The holder's frees the area and answers 1, an ousted one's only
/// answers 0. Or `foreign`, with the claim.
// A number, as docs/area.md has it: 1 where this freed the area, and 0 where it did not.
#[tactic(auto, using(crate::proofs::Laws::give_up_laws))]
pub fn give_up<C: Held>(area: &mut Area, claim: C) -> Result<u32, (Refusal, C)>
    ensures outcome { GivingUp area.old
        (record { area = C.Held.area claim; serial = C.Held.turn claim })
        (less_refused result) area.new }
    ensures back { RefusedBack claim result }
    ensures laws { GiveUpLaws }
{
    let numbers = Numbers {
        area: claim.number(),
        serial: claim.serial(),
    };
    if numbers.area != area.number {
        return Err((refusal(area, Fault::Foreign), claim));
    }
    claim.spend();
    match decide(area.phase, Event::GiveUp) {
        Decision::Release if numbers.serial == area.serial => {
            area.release();
            Ok(1)
        }
        Decision::Release | Decision::Stay => Ok(0),
        Decision::Begin | Decision::Examine | Decision::Part(_) | Decision::Refuse(_) => {
            unreachable!()
        }
    }
}
