//! The work area: one comparison at a time, with the pairs that it has listed and how many of them
//! are examined.
ghost use Rattle.refusal.specs.Order.{Refuses};
ghost use Rattle.std.specs.Prelude.{◌≡◌, false, ◌==◌};
ghost use Rattle.compare.specs.Beginning.{begin_kept_from};
ghost use Rattle.compare.specs.Concluding.{claim_refusal};
ghost use Rattle.compare.specs.Refusals.{phase_refuses, holder_refusal};
ghost use Rattle.compare.specs.Schemas.{begun_by};
ghost use Rattle.schema.specs.Meaning.{tables_of};
ghost use Rattle.compare.specs.View.{view, free};

use crate::claim::{Claim, Numbers};
use crate::compared::Compared;
use crate::event::{Decision, Event, decide};
use crate::pairs::{Pairs, START};
use crate::phase::{Phase, Verdict};
use bits::sets::has_member;
use refusal::fault::{Fault, Refusal};
use schema::tested::Tested;

/// A work area. Its view says all: nothing stays in it of an earlier comparison.
// No model whose value is the view: a refusal leaves the whole area as found, which contracts
// say of the area itself, so both would be written.
#[derive(Drop)]
pub struct Area {
    pub(crate) number: u32,
    pub(crate) serial: u32,
    pub(crate) phase: Phase,
    pub(crate) symbols: u8,
    pub(crate) pairs: Pairs,
    pub(crate) examined: u16,
}

/// The last serial, which can't be raised.
pub const LAST_SERIAL: u32 = u32::MAX;

/// A free area with that number.
// No method of the type, nor is any other call that only our own crates may make: callers get the
// type with its methods.
pub fn free_area(number: u32) -> Area
    ensures { view result ≡ free number 0 }
{
    Area {
        number,
        serial: 0,
        phase: Phase::Free,
        symbols: 0,
        pairs: Pairs::blank(0, 0),
        examined: 0,
    }
}

/// A refusal whose place is the area's serial.
pub fn refusal(area: &Area, fault: Fault) -> Refusal
    ensures { result ≡ record { fault = fault; place = area.now.serial } }
{
    fault.at(area.serial as usize)
}

impl Area {
    /// Refuses what the phase refuses of an event.
    pub(crate) fn permits(&self, event: Event) -> Result<(), Refusal>
        ensures { Refuses (phase_refuses (view self.now) event) result }
    {
        match decide(self.phase, event) {
            Decision::Refuse(fault) => Err(refusal(self, fault)),
            Decision::Begin
            | Decision::Examine
            | Decision::Release
            | Decision::Part(_)
            | Decision::Stay => Ok(()),
        }
    }

    /// Refuses what keeps two schemas from being compared here: `symbols`, `busy` or `worn`.
    pub(crate) fn permits_start<D>(
        &self,
        first: &Tested<D>,
        second: &Tested<D>,
        event: Event,
    ) -> Result<(), Refusal>
        ensures { Refuses
            (begin_kept_from (view self.now) (tables_of first.now) (tables_of second.now) event)
            result }
    {
        if first.symbols() != second.symbols() {
            return Err(refusal(self, Fault::Symbols));
        }
        self.permits(event)?;
        if self.serial == LAST_SERIAL {
            return Err(refusal(self, Fault::Worn));
        }
        Ok(())
    }

    /// Begins a comparison of two schemas. Nothing earlier stays.
    pub(crate) fn start<D>(&mut self, compared: &Compared<D>)
        requires { (self.old.serial == LAST_SERIAL) ≡ false }
        ensures { view self.new ≡ begun_by compared.now (view self.old) }
    {
        self.serial += 1;
        self.symbols = compared.first.symbols() as u8;
        self.examined = 0;
        self.pairs.begin(
            compared.first.states() as u8,
            compared.second.states() as u8,
        );
        if has_member(compared.live, 0) {
            self.pairs.list(START);
            self.phase = Phase::Running;
        } else {
            self.phase = Phase::Ready(Verdict::Included);
        }
    }

    /// The claim that holds the area.
    pub(crate) fn claim(&self) -> Claim
        ensures { result.numbers ≡ record { area = self.now.number; serial = self.now.serial } }
    {
        Claim::new(Numbers {
            area: self.number,
            serial: self.serial,
        })
    }

    /// Refuses numbers that are not the holder's: `foreign` or `ousted`.
    pub(crate) fn permits_holder(&self, claim: Numbers) -> Result<(), Refusal>
        ensures { Refuses (holder_refusal (view self.now) claim) result }
    {
        if claim.area != self.number {
            return Err(refusal(self, Fault::Foreign));
        }
        if claim.serial != self.serial {
            return Err(refusal(self, Fault::Ousted));
        }
        self.permits(Event::Hold)
    }

    /// Refuses what is refused of the claim with these numbers: `foreign`, `ousted`, or what the
    /// phase refuses.
    pub(crate) fn permits_claim(&self, claim: Numbers, event: Event) -> Result<(), Refusal>
        ensures { Refuses (claim_refusal (view self.now) claim event) result }
    {
        self.permits_holder(claim)?;
        self.permits(event)
    }

    /// Frees the area: nothing of the comparison stays.
    pub(crate) fn release(&mut self)
        ensures { view self.new ≡ free self.old.number self.old.serial }
    {
        self.phase = Phase::Free;
        self.symbols = 0;
        self.examined = 0;
        self.pairs.begin(0, 0);
    }
}
