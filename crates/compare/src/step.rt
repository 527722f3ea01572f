//! Examining the listed pairs, one after the other.
ghost use Rattle.refusal.specs.Order.{Refuses};
ghost use Rattle.std.specs.Prelude.{◌≡◌, ℕ, ◌<◌, length, if◌then◌else◌};
ghost use Rattle.schema.specs.Meaning.{tables_of, symbols_of};
ghost use Rattle.schema.specs.Tables.{tables, sets};
ghost use Rattle.bits.specs.Bits.{bit};
ghost use Rattle.compare.specs.Examining.{next_of, nexts_of, GoesOnIn, TurnIn, SteppedIn};
ghost use Rattle.compare.specs.Laws.{StepLaws};
ghost use Rattle.compare.specs.Listing.{entries_of};
ghost use Rattle.compare.specs.Refusals.{same_counts, held_kept_from};
ghost use Rattle.compare.specs.Schemas.{StatePair, MarksLive, Noted, Inside};
ghost use Rattle.compare.specs.Stepping.{Stepping, step_kept_from, is_running};
ghost use Rattle.compare.specs.View.{view};

use crate::area::{Area, refusal};
use crate::claim::Numbers;
use crate::compared::Compared;
use crate::event::{Decision, Event, decide};
use crate::pairs::{Listed, PLACES, Pairs};
use crate::phase::{Phase, Verdict};
use bits::sets::has_member;
use domain::domain::Domain;
use refusal::fault::{Fault, Refusal};
use schema::live::ALL_SYMBOLS;
use schema::tables::Schema;
use schema::tested::Tested;
use search::pairs::RowPair;
use search::slots::RowSlots;

/// The most pairs that a step may ask for: as many as there are.
pub const MOST_STEPS: u32 = PLACES as u32;

/// A listed pair, its place in the list, and the symbols live at its first state.
#[derive(Clone, Copy, Debug, PartialEq, Eq)]
struct Leading {
    pair: Listed,
    place: u16,
    symbols: u64,
}

impl Leading {
    /// The pair that it leads to under a symbol: that of the next states, where the symbol is live
    /// and both are there.
    fn next<D: Domain>(self, compared: &Compared<D>, symbol: u8) -> Option<Listed>
        ensures { result ≡
            next_of D.Domain.holds compared.now self.pair self.place
            (bit self.symbols symbol) symbol }
    {
        if !has_member(self.symbols, symbol) {
            return None;
        }
        let first = compared.first.next_state(self.pair.first, symbol)?;
        let second = compared.second.next_state(self.pair.second, symbol)?;
        Some(Listed {
            first,
            second,
            parent: self.place,
            symbol,
        })
    }

    /// Lists the pairs that it leads to, by ascending symbols.
    fn list_nexts<D: Domain>(self, compared: &Compared<D>, pairs: &mut Pairs)
        ensures firsts { pairs.new.firsts ≡ pairs.old.firsts }
        ensures seconds { pairs.new.seconds ≡ pairs.old.seconds }
        ensures entries { Inside compared.now pairs.old →
            StatePair compared.now self.pair.first self.pair.second →
            self.place < length (entries_of pairs.old) →
            entries_of pairs.new ≡
            nexts_of D.Domain.holds compared.now self.pair self.place
            (bit self.symbols) (symbols_of compared.now.first.now) (entries_of pairs.old) }
    {
        for symbol in 0..compared.first.symbols() {
            if let Some(next) = self.next(compared, symbol as u8) {
                pairs.list(next);
            }
        }
    }
}

impl Area {
    /// Lists what an unbroken pair leads to; the pair is at a place of the list. The verdict stands
    /// where no pair is left behind it.
    fn go_on<D: Domain>(&mut self, compared: &Compared<D>, pair: Listed, place: u16)
        ensures { Noted compared.now (view self.old) → MarksLive D.Domain.holds compared.now →
            StatePair compared.now pair.first pair.second →
            place < length (entries_of self.old.pairs) →
            GoesOnIn D.Domain.holds compared.now (view self.old) pair place (view self.new) }
    {
        let symbols = compared
            .first
            .live_symbols(pair.first, compared.live, ALL_SYMBOLS);
        let leading = Leading {
            pair,
            place,
            symbols,
        };
        leading.list_nexts(compared, &mut self.pairs);
        self.phase = if place as usize + 1 == self.pairs.length() {
            Phase::Ready(Verdict::Included)
        } else {
            Phase::Running
        };
    }

    /// Examines the next pair of the list; where none is left, the area is ready with included.
    fn examine<D: Domain>(&mut self, compared: &Compared<D>, slots: &mut RowSlots)
        ensures { Noted compared.now (view self.old) → MarksLive D.Domain.holds compared.now →
            TurnIn D.Domain.holds compared.now (view self.old) (view self.new) }
    {
        let Some(pair) = self.pairs.entry(self.examined as usize) else {
            self.phase = Phase::Ready(Verdict::Included);
            return;
        };
        let place = self.examined;
        if let Some(kind) = compared.broken(pair.first, pair.second, slots) {
            self.phase = Phase::Ready(Verdict::Apart(kind));
        } else {
            self.go_on(compared, pair, place);
        }
        self.examined = place + 1;
    }

    /// Examines up to so many pairs, until the verdict stands.
    fn examine_up_to<D: Domain>(&mut self, compared: &Compared<D>, steps: u32, slots: &mut RowSlots)
        ensures { Noted compared.now (view self.old) → MarksLive D.Domain.holds compared.now →
            SteppedIn D.Domain.holds compared.now steps (view self.old) (view self.new) }
    {
        for _ in 0..steps {
            if let Decision::Examine = decide(self.phase, Event::Step) {
                self.examine(compared, slots);
            } else {
                return;
            }
        }
    }

    /// The row pairs for a step, or what keeps two schemas from it: `symbols`, `foreign`, `ousted`,
    /// `schemas`, `steps` or `scratch`.
    fn permits_step<'a, D>(
        &self,
        first: &Tested<D>,
        second: &Tested<D>,
        claim: Numbers,
        steps: u32,
        scratch: &'a mut [RowPair],
    ) -> Result<RowSlots<'a>, Refusal>
        ensures { Refuses
            (step_kept_from (view self.now) (tables_of first.now) (tables_of second.now)
            claim steps (length scratch.old))
            result }
    {
        self.permits_held(first, second, claim)?;
        if steps == 0 || steps > MOST_STEPS {
            return Err(refusal(self, Fault::Steps));
        }
        RowSlots::new(scratch)
    }

    /// Refuses what keeps two schemas from what the holder of the claim asks: `symbols`, `foreign`,
    /// `ousted` or `schemas`.
    pub(crate) fn permits_held<D>(
        &self,
        first: &Tested<D>,
        second: &Tested<D>,
        claim: Numbers,
    ) -> Result<(), Refusal>
        ensures { Refuses
            (held_kept_from (view self.now) (tables_of first.now) (tables_of second.now) claim)
            result }
    {
        if first.symbols() != second.symbols() {
            return Err(refusal(self, Fault::Symbols));
        }
        self.permits_holder(claim)?;
        if !self.has_noted(first, second) {
            return Err(refusal(self, Fault::Schemas));
        }
        Ok(())
    }

    /// Whether the noted counts are those of the two schemas.
    fn has_noted<D>(&self, first: &Tested<D>, second: &Tested<D>) -> bool
        ensures { result ≡
            same_counts (view self.now) (tables_of first.now) (tables_of second.now) }
    {
        let same_symbols = self.symbols as usize == first.symbols();
        let same_firsts = self.pairs.firsts() as usize == first.states();
        let same_seconds = self.pairs.seconds() as usize == second.states();
        same_symbols && (same_firsts && same_seconds)
    }

    /// 1 where the verdict stands, and 0 while the area runs.
    // Two numbers, as docs/area.md has it: the pairs examined, and 1 where the verdict stands or
    // else 0.
    fn mark(&self) -> u32
        ensures { result ≡ (if is_running self.now.phase then 0 else 1) }
    {
        u32::from(self.phase != Phase::Running)
    }
}

/// Examines up to that many pairs in the order of the list, until the verdict stands: how many it
/// examined, and 1 where the verdict stands, else 0. The claim is told by its two numbers. Or
/// `size`, `state`, `row`, `domain`, `symbols`, `foreign`, `ousted`, `schemas`, `steps` or
/// `scratch`, and the area is as it was. The row pairs hold anything afterwards.
#[tactic(auto, using(crate::proofs::Laws::step_laws))]
pub fn step<D: Domain>(
    area: &mut Area,
    claim: Numbers,
    first: &Schema<D>,
    second: &Schema<D>,
    steps: u32,
    scratch: &mut [RowPair],
) -> Result<(u32, u32), Refusal>
    ensures outcome { Stepping (tables first.now) (tables second.now)
        (sets D.Domain.holds first.now) (sets D.Domain.holds second.now)
        claim steps (length scratch.old) area.old result area.new }
    ensures laws { StepLaws }
{
    let (first, second) = Tested::both(first, second)?;
    let mut slots = area.permits_step(&first, &second, claim, steps, scratch)?;
    let before = area.examined;
    area.examine_up_to(&Compared::of(&first, &second), steps, &mut slots);
    let count = u32::from(area.examined.saturating_sub(before));
    Ok((count, area.mark()))
}
