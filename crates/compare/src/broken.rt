//! Whether a pair of states is broken: in value or in content.
ghost use Rattle.std.specs.Prelude.{◌≡◌, Some, Decides};
ghost use Rattle.domain.specs.Sets.{Smallest};
ghost use Rattle.compare.specs.declared.phase.Kind.TheVariants.{Value, Content};
ghost use Rattle.compare.specs.Laws.{PairLaws};
ghost use Rattle.compare.specs.Schemas.{StatePair, MarksLive, gap_values, BrokenIn, BrokenOrNot};

use crate::compared::Compared;
use crate::phase::Kind;
use domain::domain::Domain;
use search::pairs::ROW_PAIRS;
use search::search::Question;
use search::slots::RowSlots;
use search::watchers::Refused;

impl<D: Domain> Compared<'_, '_, '_, '_, D> {
    /// The smallest value that the first state's domain has and the second's has not.
    pub fn gap(&self, p: u8, q: u8) -> Option<u32>
        ensures { Smallest (gap_values D.Domain.holds self.now p q) result }
    {
        let values = self.first.domain(p)?;
        match self.second.domain(q) {
            Some(others) => values.gap(others),
            None => values.least(),
        }
    }

    /// Whether a sequence that is live at the first state is not allowed at the second.
    fn is_content_broken(&self, p: u8, q: u8, slots: &mut RowSlots) -> bool
        ensures { StatePair self.now p q → MarksLive D.Domain.holds self.now →
            Decides result (BrokenIn D.Domain.holds self.now Content p q) }
    {
        let question = Question {
            tested: self.first,
            state: p,
            symbols: self.first.symbols_into(p, self.live),
            watcher: &Refused::new(self.second, q),
        };
        question.shortest::<ROW_PAIRS>(slots).is_some()
    }

    /// How the pair of states is broken, in value before content, or none where it is not.
    #[tactic(auto, using(crate::proofs::Laws::pair_laws))]
    pub fn broken(&self, p: u8, q: u8, slots: &mut RowSlots) -> Option<Kind>
        ensures answer { StatePair self.now p q → MarksLive D.Domain.holds self.now →
            BrokenOrNot D.Domain.holds self.now p q result }
        ensures order { result ≡ Some Content → BrokenIn D.Domain.holds self.now Value p q → ⊥ }
        ensures laws { PairLaws }
    {
        if self.gap(p, q).is_some() {
            return Some(Kind::Value);
        }
        if self.is_content_broken(p, q, slots) {
            return Some(Kind::Content);
        }
        None
    }
}
