//! What is asked of an area, and what its phase and the question together decide.
ghost use Rattle.std.specs.Prelude.{◌≡◌};
ghost use Rattle.compare.specs.Phases.{decided};

use crate::phase::{Kind, Phase, Verdict};
use refusal::fault::Fault;

/// What is asked of an area: take and oust by anyone, giving up with any claim of the area, and the
/// rest by the holder, who is asked for first of all.
#[derive(Clone, Copy, Debug, PartialEq, Eq)]
pub enum Event {
    Take,
    Oust,
    Hold,
    Step,
    Conclude,
    Write,
    GiveUp,
}

/// What comes of it: a transition, a refusal, or no change.
#[derive(Clone, Copy, Debug, PartialEq, Eq)]
pub enum Decision {
    /// A comparison begins.
    Begin,
    /// Pairs are examined.
    Examine,
    /// The comparison ends, and the area is free.
    Release,
    /// The area is apart, by that kind.
    Part(Kind),
    /// The area stays as it is.
    Stay,
    /// Nothing is done.
    Refuse(Fault),
}

/// What a phase and an event decide together.
pub fn decide(phase: Phase, event: Event) -> Decision
    ensures { result ≡ decided phase event }
{
    match (phase, event) {
        (Phase::Free, Event::Take) => Decision::Begin,
        (_, Event::Take) => Decision::Refuse(Fault::Busy),
        (_, Event::Oust) => Decision::Begin,
        (Phase::Free, Event::GiveUp) => Decision::Stay,
        (Phase::Free, _) => Decision::Refuse(Fault::Ousted),
        (_, Event::GiveUp) => Decision::Release,
        (_, Event::Hold) => Decision::Stay,
        (Phase::Running, Event::Step) => Decision::Examine,
        (_, Event::Step) => Decision::Stay,
        (Phase::Ready(Verdict::Included), Event::Conclude) => Decision::Release,
        (Phase::Ready(Verdict::Apart(kind)), Event::Conclude) => Decision::Part(kind),
        (Phase::Apart(_), Event::Write) => Decision::Stay,
        (_, _) => Decision::Refuse(Fault::Early),
    }
}
