//! What a maker's book may hold against what an engine can set, and then, before that is decided,
//! against what another can set, in one area: `book NAME TABLES` and `engine NAME TABLES`, each in
//! force until the next, and `oust NAME TABLES`, the other engine.
use crate::answers::{Answer, Stepped, Written};
use crate::claims::given_up;
use crate::domains::Book;
use crate::job::Task;
use crate::sides::{Document, Scratch, Sides};
use api::{
    ApartClaim, Area, Claim, Concluded, LONGEST, MOST_STEPS, Numbers, Refusal, Schema, Verdict,
    conclude, open, oust, take, trail,
};
use notation::answers::{ClaimNumbers, Finding};
use notation::memory::filled;
use notation::schemas::Tables;
use notation::trouble::Trouble;
use notation::words::Words;
use std::alloc::Global;
use std::fmt;

/// The number of the area.
const AREA: u32 = 1;

/// How many pairs the first comparison examines before it is ousted.
const FEW: u32 = 1;

/// Room for the longest trail: it has fewer symbols than pairs are listed.
const TRAIL_BYTES: usize = MOST_STEPS as usize;

/// Outputs for what is written of a comparison that came out apart.
#[derive(Drop)]
struct Outputs {
    trail: Vec<u8>,
    document: Vec<u8>,
}

impl Outputs {
    /// Enough for any comparison.
    fn new<'a>(heap: Global) -> Result<Outputs, Trouble<'a>> {
        Ok(Outputs {
            trail: filled(heap, TRAIL_BYTES, 0)?,
            document: filled(heap, LONGEST as usize, 0)?,
        })
    }
}

/// What is written of a comparison that came out apart.
#[derive(Drop)]
struct Writings {
    trail: Answer<Written>,
    document: Answer<Document>,
}

/// What the calls that ended a comparison came to: conclude, what is written where it was apart,
/// and giving up where a claim was left.
#[derive(Drop)]
struct Ending {
    claim: Numbers,
    concluded: Answer<Finding>,
    writings: Option<Writings>,
    given_up: Option<Answer<u32>>,
}

/// Concludes a comparison of two schemas, and leaves no claim of it behind.
fn end(
    area: &mut Area,
    claim: Claim,
    sides: Sides,
    scratch: &mut Scratch,
    outputs: Outputs,
) -> Ending {
    let numbers = claim.numbers();
    match conclude(area, claim) {
        Err((refusal, claim)) => Ending {
            claim: numbers,
            concluded: Answer(Err(refusal)),
            writings: None,
            given_up: Some(Answer(given_up(area, claim))),
        },
        Ok(Concluded::Included(examined)) => Ending {
            claim: numbers,
            concluded: found(Verdict::Included, examined),
            writings: None,
            given_up: None,
        },
        Ok(Concluded::Apart(kind, examined, claim)) => {
            let (trail, claim) = trail_of(area, claim, outputs.trail);
            let document = sides.document(area, numbers, scratch, outputs.document);
            Ending {
                claim: numbers,
                concluded: found(Verdict::Apart(kind), examined),
                writings: Some(Writings { trail, document }),
                given_up: Some(Answer(given_up(area, claim))),
            }
        }
    }
}

/// What an accepted conclude says.
fn found(verdict: Verdict, examined: usize) -> Answer<Finding> {
    Answer(Ok(Finding { verdict, examined }))
}

/// The trail of a comparison that came out apart, with the claim.
fn trail_of(area: &Area, claim: ApartClaim, mut output: Vec<u8>) -> (Answer<Written>, ApartClaim) {
    match trail(area, claim, output.as_mut_slice()) {
        Ok((length, claim)) => (Answer(Ok(Written::front(output, length))), claim),
        Err((refusal, claim)) => (Answer(Err(refusal)), claim),
    }
}

impl fmt::Display for Ending {
    fn fmt<W: fmt::Write>(&self, f: &mut fmt::Formatter<W>) -> fmt::Result {
        let claim = ClaimNumbers(self.claim);
        write!(f, "\n  conclude, {claim}: {}", self.concluded)?;
        if let Some(Writings { trail, document }) = &self.writings {
            write!(f, "\n  trail, {claim}: {trail}")?;
            write!(f, "\n  document, {claim}: {document}")?;
        }
        if let Some(answer) = &self.given_up {
            write!(f, "\n  give up, {claim}: {answer}")?;
        }
        Ok(())
    }
}

/// What the calls of the two comparisons came to, in their order.
#[derive(Drop)]
pub struct Calls {
    earlier: Numbers,
    few: Answer<Stepped>,
    later: Numbers,
    late: Answer<Stepped>,
    ousted: Ending,
    rest: Answer<Stepped>,
    ended: Ending,
}

impl fmt::Display for Calls {
    fn fmt<W: fmt::Write>(&self, f: &mut fmt::Formatter<W>) -> fmt::Result {
        let (earlier, later) = (ClaimNumbers(self.earlier), ClaimNumbers(self.later));
        write!(f, "area {AREA}")?;
        write!(f, "\n  take: {earlier}")?;
        write!(f, "\n  step, {earlier}: {}", self.few)?;
        write!(f, "\n  oust: {later}")?;
        write!(f, "\n  step, {earlier}: {}", self.late)?;
        write!(f, "{}", self.ousted)?;
        write!(f, "\n  step, {later}: {}", self.rest)?;
        write!(f, "{}", self.ended)
    }
}

/// What the calls need beside the area: scratch, and outputs for each of the two comparisons.
#[derive(Drop)]
struct Lent {
    scratch: Scratch,
    first: Outputs,
    second: Outputs,
}

impl Lent {
    /// Enough for any two comparisons.
    fn new<'a>(heap: Global) -> Result<Lent, Trouble<'a>> {
        Ok(Lent {
            scratch: Scratch::new(heap)?,
            first: Outputs::new(heap)?,
            second: Outputs::new(heap)?,
        })
    }
}

/// Begins a comparison, ousts it with another after a few pairs, and ends both. Where the other
/// can't begin, the first is given up.
fn compare_twice(
    area: &mut Area,
    first: Sides,
    second: Sides,
    lent: Lent,
) -> Result<Calls, Refusal> {
    let mut scratch = lent.scratch;
    let claim = take(area, &first.book, &first.engine)?;
    let earlier = claim.numbers();
    let few = first.step(area, earlier, FEW, &mut scratch);
    // the first claim is spent before the refusal goes on
    let holder = match oust(area, &second.book, &second.engine) {
        Ok(holder) => holder,
        Err(refusal) => {
            given_up(area, claim)?;
            return Err(refusal);
        }
    };
    let later = holder.numbers();
    let late = first.step(area, earlier, FEW, &mut scratch);
    let ousted = end(area, claim, first, &mut scratch, lent.first);
    let rest = second.step(area, later, MOST_STEPS, &mut scratch);
    let ended = end(area, holder, second, &mut scratch, lent.second);
    Ok(Calls {
        earlier,
        few,
        later,
        late,
        ousted,
        rest,
        ended,
    })
}

/// What a line comes to.
#[derive(Drop)]
pub enum Outcome {
    /// The schema is in force.
    InForce,
    /// The calls and their answers.
    Called(Calls),
}

impl fmt::Display for Outcome {
    fn fmt<W: fmt::Write>(&self, f: &mut fmt::Formatter<W>) -> fmt::Result {
        match self {
            Outcome::InForce => write!(f, "in force"),
            Outcome::Called(calls) => write!(f, "{calls}"),
        }
    }
}

/// The schema of the next words, which are the last.
fn whole<'a>(words: &mut Words<'a>) -> Result<Tables<Book>, Trouble<'a>> {
    let tables = Tables::read(words)?;
    words.end()?;
    Ok(tables)
}

/// Puts the schema of the next words in force. Where they say none, none is in force.
fn enforce<'a>(place: &mut Option<Tables<Book>>, words: &mut Words<'a>) -> Result<(), Trouble<'a>> {
    *place = None;
    *place = Some(whole(words)?);
    Ok(())
}

/// The task: the one area, and the schemas in force, where there are some.
#[derive(Drop)]
pub struct Ousting {
    area: Area,
    book: Option<Tables<Book>>,
    engine: Option<Tables<Book>>,
}

impl Ousting {
    /// The task, with a free area and no schema in force.
    pub fn new() -> Ousting {
        Ousting {
            area: open(AREA),
            book: None,
            engine: None,
        }
    }
}

/// The calls that compare a book with an engine, and then with the engine of the next words.
fn called<'a>(
    area: &mut Area,
    book: Schema<Book>,
    engine: Schema<Book>,
    words: &mut Words<'a>,
) -> Result<Calls, Trouble<'a>> {
    let other = whole(words)?;
    let lent = Lent::new(words.heap)?;
    let first = Sides { book, engine };
    let second = Sides {
        book,
        engine: other.schema(),
    };
    Ok(compare_twice(area, first, second, lent)?)
}

impl Task for Ousting {
    type Outcome = Outcome;

    fn outcome<'a>(
        &mut self,
        kind: &'a str,
        words: &mut Words<'a>,
    ) -> Result<Outcome, Trouble<'a>> {
        match (kind, &self.book, &self.engine) {
            ("book", _, _) => {
                enforce(&mut self.book, words)?;
                Ok(Outcome::InForce)
            }
            ("engine", _, _) => {
                enforce(&mut self.engine, words)?;
                Ok(Outcome::InForce)
            }
            ("oust", Some(book), Some(engine)) => {
                let area = &mut self.area;
                let calls = called(area, book.schema(), engine.schema(), words)?;
                Ok(Outcome::Called(calls))
            }
            _ => Err(Trouble::Unreadable(kind)),
        }
    }
}
