//! The test program: answers each case on its input by the public calls, a line each, for a
//! comparison with what was computed apart from it.
#![tactic(auto)]

use crate::answer::Answer;
use crate::compares::{Areas, Begin};
use crate::domains::Question;
use crate::reply::Reply;
use crate::trees::{Check, Live, Schemas};
use crate::trims::Trim;
use notation::trouble::Trouble;
use notation::words::{Words, is_comment};
use std::alloc::Global;
use std::io::{BufRead, BufReader};

mod answer;
mod claims;
mod compares;
mod documents;
mod domains;
mod refusals;
mod reply;
mod trees;
mod trims;

/// What a call on an area comes to, by the word that says which.
fn called<'a>(
    schemas: &Schemas,
    areas: &mut Areas,
    question: &'a str,
    words: &mut Words<'a>,
) -> Result<Reply, Trouble<'a>> {
    match question {
        "open" => areas.open(words),
        "take" => areas.begin(schemas, Begin::Take, words),
        "oust" => areas.begin(schemas, Begin::Oust, words),
        "step" => areas.step(schemas, words),
        "conclude" => areas.conclude(words),
        "trail" => areas.trail(words),
        "document" => areas.document(schemas, words),
        "giveup" => areas.give_up(words),
        _ => Err(Trouble::Unreadable(question)),
    }
}

/// What a case comes to. Its first word says what is asked, the others of what. It may name a
/// schema, an area or a claim for the cases after it.
fn answered<'a>(
    heap: Global,
    schemas: &mut Schemas,
    areas: &mut Areas,
    case: &'a str,
) -> Result<Answer, Trouble<'a>> {
    let mut words = Words::new(heap, case);
    let question = words.word()?;
    match question {
        "word" => refusals::word(&mut words),
        "make" => domains::make(&mut words),
        "has" => domains::ask(Question::Has, &mut words),
        "least" => domains::ask(Question::Least, &mut words),
        "gap" => domains::ask(Question::Gap, &mut words),
        "schema" => schemas.define(&mut words),
        "check" => schemas.ask::<Check>(&mut words),
        "live" => schemas.ask::<Live>(&mut words),
        "trim" => schemas.ask::<Trim>(&mut words),
        _ => Ok(Answer::Called(called(schemas, areas, question, &mut words)?)),
    }
}

/// Prints a line for each line of the input: the case with what it comes to, and a comment as it
/// stands.
fn answer_all(rt: &HostRuntime, areas: &mut Areas) -> anyhow::Result<()> {
    let mut schemas = Schemas::new(rt.alloc());
    for line in BufReader::new(rt.alloc(), rt.stdin())?.lines(rt.alloc()) {
        let line = line?;
        let case = line.as_str();
        if is_comment(case) {
            println!(rt; "{case}")?;
            continue;
        }
        match answered(rt.alloc(), &mut schemas, areas, case) {
            Ok(answer) => println!(rt; "{case} -> {answer}")?,
            Err(trouble) => println!(rt; "{case} -> {trouble}")?,
        }
    }
    Ok(())
}

/// Answers every case. The claims that are left are spent, however that went.
fn run(rt: &HostRuntime) -> anyhow::Result<()> {
    let mut areas = Areas::new(rt.alloc());
    let answered = answer_all(rt, &mut areas);
    areas.clear();
    answered
}

fn main(rt: HostRuntime) -> anyhow::Result<()> {
    run(&rt)
}
