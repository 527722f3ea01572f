//! Cases on domains: `make RANGES`, `has KIND DOMAIN VALUE`, `least KIND DOMAIN` and `gap KIND
//! FIRST SECOND`.
use crate::answer::Answer;
use api::{Coverage, Domain, Joint, Keywords};
use notation::domains::FromWords;
use notation::trouble::Trouble;
use notation::words::Words;

/// Keywords on the left and letters on the right.
pub type Book = Joint<Keywords, Coverage>;

/// A book with its halves exchanged.
type Mirror = Joint<Coverage, Keywords>;

/// Two halves of one kind.
type TwoKeys = Joint<Keywords, Keywords>;

/// A joint of joints.
type Double = Joint<Book, Book>;

/// Joints three deep on the left, with letters on the right.
type Nested = Joint<Joint<TwoKeys, Mirror>, Coverage>;

/// What is asked of a domain.
#[derive(Clone, Copy, Debug, PartialEq, Eq)]
pub enum Question {
    Has,
    Least,
    Gap,
}

/// Whether the ranges make a coverage.
pub fn make<'a>(words: &mut Words<'a>) -> Result<Answer, Trouble<'a>> {
    let _coverage = Coverage::read(words)?;
    words.end()?;
    Ok(Answer::Taken)
}

/// A question put to a domain of this kind.
fn put<'a, D: Domain + FromWords>(
    question: Question,
    words: &mut Words<'a>,
) -> Result<Answer, Trouble<'a>> {
    let domain = D::read(words)?;
    let answer = match question {
        Question::Has => Answer::Truth(domain.has(words.number()?)),
        Question::Least => Answer::Value(domain.least()),
        Question::Gap => Answer::Value(domain.gap(&D::read(words)?)),
    };
    words.end()?;
    Ok(answer)
}

/// A question put to a domain of the kind that the next word names.
pub fn ask<'a>(question: Question, words: &mut Words<'a>) -> Result<Answer, Trouble<'a>> {
    let kind = words.word()?;
    match kind {
        "keywords" => put::<Keywords>(question, words),
        "coverage" => put::<Coverage>(question, words),
        "book" => put::<Book>(question, words),
        "mirror" => put::<Mirror>(question, words),
        "twokeys" => put::<TwoKeys>(question, words),
        "double" => put::<Double>(question, words),
        "nested" => put::<Nested>(question, words),
        _ => Err(Trouble::Unreadable(kind)),
    }
}
