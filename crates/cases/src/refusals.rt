//! Cases on refusals: `word NUMBER`.
use crate::answer::Answer;
use notation::trouble::Trouble;
use notation::words::Words;

/// The word of a refusal's number.
pub fn word<'a>(words: &mut Words<'a>) -> Result<Answer, Trouble<'a>> {
    let number = words.number()?;
    words.end()?;
    Ok(Answer::Word(api::word(number)))
}
