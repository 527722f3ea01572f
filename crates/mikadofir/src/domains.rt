//! What an engine lacks of what a maker uses: `letters`, `keywords` or a `book` with both, the
//! maker's domain before the engine's.
ghost use Rattle.std.specs.Prelude.{◌≡◌, ℕ};
ghost use Rattle.mikadofir.specs.declared.domains.Member.{Member};
ghost use Rattle.mikadofir.specs.declared.domains.Member.TheVariants.{Keyword, Letter};
ghost use Rattle.mikadofir.specs.Lacking.{by_half, Lacking};

use crate::job::Task;
use api::{Coverage, Domain, Joint, Keywords, MIDDLE};
use notation::domains::FromWords;
use notation::trouble::Trouble;
use notation::words::Words;
use std::fmt;

/// A book's keywords stand on the left and its letters on the right.
pub type Book = Joint<Keywords, Coverage>;

/// A value of a domain, as a maker knows it.
#[derive(Clone, Copy, Debug, PartialEq, Eq)]
enum Member {
    Keyword(u32),
    Letter(u32),
}

impl fmt::Display for Member {
    fn fmt<W: fmt::Write>(&self, f: &mut fmt::Formatter<W>) -> fmt::Result {
        match self {
            Member::Keyword(value) => write!(f, "keyword {value}"),
            Member::Letter(value) => write!(f, "letter {value}"),
        }
    }
}

/// A kind of domain whose values have names.
trait Named {
    // what each value stands for
    ghost names: { ℕ → Member };

    /// What a value stands for.
    fn member(value: u32) -> Member
        ensures { result ≡ names value };
}

impl Named for Keywords {
    ghost names = { Keyword };

    fn member(value: u32) -> Member {
        Member::Keyword(value)
    }
}

impl Named for Coverage {
    ghost names = { Letter };

    fn member(value: u32) -> Member {
        Member::Letter(value)
    }
}

impl<L: Named, R: Named> Named for Joint<L, R> {
    ghost names = { by_half L.Named.names R.Named.names };

    fn member(value: u32) -> Member {
        match value.checked_sub(MIDDLE) {
            Some(right) => R::member(right),
            None => L::member(value),
        }
    }
}

/// What the engine lacks, if anything.
#[derive(Clone, Copy, Debug, PartialEq, Eq)]
pub struct Lack(Option<Member>);

impl fmt::Display for Lack {
    fn fmt<W: fmt::Write>(&self, f: &mut fmt::Formatter<W>) -> fmt::Result {
        match self.0 {
            Some(member) => write!(f, "the engine lacks {member}"),
            None => write!(f, "nothing is lacking"),
        }
    }
}

/// The first member of the maker's domain that the engine's has not, or none where it has them all.
fn first_lacking<D: Domain + Named>(maker: &D, engine: &D) -> Option<Member>
    ensures { Lacking (D.Domain.holds maker.now) (D.Domain.holds engine.now) D.Named.names result }
{
    maker.gap(engine).map(|value| D::member(value))
}

/// What the second domain read, the engine's, lacks of the first, the maker's.
fn lacking<'a, D: Domain + FromWords + Named>(words: &mut Words<'a>) -> Result<Lack, Trouble<'a>> {
    let maker = D::read(words)?;
    let engine = D::read(words)?;
    words.end()?;
    Ok(Lack(first_lacking(&maker, &engine)))
}

/// The task.
#[derive(Clone, Copy, Debug, PartialEq, Eq)]
pub struct Domains;

impl Task for Domains {
    type Outcome = Lack;

    fn outcome<'a>(&mut self, kind: &'a str, words: &mut Words<'a>) -> Result<Lack, Trouble<'a>> {
        match kind {
            "letters" => lacking::<Coverage>(words),
            "keywords" => lacking::<Keywords>(words),
            "book" => lacking::<Book>(words),
            _ => Err(Trouble::Unreadable(kind)),
        }
    }
}
