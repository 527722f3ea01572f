//! Cases on schemas: `schema NAME KIND TABLES`, which names one for the cases after it, and then
//! what is asked of it, as `check NAME BYTES LEVELS` and `live NAME`.
use crate::answer::Answer;
use crate::domains::Book;
use api::{Area, Coverage, Cursor, Domain, Keywords, Level, Refusal, Schema};
use notation::memory::{CHECK_LEVEL, filled};
use notation::schemas::Tables;
use notation::trouble::Trouble;
use notation::words::Words;
use std::alloc::Global;
use std::collections::BTreeMap;

/// What is asked of a schema, whatever the kind of its domains.
pub trait Asked: Drop {
    /// What the next words ask.
    fn read<'a>(words: &mut Words<'a>) -> Result<Self, Trouble<'a>>;

    /// The answer for the schema of the tables.
    fn answer<D: Domain>(self, tables: &Tables<D>) -> Result<Answer, Refusal>;
}

/// What is asked of an area and two schemas, whatever the kind of their domains.
pub trait AskedOfTwo {
    /// What it gives where it is not refused.
    type Outcome;

    /// The answer for two schemas.
    fn put<D: Domain>(
        self,
        area: &mut Area,
        first: &Schema<D>,
        second: &Schema<D>,
    ) -> Result<Self::Outcome, Refusal>;
}

/// The tables of a schema of one of the kinds.
#[derive(Drop)]
enum Kinded {
    Keywords(Tables<Keywords>),
    Coverage(Tables<Coverage>),
    Book(Tables<Book>),
}

impl Kinded {
    /// The tables that the next words say, behind their kind.
    fn read<'a>(words: &mut Words<'a>) -> Result<Kinded, Trouble<'a>> {
        let kind = words.word()?;
        match kind {
            "keywords" => Ok(Kinded::Keywords(Tables::read(words)?)),
            "coverage" => Ok(Kinded::Coverage(Tables::read(words)?)),
            "book" => Ok(Kinded::Book(Tables::read(words)?)),
            _ => Err(Trouble::Unreadable(kind)),
        }
    }

    /// The answer to what is asked of the schema of the tables.
    fn answer<A: Asked>(&self, asked: A) -> Result<Answer, Refusal> {
        match self {
            Kinded::Keywords(tables) => asked.answer(tables),
            Kinded::Coverage(tables) => asked.answer(tables),
            Kinded::Book(tables) => asked.answer(tables),
        }
    }
}

/// Two schemas of one kind.
#[derive(Clone, Copy)]
pub enum Two<'a> {
    Keywords(&'a Tables<Keywords>, &'a Tables<Keywords>),
    Coverage(&'a Tables<Coverage>, &'a Tables<Coverage>),
    Book(&'a Tables<Book>, &'a Tables<Book>),
}

impl<'a> Two<'a> {
    /// The two, where they are of one kind.
    fn of(first: &'a Kinded, second: &'a Kinded) -> Option<Two<'a>> {
        match (first, second) {
            (Kinded::Keywords(first), Kinded::Keywords(second)) => {
                Some(Two::Keywords(first, second))
            }
            (Kinded::Coverage(first), Kinded::Coverage(second)) => {
                Some(Two::Coverage(first, second))
            }
            (Kinded::Book(first), Kinded::Book(second)) => Some(Two::Book(first, second)),
            _ => None,
        }
    }

    /// The answer to what is asked of an area and the two.
    pub fn put<A: AskedOfTwo>(self, asked: A, area: &mut Area) -> Result<A::Outcome, Refusal> {
        match self {
            Two::Keywords(first, second) => asked.put(area, &first.schema(), &second.schema()),
            Two::Coverage(first, second) => asked.put(area, &first.schema(), &second.schema()),
            Two::Book(first, second) => asked.put(area, &first.schema(), &second.schema()),
        }
    }
}

/// The schemas that the cases so far named, each the last of its name.
#[derive(Drop)]
pub struct Schemas {
    schemas: BTreeMap<String, Kinded>,
}

impl Schemas {
    /// No schemas.
    pub fn new(heap: Global) -> Schemas {
        Schemas {
            schemas: BTreeMap::new(heap),
        }
    }

    /// Puts a schema under its name. Whether its tables are sound is asked where it is used.
    pub fn define<'a>(&mut self, words: &mut Words<'a>) -> Result<Answer, Trouble<'a>> {
        let name = String::from_str(words.heap, words.word()?)?;
        let tables = Kinded::read(words)?;
        words.end()?;
        self.schemas.insert(name, tables)?;
        Ok(Answer::Read)
    }

    /// The schema that was last given the name of the next word, with the name.
    fn named<'a>(&self, words: &mut Words<'a>) -> Result<(&'a str, &Kinded), Trouble<'a>> {
        let name = words.word()?;
        let tables = self.schemas.get(name).ok_or(Trouble::Unreadable(name))?;
        Ok((name, tables))
    }

    /// The two schemas that the next words name. A second one of another kind is unreadable.
    pub fn two<'a>(&self, words: &mut Words<'a>) -> Result<Two<'_>, Trouble<'a>> {
        let (_, first) = self.named(words)?;
        let (name, second) = self.named(words)?;
        Two::of(first, second).ok_or(Trouble::Unreadable(name))
    }

    /// What the words behind a name ask of the schema that was last given the name.
    pub fn ask<'a, A: Asked>(&self, words: &mut Words<'a>) -> Result<Answer, Trouble<'a>> {
        let (_, tables) = self.named(words)?;
        let asked = A::read(words)?;
        words.end()?;
        Ok(tables.answer(asked)?)
    }
}

/// Whether a schema accepts a tree, with so many levels for it.
#[derive(Drop)]
pub struct Check {
    tree: Vec<u8>,
    levels: Vec<Level<Cursor>>,
}

impl Asked for Check {
    fn read<'a>(words: &mut Words<'a>) -> Result<Check, Trouble<'a>> {
        let tree = words.bytes()?;
        let count = words.number()? as usize;
        Ok(Check {
            tree,
            levels: filled(words.heap, count, CHECK_LEVEL)?,
        })
    }

    fn answer<D: Domain>(mut self, tables: &Tables<D>) -> Result<Answer, Refusal> {
        let tree = self.tree.as_slice();
        let levels = self.levels.as_mut_slice();
        Ok(Answer::Truth(api::check(&tables.schema(), tree, levels)?))
    }
}

/// Which states of a schema accept a tree.
#[derive(Clone, Copy, Debug, PartialEq, Eq)]
pub struct Live;

impl Asked for Live {
    fn read<'a>(_words: &mut Words<'a>) -> Result<Live, Trouble<'a>> {
        Ok(Live)
    }

    fn answer<D: Domain>(self, tables: &Tables<D>) -> Result<Answer, Refusal> {
        Ok(Answer::States(api::live(&tables.schema())?))
    }
}
