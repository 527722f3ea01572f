//! The two schemas of a comparison, and the calls that are handed both.
use crate::answers::{Answer, Stepped, Written};
use crate::domains::Book;
use api::{
    Area, Cursor, LEVELS, Level, NodeKey, Numbers, ROW_PAIRS, RowPair, Schema, check, document,
    step,
};
use notation::answers::Truth;
use notation::memory::{CHECK_LEVEL, DOCUMENT_LEVEL, SEARCH_PAIR, filled};
use notation::trouble::Trouble;
use std::alloc::Global;
use std::fmt;

/// What the calls are lent to work in: row pairs, and levels for writing a document and for
/// checking one.
#[derive(Drop)]
pub struct Scratch {
    row_pairs: Vec<RowPair>,
    spots: Vec<Level<NodeKey>>,
    levels: Vec<Level<Cursor>>,
}

impl Scratch {
    /// Enough for any call. A document has no more levels than are lent for it.
    pub fn new<'a>(heap: Global) -> Result<Scratch, Trouble<'a>> {
        Ok(Scratch {
            row_pairs: filled(heap, ROW_PAIRS, SEARCH_PAIR)?,
            spots: filled(heap, LEVELS, DOCUMENT_LEVEL)?,
            levels: filled(heap, LEVELS, CHECK_LEVEL)?,
        })
    }

    /// Whether a schema accepts a tree.
    fn check(&mut self, schema: &Schema<Book>, tree: &[u8]) -> Answer<Truth> {
        Answer(check(schema, tree, self.levels.as_mut_slice()).map(|accepted| Truth(accepted)))
    }
}

/// A document, and whether each of the two schemas accepts it.
#[derive(Drop)]
pub struct Document {
    tree: Written,
    book: Answer<Truth>,
    engine: Answer<Truth>,
}

impl fmt::Display for Document {
    fn fmt<W: fmt::Write>(&self, f: &mut fmt::Formatter<W>) -> fmt::Result {
        write!(f, "{}", self.tree)?;
        write!(f, "\n  check, book: {}", self.book)?;
        write!(f, "\n  check, engine: {}", self.engine)
    }
}

/// The schemas of a comparison: can the engine set every book of the maker's?
#[derive(Clone, Copy)]
pub struct Sides<'a> {
    pub book: Schema<'a, Book>,
    pub engine: Schema<'a, Book>,
}

impl Sides<'_> {
    /// Examines up to that many pairs of the comparison whose claim has these numbers.
    pub fn step(
        self,
        area: &mut Area,
        claim: Numbers,
        steps: u32,
        scratch: &mut Scratch,
    ) -> Answer<Stepped> {
        let row_pairs = scratch.row_pairs.as_mut_slice();
        let answer = step(area, claim, &self.book, &self.engine, steps, row_pairs);
        Answer(answer.map(|(examined, mark)| Stepped { examined, mark }))
    }

    /// Has the document of the comparison whose apart claim has these numbers written to an output,
    /// and checks it against both schemas.
    pub fn document(
        self,
        area: &Area,
        claim: Numbers,
        scratch: &mut Scratch,
        mut output: Vec<u8>,
    ) -> Answer<Document> {
        let answer = document(
            area,
            claim,
            &self.book,
            &self.engine,
            scratch.row_pairs.as_mut_slice(),
            scratch.spots.as_mut_slice(),
            output.as_mut_slice(),
        );
        let length = match answer {
            Ok(length) => length,
            Err(refusal) => return Answer(Err(refusal)),
        };
        let tree = Written::front(output, length);
        let book = scratch.check(&self.book, tree.as_slice());
        let engine = scratch.check(&self.engine, tree.as_slice());
        Answer(Ok(Document { tree, book, engine }))
    }
}
