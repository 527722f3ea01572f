//! Cases on documents: `document AREA NUMBER SERIAL FIRST SECOND PAIRS LEVELS LENGTH`, with an
//! output that is filled beforehand, so that each byte that was written is seen. Whatever is
//! written is checked against both schemas.
use crate::reply::Reply;
use crate::trees::AskedOfTwo;
use crate::trims::{FILLING, is_as_found};
use api::{
    Area, Cursor, Domain, LEVELS, Level, NodeKey, Numbers, Refusal, RowPair, Schema, check,
    document,
};
use notation::memory::{CHECK_LEVEL, DOCUMENT_LEVEL, SEARCH_PAIR, filled};
use notation::trouble::Trouble;
use notation::words::Words;

/// The document of the comparison whose apart claim has these numbers, what is lent for it, and
/// levels to check it with.
#[derive(Drop)]
pub struct Document {
    claim: Numbers,
    scratch: Vec<RowPair>,
    spots: Vec<Level<NodeKey>>,
    levels: Vec<Level<Cursor>>,
    output: Vec<u8>,
}

impl Document {
    /// What the words behind the names of the schemas ask.
    pub fn read<'a>(words: &mut Words<'a>, claim: Numbers) -> Result<Document, Trouble<'a>> {
        Ok(Document {
            claim,
            scratch: filled(words.heap, words.number()? as usize, SEARCH_PAIR)?,
            spots: filled(words.heap, words.number()? as usize, DOCUMENT_LEVEL)?,
            levels: filled(words.heap, LEVELS, CHECK_LEVEL)?,
            output: filled(words.heap, words.number()? as usize, FILLING)?,
        })
    }

    /// Whether a schema accepts the tree of so many bytes at the output's front.
    fn check<D: Domain>(&mut self, length: usize, schema: &Schema<D>) -> Result<bool, Refusal> {
        let output = self.output.as_slice();
        let tree = output.get(..length).unwrap_or(output);
        check(schema, tree, self.levels.as_mut_slice())
    }
}

impl AskedOfTwo for Document {
    type Outcome = Reply;

    fn put<D: Domain>(
        mut self,
        area: &mut Area,
        first: &Schema<D>,
        second: &Schema<D>,
    ) -> Result<Reply, Refusal> {
        let answer = document(
            area,
            self.claim,
            first,
            second,
            self.scratch.as_mut_slice(),
            self.spots.as_mut_slice(),
            self.output.as_mut_slice(),
        );
        Ok(match answer {
            Ok(length) => Reply::Documented {
                length,
                first: self.check(length, first),
                second: self.check(length, second),
                output: self.output,
            },
            Err(refusal) => Reply::Undocumented {
                refusal,
                as_found: is_as_found(self.output.as_slice()),
            },
        })
    }
}
