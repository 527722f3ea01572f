//! Checking: is this tree accepted by this schema?
#![tactic(auto)]

ghost use Rattle.std.specs.Prelude.{◌≡◌, length};
ghost use Rattle.schema.specs.Tables.{tables, sets};
ghost use Rattle.checking.specs.Checking.{checked};
ghost use Rattle.checking.specs.Laws.{CheckLaws};

use crate::cursor::Cursor;
use codec::item::Level;
use domain::domain::Domain;
use refusal::fault::Refusal;
use schema::tables::Schema;
use schema::tested::Tested;

pub mod cursor;
mod walk;

/// Whether the bytes are the encoding of a tree that the schema accepts, or the refusal of the
/// tables or of the bytes. One level is wanted for each level of the tree; the levels hold anything
/// afterwards.
#[tactic(auto, using(crate::proofs::Laws::check_laws))]
pub fn check<D: Domain>(
    schema: &Schema<D>,
    tree: &[u8],
    levels: &mut [Level<Cursor>],
) -> Result<bool, Refusal>
    ensures answer { result ≡
        checked (tables schema.now) (sets D.Domain.holds schema.now) tree.now (length levels.old) }
    ensures laws { CheckLaws }
{
    let tested = Tested::new(schema)?;
    walk::walk(&tested, tree, levels)
}
