//! Row pairs lent in a number that is enough for any search.
ghost use Rattle.std.specs.Prelude.{◌≡◌, ◌≤◌, length};
ghost use Rattle.refusal.specs.Order.{Refuses};
ghost use Rattle.search.specs.declared.pairs.TheConstants.{ROW_PAIRS};
ghost use Rattle.search.specs.Scratch.{short_scratch};

use crate::pairs::{ROW_PAIRS, RowPair};
use refusal::fault::{Fault, Refusal};

/// ROW_PAIRS slots at least: no search lacks one. What they hold does not matter.
#[derive(Drop)]
pub struct RowSlots<'a> {
    pub(crate) slots: &'a mut [RowPair],
    ghost enough: { ROW_PAIRS ≤ length slots.now },
}

impl<'a> RowSlots<'a> {
    /// The slots, where they are enough; or `scratch`, its place the number that is needed.
    pub fn new(slots: &'a mut [RowPair]) -> Result<RowSlots<'a>, Refusal>
        ensures answer { Refuses (short_scratch (length slots.old)) result }
        ensures needed { ROW_PAIRS ≡ 272 }
    {
        if slots.len() < ROW_PAIRS {
            return Err(Fault::Scratch.at(ROW_PAIRS));
        }
        Ok(RowSlots { slots })
    }
}
