//! The reader: walks over the bytes of one tree and hands out its items. It knows no schema.
ghost use Rattle.std.specs.Prelude.{◌≡◌, ◌≤◌, true, false, [], length, take, drop};
ghost use Rattle.codec.specs.Items.{Progress, Walks, Keeps};
ghost use Rattle.codec.specs.Piles.{topmost};

use crate::item::{Item, Level};
use crate::number::read_number;
use crate::pile::Pile;
use refusal::fault::{Fault, Refusal};
use std::marker::Model;
use std::mem;

/// A place in the input, whether a node comes next there, and the levels of the nodes that it is
/// in.
#[derive(Drop)]
pub struct Reader<'i, 'p, S> {
    input: &'i [u8],
    place: usize,
    fresh: bool,
    levels: Pile<'p, Level<S>>,
}

impl<'i, 'p, S> Model for Reader<'i, 'p, S> {
    ghost Value = { Progress S };

    ghost view = { λ r. record { read = take r.place r.input.now; left = drop r.place r.input.now; fresh = r.fresh; levels = r.levels } };

    ghost invariant = { λ r. r.place ≤ length r.input.now };
}

impl<'i, 'p, S: Copy> Reader<'i, 'p, S> {
    /// A reader at the input's first byte, where the root comes next. Each node takes a level of
    /// the pile while the reader is in it.
    pub fn new(input: &'i [u8], levels: Pile<'p, Level<S>>) -> Reader<'i, 'p, S>
        ensures { result ≡
            record { read = []; left = input.now; fresh = true; levels = levels.entry } }
    {
        Reader {
            input,
            place: 0,
            fresh: true,
            levels,
        }
    }

    /// The place of the first byte that was not read yet.
    pub fn place(&self) -> usize
        ensures { result ≡ length self.now.read }
    {
        self.place
    }

    /// The levels of the nodes that the reader is in, the root's at the bottom.
    pub fn levels(&self) -> &Pile<'p, Level<S>>
        ensures { result.now ≡ self.now.levels }
    {
        &self.levels
    }

    /// Gives the pile back, with the levels of the nodes that the reader is in.
    pub fn into_levels(self) -> Pile<'p, Level<S>>
        ensures { result ≡ self.entry.levels }
    {
        let Reader { levels, .. } = self;
        levels
    }

    /// Takes another pile for the levels, and gives the one before back.
    pub fn exchange(&mut self, levels: Pile<'p, Level<S>>) -> Pile<'p, Level<S>>
        ensures before { result ≡ self.old.levels }
        ensures after { self.new ≡ record self.old { levels = levels.entry } }
    {
        mem::replace(&mut self.levels, levels)
    }

    /// The level of the innermost node that the reader is in.
    pub fn top(&self) -> Option<Level<S>>
        ensures { result ≡ topmost self.now.levels.entries }
    {
        self.levels.top()
    }

    /// Keeps something else at the innermost node that the reader is in.
    pub fn keep(&mut self, at: S)
        ensures { Keeps at self.old self.new }
    {
        if let Some(level) = self.levels.top() {
            self.levels.replace(Level { at, ..level });
        }
    }

    /// The next item, or none after the root's end; or the fault that reading stops at. A node that
    /// opens takes a level, with `at` in it.
    pub fn next(&mut self, at: S) -> Result<Option<Item<'i>>, Refusal>
        ensures { Walks at self.old result self.new }
    {
        if self.fresh {
            self.open(at)
        } else {
            self.go_on()
        }
    }

    /// The value and child count of the node that comes next.
    fn open(&mut self, at: S) -> Result<Option<Item<'i>>, Refusal>
        requires { self.old.fresh ≡ true }
        ensures { Walks at self.old result self.new }
    {
        if self.levels.is_full() {
            return Err(Fault::Deep.at(self.place));
        }
        let (value, middle) = read_number(self.input, self.place)?;
        let (count, end) = read_number(self.input, middle)?;
        let bytes = &self.input[self.place..end];
        self.levels.push(Level { left: count, at });
        self.place = end;
        self.fresh = false;
        Ok(Some(Item::Value(value, count, bytes)))
    }

    /// The symbol of the top node's next child, or its end.
    fn go_on(&mut self) -> Result<Option<Item<'i>>, Refusal>
        requires { self.old.fresh ≡ false }
        ensures { (at : S) → Walks at self.old result self.new }
    {
        let Some(level) = self.levels.top() else {
            return Ok(None);
        };
        if level.left == 0 {
            self.levels.pop();
            return Ok(Some(Item::End));
        }
        let (symbol, end) = read_number(self.input, self.place)?;
        let bytes = &self.input[self.place..end];
        self.levels.replace(Level {
            left: level.left - 1,
            ..level
        });
        self.place = end;
        self.fresh = true;
        Ok(Some(Item::Symbol(symbol, bytes)))
    }
}
