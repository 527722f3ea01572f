//! A pile over a slice that the caller lends: the entry put on last is the first one taken off.
ghost use Rattle.std.specs.Prelude.{◌≡◌, ◌≤◌, [], length, take, drop, nat_le};
ghost use Rattle.std.specs.List.{slice_get};
ghost use Rattle.codec.specs.Piles.{Stack, topmost, Pushed, Popped, Replaced};

use std::marker::Model;

/// Entries in the slots of a lent slice, from the first slot on, for any kind of entry.
// The slots with their count beside them: the memory is lent by the caller.
#[derive(Drop)]
pub struct Pile<'a, T> {
    slots: &'a mut [T],
    count: usize,
}

impl<'a, T> Model for Pile<'a, T> {
    ghost Value = { Stack T };

    ghost view = { λ p. record { entries = take p.count p.slots.now; free = drop p.count p.slots.now } };

    ghost invariant = { λ p. p.count ≤ length p.slots.now };
}

impl<'a, T: Copy> Pile<'a, T> {
    /// The empty pile over these slots.
    pub fn new(slots: &'a mut [T]) -> Pile<'a, T>
        ensures empty { result.entries ≡ [] }
        ensures over { result.free ≡ slots.old }
    {
        Pile { slots, count: 0 }
    }

    /// The entries, the bottom one first.
    fn entries(&self) -> &[T]
        ensures { result.now ≡ self.now.entries }
    {
        &self.slots[..self.count]
    }

    /// How many entries there are.
    pub fn len(&self) -> usize
        ensures { result ≡ length self.now.entries }
    {
        self.count
    }

    /// Whether no slot is left.
    pub fn is_full(&self) -> bool
        ensures { result ≡ nat_le (length self.now.free) 0 }
    {
        self.slots.len() <= self.count
    }

    /// Puts an entry on top, and says whether there was a slot for it.
    pub fn push(&mut self, entry: T) -> bool
        ensures { Pushed self.old entry result self.new }
    {
        if self.count >= self.slots.len() {
            return false;
        }
        self.slots[self.count] = entry;
        self.count += 1;
        true
    }

    /// The entry at an index, the bottom one at 0.
    pub fn read(&self, index: usize) -> Option<T>
        ensures { result ≡ slice_get self.now.entries index }
    {
        self.entries().get(index).copied()
    }

    /// The entry on top.
    pub fn top(&self) -> Option<T>
        ensures { result ≡ topmost self.now.entries }
    {
        self.entries().last().copied()
    }

    /// Takes the top entry off.
    pub fn pop(&mut self) -> Option<T>
        ensures { Popped self.old result self.new }
    {
        let entry = self.top()?;
        self.count -= 1;
        Some(entry)
    }

    /// Writes over the top entry, where there is one.
    pub fn replace(&mut self, entry: T)
        ensures { Replaced self.old entry self.new }
    {
        if self.count > 0 {
            self.slots[self.count - 1] = entry;
        }
    }
}
