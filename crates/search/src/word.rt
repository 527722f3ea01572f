//! A short sequence of symbols, kept by itself.
ghost use Rattle.std.specs.Prelude.{◌≡◌, ℕ, ◌≤◌, List, length, take};
ghost use Rattle.search.specs.Pairs.{row_links};
ghost use Rattle.search.specs.Paths.{Spells};
ghost use Rattle.search.specs.Words.{padded, front_long};

use crate::pairs::RowPair;
use crate::reading;
use codec::pile::Pile;
use std::marker::Model;

/// A sequence of at most N symbols.
#[derive(Clone, Copy)]
pub struct Word<const N: usize> {
    symbols: [u8; N],
    count: usize,
}

impl<const N: usize> Model for Word<N> {
    ghost Value = { List ℕ };

    ghost view = { λ w. take w.count w.symbols };

    // the slots past it hold 0, so that two words of one sequence are alike
    ghost invariant = { λ w. (w.count ≤ length w.symbols) × (padded N (take w.count w.symbols) ≡ w.symbols) };

    ghost inverse = { λ v. record { symbols = padded N v; count = length v } };

    ghost inverse_ok = { λ w h. rw (h.1, front_long w.symbols w.count h.0) };
}

impl<const N: usize> Word<N> {
    /// The sequence of an entry that a search found, where it has at most N symbols.
    pub(crate) fn read(pile: &Pile<RowPair>, index: usize) -> Word<N>
        ensures { (w : List ℕ) → Spells row_links pile.now.entries index w →
            length w ≤ N →
            result ≡ w }
    {
        let count = reading::length(pile, index).min(N);
        let mut symbols = [0; N];
        for (position, symbol) in symbols[..count].iter_mut().enumerate() {
            *symbol = reading::symbol_at(pile, index, position).unwrap_or(0);
        }
        Word { symbols, count }
    }

    /// Its symbols in order.
    pub fn as_slice(&self) -> &[u8]
        ensures all { result.now ≡ self.now }
        ensures few { length result.now ≤ N }
    {
        &self.symbols[..self.count]
    }

    /// How many symbols it has.
    pub fn len(&self) -> usize
        ensures count { result ≡ length self.now }
        ensures few { result ≤ N }
    {
        self.count
    }

    /// These symbols, of which there are at most N.
    pub fn of(symbols: &[u8]) -> Word<N>
        ensures { length symbols.now ≤ N → result ≡ symbols.now }
    {
        let count = symbols.len().min(N);
        let mut slots = [0; N];
        slots[..count].copy_from_slice(&symbols[..count]);
        Word {
            symbols: slots,
            count,
        }
    }
}
