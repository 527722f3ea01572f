//! The sequence of an entry, read off the pile.
ghost use Rattle.std.specs.Prelude.{◌≡◌, ℕ, List, length as size};
ghost use Rattle.std.specs.Iterator.{YieldsFirst, at_most};
ghost use Rattle.std.specs.List.{slice_get};
ghost use Rattle.search.specs.Pairs.{row_links};
ghost use Rattle.search.specs.Paths.{Spells, descent, «found_from»};

use crate::pairs::RowPair;
use codec::pile::Pile;

/// An entry that was found from one below it.
fn found_from(pile: &Pile<RowPair>, index: usize) -> Option<RowPair>
    ensures { result ≡ found_from row_links pile.now.entries index }
{
    pile.read(index)
        .filter(|pair| usize::from(pair.parent) < index)
}

/// The way from an entry down along the parents: the symbols that led to it, the last one first.
#[derive(Drop)]
struct Descent<'a, 'b> {
    pile: &'a Pile<'b, RowPair>,
    at: usize,
}

impl Iterator for Descent<'_, '_> {
    type Item = u8;

    ghost next_gives = { YieldsFirst (λ t. descent row_links t.pile.now.entries t.at) };

    ghost remaining = { λ t. at_most t.at };

    fn next(&mut self) -> Option<u8> {
        let pair = found_from(self.pile, self.at)?;
        self.at = usize::from(pair.parent);
        Some(pair.symbol)
    }
}

/// How many symbols the sequence of an entry has.
pub fn length(pile: &Pile<RowPair>, index: usize) -> usize
    ensures { (w : List ℕ) → Spells row_links pile.now.entries index w → result ≡ size w }
{
    Descent { pile, at: index }.count()
}

/// The symbol at a position of the sequence of an entry, the first one at 0, or none past its end.
pub fn symbol_at(pile: &Pile<RowPair>, index: usize, position: usize) -> Option<u8>
    ensures { (w : List ℕ) → Spells row_links pile.now.entries index w →
        result ≡ slice_get w position }
{
    let count = length(pile, index);
    if position >= count {
        return None;
    }
    Descent { pile, at: index }.nth(count - 1 - position)
}
