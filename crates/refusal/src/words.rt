//! The words of the faults, looked up by number.
ghost use Rattle.std.specs.Prelude.{◌≡◌, [], map, slice_index_or};
ghost use Rattle.refusal.specs.Words.{«word_at», Short};

/// The words by number. Number 0 has none, so that a number is its own index.
const WORDS: [&'static str; 22] = [
    "", "size", "state", "row", "domain", "range", "symbols", "busy", "worn", "foreign", "ousted",
    "schemas", "steps", "early", "scratch", "short", "number", "symbol", "deep", "rest", "room",
    "nothing",
];

/// The word for a number from 1 to 21, and no letters for any other number.
pub fn word(number: u32) -> &'static str
    ensures value { result.now ≡ word_at number }
    ensures short { Short }
{
    entry(&WORDS, number as usize)
}

/// The text at an index of a table, and no letters past its end.
fn entry(table: &[&'static str], index: usize) -> &'static str
    ensures { result.now ≡ slice_index_or (map (λ x. x.now) table.now) index [] }
{
    table.get(index).copied().unwrap_or("")
}
