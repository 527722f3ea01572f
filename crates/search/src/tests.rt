//! The search over small schemas.
use crate::pairs::{ROW_PAIRS, RowPair};
use crate::search::Question;
use crate::slots::RowSlots;
use crate::watcher::Watcher;
use crate::watchers::{Anything, Holding, Refused};
use crate::word::Word;
use domain::domain::Domain;
use domain::keywords::Keywords;
use refusal::fault::Refusal;
use schema::tables::Schema;
use schema::tested::Tested;
use std::test::Fail;

const UNUSED: RowPair = RowPair {
    row: 0,
    watch: 0,
    symbol: 0,
    parent: 0,
};

/// The most symbols of a shortest sequence.
const MOST: usize = ROW_PAIRS - 1;

const ZERO: [Keywords; 1] = [Keywords { bits: 1 }];

/// One state and two symbols, over rows and transitions.
fn two_symbols<'a>(
    rows: usize,
    transitions: &'a [u8],
    state_table: &'a [u8],
    row_table: &'a [u8],
    domains: &'a [Keywords],
) -> Schema<'a, Keywords> {
    Schema {
        symbols: 2,
        states: 1,
        rows,
        transitions,
        state_table,
        row_table,
        domains,
    }
}

/// Any sequence.
fn any<'a>(domains: &'a [Keywords]) -> Schema<'a, Keywords> {
    two_symbols(1, &[0, 0], &[0, 1, 0, 0], &[1, 0, 0], domains)
}

/// Symbol 0 at least once, and then symbol 1.
fn chain<'a>(domains: &'a [Keywords]) -> Schema<'a, Keywords> {
    two_symbols(
        3,
        &[0, 0],
        &[0, 3, 0, 0],
        &[0, 1, 255, 0, 1, 2, 1, 255, 255],
        domains,
    )
}

/// Symbol 0 at most once. Symbol 1 has a next row and no next state.
fn at_most_one<'a>(domains: &'a [Keywords]) -> Schema<'a, Keywords> {
    two_symbols(2, &[0, 255], &[0, 2, 0, 0], &[1, 1, 0, 1, 255, 1], domains)
}

/// Each of the symbols once, in any order.
fn each_once<'a>(domains: &'a [Keywords]) -> Schema<'a, Keywords> {
    two_symbols(
        4,
        &[0, 0],
        &[0, 4, 0, 0],
        &[0, 1, 2, 0, 255, 3, 0, 3, 255, 1, 255, 255],
        domains,
    )
}

/// How long a sequence is, and its first two symbols.
#[derive(Clone, Copy, Debug, PartialEq, Eq)]
struct Sequence {
    length: usize,
    first: Option<u8>,
    second: Option<u8>,
}

/// How long a word is, and its first two symbols.
fn read_off(word: &Word<MOST>) -> Sequence {
    let symbols = word.as_slice();
    Sequence {
        length: symbols.len(),
        first: symbols.first().copied(),
        second: symbols.get(1).copied(),
    }
}

/// What a search at the first state finds.
fn find<D: Domain, W: Watcher>(
    schema: &Schema<D>,
    symbols: u64,
    watcher: &W,
) -> Result<Option<Sequence>, Refusal> {
    let tested = Tested::new(schema)?;
    let mut slots = [UNUSED; ROW_PAIRS];
    let mut slots = RowSlots::new(&mut slots)?;
    let question = Question {
        tested: &tested,
        state: 0,
        symbols,
        watcher,
    };
    let found: Option<Word<MOST>> = question.shortest(&mut slots);
    Ok(found.as_ref().map(read_off))
}

/// What a search for a sequence of the first schema finds that the second refuses.
fn find_refused<D: Domain>(
    first: &Schema<D>,
    second: &Schema<D>,
    symbols: u64,
) -> Result<Option<Sequence>, Refusal> {
    let tested = Tested::new(second)?;
    find(first, symbols, &Refused::new(&tested, 0))
}

#[test]
fn the_empty_sequence(rt: HostRuntime) -> Result<(), Fail> {
    let empty = Sequence {
        length: 0,
        first: None,
        second: None,
    };
    assert_eq!(rt; find(&any(&ZERO), 3, &Anything)?, Some(empty));
    Ok(())
}

#[test]
fn a_sequence_that_holds_a_symbol(rt: HostRuntime) -> Result<(), Fail> {
    let both = Sequence {
        length: 2,
        first: Some(0),
        second: Some(1),
    };
    assert_eq!(rt; find(&chain(&ZERO), 3, &Holding::new(1))?, Some(both));
    Ok(())
}

#[test]
fn the_first_of_two_that_are_as_short(rt: HostRuntime) -> Result<(), Fail> {
    let first = Sequence {
        length: 2,
        first: Some(0),
        second: Some(1),
    };
    assert_eq!(rt; find(&each_once(&ZERO), 3, &Anything)?, Some(first));
    Ok(())
}

#[test]
fn a_refused_sequence(rt: HostRuntime) -> Result<(), Fail> {
    let one = Sequence {
        length: 1,
        first: Some(1),
        second: None,
    };
    let two = Sequence {
        length: 2,
        first: Some(0),
        second: Some(0),
    };
    assert_eq!(rt;
        find_refused(&any(&ZERO), &at_most_one(&ZERO), 3)?,
        Some(one)
    );
    assert_eq!(rt;
        find_refused(&any(&ZERO), &at_most_one(&ZERO), 1)?,
        Some(two)
    );
    Ok(())
}

#[test]
fn no_sequence(rt: HostRuntime) -> Result<(), Fail> {
    assert_eq!(rt; find_refused(&chain(&ZERO), &any(&ZERO), 3)?, None);
    assert_eq!(rt; find(&chain(&ZERO), 1, &Anything)?, None);
    Ok(())
}
