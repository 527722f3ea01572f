//! The walk over a tree's items, with the schema's automaton alongside. Its answer so far is the
//! state by which the node that comes next must be accepted, and none once something speaks against
//! the tree: then only the bytes are still read, since their faults outweigh a no.
ghost use Rattle.std.specs.Prelude.{◌≡◌, length};
ghost use Rattle.codec.specs.Piles.{topmost};
ghost use Rattle.codec.specs.Reading.{read_all};
ghost use Rattle.schema.specs.Meaning.{meaning, symbols_of};
ghost use Rattle.checking.specs.Checking.{verdict};
ghost use Rattle.checking.specs.Steps.{Known, answer_if, may_end, TakesSymbol};

use crate::cursor::Cursor;
use codec::item::{Item, Level};
use codec::pile::Pile;
use codec::reader::Reader;
use domain::domain::Domain;
use refusal::fault::{Fault, Refusal};
use schema::tested::Tested;

/// Before the root, which state 0 must accept.
const START: Option<u8> = Some(0);

/// A node's value: its state's domain must have it.
fn open<D: Domain>(schema: &Tested<D>, answer: Option<u8>, value: u32) -> Option<u8>
    ensures { result ≡ answer_if answer (λ q. (meaning D.Domain.holds schema.now).has q value) }
{
    let state = answer?;
    schema.has(state, value).then_some(state)
}

/// A node's end: its children must be allowed to end there.
fn close<D: Domain>(
    schema: &Tested<D>,
    answer: Option<u8>,
    top: Option<Level<Cursor>>,
) -> Option<u8>
    ensures { result ≡ answer_if answer (λ q. may_end (meaning D.Domain.holds schema.now) top) }
{
    let state = answer?;
    let at = top?.at;
    schema.may_end(at.state, at.row).then_some(state)
}

/// A number as a symbol of the schema, or the fault that it is none.
fn known<D>(schema: &Tested<D>, symbol: u32, place: usize) -> Result<u8, Refusal>
    ensures { Known (symbols_of schema.now) symbol place result }
{
    match u8::try_from(symbol) {
        Ok(symbol) if usize::from(symbol) < schema.symbols() => Ok(symbol),
        _ => Err(Fault::Symbol.at(place)),
    }
}

/// A child's symbol: the node on top goes on at the next row, and the child must be accepted by the
/// next state.
fn name<D: Domain>(
    schema: &Tested<D>,
    answer: Option<u8>,
    reader: &mut Reader<Cursor>,
    symbol: u8,
) -> Option<u8>
    ensures { TakesSymbol (meaning D.Domain.holds schema.now) symbol answer
        (topmost reader.old.levels.entries) reader.old result reader.new }
{
    answer?;
    let at = reader.top()?.at;
    let row = schema.next_row(at.state, at.row, symbol)?;
    let state = schema.next_state(at.state, symbol)?;
    reader.keep(Cursor { row, ..at });
    Some(state)
}

/// One tree of the schema, read to its end and with nothing after it: accepted or not, or the fault
/// of its bytes.
pub(crate) fn walk<D: Domain>(
    schema: &Tested<D>,
    tree: &[u8],
    levels: &mut [Level<Cursor>],
) -> Result<bool, Refusal>
    ensures { result ≡ verdict (meaning D.Domain.holds schema.now)
        (read_all (symbols_of schema.now) (length levels.old) tree.now) }
{
    let mut reader = Reader::new(tree, Pile::new(levels));
    let mut answer = START;
    // a loop, since the reader is asked for its place and its top before each item
    loop {
        let place = reader.place();
        let top = reader.top();
        let at = Cursor {
            state: answer.unwrap_or(0),
            row: 0,
        };
        let Some(item) = reader.next(at)? else {
            break;
        };
        answer = match item {
            Item::Value(value, _count, _bytes) => open(schema, answer, value),
            Item::Symbol(symbol, _bytes) => {
                let symbol = known(schema, symbol, place)?;
                name(schema, answer, &mut reader, symbol)
            }
            Item::End => close(schema, answer, top),
        };
    }
    if reader.place() < tree.len() {
        return Err(Fault::Rest.at(reader.place()));
    }
    Ok(answer.is_some())
}
