//! That every refusal can be printed: the contracts say what is written, and not that a writer
//! takes it.
use crate::fault::Fault;
use std::test::Fail;

/// The faults, and how each is printed at place 7.
const PRINTED: [(Fault, &'static str); 21] = [
    (Fault::Size, "1 size, tables, place 7"),
    (Fault::State, "2 state, tables, place 7"),
    (Fault::Row, "3 row, tables, place 7"),
    (Fault::Domain, "4 domain, tables, place 7"),
    (Fault::Range, "5 range, tables, place 7"),
    (Fault::Symbols, "6 symbols, tables, place 7"),
    (Fault::Busy, "7 busy, area, place 7"),
    (Fault::Worn, "8 worn, area, place 7"),
    (Fault::Foreign, "9 foreign, area, place 7"),
    (Fault::Ousted, "10 ousted, area, place 7"),
    (Fault::Schemas, "11 schemas, area, place 7"),
    (Fault::Steps, "12 steps, area, place 7"),
    (Fault::Early, "13 early, area, place 7"),
    (Fault::Scratch, "14 scratch, area, place 7"),
    (Fault::Short, "15 short, bytes, place 7"),
    (Fault::Number, "16 number, bytes, place 7"),
    (Fault::Symbol, "17 symbol, bytes, place 7"),
    (Fault::Deep, "18 deep, bytes, place 7"),
    (Fault::Rest, "19 rest, bytes, place 7"),
    (Fault::Room, "20 room, bytes, place 7"),
    (Fault::Nothing, "21 nothing, tables, place 7"),
];

#[test]
fn every_refusal_is_printed(rt: HostRuntime) -> Result<(), Fail> {
    let alloc = rt.alloc();
    for (fault, printed) in PRINTED {
        let text = fault.at(7).to_string(alloc)?;
        assert_eq!(rt; text.as_str(), printed);
    }
    Ok(())
}
