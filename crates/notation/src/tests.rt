//! Where there is memory, lists and schemas are read and lists are filled.
use crate::memory::{CHECK_LEVEL, DOCUMENT_LEVEL, Outputs, filled};
use crate::schemas::Tables;
use crate::words::Words;
use api::Keywords;
use std::test::Fail;

#[test]
fn lists_are_read(rt: HostRuntime) -> Result<(), Fail> {
    let mut words = Words::new(rt.alloc(), "0,1,255 - 3,5");
    assert_eq!(rt; words.bytes()?.as_slice(), [0, 1, 255].as_slice());
    assert!(rt; words.bytes()?.is_empty());
    assert_eq!(rt; words.symbols()?, 40);
    words.end()?;
    Ok(())
}

#[test]
fn lists_are_filled(rt: HostRuntime) -> Result<(), Fail> {
    assert_eq!(rt; filled(rt.alloc(), 3, 7)?.as_slice(), [7, 7, 7].as_slice());
    assert_eq!(rt; filled(rt.alloc(), 2, CHECK_LEVEL)?.len(), 2);
    assert_eq!(rt; filled(rt.alloc(), 4, DOCUMENT_LEVEL)?.len(), 4);
    let outputs = Outputs::new(rt.alloc(), 1, 2, 3, 9)?;
    assert_eq!(rt; outputs.rows.as_slice(), [9, 9, 9].as_slice());
    Ok(())
}

#[test]
fn schemas_are_read(rt: HostRuntime) -> Result<(), Fail> {
    let mut words = Words::new(rt.alloc(), "1 1 2 0 0,2,0,0 0,1,1,255 1 0");
    let tables: Tables<Keywords> = Tables::read(&mut words)?;
    let schema = tables.schema();
    assert_eq!(rt; schema.rows, 2);
    assert_eq!(rt; schema.row_table, [0, 1, 1, 255].as_slice());
    assert_eq!(rt; schema.domains.len(), 1);
    Ok(())
}
