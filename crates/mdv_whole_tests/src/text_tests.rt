//! Tables and their texts, both ways, and texts that are damaged.
use crate::tables::*;
use crate::texts::{ALL, EMPTY};
use mdv_fields::RecordError;
use mdv_plan::Table;
use mdv_whole::*;
use std::alloc::Global;
use std::test::Fail;

// Whether the table's text is this one, written into just as much room.
fn has_text(alloc: Global, table: &Table, text: &[u8]) -> Result<bool, Fail> {
    let mut out = vec![in alloc; 0; text.len()]?;
    Ok(encode(table, &mut out).is_ok() && out.as_slice() == text)
}

// The table whose text this is.
fn table_of(alloc: Global, text: &[u8]) -> Result<Option<Table>, Fail> {
    match decode(alloc, text) {
        Ok(table) => Ok(Some(table)),
        Err(RecordError::NotARecord) => Ok(None),
        Err(RecordError::Memory) => Ok(Err::<Option<Table>, _>("memory")?),
    }
}

// Whether the text is a table's; that table has it again.
fn is_text(alloc: Global, text: &[u8]) -> Result<bool, Fail> {
    match table_of(alloc, text)? {
        Some(table) => has_text(alloc, &table, text),
        None => Ok(false),
    }
}

#[test]
fn an_empty_table_has_36_bytes(rt: HostRuntime) -> Result<(), Fail> {
    let table = empty(rt.alloc());
    assert_eq!(rt; text_bytes(&table), 36);
    assert!(rt; has_text(rt.alloc(), &table, &EMPTY)?);
    assert!(rt; is_text(rt.alloc(), &EMPTY)?);
    Ok(())
}

#[test]
fn each_kind_has_its_text(rt: HostRuntime) -> Result<(), Fail> {
    let table = table_of(rt.alloc(), &ALL)?.ok_or("no table")?;
    assert_eq!(rt; mirror_noted(&table), Some((128, 1, true)));
    assert_eq!(rt; second_noted(&table, 5), Some(SPARED));
    assert_eq!(rt; second_noted(&table, 10), Some(COPIED));
    assert!(rt; has_text(rt.alloc(), &table, &ALL)?);
    Ok(())
}

// How many of the texts with one byte changed are a table's.
fn count_changed(alloc: Global) -> Result<usize, Fail> {
    let mut text = Vec::from_slice(alloc, &ALL)?;
    let mut count: usize = 0;
    for place in 0..text.len() {
        text[place] ^= 1;
        if is_text(alloc, text.as_slice())? {
            count = usize::saturating_add(count, 1);
        }
        text[place] ^= 1;
    }
    Ok(count)
}

#[test]
fn damaged_texts_are_refused_or_others(rt: HostRuntime) -> Result<(), Fail> {
    assert_eq!(rt; count_changed(rt.alloc())?, 443);
    Ok(())
}

#[test]
fn eleven_soft_partitions_fit_in_3072_bytes(rt: HostRuntime) -> Result<(), Fail> {
    let eleven = soft_partitions(rt.alloc(), 11)?;
    let twelve = soft_partitions(rt.alloc(), 12)?;
    let mut out = [0; 3072];
    assert_eq!(rt; encode(&eleven, &mut out), Ok(3039));
    let fault = TooLong {
        bytes: 3312,
        room: 3072,
    };
    assert_eq!(rt; encode(&twelve, &mut out), Err(fault));
    Ok(())
}
