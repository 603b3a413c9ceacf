//! Records of tables that are, or aren't, of the table of drives.

use crate::print_tests::TEXTS;
use crate::tables::{drives, made, record};
use mdv_fields::RecordError;
use std::alloc::Global;
use std::test::Fail;

// Whether the bytes are the record of a table of these drives. Each is some table's.
fn is_of_drives(alloc: Global, bytes: &[u8]) -> Result<bool, Fail> {
    if mdv_whole::decode(alloc, bytes).is_err() {
        Err::<(), _>("no table")?;
    }
    let geometry = drives(alloc)?;
    match mdv_fitting::decode(alloc, &geometry, bytes) {
        Ok(table) => Ok(record(alloc, &table)?.as_slice() == bytes),
        Err(RecordError::NotARecord) => Ok(false),
        Err(RecordError::Memory) => Err("memory")?,
    }
}

// The place of the first text whose table isn't of these drives.
fn first_foreign(alloc: Global, texts: &[&[u8]]) -> Result<Option<usize>, Fail> {
    for place in 0..texts.len() {
        let table = made(alloc, texts[place])?;
        if !is_of_drives(alloc, record(alloc, &table)?.as_slice())? {
            return Ok(Some(place));
        }
    }
    Ok(None)
}

#[test]
fn tables_that_were_made_are_of_their_drives(rt: HostRuntime) -> Result<(), Fail> {
    assert_eq!(rt; first_foreign(rt.alloc(), TEXTS)?, None);
    Ok(())
}

// Of each case the place of a text, a byte of the record of its table and what it is now, and whether the table is of the
// drives still.
type Case = (usize, usize, u8, bool);

const CASES: &[Case] = &[
    // The slice of the replica, which isn't set aside for it.
    (1, 17, 6, false),
    // The slice of a component of 1000 blocks: none, a shorter one, a longer one, that of the replica.
    (1, 54, 2, false),
    (1, 54, 1, false),
    (1, 54, 3, true),
    (1, 54, 7, false),
    // The block at which it begins, and how many blocks it has.
    (1, 62, 1, false),
    (1, 70, 233, false),
    (1, 70, 231, true),
    // Which submirror is offline, the size of the mirror, and the state of the only one with a copy.
    (4, 45, 1, false),
    (4, 48, 1, true),
    (4, 56, 223, false),
    (4, 56, 221, true),
    (4, 270, 2, false),
    (4, 270, 3, true),
    // The slice of a spare, and the blocks of a column.
    (5, 41, 1, false),
    (5, 123, 215, false),
    // The blocks of an extent before another one's header, and the block from which one counts.
    (6, 117, 145, false),
    (6, 117, 143, true),
    (6, 100, 1, false),
    // A spare on the slice of a component or on a free one, and the block behind a replica.
    (7, 45, 0, false),
    (7, 45, 6, true),
    (7, 80, 31, false),
    (7, 80, 40, true),
    // The volume on which a component lies: one that another component has, and none.
    (8, 156, 2, false),
    (8, 156, 9, false),
];

fn text_at(place: usize) -> Result<&'static [u8], Fail> {
    match TEXTS.get(place) {
        Some(text) => Ok(*text),
        None => Err("no text")?,
    }
}

fn answer(alloc: Global, case: Case) -> Result<bool, Fail> {
    let table = made(alloc, text_at(case.0)?)?;
    let mut bytes = record(alloc, &table)?;
    if case.1 >= bytes.len() {
        Err::<(), _>("past the record")?;
    }
    bytes[case.1] = case.2;
    is_of_drives(alloc, bytes.as_slice())
}

// The place of the first case whose answer is another one.
fn first_other(alloc: Global, cases: &[Case]) -> Result<Option<usize>, Fail> {
    for place in 0..cases.len() {
        if answer(alloc, cases[place])? != cases[place].3 {
            return Ok(Some(place));
        }
    }
    Ok(None)
}

#[test]
fn tables_of_other_drives_are_refused(rt: HostRuntime) -> Result<(), Fail> {
    assert_eq!(rt; first_other(rt.alloc(), CASES)?, None);
    Ok(())
}
