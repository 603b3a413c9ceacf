use crate::drives::{both, lies, place, sound};
use crate::table_tests::told;
use mdv_base::Places;
use mdv_config::settle;
use mdv_encoding::{decode, encode, text_bytes};
use mdv_fields::RecordError;
use mdv_plan::{Lists, Table};
use mdv_whole::TooLong;
use std::alloc::Global;
use std::test::Fail;

// Slice 1 begins with the last block of slice 0.
const DRIVES: &[u8] = b"host hostA
drive c0t0d0 40000 hostA d0.img
slice c0t0d0s0 0 1000
slice c0t0d0s1 999 991
slice c0t0d0s3 2000 4000
slice c0t0d0s5 6000 6000 db
slice c0t0d0s7 12000 28000 db
";

// A place of 16 blocks at block 16 of c0t0d0s7, and nothing else.
const EMPTY: [u8; 36] = [
    0x4d, 0x44, 0x56, 0x52, 0x45, 0x43, 0x30, 0x31, // MDVREC01
    0, 0, 0, 36, // bytes
    1, 1, 0, 0, 0, 7, 0, 0, 0, 16, 0, 0, 0, 16, // one list of one place
    0, 0, 0, 0, 0, 0, 0, 0, // no set, no pending sets, no pools
    0, 0, // no volumes
];

// Two places of 16 blocks on c0t0d0s7, and on c0t0d0s5 one of 512 at block 528.
const PLACES: [u8; 60] = [
    0x4d, 0x44, 0x56, 0x52, 0x45, 0x43, 0x30, 0x31, // MDVREC01
    0, 0, 0, 60, // bytes
    1, 3, // one list of three places
    0, 0, 0, 7, 0, 0, 0, 16, 0, 0, 0, 16, // c0t0d0s7
    0, 0, 0, 7, 0, 0, 0, 32, 0, 0, 0, 16, // behind it
    0, 0, 0, 5, 0, 0, 0x02, 0x10, 0, 0, 0x02, 0, // c0t0d0s5
    0, 0, 0, 0, 0, 0, 0, 0, // no set, no pending sets, no pools
    0, 0, // no volumes
];

// A place of 16 blocks on c0t0d0s7 and one of 512 on c0t0d0s5; the second goes, and one behind the first comes.
const CHANGING: [u8; 73] = [
    0x4d, 0x44, 0x56, 0x52, 0x45, 0x43, 0x30, 0x31, // MDVREC01
    0, 0, 0, 73, // bytes
    2, 2, // two lists, the first of two places
    0, 0, 0, 7, 0, 0, 0, 16, 0, 0, 0, 16, // c0t0d0s7
    0, 0, 0, 5, 0, 0, 0x02, 0x10, 0, 0, 0x02, 0, // c0t0d0s5
    2, // and the second of two
    0, 0, 0, 7, 0, 0, 0, 16, 0, 0, 0, 16, // c0t0d0s7
    0, 0, 0, 7, 0, 0, 0, 32, 0, 0, 0, 16, // behind it
    0, 0, 0, 0, 0, 0, 0, 0, // no set, no pending sets, no pools
    0, 0, // no volumes
];

// The same once the change is over.
const CHANGED: [u8; 48] = [
    0x4d, 0x44, 0x56, 0x52, 0x45, 0x43, 0x30, 0x31, // MDVREC01
    0, 0, 0, 48, // bytes
    1, 2, // one list of two places
    0, 0, 0, 7, 0, 0, 0, 16, 0, 0, 0, 16, // c0t0d0s7
    0, 0, 0, 7, 0, 0, 0, 32, 0, 0, 0, 16, // behind it
    0, 0, 0, 0, 0, 0, 0, 0, // no set, no pending sets, no pools
    0, 0, // no volumes
];

// The empty table with the stripes d10 on c0t0d0s0 and d260 on c0t0d0s3.
const STRIPES: [u8; 136] = [
    0x4d, 0x44, 0x56, 0x52, 0x45, 0x43, 0x30, 0x31, // MDVREC01
    0, 0, 0, 136, // bytes
    1, 1, 0, 0, 0, 7, 0, 0, 0, 16, 0, 0, 0, 16, // one list of one place
    0, 0, 0, 0, 0, 0, 0, 0, // no set, no pending sets, no pools
    0, 2, // two volumes
    0, 10, 0, 0, 0, 0, 0, 1, 0, 1, 0, 0, 0, 32, // d10: one stripe of width 1 and interlace 32
    0, 0, 0, 0, 0, // c0t0d0s0
    0, 0, 0, 0, 0, 0, 0, 0, 0, 0, 0, 0, 0, 0, 0x03, 0xe8, // start, blocks
    0, 0, 0, 0, 0, 0, 0, 0, 0, 0, 0, 0, 0, 0, 0, // state, resync, spare
    0x01, 0x04, 0, 0, 0, 0, 0, 1, 0, 1, 0, 0, 0, 32, // d260
    0, 0, 0, 0, 3, // c0t0d0s3
    0, 0, 0, 0, 0, 0, 0, 0, 0, 0, 0, 0, 0, 0, 0x0f, 0xa0, // start, blocks
    0, 0, 0, 0, 0, 0, 0, 0, 0, 0, 0, 0, 0, 0, 0, // state, resync, spare
];

fn empty(alloc: Global) -> Result<Table, Fail> {
    Ok(Table::empty(alloc, place(b"c0t0d0s7", 16, 16)?))
}

fn places(alloc: Global) -> Result<Table, Fail> {
    let mut places = Places::new();
    places.push(lies(b"c0t0d0s7", 16, 16)?);
    places.push(lies(b"c0t0d0s7", 32, 16)?);
    places.push(lies(b"c0t0d0s5", 528, 512)?);
    Ok(Table::empty(alloc, places))
}

fn changing(alloc: Global) -> Result<Table, Fail> {
    let stays = lies(b"c0t0d0s7", 16, 16)?;
    let old = both(stays, lies(b"c0t0d0s5", 528, 512)?);
    let new = both(stays, lies(b"c0t0d0s7", 32, 16)?);
    let mut table = Table::empty(alloc, Places::new());
    table.plan.lists = Lists::Two(old, new);
    Ok(table)
}

fn stripes(alloc: Global) -> Result<Table, Fail> {
    let mut table = empty(alloc)?;
    let second = told(alloc, DRIVES, &mut table, 260, b"c0t0d0s3")?;
    let first = told(alloc, DRIVES, &mut table, 10, b"c0t0d0s0")?;
    if first != 0 || second != 0 {
        return Err(Fail::from("refused"));
    }
    Ok(table)
}

// Whether the table has this text, and nothing behind it is written.
fn is_spelled(table: &Table, text: &[u8]) -> bool {
    let mut out = [7; 140];
    let told = encode(table, &mut out);
    let Some((front, rest)) = out.split_at_checked(text.len()) else {
        return false;
    };
    text_bytes(table) == text.len() as u64
        && told == Ok(text.len())
        && front == text
        && rest.iter().all(|byte| *byte == 7)
}

// Whether the table has this text, and that which is read of the text too.
fn is_both_ways(alloc: Global, table: &Table, text: &[u8]) -> Result<bool, Fail> {
    let geometry = sound(alloc, DRIVES)?;
    let read = decode(alloc, &geometry, text)?;
    Ok(is_spelled(table, text) && is_spelled(&read, text))
}

#[test]
fn writes_and_reads_the_worked_bytes(rt: HostRuntime) -> Result<(), Fail> {
    let (empty, stripes) = (empty(rt.alloc())?, stripes(rt.alloc())?);
    assert!(rt; is_both_ways(rt.alloc(), &empty, &EMPTY)?);
    assert!(rt; is_both_ways(rt.alloc(), &stripes, &STRIPES)?);
    let places = places(rt.alloc())?;
    assert!(rt; is_both_ways(rt.alloc(), &places, &PLACES)?);
    Ok(())
}

#[test]
fn writes_and_reads_two_lists(rt: HostRuntime) -> Result<(), Fail> {
    let table = changing(rt.alloc())?;
    assert!(rt; is_both_ways(rt.alloc(), &table, &CHANGING)?);
    let changed = settle(table);
    assert!(rt; is_both_ways(rt.alloc(), &changed, &CHANGED)?);
    Ok(())
}

#[test]
fn tells_what_is_too_long(rt: HostRuntime) -> Result<(), Fail> {
    let table = empty(rt.alloc())?;
    let mut exact = [7; 36];
    assert!(rt; encode(&table, &mut exact) == Ok(36));
    let mut short = [7; 35];
    let fault = TooLong {
        bytes: 36,
        room: 35,
    };
    assert!(rt; encode(&table, &mut short) == Err(fault));
    assert!(rt; short.iter().all(|byte| *byte == 7));
    Ok(())
}

fn is_refused(alloc: Global, bytes: &[u8]) -> Result<bool, Fail> {
    let geometry = sound(alloc, DRIVES)?;
    Ok(match decode(alloc, &geometry, bytes) {
        Err(RecordError::NotARecord) => true,
        _ => false,
    })
}

// So many bytes of the text of two stripes, of which some are others, and what these ask.
const WRONG: &[(usize, &[(usize, u8)], &str)] = &[
    (136, &[(0, 0x4e)], "another head"),
    (136, &[(11, 135)], "another length"),
    (136, &[(12, 2)], "two lists"),
    (136, &[(13, 2)], "two places"),
    (136, &[(17, 0)], "a place on a slice for data"),
    (136, &[(21, 17)], "a place from block 17 on"),
    (136, &[(26, 1)], "an owner"),
    (136, &[(33, 1)], "a pool"),
    (136, &[(35, 1)], "bytes behind the record"),
    (136, &[(36, 2)], "volumes out of order"),
    (136, &[(38, 1)], "a mirror"),
    (136, &[(49, 15)], "an interlace of 15"),
    (136, &[(50, 1)], "a soft partition"),
    (136, &[(54, 7)], "a volume on a slice for replicas"),
    (136, &[(62, 1)], "a component from block 1 on"),
    (136, &[(70, 0xe9)], "a component with a block more"),
    (136, &[(71, 1)], "a component that isn't okay"),
    (136, &[(73, 1)], "a spare"),
    // d260 on c0t0d0s1, which has 991 blocks
    (
        136,
        &[(104, 1), (119, 0x03), (120, 0xdf)],
        "slices that share a block",
    ),
    (135, &[], "a byte less"),
    (0, &[], "no bytes"),
];

// Bytes of the text of three places that are others, and what these ask.
const OTHER_PLACES: &[(&[(usize, u8)], &str)] = &[
    (&[(13, 0)], "no places"),
    (&[(13, 2)], "two places"),
    (&[(13, 51)], "51 places"),
    (&[(33, 33)], "a place out of step"),
    (&[(33, 48), (37, 32)], "places of two lengths on one slice"),
    (&[(41, 3)], "a place on a slice for data"),
    (&[(44, 0x16)], "a place that ends behind its slice"),
];

// The same of the text of two lists.
const OTHER_LISTS: &[(&[(usize, u8)], &str)] = &[
    (&[(12, 0)], "no list"),
    (&[(12, 1)], "one list"),
    (&[(12, 3)], "three lists"),
    (&[(13, 0)], "no places that were"),
    (&[(38, 0)], "no places that come"),
    (&[(38, 1)], "one place that comes"),
    (&[(58, 16)], "a place that comes twice"),
    (&[(58, 33)], "a place that comes out of step"),
    (&[(54, 3)], "a place that comes on a slice for data"),
    (
        &[(50, 32), (58, 48), (62, 32)],
        "places that come of another length than the one that was on their slice",
    ),
];

fn change(text: &mut [u8], changes: &[(usize, u8)]) {
    for (place, byte) in changes {
        if let Some(at) = text.get_mut(*place) {
            *at = *byte;
        }
    }
}

#[test]
fn reads_nothing_else(rt: HostRuntime) -> Result<(), Fail> {
    for (count, changes, name) in WRONG {
        let mut bytes = STRIPES;
        change(&mut bytes, changes);
        let front = bytes.get(..*count).ok_or("fewer bytes")?;
        assert!(rt; is_refused(rt.alloc(), front)?, "{name}");
    }
    for (changes, name) in OTHER_PLACES {
        let mut bytes = PLACES;
        change(&mut bytes, changes);
        assert!(rt; is_refused(rt.alloc(), &bytes)?, "{name}");
    }
    for (changes, name) in OTHER_LISTS {
        let mut bytes = CHANGING;
        change(&mut bytes, changes);
        assert!(rt; is_refused(rt.alloc(), &bytes)?, "{name}");
    }
    Ok(())
}
