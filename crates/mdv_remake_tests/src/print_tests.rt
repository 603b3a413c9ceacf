//! Tables that are made of texts, printed, and made of what was printed.

use crate::tables::{made, printed, printed_named, record, refusal};
use mdv_base::{Named, PoolId, VolId};
use mdv_whole::text_bytes;
use std::alloc::Global;
use std::test::Fail;

// Each is what is printed of the table that it makes.
pub(crate) const TEXTS: &[&[u8]] = &[
    b"",
    b"d10 1 1 c0t0d0s0
",
    b"d10 1 2 c0t0d0s0 c0t0d0s1 -i 16b
",
    b"d10 2 1 c0t0d0s0 2 c0t0d0s1 c0t0d0s4 -i 200b
",
    b"d0 -m d20 d10 -g -S 3
d20 1 1 c0t0d0s1
d10 1 1 c0t0d0s0
",
    b"d5 -r c0t0d0s0 c0t0d0s1 c0t0d0s3 -k -i 16b -h hsp001
hsp001 c0t0d0s4 c0t0d0s6
",
    b"d1 -p c0t0d0s3 -o 600 -b 400 -o 402 -b 100
d2 -p c0t0d0s3 -o 1 -b 400 -o 504 -b 10
",
    b"d1 -p c0t0d0s7 -o 7 -b 100
d10 1 1 c0t0d0s0 -h hsp002
hsp001
hsp002 c0t0d0s4
",
    b"d10 1 2 d2 d1 -i 32b
d2 -p c0t0d0s0 -o 1 -b 500
d1 -p c0t0d0s1 -o 1 -b 600
",
    b"d1 -p d5 -o 1 -b 10
d5 -m d20 d10 2
d20 1 1 c0t0d0s3
d10 2 1 c0t0d0s0 2 c0t0d0s1 c0t0d0s4 -i 16b
d9 -p d5 -o 12 -b 20
",
    b"hsp000 c0t0d0s7
hsp001 c0t0d0s4 c0t0d0s6
hsp002 c0t0d0s6 c0t0d0s4 c0t0d0s7
",
    b"d1 -p d10 -o 31 -b 9 -o 1 -b 20
d10 1 1 c0t0d0s0
",
];

// The place of the first text that isn't printed of the table that it makes, or makes another one.
fn first_other(alloc: Global, texts: &[&[u8]]) -> Result<Option<usize>, Fail> {
    for place in 0..texts.len() {
        if !comes_back(alloc, texts[place])? {
            return Ok(Some(place));
        }
    }
    Ok(None)
}

fn comes_back(alloc: Global, text: &[u8]) -> Result<bool, Fail> {
    let table = made(alloc, text)?;
    let print = printed(alloc, &table, true)?;
    Ok(print.as_slice() == text && is_same_in_set(alloc, text)?)
}

// What is printed in a set makes the same table, with the same states.
fn is_same_in_set(alloc: Global, text: &[u8]) -> Result<bool, Fail> {
    let table = made(alloc, text)?;
    let print = printed(alloc, &table, false)?;
    let again = made(alloc, print.as_slice())?;
    Ok(record(alloc, &table)?.as_slice() == record(alloc, &again)?.as_slice())
}

#[test]
fn tables_come_back(rt: HostRuntime) -> Result<(), Fail> {
    assert_eq!(rt; first_other(rt.alloc(), TEXTS)?, None);
    Ok(())
}

// The print of names in a set: a shared base is told below each of them.
const NAMED: &[u8] = b"blue/d10 2 1 c0t0d0s0 2 c0t0d0s1 c0t0d0s4 -i 16b
blue/d5 -m blue/d20 blue/d10 2
blue/d20 1 1 c0t0d0s3
blue/d10 2 1 c0t0d0s0 2 c0t0d0s1 c0t0d0s4 -i 16b
";

#[test]
fn names_are_printed(rt: HostRuntime) -> Result<(), Fail> {
    let table = made(rt.alloc(), TEXTS[9])?;
    let names = [
        Named::Volume(VolId(10)),
        Named::Pool(PoolId(7)),
        Named::Volume(VolId(5)),
    ];
    let print = printed_named(rt.alloc(), &table, &names)?;
    assert!(rt; print.as_slice() == NAMED);
    Ok(())
}

// Each with the number of its first refusal: a slice in use, a soft partition over another, a RAID-5 volume that is
// made anew, extents that share the block of a header, and a pool that isn't there.
const REFUSED: &[(&[u8], u8)] = &[
    (b"d1 1 1 c0t0d0s0\nd2 1 1 c0t0d0s0\n", 7),
    (b"d1 -p d2 -o 1 -b 5\nd2 -p c0t0d0s0 -o 1 -b 500\n", 16),
    (
        b"d1 -p d5 -o 1 -b 5\nd5 -r c0t0d0s0 c0t0d0s1 c0t0d0s3 -k\n",
        13,
    ),
    (
        b"d1 -p c0t0d0s0 -o 1 -b 100\nd2 -p c0t0d0s0 -o 101 -b 5\n",
        10,
    ),
    (b"d1 1 1 c0t0d0s0 -h hsp001\n", 26),
];

fn first_not_refused(alloc: Global, texts: &[(&[u8], u8)]) -> Result<Option<usize>, Fail> {
    for place in 0..texts.len() {
        if refusal(alloc, texts[place].0)? != texts[place].1 {
            return Ok(Some(place));
        }
    }
    Ok(None)
}

#[test]
fn entries_are_refused(rt: HostRuntime) -> Result<(), Fail> {
    assert_eq!(rt; first_not_refused(rt.alloc(), REFUSED)?, None);
    Ok(())
}

// Soft partitions with 16 extents of one block each, every other block from 32 times the number on.
fn extents(alloc: Global, text: &mut Vec<u8>, number: u64) -> Result<(), Fail> {
    for place in 0..16 {
        let at = number
            .saturating_mul(32)
            .saturating_add(u64::saturating_add(2 * place, 1));
        let words = format!(in alloc; " -o {at} -b 1")?;
        text.extend_from_slice(words.as_bytes())?;
    }
    text.push(b'\n')?;
    Ok(())
}

fn soft_partitions(alloc: Global, count: u64) -> Result<Vec<u8>, Fail> {
    let mut text = Vec::new(alloc);
    for number in 0..count {
        let words = format!(in alloc; "d{number} -p c0t0d0s3")?;
        text.extend_from_slice(words.as_bytes())?;
        extents(alloc, &mut text, number)?;
    }
    Ok(text)
}

#[test]
fn twelve_soft_partitions_are_too_long_for_3072_bytes(rt: HostRuntime) -> Result<(), Fail> {
    let eleven = soft_partitions(rt.alloc(), 11)?;
    assert_eq!(rt; text_bytes(&made(rt.alloc(), eleven.as_slice())?), 3039);
    let twelve = soft_partitions(rt.alloc(), 12)?;
    assert_eq!(rt; text_bytes(&made(rt.alloc(), twelve.as_slice())?), 3312);
    assert!(rt; comes_back(rt.alloc(), twelve.as_slice())?);
    Ok(())
}
