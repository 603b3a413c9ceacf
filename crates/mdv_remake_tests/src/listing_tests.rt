//! Tables of local databases, printed.

use crate::tables::made;
use mdv_base::{Named, PoolId, VolId};
use mdv_listing::listing;
use mdv_plan::Table;
use std::alloc::Global;
use std::test::Fail;

// Two volumes of one slice, and one of a row of one slice and a row of two.
const VOLUMES: &[u8] =
    b"d8191 1 1 c0t0d0s6\nd7 2 1 c0t0d0s1 2 c0t0d0s3 c0t0d0s4 -i 16b\nd0 1 1 c0t0d0s0\n";

// Names, and what is printed of them.
const LISTED: &[(&[Named], &[u8])] = &[
    (
        &[],
        b"d0 1 1 c0t0d0s0\nd7 2 1 c0t0d0s1 2 c0t0d0s3 c0t0d0s4 -i 16b\nd8191 1 1 c0t0d0s6\n",
    ),
    (
        &[Named::Volume(VolId(8191)), Named::Volume(VolId(0))],
        b"d8191 1 1 c0t0d0s6\nd0 1 1 c0t0d0s0\n",
    ),
    (
        &[Named::Volume(VolId(0)), Named::Volume(VolId(0))],
        b"d0 1 1 c0t0d0s0\nd0 1 1 c0t0d0s0\n",
    ),
    (&[Named::Volume(VolId(1)), Named::Pool(PoolId(0))], b""),
];

// The place of the first names of which another text is printed.
fn first_other(alloc: Global, table: &Table) -> Result<Option<usize>, Fail> {
    for place in 0..LISTED.len() {
        let text = listing(alloc, table, LISTED[place].0)?;
        if text.as_slice() != LISTED[place].1 {
            return Ok(Some(place));
        }
    }
    Ok(None)
}

#[test]
fn volumes_are_listed(rt: HostRuntime) -> Result<(), Fail> {
    let table = made(rt.alloc(), VOLUMES)?;
    assert_eq!(rt; first_other(rt.alloc(), &table)?, None);
    Ok(())
}

#[test]
fn no_volume_has_no_line(rt: HostRuntime) -> Result<(), Fail> {
    let table = made(rt.alloc(), b"")?;
    let text = listing(rt.alloc(), &table, &[])?;
    assert!(rt; text.as_slice().is_empty());
    Ok(())
}
