//! The table of drives.

use mdv_base::{DriveName, DriveNo};
use mdv_name::*;
use std::alloc::{AllocError, Global};

// The example of the documents.
const TABLE: &[u8] = b"# two hosts, and one drive that both reach
host hostA
host hostB

drive c0t0d0 40000 hostA d0.img
drive c0t1d0 40000 hostA d1.img
drive c1t0d0 20000 shared s0.img
drive c2t0d0 20000 hostB b0.img
mediator hostA 32 ma.img
slice c0t0d0s0 0 1000
slice c0t0d0s7\t12000 28000 db
slice c0t1d0s2 0 40000
slice c1t0d0s7 4000 16000 db";

const SHARED: DriveKind = DriveKind::Shared {
    drive: DriveName {
        controller: 1,
        target: 0,
        disk: 0,
    },
};

const DB: SliceAt = SliceAt {
    drive: DriveNo(0),
    start: 12000,
    blocks: 28000,
    db: true,
};

fn is_example(geometry: &Geometry) -> bool {
    let [_, _, shared, _, mediator] = geometry.drives.as_slice() else {
        return false;
    };
    geometry.hosts.as_slice().len() == 2
        && geometry.slices.as_slice().len() == 4
        && shared.kind == SHARED
        && mediator.blocks == 32
        && mediator.file.as_str() == "ma.img"
}

fn is_found(geometry: &Geometry, text: &[u8], want: Option<SliceAt>) -> bool {
    match parse_slice(text) {
        Some(slice) => geometry.slice(slice) == want,
        None => false,
    }
}

fn reads_the_example(alloc: Global) -> bool {
    match Geometry::read(alloc, TABLE) {
        Ok(geometry) => {
            is_example(&geometry)
                && is_found(&geometry, b"c0t0d0s7", Some(DB))
                && is_found(&geometry, b"c0t0d0s6", None)
        }
        Err(_) => false,
    }
}

#[test]
fn reads_a_table_of_drives(rt: HostRuntime) {
    assert!(rt; reads_the_example(rt.alloc()));
}

// The line at which the text is refused.
fn bad_line(alloc: Global, text: &[u8]) -> Option<u32> {
    match Geometry::read(alloc, text) {
        Err(GeometryFault::BadLine(number)) => Some(number),
        _ => None,
    }
}

const BAD_LINES: &[(&[u8], Option<u32>)] = &[
    (b"", None),
    (b"\n# a\n \t\nhost a\n", None),
    (b"host a\nhosts b\n", Some(2)),
    (b"host a b", Some(1)),
    (b"host shared", Some(1)),
    (b"\n\nhost a\nhost a\nhost a\n", Some(4)),
    (b"drive c0t0d0 9 a f", Some(1)),
    (b"drive c0t0d0 0 shared f", Some(1)),
    (b"drive c0t0d0 1099511627776 shared f", None),
    (b"drive c0t0d0 1099511627777 shared f", Some(1)),
    (b"drive c0t0d0 9 shared f\xff", Some(1)),
    (b"drive c0t0d0 9 shared f\ndrive c0t0d0 9 shared g", Some(2)),
    (b"mediator a 32 f", Some(1)),
    (b"host a\nmediator a 31 f", Some(2)),
    (b"host a\nmediator a 32 f\nmediator a 32 g", Some(3)),
    (b"slice c0t0d0s0 0 9", Some(1)),
    (b"drive c0t0d0 9 shared f\nslice c0t0d0s0 0 9 db", None),
    (b"drive c0t0d0 9 shared f\nslice c0t0d0s0 0 9 dB", Some(2)),
    (b"drive c0t0d0 9 shared f\nslice c0t0d0s0 1 9", Some(2)),
    (b"drive c0t0d0 9 shared f\nslice c0t0d0s0 9 0", Some(2)),
    (
        b"drive c0t0d0 9 shared f\nslice c0t0d0s0 0 4\nslice c0t0d0s1 0 4\nslice c0t0d0s0 4 4",
        Some(4),
    ),
];

#[test]
fn tells_the_first_wrong_line(rt: HostRuntime) {
    for (text, want) in BAD_LINES {
        assert!(rt; bad_line(rt.alloc(), text) == *want, "{text:?}");
    }
}

const FAULTS: &[(GeometryFault, &str)] = &[
    (GeometryFault::BadLine(7), "line 7 is wrong"),
    (GeometryFault::Memory, "out of memory"),
];

fn is_told(alloc: Global, fault: &GeometryFault, want: &str) -> Result<bool, AllocError> {
    let text = format!(in alloc; "{fault}")?;
    Ok(text.as_str() == want)
}

#[test]
fn tells_a_fault(rt: HostRuntime) {
    for (fault, want) in FAULTS {
        assert!(rt; is_told(rt.alloc(), fault, want) == Ok(true), "{want}");
    }
}

// The first wrong line of so many empty ones.
fn bad_empty_line(alloc: Global, count: usize) -> Result<Option<u32>, AllocError> {
    let text = vec![in alloc; b'\n'; count]?;
    Ok(bad_line(alloc, text.as_slice()))
}

#[test]
fn a_text_past_the_limit_is_refused_at_its_line(rt: HostRuntime) {
    assert!(rt; bad_empty_line(rt.alloc(), MAX_TEXT) == Ok(None));
    assert!(rt; bad_empty_line(rt.alloc(), MAX_TEXT + 1) == Ok(Some(65537)));
}

// The first wrong line of 256 drives, on as many targets, and this text.
fn bad_drive(alloc: Global, behind: &str) -> Result<Option<u32>, AllocError> {
    let mut text = String::new(alloc);
    for n in 0..256 {
        text.push_str(format!(in alloc; "drive c0t{n}d0 9 shared f\n")?.as_str())?;
    }
    text.push_str(behind)?;
    Ok(bad_line(alloc, text.as_bytes()))
}

#[test]
fn at_most_256_drives(rt: HostRuntime) {
    assert!(rt; bad_drive(rt.alloc(), "") == Ok(None));
    assert!(rt; bad_drive(rt.alloc(), "drive c1t0d0 9 shared f\n") == Ok(Some(257)));
}
