use mdv_base::{DriveName, PoolId, SliceName, VolId};
use mdv_name::*;
use std::alloc::{AllocError, Global};

const NAMES: &[(&[u8], bool)] = &[
    (b"a", true),
    (b"abcdefghijklmnopqrstuvwxyz012345", true),
    (b"abcdefghijklmnopqrstuvwxyz0123456", false),
    (b"", false),
    (b"1a", false),
    (b"a/b", false),
];

#[test]
fn reads_names(rt: HostRuntime) {
    for (text, want) in NAMES {
        assert!(rt; parse_name(text).is_some() == *want, "{text:?}");
    }
}

// Controller, target and disk.
const DRIVES: &[(&[u8], Option<(u8, u8, u8)>)] = &[
    (b"c0t12d3", Some((0, 12, 3))),
    (b"c255t255d255", Some((255, 255, 255))),
    (b"c0t1", None),
    (b"c0t256d0", None),
    (b"c0t01d0", None),
    (b"c0t1d0s7", None),
];

fn drive((controller, target, disk): (u8, u8, u8)) -> DriveName {
    DriveName {
        controller,
        target,
        disk,
    }
}

fn is_drive(text: &[u8], want: Option<(u8, u8, u8)>) -> bool {
    match (parse_drive(text), want) {
        (Some(found), Some(parts)) => found == drive(parts),
        (None, None) => true,
        _ => false,
    }
}

#[test]
fn reads_drives(rt: HostRuntime) {
    for (text, want) in DRIVES {
        assert!(rt; is_drive(text, *want), "{text:?}");
    }
}

const SLICE: SliceName = SliceName {
    drive: DriveName {
        controller: 0,
        target: 1,
        disk: 0,
    },
    slice: 7,
};

// What is read in all forms, and what is read in the plain one.
const SLICES: &[(&[u8], Option<SliceName>, Option<SliceName>)] = &[
    (b"c0t1d0s7", Some(SLICE), Some(SLICE)),
    (b"/dev/dsk/c0t1d0s7", Some(SLICE), None),
    (b"/dev/rdsk/c0t1d0s7", Some(SLICE), None),
    (b"c0t1d0", None, None),
    (b"c0t1d0s8", None, None),
    (b"c0t1d0s07", None, None),
    (b"/dev/md/c0t1d0s7", None, None),
];

#[test]
fn reads_slices(rt: HostRuntime) {
    for (text, want, plain) in SLICES {
        let is_read = parse_slice(text) == *want && parse_plain_slice(text) == *plain;
        assert!(rt; is_read, "{text:?}");
    }
}

// The set, empty without one, and the number.
const VOLUMES: &[(&[u8], Option<(&[u8], u16)>)] = &[
    (b"d8191", Some((b"", 8191))),
    (b"/dev/md/dsk/d8191", Some((b"", 8191))),
    (b"/dev/md/rdsk/d8191", Some((b"", 8191))),
    (b"blue/d0", Some((b"blue", 0))),
    (b"/dev/md/blue/dsk/d0", Some((b"blue", 0))),
    (b"/dev/md/blue/rdsk/d0", Some((b"blue", 0))),
    (b"d8192", None),
    (b"d01", None),
    (b"d", None),
    (b"/d1", None),
    (b"blue/dsk/d1", None),
    (b"/dev/md/d1", None),
    (b"/dev/md/dsk/blue/d1", None),
    (b"2blue/d1", None),
];

fn is_volume(text: &[u8], want: Option<(&[u8], u16)>) -> bool {
    match (parse_volume(text), want) {
        (Some(found), Some((set, number))) => {
            found.set == parse_name(set) && found.volume == VolId(number)
        }
        (None, None) => true,
        _ => false,
    }
}

#[test]
fn reads_volumes(rt: HostRuntime) {
    for (text, want) in VOLUMES {
        assert!(rt; is_volume(text, *want), "{text:?}");
    }
}

// The set, empty without one, and the number.
const POOLS: &[(&[u8], Option<(&[u8], u16)>)] = &[
    (b"hsp007", Some((b"", 7))),
    (b"blue/hsp999", Some((b"blue", 999))),
    (b"hsp7", None),
    (b"hsp0007", None),
    (b"/dev/md/hsp007", None),
];

fn is_pool(text: &[u8], want: Option<(&[u8], u16)>) -> bool {
    match (parse_pool(text), want) {
        (Some(found), Some((set, number))) => {
            found.set == parse_name(set) && found.pool == PoolId(number)
        }
        (None, None) => true,
        _ => false,
    }
}

#[test]
fn reads_pools(rt: HostRuntime) {
    for (text, want) in POOLS {
        assert!(rt; is_pool(text, *want), "{text:?}");
    }
}

#[derive(Clone, Copy)]
enum Kind {
    Drive,
    Slice,
    Volume,
    Pool,
    Name,
}

const PRINTED: &[(Kind, &[u8], &[u8])] = &[
    (Kind::Drive, b"c255t0d10", b"c255t0d10"),
    (Kind::Slice, b"/dev/dsk/c0t1d0s7", b"c0t1d0s7"),
    (Kind::Volume, b"/dev/md/blue/dsk/d12", b"blue/d12"),
    (Kind::Volume, b"d0", b"d0"),
    (Kind::Pool, b"blue/hsp007", b"blue/hsp007"),
    (Kind::Pool, b"hsp120", b"hsp120"),
    (Kind::Name, b"host-A_1.x", b"host-A_1.x"),
];

// Prints what is read, or nothing.
fn print(kind: Kind, text: &[u8], out: &mut Vec<u8>) -> Result<(), AllocError> {
    match kind {
        Kind::Drive => match parse_drive(text) {
            Some(drive) => print_drive(drive, out),
            None => Ok(()),
        },
        Kind::Slice => match parse_slice(text) {
            Some(slice) => print_slice(slice, out),
            None => Ok(()),
        },
        Kind::Volume => match parse_volume(text) {
            Some(volume) => print_volume(&volume, out),
            None => Ok(()),
        },
        Kind::Pool => match parse_pool(text) {
            Some(pool) => print_pool(&pool, out),
            None => Ok(()),
        },
        Kind::Name => match parse_name(text) {
            Some(name) => print_name(&name, out),
            None => Ok(()),
        },
    }
}

fn is_printed(alloc: Global, kind: Kind, text: &[u8], want: &[u8]) -> bool {
    let mut out = Vec::new(alloc);
    print(kind, text, &mut out).is_ok() && out.as_slice() == want
}

#[test]
fn prints_what_it_reads(rt: HostRuntime) {
    for (kind, text, want) in PRINTED {
        assert!(rt; is_printed(rt.alloc(), *kind, text, want), "{text:?}");
    }
    spelled_alike();
}
