use mdv_base::{PoolId, VolId};
use mdv_parts::{Component, ReplicaOptions};
use mdv_tab::*;
use std::alloc::{AllocError, Global};
use std::test::Fail;

// How many entries the text has, or its fault.
fn count(alloc: Global, text: &[u8]) -> Result<usize, TabFault> {
    Ok(read_tab(alloc, text)?.len())
}

// Each is one entry.
const FORMS: &[&[u8]] = &[
    b"d10 1 1 c0t0d0s0",
    b"d10 1 1 /dev/dsk/c0t0d0s0",
    b"d10 2 1 c0t0d0s0 2 d4 c0t1d0s0 -i 32k",
    b"d10 1 2 c0t0d0s0 c0t1d0s0 -i 0 -h hsp001",
    b"d10 1 0",
    b"blue/d10 1 1 blue/d4 -h blue/hsp001",
    b"d0 -m d10",
    b"d0 -m d10 d20 1",
    b"d0 -m d10 d20 -g -S 9",
    b"d0 -m d10 -S -r",
    b"/dev/md/dsk/d0 -m /dev/md/rdsk/d10 1",
    b"d5 -r c0t0d0s0",
    b"d5 -r c0t0d0s0 d4 c0t2d0s0 -k -i 16b -h hsp001",
    b"d5 -r c0t0d0s0 c0t1d0s0 -h hsp001 -k -i 16b",
    b"d5 -r c0t0d0s0 c0t1d0s0 -i 16b -h hsp001 -k",
    b"d1 -p c0t0d0s0 1g",
    b"d1 -p d10 -o 1 -b 400",
    b"d1 -p d10 -o 1 -b 400 -o 500 -b 0",
    b"hsp001",
    b"blue/hsp001 c0t0d0s0 c0t1d0s0",
    b"mddb01 c0t0d0s7",
    b"mddb01 -c 50 -l 8192 c0t0d0s7 c0t1d0s7",
    b"mddb99 -l 16 -c 1 c0t0d0s7",
    b"\t d10 1\t1  c0t0d0s0 # the last word",
];

// None is an entry.
const WRONG: &[&[u8]] = &[
    b"d10",
    b"d10 0",
    b"d10 1",
    b"d8192 1 1 c0t0d0s0",
    b"d10 1 1",
    b"d10 1 2 c0t0d0s0",
    b"d10 1 1 c0t0d0s0 c0t1d0s0",
    b"d10 2 1 c0t0d0s0",
    b"d10 1b 1 c0t0d0s0",
    b"d10 1 1 c0t0d0s8",
    b"d10 1 1 c0t0d0s0 -i",
    b"d10 1 1 c0t0d0s0 -i 16x",
    b"d10 1 1 c0t0d0s0 -i 16b -i 16b",
    b"d10 1 1 c0t0d0s0 -h hsp001 -i 16b",
    b"d10 1 1 c0t0d0s0 -h hsp001 -h hsp001",
    b"d10 1 1 c0t0d0s0 -h blue/hsp001",
    b"d10 1 1 blue/d4",
    b"blue/d10 1 1 d4",
    b"d0 -m",
    b"d0 -m c0t0d0s0",
    b"d0 -m blue/d10",
    b"d0 -m d10 -g -r",
    b"d0 -m d10 -S -S",
    b"d0 -m d10 1 -S",
    b"d0 -m d10 0",
    b"d0 -m d10 10",
    b"d5 -r",
    b"d5 -r c0t0d0s0 -k -k",
    b"d5 -r c0t0d0s0 -i 16b -k -i 16b",
    b"d5 -r c0t0d0s0 -k c0t1d0s0",
    b"d1 -p c0t0d0s0",
    b"d1 -p c0t0d0s0 0",
    b"d1 -p c0t0d0s0 -o 1",
    b"d1 -p c0t0d0s0 -b 1 -o 1",
    b"d1 -p c0t0d0s0 -o 1k -b 1",
    b"hsp001 d10",
    b"mddb01",
    b"mddb01 -c 51 c0t0d0s7",
    b"mddb01 -c 1 -c 1 c0t0d0s7",
    b"metainit d10 1 1 c0t0d0s0",
];

#[test]
fn reads_each_form(rt: HostRuntime) {
    for line in FORMS {
        assert!(rt; count(rt.alloc(), line) == Ok(1), "{line:?}");
    }
    reads_as_one_tab();
}

#[test]
fn refuses_wrong_parts(rt: HostRuntime) {
    for line in WRONG {
        assert!(rt;
            count(rt.alloc(), line) == Err(TabFault::BadLine(1)),
            "{line:?}"
        );
    }
}

// How many entries a text has, or its first wrong line.
const TEXTS: &[(&[u8], Result<usize, TabFault>)] = &[
    (b"", Ok(0)),
    (b"\n \t\n# d10 1 1 c0t0d0s0\n", Ok(0)),
    (
        b"# two-way mirror\nd0 -m d10 d20 1\nd10 1 1 /dev/dsk/c0t0d0s0\nd20 1 1 \\\nc0t1d0s0\n",
        Ok(3),
    ),
    (b"d10 1\\\n1\\\nc0t0d0s0", Ok(1)),
    (b"d10 1 1 c0t0d0s0\\\n", Ok(1)),
    (b"d10 1 1 c0t0d0s0\\", Err(TabFault::BadLine(1))),
    (b"d10 1 1 \\ \nc0t0d0s0", Err(TabFault::BadLine(1))),
    (b"d10 1 1 c0t0d0s0#\\\nhsp001", Ok(2)),
    (b"d10 1 1 \\\n# \\\nc0t0d0s0", Err(TabFault::BadLine(1))),
    (
        b"hsp001\n\nd10 1 1 \\\n\\\nc0t0d0s0\nd11\n",
        Err(TabFault::BadLine(6)),
    ),
    (b"hsp001\nd10 1 \\\n1\nd11\n", Err(TabFault::BadLine(2))),
    (b"hsp001 # \x80\n", Err(TabFault::BadLine(1))),
    (b"hsp001 \\\n# \x80\nhsp002", Err(TabFault::BadLine(1))),
];

#[test]
fn joins_lines_and_skips_comments(rt: HostRuntime) {
    for (text, want) in TEXTS {
        assert!(rt; count(rt.alloc(), text) == *want, "{text:?}");
    }
}

const KEPT: &[u8] = b"d10 2 1 c0t0d0s0 2 d4 d6 -i 32k -h hsp001\nmddb07 -l 16 c0t0d0s7\n";

const OPTIONS: ReplicaOptions = ReplicaOptions {
    count: None,
    blocks: Some(16),
};

fn has_stripes(rows: &[Row]) -> bool {
    let [first, second] = rows else {
        return false;
    };
    let want = [Component::Volume(VolId(4)), Component::Volume(VolId(6))];
    first.interlace.is_none()
        && second.interlace == Some(64)
        && second.components.as_slice() == want.as_slice()
}

fn has_parts(entries: &[Entry]) -> bool {
    let [
        Entry::Stripe { name, rows, spares },
        Entry::Replicas {
            number,
            options,
            ..
        },
    ] = entries
    else {
        return false;
    };
    name.volume == VolId(10)
        && *spares == Some(PoolId(1))
        && has_stripes(rows.as_slice())
        && *number == 7
        && *options == OPTIONS
}

fn keeps_both(alloc: Global) -> Result<bool, TabFault> {
    Ok(has_parts(read_tab(alloc, KEPT)?.as_slice()))
}

#[test]
fn keeps_the_parts(rt: HostRuntime) {
    assert!(rt; keeps_both(rt.alloc()) == Ok(true));
}

// How many entries there are of so many times the front, and the end behind it.
fn count_of(
    alloc: Global,
    front: &[u8],
    times: u32,
    end: &[u8],
) -> Result<Result<usize, TabFault>, AllocError> {
    let mut text = Vec::new(alloc);
    for _ in 0..times {
        text.extend_from_slice(front)?;
    }
    text.extend_from_slice(end)?;
    Ok(count(alloc, text.as_slice()))
}

// A front, how many times, the end behind it, and how many entries they have.
const LIMITS: &[(&[u8], u32, &[u8], Result<usize, TabFault>)] = &[
    (b"hsp001\n", 1024, b"", Ok(1024)),
    (b"hsp001\n", 1024, b"hsp001\nwhat", Err(TabFault::TooMany)),
    (b" ", 65536, b"", Ok(0)),
    (b" ", 65536, b" ", Err(TabFault::TooMany)),
];

#[test]
fn keeps_the_limits(rt: HostRuntime) -> Result<(), Fail> {
    for (front, times, end, want) in LIMITS {
        let found = count_of(rt.alloc(), front, *times, end)?;
        assert!(rt; found == *want, "{times}");
    }
    Ok(())
}

// The entries' places in the order of need.
const ORDERS: &[(&[u8], &[u32])] = &[
    (
        b"d0 -m d10 d20 1\nd10 1 1 c0t0d0s0\nd20 1 1 c0t1d0s0\n",
        &[1, 2, 0],
    ),
    (
        b"d4 1 1 d3\nd3 -p d2 1g\nd2 -r d1 c0t0d0s0\nd1 1 1 c0t1d0s0\n",
        &[3, 2, 1, 0],
    ),
    (b"d1 1 1 c0t0d0s0 -h hsp001\nhsp001\n", &[1, 0]),
    (b"d1 1 1 d2\nd2 1 1 d1\nd3 1 1 c0t0d0s0\n", &[2, 0, 1]),
    (b"d3 1 1 d1\nd1 1 1 d2\nd2 1 1 d1\n", &[0, 1, 2]),
    (b"d1 1 1 d2\nblue/d2 1 1 c0t0d0s0\n", &[0, 1]),
    (b"d1 1 1 d1\nd2 1 1 c0t0d0s0\n", &[0, 1]),
    (b"d1 1 1 d2\nd2 1 1 d2\nd2 1 1 c0t0d0s0\n", &[2, 1, 0]),
    (b"mddb01 c0t0d0s7\nd1 1 1 d2\nd2 1 1 c0t0d0s0\n", &[0, 2, 1]),
];

fn is_order(alloc: Global, text: &[u8], want: &[u32]) -> Result<bool, Fail> {
    let entries = read_tab(alloc, text)?;
    let order = order_of_need(alloc, entries.as_slice())?;
    Ok(order.as_slice() == want)
}

#[test]
fn puts_entries_in_order(rt: HostRuntime) -> Result<(), Fail> {
    for (text, want) in ORDERS {
        assert!(rt; is_order(rt.alloc(), text, want)?, "{text:?}");
    }
    has_one_order();
    Ok(())
}
