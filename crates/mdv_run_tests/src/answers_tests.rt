// What the lines of a script are answered.

use crate::bench::{BLOCKS, CREATION, LONE, TABLE, ends_so};
use crate::lines::{Lines, Row, WIDE, WIDE_BLOCKS, first_wrong};
use mdv_run_law::RunStatus;
use mdv_shelf::MemShelf;
use std::alloc::{AllocError, Global};
use std::test::Fail;

// A slice for replicas that is a block too short for the default, and the least one that there is.
const SMALL: &str =
    "host alpha\ndrive c0t0d0 9000 alpha disk.img\nslice c0t0d0s0 0 16\nslice c0t0d0s7 16 8207 db\n";

const LEAST: &str =
    "host alpha\ndrive c0t0d0 48 alpha disk.img\nslice c0t0d0s0 0 16\nslice c0t0d0s7 16 32 db\n";

const DOWN: &str = "refused E13 WrongState Down";

// Each refusal of a creation in its place: E6, E12, then E7 where a database is open, else E13, E3 and E10.
const CREATIONS: &[Row] = &[
    ("metadb -a c0t1d0s7", "refused E6 NoSuchSlice"),
    ("metadb -a c0t0d0s0", "refused E12 WrongKind"),
    ("metadb -a c0t0d0s7", "refused E3 NeedForce"),
    ("metadb -a -f c0t0d0s7", "ok"),
    ("metadb -a -f c0t1d0s7", "refused E6 NoSuchSlice"),
    ("metadb -a -f c0t0d0s0", "refused E12 WrongKind"),
    ("metadb -a c0t0d0s7", "refused E7 SliceInUse"),
    ("metadb -a -f c0t0d0s7", "refused E7 SliceInUse"),
    ("boot", "ok"),
    ("metadb -a -f c0t0d0s7", "refused E7 SliceInUse"),
];

const SMALL_CREATIONS: &[Row] = &[
    ("metadb -a c0t1d0s7", "refused E6 NoSuchSlice"),
    ("metadb -a c0t0d0s0", "refused E12 WrongKind"),
    ("metadb -a c0t0d0s7", DOWN),
    ("boot", "ok"),
    ("metadb -a c0t0d0s7", "refused E3 NeedForce"),
    ("metadb -a -f c0t0d0s7", "refused E10 TooSmall"),
];

// A replica of as many blocks as `-l` says, where the slice has them behind its first 16.
const LENGTHS: &[Row] = &[
    ("metadb -a -f -l 15 c0t0d0s7", "refused E1 BadLine"),
    ("metadb -a -f -l 8193 c0t0d0s7", "refused E1 BadLine"),
    ("metadb -a -l 8192 c0t0d0s7", "refused E3 NeedForce"),
    ("metadb -a -f -l 8192 c0t0d0s7", "refused E10 TooSmall"),
    ("metadb -a -f -l 8191 c0t0d0s7", "ok"),
    ("metadb -a -f -l 16 c0t0d0s7", "refused E7 SliceInUse"),
    ("boot", "ok"),
    ("metainit d0 1 1 c0t0d0s0", "ok"),
    ("metastat -p", "d0 1 1 c0t0d0s0\nok"),
];

// As many replicas as `-c` says, of which there are 50 at most.
const COUNTS: &[Row] = &[
    ("metadb -a -f -c 0 -l 16 c0t0d0s7", "refused E1 BadLine"),
    ("metadb -a -f -c 51 -l 16 c0t0d0s7", "refused E1 BadLine"),
    ("metadb -a -f -c 50 -l 16 c0t0d0s7", "ok"),
    ("metadb -a -l 16 c0t0d0s7", "refused E9 TooMany"),
    ("boot", "ok"),
    ("metainit d0 1 1 c0t0d0s0", "ok"),
    ("metastat -p", "d0 1 1 c0t0d0s0\nok"),
];

const LEAST_LENGTHS: &[Row] = &[
    ("metadb -a -f -l 17 c0t0d0s7", "refused E10 TooSmall"),
    ("metadb -a -f -l 16 c0t0d0s7", "ok"),
    ("metainit d8191 1 1 c0t0d0s0", "ok"),
    ("boot", "ok"),
    ("metastat -p d8191", "d8191 1 1 c0t0d0s0\nok"),
];

// A table is printed as md.tab text, whole or by names in their order, behind a boot too. Each refusal in its place: E2, E4, E26.
const PRINTS: &[Row] = &[
    ("metastat -p", "refused E2 NoDatabase"),
    ("metastat -p d0", "refused E2 NoDatabase"),
    ("metadb -a -f c0t0d0s7", "ok"),
    ("metastat -p", "ok"),
    ("metastat -p d0 hsp001", "refused E4 NoSuchVolume"),
    ("metainit d10 1 1 c0t0d0s1", "ok"),
    ("metainit d2 1 1 c0t0d0s0", "ok"),
    ("metastat -p", "d2 1 1 c0t0d0s0\nd10 1 1 c0t0d0s1\nok"),
    (
        "metastat -p d10 d2",
        "d10 1 1 c0t0d0s1\nd2 1 1 c0t0d0s0\nok",
    ),
    ("metastat -p d2 hsp001", "refused E26 NoSuchPool"),
    ("metastat -p hsp001 d3", "refused E4 NoSuchVolume"),
    ("metastat", "refused E1 BadLine"),
    ("metastat -s blue -p", "refused E1 BadLine"),
    ("boot", "ok"),
    ("metastat -p d2", "d2 1 1 c0t0d0s0\nok"),
];

// Each refusal of a volume in its place: E2, E6, E5, E12, E7. A volume is there behind a boot too.
const CHANGES: &[Row] = &[
    ("metainit d0 1 1 c0t1d0s0", "refused E2 NoDatabase"),
    ("metadb -a -f c0t0d0s7", "ok"),
    ("metainit d0 1 1 c0t1d0s0", "refused E6 NoSuchSlice"),
    ("metainit d0 1 1 c0t0d0s0", "ok"),
    ("metainit d0 1 1 c0t1d0s0", "refused E6 NoSuchSlice"),
    ("metainit d0 1 1 c0t0d0s7", "refused E5 NameTaken"),
    ("metainit d0 1 1 c0t0d0s0", "refused E5 NameTaken"),
    ("metainit d1 1 1 c0t0d0s7", "refused E12 WrongKind"),
    ("metainit d1 1 1 c0t0d0s0", "refused E7 SliceInUse"),
    ("metainit d1 1 1 c0t0d0s4", "refused E7 SliceInUse"),
    ("metainit d1 1 1 c0t0d0s1", "ok"),
    ("boot", "ok"),
    ("metainit d1 1 1 c0t0d0s3", "refused E5 NameTaken"),
    ("metainit d8191 1 1 c0t0d0s3", "ok"),
];

// Each refusal of several stripes in its place: E2, E6, E12, E8, E25, E7, E10. Of 1000 and 990 blocks 61 units each remain. Two
// stripes of one slice each lie one behind the other.
const STRIPES: &[Row] = &[
    ("metainit d1 1 2 c0t0d0s0 c0t1d0s0", "refused E2 NoDatabase"),
    ("metadb -a -f c0t0d0s7", "ok"),
    (
        "metainit d1 2 2 c0t0d0s7 c0t1d0s0 0 -i 15b",
        "refused E6 NoSuchSlice",
    ),
    (
        "metainit d1 2 2 c0t0d0s0 c0t0d0s7 0 -i 15b",
        "refused E12 WrongKind",
    ),
    (
        "metainit d1 2 2 c0t0d0s0 c0t0d0s0 -i 15b 0",
        "refused E8 TooFew",
    ),
    (
        "metainit d1 1 2 c0t0d0s0 c0t0d0s0 -i 15b",
        "refused E25 BadInterlace",
    ),
    (
        "metainit d1 1 2 c0t0d0s0 c0t0d0s1 -i 204801b",
        "refused E25 BadInterlace",
    ),
    (
        "metainit d1 1 2 c0t0d0s0 c0t0d0s0 -i 1000b",
        "refused E7 SliceInUse",
    ),
    (
        "metainit d1 2 1 c0t0d0s0 1 c0t0d0s4",
        "refused E7 SliceInUse",
    ),
    (
        "metainit d1 1 2 c0t0d0s0 c0t0d0s1 -i 1000b",
        "refused E10 TooSmall",
    ),
    ("metainit d1 1 2 c0t0d0s0 c0t0d0s1 -i 16b", "ok"),
    ("read d1 1951 1", "1951 -\nok"),
    ("read d1 1952 1", "refused E22 OutOfRange"),
    ("metainit d1 1 1 c0t0d0s3", "refused E5 NameTaken"),
    ("metainit d2 1 1 c0t0d0s1", "refused E7 SliceInUse"),
    ("metainit d2 1 1 c0t0d0s3 -i 64b", "ok"),
    ("boot", "ok"),
    (
        "metastat -p",
        "d1 1 2 c0t0d0s0 c0t0d0s1 -i 16b\nd2 1 1 c0t0d0s3\nok",
    ),
];

const CONCATENATIONS: &[Row] = &[
    ("metadb -a -f c0t0d0s7", "ok"),
    ("metainit d1 2 1 c0t0d0s1 1 c0t0d0s0", "ok"),
    ("metainit d0 1 1 c0t0d0s3", "ok"),
    ("write d1 989 ab", "ok"),
    ("write d1 990 cd", "ok"),
    ("read d1 988 4", "988 -\n989 ab\n990 cd\n991 -\nok"),
    ("read d1 1989 1", "1989 -\nok"),
    ("read d1 1989 2", "refused E22 OutOfRange"),
    ("boot", "ok"),
    ("read d1 989 2", "989 ab\n990 cd\nok"),
    (
        "metastat -p",
        "d0 1 1 c0t0d0s3\nd1 2 1 c0t0d0s1 1 c0t0d0s0\nok",
    ),
];

// Each refusal of a row more in its place: E2, E4, E6, E12, E25, E7, E10. The blocks that were there stay, those of the row come behind them, behind
// a boot too.
const ROWS: &[Row] = &[
    ("metattach d0 c0t1d0s0 -i 15b", "refused E2 NoDatabase"),
    ("metadb -a -f c0t0d0s7", "ok"),
    (
        "metattach d0 c0t1d0s0 c0t0d0s7 -i 15b",
        "refused E4 NoSuchVolume",
    ),
    ("metainit d0 1 1 c0t0d0s0", "ok"),
    ("write d0 999 ab", "ok"),
    (
        "metattach d0 c0t1d0s0 c0t0d0s7 -i 15b",
        "refused E6 NoSuchSlice",
    ),
    (
        "metattach d0 c0t0d0s7 c0t0d0s0 -i 15b",
        "refused E12 WrongKind",
    ),
    (
        "metattach -i 15b d0 c0t0d0s1 c0t0d0s0",
        "refused E25 BadInterlace",
    ),
    ("metattach d0 c0t0d0s0", "refused E7 SliceInUse"),
    ("metattach d0 c0t0d0s4", "refused E7 SliceInUse"),
    (
        "metattach d0 c0t0d0s1 c0t0d0s1 -i 1000b",
        "refused E7 SliceInUse",
    ),
    (
        "metattach d0 c0t0d0s1 c0t0d0s3 -i 1000b",
        "refused E10 TooSmall",
    ),
    ("read d0 1000 1", "refused E22 OutOfRange"),
    ("metattach d0 c0t0d0s1", "ok"),
    ("read d0 999 2", "999 ab\n1000 -\nok"),
    ("write d0 1989 cd", "ok"),
    ("read d0 1989 1", "1989 cd\nok"),
    ("read d0 1989 2", "refused E22 OutOfRange"),
    ("metainit d1 1 1 c0t0d0s1", "refused E7 SliceInUse"),
    ("boot", "ok"),
    ("read d0 999 2", "999 ab\n1000 -\nok"),
    ("metattach d0 c0t0d0s3", "ok"),
    ("write d0 1990 ef", "ok"),
    ("read d0 1989 2", "1989 cd\n1990 ef\nok"),
    ("metastat -p", "d0 3 1 c0t0d0s0 1 c0t0d0s1 1 c0t0d0s3\nok"),
];

// Each refusal of a fill in its place: E1, E2, E4, E9, E22. Each block of it is written, and none beside.
const FILLS: &[Row] = &[
    ("fill d0 0 0 ab", "refused E1 BadLine"),
    ("fill d0 0 1 abcd", "refused E1 BadLine"),
    ("fill d0 2000 1025 ab", "refused E2 NoDatabase"),
    ("metadb -a -f c0t0d0s7", "ok"),
    ("fill d0 2000 1025 ab", "refused E4 NoSuchVolume"),
    ("metainit d0 1 2 c0t0d0s0 c0t0d0s1 -i 16b", "ok"),
    ("fill d0 2000 1025 ab", "refused E9 TooMany"),
    ("fill d0 0 18446744073709551615 ab", "refused E9 TooMany"),
    ("fill d0 1951 2 ab", "refused E22 OutOfRange"),
    (
        "fill d0 18446744073709551615 1024 ab",
        "refused E22 OutOfRange",
    ),
    ("write d0 13 01", "ok"),
    ("write d0 14 02", "ok"),
    ("write d0 33 03", "ok"),
    ("write d0 34 04", "ok"),
    ("fill d0 14 20 00", "ok"),
    ("read d0 13 2", "13 01\n14 -\nok"),
    ("read d0 33 2", "33 -\n34 04\nok"),
    ("fill d0 928 1024 00", "ok"),
    ("boot", "ok"),
    ("read d0 13 2", "13 01\n14 -\nok"),
    ("read d0 33 2", "33 -\n34 04\nok"),
];

// Each refusal of a read and a write in its place: E2, E4, E9, E22. What was written is read, behind a boot too, and no block of another volume.
const TRANSFERS: &[Row] = &[
    ("read d0 1000 1025", "refused E2 NoDatabase"),
    ("write d0 1000 ab", "refused E2 NoDatabase"),
    ("metadb -a -f c0t0d0s7", "ok"),
    ("read d0 1000 1", "refused E4 NoSuchVolume"),
    ("read d0 1000 1025", "refused E4 NoSuchVolume"),
    ("write d0 1000 ab", "refused E4 NoSuchVolume"),
    ("metainit d0 1 1 c0t0d0s0", "ok"),
    ("metainit d1 1 1 c0t0d0s1", "ok"),
    ("read d0 0 1", "0 -\nok"),
    ("read d0 999 1", "999 -\nok"),
    ("read d0 999 2", "refused E22 OutOfRange"),
    (
        "read d0 18446744073709551615 1024",
        "refused E22 OutOfRange",
    ),
    ("read d0 18446744073709551615 1025", "refused E9 TooMany"),
    ("read d0 0 1025", "refused E9 TooMany"),
    ("read d0 0 18446744073709551615", "refused E9 TooMany"),
    ("write d0 1000 ab", "refused E22 OutOfRange"),
    (" write\td0  5 \t ab ", "ok"),
    ("read d0 5 1", "5 ab\nok"),
    ("write d0 7 00F000", "ok"),
    ("read d0 4 4", "4 -\n5 ab\n6 -\n7 00f0\nok"),
    ("write d1 5 cd", "ok"),
    ("write d0 5 00", "ok"),
    ("boot", "ok"),
    ("read d0 5 1", "5 -\nok"),
    ("read d1 5 1", "5 cd\nok"),
    ("read d0 7 1", "7 00f0\nok"),
    ("read d1 989 2", "refused E22 OutOfRange"),
];

// Lines that the grammar lacks, or that aren't built.
const BAD: &[Row] = &[
    ("# a comment with \u{e9}", "refused E1 BadLine"),
    ("metadb", "refused E1 BadLine"),
    ("boot now", "refused E1 BadLine"),
    ("metadb -a c0t0d0s8", "refused E1 BadLine"),
    ("metaclear", "refused E1 BadLine"),
    ("metaclear -a d0", "refused E1 BadLine"),
    ("metaclear -s blue d0", "refused E1 BadLine"),
    ("metainit d8192 1 1 c0t0d0s0", "refused E1 BadLine"),
    ("metainit d0 1 2 c0t0d0s0", "refused E1 BadLine"),
    ("read d0 0 0", "refused E1 BadLine"),
    ("read d0 0", "refused E1 BadLine"),
    ("write d0 0", "refused E1 BadLine"),
    ("write d0 0 a", "refused E1 BadLine"),
    ("write d0 0 xy", "refused E1 BadLine"),
];

// Behind a write that failed another database is made as ever.
const FAILED_WRITES: &[Row] = &[
    ("metadb -a -f -l 16 c0t0d0s7", "ok"),
    ("metainit d0 1 1 c0t0d0s0", "ok"),
    ("write d0 5 ab", "refused E23 IoFault"),
    ("metadb -d -f c0t0d0s7", "ok"),
    ("metadb -a -l 16 c0t0d0s7", "refused E3 NeedForce"),
    ("metadb -a -f -l 16 c0t0d0s7", "ok"),
    ("metainit d0 1 1 c0t0d0s0", "ok"),
    ("write d0 5 cd", "ok"),
    ("boot", "ok"),
    ("read d0 5 1", "5 cd\nok"),
    ("metastat -p", "d0 1 1 c0t0d0s0\nok"),
];

// So it is behind one whose block is written anew.
const WRITTEN_ANEW: &[Row] = &[
    ("metadb -a -f -l 16 c0t0d0s7", "ok"),
    ("metainit d0 1 1 c0t0d0s0", "ok"),
    ("write d0 5 ab", "refused E23 IoFault"),
    ("write d0 5 cd", "ok"),
    ("metadb -d -f c0t0d0s7", "ok"),
    ("metadb -a -f -l 16 c0t0d0s7", "ok"),
];

// A boot between the write and the deletion has read what is there. A read that failed leaves all as it is.
const READ_AGAIN: &[Row] = &[
    ("metadb -a -f -l 16 c0t0d0s7", "ok"),
    ("metainit d0 1 1 c0t0d0s0", "ok"),
    ("write d0 5 ab", "refused E23 IoFault"),
    ("boot", "ok"),
    ("read d0 5 1", "refused E23 IoFault"),
    ("metadb -d -f c0t0d0s7", "ok"),
    ("metadb -a -f -l 16 c0t0d0s7", "ok"),
];

// Lines by which databases and replicas come and go.
const ON_DATABASES: &[Lines] = &[
    Lines {
        table: WIDE,
        blocks: WIDE_BLOCKS,
        failing: &[],
        rows: CREATIONS,
    },
    Lines {
        table: SMALL,
        blocks: 9000,
        failing: &[0],
        rows: SMALL_CREATIONS,
    },
    Lines {
        table: SMALL,
        blocks: 9000,
        failing: &[],
        rows: LENGTHS,
    },
    Lines {
        table: WIDE,
        blocks: WIDE_BLOCKS,
        failing: &[],
        rows: COUNTS,
    },
    Lines {
        table: LEAST,
        blocks: 48,
        failing: &[],
        rows: LEAST_LENGTHS,
    },
];

// Lines by which volumes are made and printed.
const ON_VOLUMES: &[Lines] = &[
    Lines {
        table: WIDE,
        blocks: WIDE_BLOCKS,
        failing: &[],
        rows: PRINTS,
    },
    Lines {
        table: WIDE,
        blocks: WIDE_BLOCKS,
        failing: &[],
        rows: CHANGES,
    },
    Lines {
        table: WIDE,
        blocks: WIDE_BLOCKS,
        failing: &[],
        rows: STRIPES,
    },
    Lines {
        table: WIDE,
        blocks: WIDE_BLOCKS,
        failing: &[],
        rows: CONCATENATIONS,
    },
];

// Lines on blocks of volumes.
const ON_BLOCKS: &[Lines] = &[
    Lines {
        table: WIDE,
        blocks: WIDE_BLOCKS,
        failing: &[],
        rows: ROWS,
    },
    Lines {
        table: WIDE,
        blocks: WIDE_BLOCKS,
        failing: &[],
        rows: FILLS,
    },
    Lines {
        table: WIDE,
        blocks: WIDE_BLOCKS,
        failing: &[],
        rows: TRANSFERS,
    },
    Lines {
        table: TABLE,
        blocks: BLOCKS,
        failing: &[],
        rows: BAD,
    },
    // The boot makes 3 calls, the creation 12, the volume 6, and the replies before the write two.
    Lines {
        table: WIDE,
        blocks: WIDE_BLOCKS,
        failing: &[23],
        rows: FAILED_WRITES,
    },
    Lines {
        table: WIDE,
        blocks: WIDE_BLOCKS,
        failing: &[24],
        rows: FAILED_WRITES,
    },
    Lines {
        table: WIDE,
        blocks: WIDE_BLOCKS,
        failing: &[24],
        rows: WRITTEN_ANEW,
    },
    // The write that fails makes one call, and the boot behind it twelve and one more for the second slot.
    Lines {
        table: WIDE,
        blocks: WIDE_BLOCKS,
        failing: &[23, 39],
        rows: READ_AGAIN,
    },
];

#[test]
fn answers_lines_on_databases(rt: HostRuntime) -> Result<(), Fail> {
    assert_eq!(rt; first_wrong(rt.alloc(), ON_DATABASES)?, None);
    Ok(())
}

#[test]
fn answers_lines_on_volumes(rt: HostRuntime) -> Result<(), Fail> {
    assert_eq!(rt; first_wrong(rt.alloc(), ON_VOLUMES)?, None);
    Ok(())
}

#[test]
fn answers_lines_on_blocks(rt: HostRuntime) -> Result<(), Fail> {
    assert_eq!(rt; first_wrong(rt.alloc(), ON_BLOCKS)?, None);
    Ok(())
}

fn add_drives(alloc: Global, table: &mut String) -> Result<(), AllocError> {
    for drive in 0..9 {
        let line = format!(in alloc; "drive c0t{drive}d0 260 alpha d{drive}.img\n")?;
        table.push_str(line.as_str())?;
    }
    Ok(())
}

fn add_slices(alloc: Global, table: &mut String) -> Result<(), AllocError> {
    for number in 0..60 {
        let (drive, slice) = (number / 7, number % 7);
        let start = 40 + slice * 16;
        let line = format!(in alloc; "slice c0t{drive}d0s{slice} {start} 16\n")?;
        table.push_str(line.as_str())?;
    }
    Ok(())
}

// Sixty slices for volumes on nine drives, and one more; and three for replicas.
fn long_table(alloc: Global) -> Result<String, AllocError> {
    let mut table = String::from_str(alloc, "host alpha\n")?;
    add_drives(alloc, &mut table)?;
    table.push_str("slice c0t0d0s7 0 40 db\nslice c0t7d0s7 180 80 db\nslice c0t8d0s7 180 80 db\n")?;
    add_slices(alloc, &mut table)?;
    table.push_str("slice c0t8d0s6 152 16\n")?;
    Ok(table)
}

// A creation, sixty volumes, and the lines behind.
fn long_script(alloc: Global, creation: &str, behind: &str) -> Result<String, AllocError> {
    let mut script = String::from_str(alloc, creation)?;
    for number in 0..60 {
        let (drive, slice) = (number / 7, number % 7);
        let line = format!(in alloc; "metainit d{number} 1 1 c0t{drive}d0s{slice}\n")?;
        script.push_str(line.as_str())?;
    }
    script.push_str(behind)?;
    Ok(script)
}

fn long_replies(alloc: Global, behind: &str) -> Result<String, AllocError> {
    let mut told = String::new(alloc);
    for _ in 0..61 {
        told.push_str("ok\n")?;
    }
    told.push_str(behind)?;
    Ok(told)
}

// A creation, the lines behind sixty volumes, and what those are answered.
const LONG: &[(&str, &str, &str)] = &[
    (
        "metadb -a -f -l 16 c0t0d0s7\n",
        "metainit d60 1 1 c0t8d0s6\nmetastat -p d60\nboot\nmetastat -p d59\n",
        "refused E17 ReplicaFull 3086 3072\nrefused E4 NoSuchVolume\nok\nd59 1 1 c0t8d0s3\nok\n",
    ),
    // The least slot counts, of the places that are there and of those that would come.
    (
        "metadb -a -f -l 18 c0t0d0s7\n",
        "metadb -a -c 2 -l 16 c0t8d0s7\nmetadb -a -c 2 -l 18 c0t7d0s7\nmetadb -a -l 16 c0t8d0s7\n",
        "refused E17 ReplicaFull 3073 3072\nok\nrefused E17 ReplicaFull 3109 3072\n",
    ),
    // Of places that all go the first one comes behind the others, and of two slices the other's.
    (
        "metadb -a -f -c 2 -l 16 c0t7d0s7 c0t8d0s7\n",
        "metadb -d c0t7d0s7\nmetadb -d c0t7d0s7 c0t8d0s7\nmetadb -d -f c0t7d0s7 c0t8d0s7\n",
        "refused E17 ReplicaFull 3097 3072\nrefused E3 NeedForce\nrefused E17 ReplicaFull 3085 3072\n",
    ),
    // Behind a database with volumes another one is made at once.
    (
        "metadb -a -f -l 16 c0t7d0s7 c0t8d0s7\n",
        "metadb -d c0t7d0s7\nmetadb -d c0t8d0s7\nmetadb -d -f c0t8d0s7\nmetadb -a -f -l 16 c0t7d0s7\nmetastat -p\n",
        "ok\nrefused E3 NeedForce\nok\nok\nok\n",
    ),
];

fn is_long(
    alloc: Global,
    (creation, behind, replies): (&str, &str, &str),
) -> Result<bool, AllocError> {
    let table = long_table(alloc)?;
    let script = long_script(alloc, creation, behind)?;
    let told = long_replies(alloc, replies)?;
    let mut shelf = MemShelf::new(alloc, &[260; 9])?;
    let end = (RunStatus::SomeRefused, told.as_str());
    ends_so(alloc, table.as_str(), &mut shelf, script.as_str(), end)
}

// A replica of 16 blocks has slots of 6, so 3,072 bytes of a table: 60 volumes, and not one more, nor four places beside
// them. A table that is too long changes nothing.
#[test]
fn answers_tables_that_are_too_long(rt: HostRuntime) -> Result<(), Fail> {
    for row in LONG {
        assert!(rt; is_long(rt.alloc(), *row)?, "{row:?}");
    }
    Ok(())
}

// What is told of 1024 blocks from block 477 on, of which the last isn't zero.
fn many_replies(alloc: Global) -> Result<String, AllocError> {
    let mut told = String::from_str(alloc, "ok\nok\nok\n")?;
    for block in 477..1500 {
        told.push_str(format!(in alloc; "{block} -\n")?.as_str())?;
    }
    told.push_str("1500 ab\nok\n")?;
    Ok(told)
}

const MANY: &str = "metadb -a -f c0t0d0s7
metainit d0 1 1 c0t0d0s3
write d0 1500 ab
read d0 477 1024
";

fn are_read(alloc: Global) -> Result<bool, AllocError> {
    let told = many_replies(alloc)?;
    let mut shelf = MemShelf::new(alloc, &[WIDE_BLOCKS])?;
    let end = (RunStatus::Done, told.as_str());
    ends_so(alloc, WIDE, &mut shelf, MANY, end)
}

#[test]
fn reads_up_to_1024_blocks(rt: HostRuntime) -> Result<(), Fail> {
    assert!(rt; are_read(rt.alloc())?);
    Ok(())
}

// A creation, a line of 4096 letters, one of 4097, and a boot.
fn long_lines(alloc: Global) -> Result<String, AllocError> {
    let mut script = String::from_str(alloc, CREATION)?;
    for letters in [4096, 4097] {
        script.push_str("x".repeat(alloc, letters)?.as_str())?;
        script.push('\n')?;
    }
    script.push_str("boot")?;
    Ok(script)
}

fn are_refused(alloc: Global) -> Result<bool, AllocError> {
    let script = long_lines(alloc)?;
    let mut shelf = MemShelf::new(alloc, LONE)?;
    let told = "ok\nrefused E1 BadLine\nrefused E29 LineTooLong\nok\n";
    let end = (RunStatus::SomeRefused, told);
    ends_so(alloc, TABLE, &mut shelf, script.as_str(), end)
}

#[test]
fn refuses_lines_that_are_too_long(rt: HostRuntime) -> Result<(), Fail> {
    assert!(rt; are_refused(rt.alloc())?);
    Ok(())
}
