use mdv_base::{Block, DriveName, Named, PoolId, SliceName, VolId, ZERO_BLOCK};
use mdv_parts::Component;
use mdv_tab::{Entry, Row, TabFault, read_tab};
use mdv_words::*;
use std::alloc::Global;

const SLICE: SliceName = SliceName {
    drive: DriveName {
        controller: 0,
        target: 1,
        disk: 2,
    },
    slice: 7,
};

const OTHER: SliceName = SliceName {
    drive: DriveName {
        controller: 0,
        target: 2,
        disk: 2,
    },
    slice: 0,
};

const ONE: &[SliceName] = &[SLICE];

const TWO: &[SliceName] = &[SLICE, OTHER];

const TWICE: &[SliceName] = &[SLICE, SLICE];

// The slices of a row, and its interlace.
type Slices = (&'static [SliceName], Option<u64>);

const ONE_ROW: &[Slices] = &[(ONE, None)];

// What a line asks, of c0t1d2s7, of d12, and of its block 5.
enum Asked {
    Boot,
    Tab(&'static [u8]),
    AddPlaces(&'static [SliceName], bool, u8, u32),
    AddListed(u8, bool),
    DropPlaces(&'static [SliceName], bool),
    Make(u16, &'static [Slices]),
    Attach(u16, Slices),
    Clear(&'static [Named], bool),
    ClearAll,
    Read(u64, u64),
    Write(&'static [u8]),
    Fill(u64, u64, u8),
    Print(&'static [Named]),
}

const LINES: &[(&[u8], Asked)] = &[
    (b"boot", Asked::Boot),
    (b"\t boot ", Asked::Boot),
    (b"tab\n", Asked::Tab(b"")),
    (b"tab\nd1 1 1 c0t1d2s7\n", Asked::Tab(b"d1 1 1 c0t1d2s7\n")),
    (b"tab\n\n\x80\nboot\n", Asked::Tab(b"\n\x80\nboot\n")),
    (b"metadb -a c0t1d2s7", Asked::AddPlaces(ONE, false, 1, 8192)),
    (
        b" metadb\t-a  /dev/dsk/c0t1d2s7 ",
        Asked::AddPlaces(ONE, false, 1, 8192),
    ),
    (
        b"metadb -a -f c0t1d2s7",
        Asked::AddPlaces(ONE, true, 1, 8192),
    ),
    (
        b"metadb -f -a c0t1d2s7",
        Asked::AddPlaces(ONE, true, 1, 8192),
    ),
    (b"metadb -fa c0t1d2s7", Asked::AddPlaces(ONE, true, 1, 8192)),
    (
        b"metadb -a -f -l 16 c0t1d2s7",
        Asked::AddPlaces(ONE, true, 1, 16),
    ),
    (
        b"metadb -l 8192 -a c0t1d2s7",
        Asked::AddPlaces(ONE, false, 1, 8192),
    ),
    (
        b"metadb -afl4096 c0t1d2s7",
        Asked::AddPlaces(ONE, true, 1, 4096),
    ),
    (
        b"metadb -a -c 1 c0t1d2s7",
        Asked::AddPlaces(ONE, false, 1, 8192),
    ),
    (
        b"metadb -a -f -c 50 -l 64 c0t1d2s7",
        Asked::AddPlaces(ONE, true, 50, 64),
    ),
    (
        b"metadb -ac2 c0t1d2s7 c0t2d2s0",
        Asked::AddPlaces(TWO, false, 2, 8192),
    ),
    (
        b"metadb -a c0t1d2s7\t/dev/rdsk/c0t2d2s0 ",
        Asked::AddPlaces(TWO, false, 1, 8192),
    ),
    (
        b"metadb -a -f c0t1d2s7 c0t1d2s7",
        Asked::AddPlaces(TWICE, true, 1, 8192),
    ),
    (b"metadb -a mddb01", Asked::AddListed(1, false)),
    (b"metadb -f\t-a mddb99 ", Asked::AddListed(99, true)),
    (b"metadb -d c0t1d2s7", Asked::DropPlaces(ONE, false)),
    (
        b"metadb -df c0t1d2s7 /dev/dsk/c0t2d2s0",
        Asked::DropPlaces(TWO, true),
    ),
    (
        b"metadb -f -d c0t1d2s7 c0t1d2s7",
        Asked::DropPlaces(TWICE, true),
    ),
    (b"metainit d0 1 1 c0t1d2s7", Asked::Make(0, ONE_ROW)),
    (
        b"metainit -f d8191 1 1 c0t1d2s7",
        Asked::Make(8191, ONE_ROW),
    ),
    (
        b"metainit  /dev/md/rdsk/d7 1 1\t/dev/rdsk/c0t1d2s7",
        Asked::Make(7, ONE_ROW),
    ),
    (
        b"metainit d7 1 1 c0t1d2s7 -i 16k",
        Asked::Make(7, &[(ONE, Some(32))]),
    ),
    (
        b"metainit d7 1 2 c0t1d2s7 c0t2d2s0",
        Asked::Make(7, &[(TWO, None)]),
    ),
    (
        b"metainit -f d1 2 1 c0t1d2s7 2 c0t1d2s7 c0t2d2s0 -i 16b",
        Asked::Make(1, &[(ONE, None), (TWO, Some(16))]),
    ),
    (
        b"metainit d1 3 2 c0t1d2s7 c0t1d2s7 -i 1m 1 c0t1d2s7 2 c0t1d2s7 c0t2d2s0",
        Asked::Make(1, &[(TWICE, Some(2048)), (ONE, None), (TWO, None)]),
    ),
    (b"metainit d7 1 0", Asked::Make(7, &[(&[], None)])),
    (b"metattach d7 c0t1d2s7", Asked::Attach(7, (ONE, None))),
    (
        b"metattach -i 16b d0 c0t1d2s7 c0t2d2s0",
        Asked::Attach(0, (TWO, Some(16))),
    ),
    (
        b" metattach /dev/md/dsk/d8191\tc0t1d2s7 c0t1d2s7 -i 1m",
        Asked::Attach(8191, (TWICE, Some(2048))),
    ),
    (b"metaclear d7", Asked::Clear(&[VOLUME], false)),
    (
        b" metaclear -f /dev/md/rdsk/d7\td0  d7 ",
        Asked::Clear(&[VOLUME, FIRST, VOLUME], false),
    ),
    (
        b"metaclear -r hsp001 d7",
        Asked::Clear(&[POOL, VOLUME], true),
    ),
    (b"metaclear -fr d0", Asked::Clear(&[FIRST], true)),
    (b"metaclear -a", Asked::ClearAll),
    (b"metaclear -af ", Asked::ClearAll),
    (b"read d12 0 1", Asked::Read(0, 1)),
    (b"read \td12  0 1025 ", Asked::Read(0, 1025)),
    (
        b"read d12 18446744073709551615 18446744073709551615",
        Asked::Read(u64::MAX, u64::MAX),
    ),
    (b"write d12 5 07fF", Asked::Write(&[0x07, 0xff])),
    (
        b"write d12  5 aBCdeF9080\t",
        Asked::Write(&[0xab, 0xcd, 0xef, 0x90, 0x80]),
    ),
    (b"fill d12 0 8 ab", Asked::Fill(0, 8, 0xab)),
    (
        b" fill d12\t18446744073709551615  18446744073709551615 0F",
        Asked::Fill(u64::MAX, u64::MAX, 15),
    ),
    (b"metastat -p", Asked::Print(&[])),
    (
        b"metastat -p d7 /dev/md/dsk/d0 hsp001 d7",
        Asked::Print(&[VOLUME, FIRST, POOL, VOLUME]),
    ),
];

const VOLUME: Named = Named::Volume(VolId(7));

const FIRST: Named = Named::Volume(VolId(0));

const POOL: Named = Named::Pool(PoolId(1));

// Lines of the grammar that aren't built, and such as are in no grammar.
const BAD: &[&[u8]] = &[
    b"",
    b"# boot",
    b"tab",
    b"tab ",
    b" tab\n",
    b"tab \n",
    b"Tab\n",
    b"end",
    b"Boot",
    b"boot\n",
    b"boot \x80",
    b"metadb",
    b"metadb -i",
    b"metadb -a -c 0 c0t1d2s7",
    b"metadb -a -c 51 c0t1d2s7",
    b"metadb -a -f -l 15 c0t1d2s7",
    b"metadb -a -f -l 8193 c0t1d2s7",
    b"metadb -a -f -c 2 -l 64",
    b"metadb -a c0t1d2s7 mddb01",
    b"metadb -a c0t1d2s7 d0",
    b"metadb -a mddb1",
    b"metadb -a -c 2 mddb01",
    b"metadb -a mddb01 mddb02",
    b"metadb -d mddb01",
    b"metadb -d",
    b"metadb -d -c 1 c0t1d2s7",
    b"metadb -a -d c0t1d2s7",
    b"metadb -a",
    b"metadb -a c0t1d2s8",
    b"metainit -a",
    b"metainit d7",
    b"metainit hsp001",
    b"metainit hsp001 c0t1d2s7",
    b"metainit -s blue d7 1 1 c0t1d2s7",
    b"metainit blue/d7 1 1 c0t1d2s7",
    b"metainit d7 1 1 d8",
    b"metainit d7 1 2 c0t1d2s7 d8",
    b"metainit d7 2 1 c0t1d2s7 2 c0t2d2s0 d8 -i 16b",
    b"metainit blue/d7 1 2 c0t1d2s7 c0t2d2s0 -i 16b",
    b"metainit d7 1 2 c0t1d2s7 c0t2d2s0 -i 16b -h hsp001",
    b"metainit d7 1 1 c0t1d2s7 -h hsp001",
    b"metainit d7 0",
    b"metainit d7 1 1 c0t1d2s7 c0t2d2s0",
    b"metainit d7 2 1 c0t1d2s7",
    b"metainit d7 1 2 c0t1d2s7 c0t2d2s0 -i",
    b"metainit d7 -m d8",
    b"metainit d7 -r c0t1d2s7 c0t2d2s7 c0t3d2s7",
    b"metainit d7 -p c0t1d2s7 1g",
    b"metainit d8192 1 1 c0t1d2s7",
    b"metainit d07 1 1 c0t1d2s7",
    b"metainit d7 1 2 c0t1d2s7",
    b"metaclear",
    b"metaclear -r",
    b"metaclear -a d7",
    b"metaclear -ar",
    b"metaclear -a -s blue",
    b"metaclear -s blue d7",
    b"metaclear d7 blue/d8",
    b"metaclear blue/hsp001",
    b"metaclear d7 c0t1d2s7",
    b"metaclear d7 -f",
    b"metaclear d8192",
    b"metaclear -p c0t1d2s7",
    b"metattach d0 d20",
    b"metattach d0 c0t1d2s7 d20",
    b"metattach blue/d0 c0t1d2s7",
    b"metattach -s blue d0 c0t1d2s7",
    b"metattach d0 c0t1d2s7 -i",
    b"metattach d8192 c0t1d2s7",
    b"metattach d1 1g",
    b"metadetach d0 d20",
    b"metaoffline d0 d20",
    b"metaonline d0 d20",
    b"metareplace -e d0 c0t1d2s7",
    b"metareplace d0 c0t1d2s7 c0t2d2s7",
    b"metahs -a hsp001 c0t1d2s7",
    b"metahs -d hsp001 c0t1d2s7",
    b"metahs -r all c0t1d2s7 c0t2d2s7",
    b"metahs -e c0t1d2s7",
    b"metahs -i",
    b"metastat",
    b"metastat d7",
    b"metastat -s blue -p",
    b"metastat -p blue/d7",
    b"metastat -p c0t1d2s7",
    b"metaset",
    b"metaset -s blue -t",
    b"fill blue/d12 0 1 00",
    b"fill d12 0 0 00",
    b"fill d12 0 1",
    b"fill d12 0 1 0",
    b"fill d12 0 1 100",
    b"idle 1",
    b"read blue/d12 0 1",
    b"read d12 0 0",
    b"read d12 0 01",
    b"read d12 00 1",
    b"read d12 18446744073709551616 1",
    b"read d12 0",
    b"write blue/d12 5 00",
    b"write d12 5",
    b"write d12 5 0",
    b"write d12 5 001",
    b"write d12 5 0g",
    b"write d12 5 00 00",
];

fn block_of(bytes: &[u8]) -> Block {
    let mut block = ZERO_BLOCK;
    for (place, byte) in block.iter_mut().zip(bytes) {
        *place = *byte;
    }
    block
}

fn is_row(row: &Row, wanted: &Slices) -> bool {
    let components = row.components.as_slice();
    row.interlace == wanted.1
        && components.len() == wanted.0.len()
        && components.iter().zip(wanted.0).all(|(component, slice)| *component
            == Component::Slice(*slice))
}

fn are_rows(rows: &[Row], wanted: &[Slices]) -> bool {
    rows.len() == wanted.len()
        && rows
            .iter()
            .zip(wanted)
            .all(|(row, slices)| is_row(row, slices))
}

fn is_made(entry: &Entry, number: u16, wanted: &[Slices]) -> bool {
    match entry {
        Entry::Stripe { name, rows, spares } => {
            name.set.is_none()
                && name.volume.0 == number
                && spares.is_none()
                && are_rows(rows.as_slice(), wanted)
        }
        _ => false,
    }
}

fn is_written(written: Written, asked: &Asked) -> bool {
    match (written, asked) {
        (Written::One(block), Asked::Write(bytes)) => block == block_of(bytes),
        (Written::Filled { count, byte }, Asked::Fill(_, blocks, value)) => {
            count == *blocks && byte == *value
        }
        _ => false,
    }
}

// Where `write` and `fill` write.
fn address(asked: &Asked) -> u64 {
    match asked {
        Asked::Fill(at, _, _) => *at,
        _ => 5,
    }
}

fn is_alteration(alteration: &Alteration, asked: &Asked) -> bool {
    match (alteration, asked) {
        (Alteration::Make(entry), Asked::Make(number, rows)) => is_made(entry, *number, rows),
        (Alteration::Attach { volume, row }, Asked::Attach(number, slices)) => {
            volume.0 == *number && is_row(row, slices)
        }
        (Alteration::Clear { names, below }, Asked::Clear(wanted, deep)) => {
            names.as_slice() == *wanted && below == deep
        }
        (Alteration::ClearAll, Asked::ClearAll) => true,
        _ => false,
    }
}

fn is_command(command: &Command, asked: &Asked) -> bool {
    match (command, asked) {
        (
            Command::AddPlaces {
                slices,
                force,
                count,
                blocks,
            },
            Asked::AddPlaces(named, forced, number, length),
        ) => {
            slices.as_slice() == *named && force == forced && count == number && blocks == length
        }
        (Command::AddListed { number, force }, Asked::AddListed(entry, forced)) => {
            number == entry && force == forced
        }
        (Command::DropPlaces { slices, force }, Asked::DropPlaces(named, forced)) => {
            slices.as_slice() == *named && force == forced
        }
        (Command::Alter { alteration }, _) => is_alteration(alteration, asked),
        (Command::Read { volume, at, count }, Asked::Read(from, blocks)) => {
            volume.0 == 12 && at == from && count == blocks
        }
        (Command::Write { volume, at, what }, _) => {
            volume.0 == 12 && *at == address(asked) && is_written(*what, asked)
        }
        (Command::Print { names }, Asked::Print(wanted)) => names.as_slice() == *wanted,
        _ => false,
    }
}

fn is_line(read: &Line<'_>, asked: &Asked) -> bool {
    match (read, asked) {
        (Line::Boot, Asked::Boot) => true,
        (Line::Tab(lines), Asked::Tab(wanted)) => lines == wanted,
        (Line::Command(command), _) => is_command(command, asked),
        _ => false,
    }
}

fn is_read_as(alloc: Global, text: &[u8], asked: &Asked) -> bool {
    match read_line(alloc, text) {
        Ok(read) => is_line(&read, asked),
        Err(_) => false,
    }
}

fn is_bad(alloc: Global, text: &[u8]) -> bool {
    match read_line(alloc, text) {
        Ok(_) => false,
        Err(fault) => fault == WordsFault::BadLine,
    }
}

#[test]
fn reads_what_is_built(rt: HostRuntime) {
    for (text, asked) in LINES {
        assert!(rt; is_read_as(rt.alloc(), text, asked), "{text:?}");
    }
    reads_one_line();
    commands_are_in_form();
}

#[test]
fn reads_nothing_else(rt: HostRuntime) {
    for text in BAD {
        assert!(rt; is_bad(rt.alloc(), text), "{text:?}");
    }
}

// So many digits, and whether they are read.
const DIGITS: &[(usize, bool)] = &[
    (511, false),
    (512, true),
    (513, false),
    (1022, true),
    (1023, false),
    (1024, true),
    (1025, false),
    (1026, false),
];

fn is_read(alloc: Global, digits: usize) -> bool {
    let mut line = [b'1'; 1038];
    line[..12].copy_from_slice(b"write d12 5 ");
    match line.get(..digits.saturating_add(12)) {
        Some(front) => read_line(alloc, front).is_ok(),
        None => false,
    }
}

#[test]
fn reads_up_to_512_pairs(rt: HostRuntime) {
    for (digits, want) in DIGITS {
        assert!(rt; is_read(rt.alloc(), *digits) == *want, "{digits} digits");
    }
}

// What the first entry of that number says of these lines: its slices, and how many replicas of how many blocks on each.
const ENTRIES: &[(u8, Option<(&[SliceName], u8, u32)>)] = &[
    (0, None),
    (1, Some((ONE, 1, 8192))),
    (2, Some((TWO, 50, 8192))),
    (3, Some((TWICE, 1, 16))),
    (4, Some((ONE, 3, 4096))),
    (5, None),
];

const BLOCK: &[u8] =
    b"d1 1 1 c0t1d2s7\nmddb01 c0t1d2s7\nmddb02 -c 50 c0t1d2s7 c0t2d2s0\nmddb01 -c 2 c0t2d2s0\nmddb03 -l 16 c0t1d2s7 c0t1d2s7\nmddb04 -l 4096 -c 3 c0t1d2s7\nhsp005 c0t1d2s7\n";

fn is_found(entries: &[Entry], number: u8, said: Option<(&[SliceName], u8, u32)>) -> bool {
    match (replicas_listed(entries, number), said) {
        (Some(listed), Some((slices, count, blocks))) => {
            listed.slices == slices && listed.count == count && listed.blocks == blocks
        }
        (None, None) => true,
        _ => false,
    }
}

#[test]
fn finds_entries_of_replicas(rt: HostRuntime) -> Result<(), TabFault> {
    let entries = read_tab(rt.alloc(), BLOCK)?;
    for (number, said) in ENTRIES {
        assert!(rt;
            is_found(entries.as_slice(), *number, *said),
            "mddb0{number}"
        );
    }
    entries_are_in_form();
    Ok(())
}
