use mdv_base::{DriveNo, ZERO_BLOCK};
use mdv_shelf::*;
use std::alloc::{AllocError, Global};
use std::test::Fail;

// What is done to a shelf: a block is filled with a byte, a drive synced, a byte told.
#[derive(Clone, Copy)]
enum Step {
    Put(u32, u64, u8),
    Get(u32, u64),
    Sync(u32),
    Give(u8),
    FailCall(u64),
    Lose(u32),
    LoseAt(u32, u64),
    StopAfter(u64),
    BringBack(u32),
}

enum Line {
    /// The step passes, or fails.
    Does(Step, bool),
    /// What a block reads as; `None` where its drive can't be read.
    Holds(u32, u64, Option<u8>),
    Crash(&'static [u32]),
    Told(&'static [u8]),
}

fn put(shelf: &mut MemShelf, drive: u32, at: u64, value: u8) -> bool {
    if drive >= shelf.drives() || at >= shelf.blocks(DriveNo(drive)) {
        return false;
    }
    shelf.write(DriveNo(drive), at, &[[value; 512]]).is_ok()
}

fn get(shelf: &mut MemShelf, drive: u32, at: u64) -> Option<u8> {
    if drive >= shelf.drives() || at >= shelf.blocks(DriveNo(drive)) {
        return None;
    }
    let mut out = [ZERO_BLOCK; 1];
    match shelf.read(DriveNo(drive), at, &mut out) {
        Ok(()) => Some(out[0][511]),
        Err(_) => None,
    }
}

// Whether the call passed.
fn done(shelf: &mut MemShelf, step: Step) -> Result<bool, AllocError> {
    match step {
        Step::Put(drive, at, value) => Ok(put(shelf, drive, at, value)),
        Step::Get(drive, at) => Ok(get(shelf, drive, at).is_some()),
        Step::Sync(drive) if drive < shelf.drives() => Ok(shelf.sync(DriveNo(drive)).is_ok()),
        Step::Give(byte) => Ok(shelf.give(&[byte]).is_ok()),
        Step::FailCall(number) => {
            shelf.fail_call(number)?;
            Ok(true)
        }
        Step::Lose(drive) if drive < shelf.drives() => {
            shelf.lose(DriveNo(drive));
            Ok(true)
        }
        Step::LoseAt(drive, number) if drive < shelf.drives() => {
            shelf.lose_at(DriveNo(drive), number)?;
            Ok(true)
        }
        Step::StopAfter(calls) => {
            shelf.stop_after(calls);
            Ok(true)
        }
        Step::BringBack(drive) if drive < shelf.drives() => {
            shelf.bring_back(DriveNo(drive));
            Ok(true)
        }
        _ => Ok(false),
    }
}

fn is_so(shelf: &mut MemShelf, line: &Line) -> Result<bool, AllocError> {
    match *line {
        Line::Does(step, passes) => Ok(done(shelf, step)? == passes),
        Line::Holds(drive, at, value) => Ok(get(shelf, drive, at) == value),
        Line::Crash(choice) => {
            shelf.crash(choice);
            Ok(true)
        }
        Line::Told(bytes) => Ok(shelf.told() == bytes),
    }
}

// The place of the first line that isn't so, or behind the last one where memory fell short.
fn first_wrong(shelf: &mut MemShelf, lines: &[Line]) -> Result<Option<usize>, AllocError> {
    for place in 0..lines.len() {
        if !is_so(shelf, &lines[place])? {
            return Ok(Some(place));
        }
    }
    Ok(if shelf.short() {
        Some(lines.len())
    } else {
        None
    })
}

// Two drives, of three blocks and of one.
fn shelf(alloc: Global) -> Result<MemShelf, AllocError> {
    MemShelf::new(alloc, &[3, 1])
}

const WRITTEN: &[Line] = &[
    Line::Does(Step::Put(0, 1, 1), true),
    Line::Does(Step::Sync(0), true),
    Line::Does(Step::Put(0, 1, 2), true),
    Line::Does(Step::Sync(1), true),
    Line::Does(Step::Put(0, 1, 3), true),
    Line::Does(Step::Put(1, 0, 9), true),
];

// Choices for the blocks of drive 0 and then of drive 1, and what is left in block 1 and block 0 of these.
const CRASHES: &[(&[u32], u8, u8)] = &[
    (&[], 1, 0),
    (&[0, 0, 0, 0], 1, 0),
    (&[0, 1], 2, 0),
    (&[5, 2, 0, 1], 3, 9),
    (&[0, 3, 0, 2], 1, 0),
    (&[0, 5, 0, 3, 7], 3, 9),
    (&[1, 4], 2, 0),
];

// What was left is stable from then on.
fn leaves(shelf: &mut MemShelf, choice: &[u32], first: u8, second: u8) -> bool {
    shelf.crash(choice);
    let left = [get(shelf, 0, 0), get(shelf, 0, 1), get(shelf, 1, 0)];
    shelf.crash(&[9, 9, 9, 9]);
    let stable = get(shelf, 0, 1);
    left == [Some(0), Some(first), Some(second)] && stable == Some(first) && !shelf.short()
}

#[test]
fn a_crash_picks_block_after_block(rt: HostRuntime) -> Result<(), Fail> {
    for (choice, first, second) in CRASHES {
        let mut shelf = shelf(rt.alloc())?;
        assert!(rt; first_wrong(&mut shelf, WRITTEN)?.is_none());
        assert!(rt; leaves(&mut shelf, choice, *first, *second), "{choice:?}");
    }
    Ok(())
}

const LIVES: &[&[Line]] = &[
    // The call of a number, whatever it is.
    &[
        Line::Does(Step::FailCall(1), true),
        Line::Does(Step::FailCall(3), true),
        Line::Does(Step::Put(0, 0, 1), true),
        Line::Does(Step::Put(0, 0, 2), false),
        Line::Does(Step::Give(7), true),
        Line::Does(Step::Give(8), false),
        Line::Does(Step::Sync(0), true),
    ],
    // A lost drive refuses each call, until it comes back.
    &[
        Line::Does(Step::Put(1, 0, 1), true),
        Line::Does(Step::Lose(1), true),
        Line::Does(Step::Get(1, 0), false),
        Line::Does(Step::Put(1, 0, 2), false),
        Line::Does(Step::Sync(1), false),
        Line::Does(Step::Sync(0), true),
        Line::Does(Step::BringBack(1), true),
        Line::Does(Step::Get(1, 0), true),
    ],
    // From the call of that number on.
    &[
        Line::Does(Step::LoseAt(0, 2), true),
        Line::Does(Step::Put(0, 0, 1), true),
        Line::Does(Step::Sync(0), true),
        Line::Does(Step::Get(0, 0), false),
        Line::Does(Step::Get(1, 0), true),
        Line::Does(Step::Sync(0), false),
        Line::Does(Step::BringBack(0), true),
        Line::Does(Step::Get(0, 0), true),
    ],
    // So many calls pass; the earlier of two stops stands.
    &[
        Line::Does(Step::Give(1), true),
        Line::Does(Step::StopAfter(2), true),
        Line::Does(Step::StopAfter(9), true),
        Line::Does(Step::Give(2), true),
        Line::Does(Step::Sync(1), true),
        Line::Does(Step::Give(3), false),
        Line::Does(Step::Get(0, 0), false),
        Line::Does(Step::Sync(1), false),
    ],
    // A loss to come outlives the coming back.
    &[
        Line::Does(Step::LoseAt(1, 1), true),
        Line::Does(Step::BringBack(1), true),
        Line::Does(Step::Get(1, 0), true),
        Line::Does(Step::Get(1, 0), false),
    ],
    // A crash ends what was asked, and a drive whose loss had begun stays lost.
    &[
        Line::Does(Step::Give(5), true),
        Line::Does(Step::LoseAt(1, 1), true),
        Line::Does(Step::LoseAt(0, 3), true),
        Line::Does(Step::FailCall(4), true),
        Line::Does(Step::Give(6), true),
        Line::Does(Step::StopAfter(0), true),
        Line::Does(Step::Give(7), false),
        Line::Crash(&[]),
        Line::Holds(0, 0, Some(0)),
        Line::Holds(0, 0, Some(0)),
        Line::Holds(1, 0, None),
        Line::Told(&[5, 6]),
    ],
    // A failed write leaves its block.
    &[
        Line::Does(Step::Put(0, 2, 1), true),
        Line::Does(Step::FailCall(1), true),
        Line::Does(Step::Put(0, 2, 2), false),
        Line::Holds(0, 2, Some(1)),
        Line::Crash(&[0, 0, 1]),
        Line::Holds(0, 2, Some(1)),
    ],
    // A drive comes back stable.
    &[
        Line::Does(Step::Put(0, 0, 1), true),
        Line::Does(Step::Sync(0), true),
        Line::Does(Step::Put(0, 0, 2), true),
        Line::Does(Step::Put(1, 0, 3), true),
        Line::Does(Step::Lose(0), true),
        Line::Does(Step::BringBack(0), true),
        Line::Holds(0, 0, Some(1)),
        Line::Holds(1, 0, Some(3)),
        Line::Crash(&[1, 0, 0, 0]),
        Line::Holds(0, 0, Some(1)),
        Line::Holds(1, 0, Some(3)),
    ],
];

#[test]
fn calls_fail_as_asked(rt: HostRuntime) -> Result<(), Fail> {
    for lines in LIVES {
        let wrong = first_wrong(&mut shelf(rt.alloc())?, lines)?;
        assert!(rt; wrong.is_none(), "line {wrong:?}");
    }
    Ok(())
}
