//! Boots where a byte of one replica is spoiled: its vote counts only where each part of it is of its form.
use mdv_store_tests::{Committed, End, Layout, Made, Step, first_wrong};
use std::alloc::Global;
use std::test::Fail;

// A block of a replica and a byte there. Where the replica counts all the same, the number that a boot draws for it and one that is whole: that is 2, but
// where the spoiled number is of its form.
type Spot = (u64, usize, Option<u64>);

// The blocks in which a replica's parts begin.
const MASTER: u64 = 0;

const CLAIM: u64 = 1;

const FIRST_GATE: u64 = 2;

const SECOND_GATE: u64 = 3;

const FIRST_BODY: u64 = 4;

const SECOND_BODY: u64 = 10;

const SPOTS: &[Spot] = &[
    // the text, the key's kind, length and name, the slice, the start, the blocks, the number on the slice, and a byte behind them
    (MASTER, 0, None),
    (MASTER, 20, None),
    (MASTER, 21, None),
    (MASTER, 22, None),
    (MASTER, 57, None),
    (MASTER, 61, None),
    (MASTER, 65, None),
    (MASTER, 66, Some(2)),
    (MASTER, 511, None),
    // the text, the number's first byte and its last one, and a byte behind it
    (CLAIM, 0, None),
    (CLAIM, 15, Some(85)),
    (CLAIM, 16, None),
    (CLAIM, 511, None),
    // the text, the state, the mark's boot number and its count, the length, and a byte behind it
    (FIRST_GATE, 7, None),
    (FIRST_GATE, 8, None),
    (FIRST_GATE, 28, None),
    (FIRST_GATE, 29, None),
    (SECOND_GATE, 0, None),
    (SECOND_GATE, 8, None),
    (SECOND_GATE, 16, Some(85)),
    (SECOND_GATE, 24, Some(2)),
    (SECOND_GATE, 28, None),
    (SECOND_GATE, 511, None),
    // the older table and the newest one, and bytes that no text has
    (FIRST_BODY, 0, None),
    (FIRST_BODY, 59, None),
    (FIRST_BODY, 60, Some(2)),
    (5, 0, Some(2)),
    (SECOND_BODY, 0, None),
    (SECOND_BODY, 109, None),
    (SECOND_BODY, 110, Some(2)),
    (15, 511, Some(2)),
];

// On slice 7 the first replica begins here, and the others follow.
const FIRST: u64 = 18;

fn wrong_at(alloc: Global, (block, byte, draws): Spot) -> Result<Option<usize>, Fail> {
    let end = match draws {
        Some(number) => Step::Adopts(number, 1, 3),
        None => Step::Boots(End::NoQuorum(1, 2)),
    };
    let steps = [
        Step::Make(7, &[0, 2, 4], 1, Made::Done),
        Step::Commits(1, Committed::Done),
        Step::Spoil(1, FIRST.saturating_add(block), byte),
        Step::Lose(0b00001),
        end,
    ];
    first_wrong(alloc, Layout::Five, &steps)
}

// Of three drives one is lost, and the replica on another one is spoiled.
#[test]
fn spoiled_replicas_have_no_vote(rt: HostRuntime) -> Result<(), Fail> {
    for spot in SPOTS {
        let wrong = wrong_at(rt.alloc(), *spot)?;
        assert!(rt; wrong.is_none(), "{spot:?}: {wrong:?}");
    }
    Ok(())
}

fn wrong_beside(alloc: Global, (block, byte, draws): Spot) -> Result<Option<usize>, Fail> {
    let steps = [
        Step::Make(7, &[0, 2, 4], 1, Made::Done),
        Step::Commits(1, Committed::Done),
        Step::Spoil(1, FIRST.saturating_add(block), byte),
        Step::Adopts(draws.unwrap_or(2), 1, 3),
        Step::Commits(2, Committed::Done),
        Step::Lose(0b00100),
        if draws.is_some() {
            Step::Commits(3, Committed::Done)
        } else {
            Step::Commits(3, Committed::Lost(1, 3))
        },
    ];
    first_wrong(alloc, Layout::Five, &steps)
}

// The two others are a majority; behind that the spoiled place isn't active.
#[test]
fn spoiled_replicas_are_not_written(rt: HostRuntime) -> Result<(), Fail> {
    for spot in SPOTS {
        let wrong = wrong_beside(rt.alloc(), *spot)?;
        assert!(rt; wrong.is_none(), "{spot:?}: {wrong:?}");
    }
    Ok(())
}

fn wrong_newest(alloc: Global, (block, byte, draws): Spot) -> Result<Option<usize>, Fail> {
    let table = if draws.is_some() { 1 } else { 0 };
    let steps = [
        Step::Make(7, &[0, 2, 4], 1, Made::Done),
        Step::Lose(0b00101),
        Step::Commits(1, Committed::Lost(1, 3)),
        Step::Spoil(1, FIRST.saturating_add(block), byte),
        Step::Back(0b00101),
        Step::Adopts(draws.unwrap_or(2), table, 3),
    ];
    first_wrong(alloc, Layout::Five, &steps)
}

// The spoiled replica alone has the newest table.
#[test]
fn spoiled_replicas_show_no_table(rt: HostRuntime) -> Result<(), Fail> {
    for spot in SPOTS {
        let wrong = wrong_newest(rt.alloc(), *spot)?;
        assert!(rt; wrong.is_none(), "{spot:?}: {wrong:?}");
    }
    Ok(())
}

// Of three replicas on one slice the one of this number is spoiled.
const ON_ONE_SLICE: &[(u64, Option<End>)] = &[
    (0, Some(End::Empty)),
    (1, Some(End::NoQuorum(1, 2))),
    (2, None),
];

fn wrong_behind(
    alloc: Global,
    (block, byte, draws): Spot,
    number: u64,
    end: Option<End>,
) -> Result<Option<usize>, Fail> {
    let first = FIRST.saturating_add(number.saturating_mul(16));
    let steps = [
        Step::Make(7, &[0], 3, Made::Done),
        Step::Commits(1, Committed::Done),
        Step::Spoil(0, first.saturating_add(block), byte),
        match (draws, end) {
            (None, Some(end)) => Step::Boots(end),
            _ => Step::Adopts(draws.unwrap_or(2), 1, 3),
        },
    ];
    first_wrong(alloc, Layout::Five, &steps)
}

// Neither it nor one behind it on the slice has a vote.
#[test]
fn spoiled_replicas_hide_those_behind(rt: HostRuntime) -> Result<(), Fail> {
    for (number, end) in ON_ONE_SLICE {
        for spot in SPOTS {
            let wrong = wrong_behind(rt.alloc(), *spot, *number, *end)?;
            assert!(rt; wrong.is_none(), "{number} {spot:?}: {wrong:?}");
        }
    }
    Ok(())
}

// What lies in front of the first replica, and a slot whose gate is closed, counts for nothing.
const UNREAD: &[(u64, usize)] = &[(2, 0), (17, 511), (28, 0), (33, 511)];

fn wrong_unread(alloc: Global, at: u64, byte: usize) -> Result<Option<usize>, Fail> {
    let steps = [
        Step::Make(7, &[0, 2, 4], 1, Made::Done),
        Step::Spoil(1, at, byte),
        Step::Lose(0b00001),
        Step::Adopts(2, 0, 3),
    ];
    first_wrong(alloc, Layout::Five, &steps)
}

#[test]
fn other_blocks_count_for_nothing(rt: HostRuntime) -> Result<(), Fail> {
    for (at, byte) in UNREAD {
        let wrong = wrong_unread(rt.alloc(), *at, *byte)?;
        assert!(rt; wrong.is_none(), "{at} {byte}: {wrong:?}");
    }
    Ok(())
}
