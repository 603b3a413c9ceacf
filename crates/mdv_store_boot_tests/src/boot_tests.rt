//! Boots of a database that a creation made, with drives lost.
use mdv_store_tests::{Committed, Drives, End, Layout, Made, Step, first_wrong};
use std::alloc::Global;
use std::test::Fail;

#[derive(Clone, Copy)]
enum Want {
    Adopts,
    Empty,
    // So many places are readable, and so many are needed.
    Short(u32, u32),
}

// Where the places are, how many on each line, which drives are lost, and what a boot comes to. On five drives slice 7 of drive n is line 2n, and
// slice 6 the line behind.
struct Case {
    layout: Layout,
    on: &'static [usize],
    count: u8,
    boots: &'static [(Drives, Want)],
}

const CASES: &[Case] = &[
    // a place on each of three drives
    Case {
        layout: Layout::Five,
        on: &[0, 2, 4],
        count: 1,
        boots: &[
            (0, Want::Adopts),
            (0b00001, Want::Adopts),
            (0b00010, Want::Adopts),
            (0b00100, Want::Adopts),
            (0b11000, Want::Adopts),
            (0b11100, Want::Adopts),
            (0b00011, Want::Short(1, 2)),
            (0b00101, Want::Short(1, 2)),
            (0b00110, Want::Short(1, 2)),
            (0b00111, Want::Empty),
        ],
    },
    // two on each of two drives
    Case {
        layout: Layout::Five,
        on: &[0, 2],
        count: 2,
        boots: &[
            (0, Want::Adopts),
            (0b00001, Want::Short(2, 3)),
            (0b00010, Want::Short(2, 3)),
            (0b11100, Want::Adopts),
        ],
    },
    // one on each of two drives
    Case {
        layout: Layout::Five,
        on: &[0, 2],
        count: 1,
        boots: &[
            (0, Want::Adopts),
            (0b00001, Want::Short(1, 2)),
            (0b00010, Want::Short(1, 2)),
        ],
    },
    // three on one slice
    Case {
        layout: Layout::Five,
        on: &[4],
        count: 3,
        boots: &[
            (0, Want::Adopts),
            (0b11011, Want::Adopts),
            (0b00100, Want::Empty),
        ],
    },
    // on two slices of one drive, and on another one
    Case {
        layout: Layout::Five,
        on: &[0, 1, 2],
        count: 1,
        boots: &[
            (0, Want::Adopts),
            (0b00001, Want::Short(1, 2)),
            (0b00010, Want::Adopts),
        ],
    },
    // on two slices of each of two drives
    Case {
        layout: Layout::Five,
        on: &[6, 7, 8, 9],
        count: 1,
        boots: &[
            (0, Want::Adopts),
            (0b01000, Want::Short(2, 3)),
            (0b10000, Want::Short(2, 3)),
            (0b00111, Want::Adopts),
        ],
    },
    // the lines in another order than the table's
    Case {
        layout: Layout::Five,
        on: &[8, 0, 5],
        count: 1,
        boots: &[
            (0, Want::Adopts),
            (0b10000, Want::Adopts),
            (0b10001, Want::Short(1, 2)),
        ],
    },
    // the only place
    Case {
        layout: Layout::Five,
        on: &[9],
        count: 1,
        boots: &[
            (0, Want::Adopts),
            (0b01111, Want::Adopts),
            (0b10000, Want::Empty),
        ],
    },
    // three on each of five drives
    Case {
        layout: Layout::Five,
        on: &[0, 2, 4, 6, 8],
        count: 3,
        boots: &[
            (0, Want::Adopts),
            (0b10001, Want::Adopts),
            (0b11001, Want::Short(6, 8)),
            (0b11011, Want::Short(3, 8)),
        ],
    },
    // as many as there may be, on one slice and on two
    Case {
        layout: Layout::Wide,
        on: &[1],
        count: 50,
        boots: &[(0, Want::Adopts), (0b01, Want::Adopts), (0b10, Want::Empty)],
    },
    Case {
        layout: Layout::Wide,
        on: &[0, 1],
        count: 25,
        boots: &[
            (0, Want::Adopts),
            (0b01, Want::Short(25, 26)),
            (0b10, Want::Short(25, 26)),
        ],
    },
];

fn places(on: &[usize], count: u8) -> usize {
    on.len().saturating_mul(usize::from(count))
}

fn boots_to(case: &Case, want: Want) -> Step {
    match want {
        Want::Adopts => Step::Adopts(2, 0, places(case.on, case.count)),
        Want::Empty => Step::Boots(End::Empty),
        Want::Short(readable, needed) => Step::Boots(End::NoQuorum(readable, needed)),
    }
}

// The drives that are lost in the first of the case's boots that comes to something else.
fn wrong_boot(alloc: Global, case: &Case) -> Result<Option<Drives>, Fail> {
    for (lost, want) in case.boots {
        let steps = [
            Step::Make(7, case.on, case.count, Made::Done),
            Step::Lose(*lost),
            boots_to(case, *want),
        ];
        if first_wrong(alloc, case.layout, &steps)?.is_some() {
            return Ok(Some(*lost));
        }
    }
    Ok(None)
}

// The number of the first case with such a boot, and those drives.
fn wrong_case(alloc: Global) -> Result<Option<(usize, Drives)>, Fail> {
    for number in 0..CASES.len() {
        if let Some(lost) = wrong_boot(alloc, &CASES[number])? {
            return Ok(Some((number, lost)));
        }
    }
    Ok(None)
}

#[test]
fn boots_need_a_majority(rt: HostRuntime) -> Result<(), Fail> {
    let wrong = wrong_case(rt.alloc())?;
    assert!(rt; wrong.is_none(), "{wrong:?}");
    Ok(())
}

// Behind an adoption tables are committed, and the next boot draws the next number.
type GoesOn = (&'static [usize], u8, Drives);

const GOES_ON: &[GoesOn] = &[
    (&[0, 2, 4], 1, 0),
    (&[0, 2, 4], 1, 0b00100),
    (&[0, 2], 3, 0),
    (&[4], 3, 0b00011),
    (&[0, 1, 2], 1, 0b00010),
];

fn wrong_behind(alloc: Global, (on, count, lost): GoesOn) -> Result<Option<usize>, Fail> {
    let listed = places(on, count);
    let steps = [
        Step::Make(7, on, count, Made::Done),
        Step::Commits(1, Committed::Done),
        Step::Commits(2, Committed::Done),
        Step::Lose(lost),
        Step::Adopts(2, 2, listed),
        Step::Commits(3, Committed::Done),
        Step::Adopts(3, 3, listed),
        Step::Back(lost),
        Step::Adopts(4, 3, listed),
        Step::Adopts(5, 3, listed),
    ];
    first_wrong(alloc, Layout::Five, &steps)
}

#[test]
fn goes_on_behind_a_boot(rt: HostRuntime) -> Result<(), Fail> {
    for number in 0..GOES_ON.len() {
        let wrong = wrong_behind(rt.alloc(), GOES_ON[number])?;
        assert!(rt; wrong.is_none(), "{number}: {wrong:?}");
    }
    Ok(())
}
