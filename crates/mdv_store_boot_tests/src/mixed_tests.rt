//! Boots where replicas of several databases lie on the drives.
use mdv_store_tests::{Case, Committed, End, Found, Layout, Made, Step, first_of, name_of};
use std::test::Fail;

// The first places of the drives 0 to 2, and of those behind them.
const FRONT: &[usize] = &[0, 2, 4];

const BACK: &[usize] = &[6, 8];

const EIGHT_FOUND: End = End::Adopted(Found {
    fresh: 8,
    boot: 2,
    table: 0,
    places: 2,
});

const CASES: &[Case] = &[
    (
        "two databases, told in the order of the slices",
        &[
            Step::Make(7, FRONT, 1, Made::Done),
            Step::Make(8, BACK, 1, Made::Done),
            Step::Boots(End::TwoDatabases(7, 8)),
            Step::Lose(0b00011),
            Step::Boots(End::TwoDatabases(7, 8)),
            Step::Lose(0b00100),
            Step::Boots(EIGHT_FOUND),
        ],
    ),
    (
        "an identity that is spoiled at one place",
        &[
            Step::Make(7, FRONT, 1, Made::Done),
            Step::Spoil(1, 18, 15),
            Step::Boots(End::TwoDatabases(7, 82)),
            Step::Lose(0b00010),
            Step::Adopts(2, 0, 3),
        ],
    ),
    (
        "made in the other order",
        &[
            Step::Make(8, BACK, 1, Made::Done),
            Step::Make(7, FRONT, 1, Made::Done),
            Step::Boots(End::TwoDatabases(7, 8)),
            Step::Lose(0b10000),
            Step::Boots(End::TwoDatabases(7, 8)),
            Step::Lose(0b01000),
            Step::Adopts(2, 0, 3),
        ],
    ),
    (
        "two on the slices of one drive",
        &[
            Step::Make(8, &[1], 1, Made::Done),
            Step::Make(7, &[0], 1, Made::Done),
            Step::Boots(End::TwoDatabases(7, 8)),
            Step::Lose(0b00001),
            Step::Boots(End::Empty),
        ],
    ),
    (
        "one that has no majority counts all the same",
        &[
            Step::Make(7, FRONT, 1, Made::Done),
            Step::Make(8, BACK, 1, Made::Done),
            Step::Lose(0b01000),
            Step::Boots(End::TwoDatabases(7, 8)),
        ],
    ),
    (
        "places that were formatted and show no table count for nothing",
        &[
            Step::Fail(11),
            Step::Make(8, BACK, 1, Made::Failed),
            Step::Make(7, FRONT, 1, Made::Done),
            Step::Adopts(2, 0, 3),
        ],
    ),
    (
        "a database made over the places of an older one",
        &[
            Step::Make(8, BACK, 1, Made::Done),
            Step::Make(7, BACK, 1, Made::Done),
            Step::Adopts(2, 0, 2),
        ],
    ),
    (
        "over places of which the slices have more",
        &[
            Step::Make(8, BACK, 3, Made::Done),
            Step::Make(7, BACK, 2, Made::Done),
            Step::Adopts(2, 0, 4),
            Step::Make(7, BACK, 3, Made::Done),
            Step::Adopts(2, 0, 6),
        ],
    ),
    (
        "over one place of three",
        &[
            Step::Make(7, FRONT, 1, Made::Done),
            Step::Make(8, &[2], 1, Made::Done),
            Step::Boots(End::TwoDatabases(7, 8)),
            Step::Lose(0b00010),
            Step::Adopts(2, 0, 3),
        ],
    ),
    (
        "another host's replicas are ignored",
        &[
            Step::MakeOther(8, BACK, 1),
            Step::Boots(End::Empty),
            Step::Make(7, FRONT, 1, Made::Done),
            Step::Adopts(2, 0, 3),
        ],
    ),
    (
        "even with the same identity",
        &[
            Step::MakeOther(7, BACK, 1),
            Step::Boots(End::Empty),
            Step::Make(7, FRONT, 1, Made::Done),
            Step::Adopts(2, 0, 3),
        ],
    ),
    (
        "over one place of three, and over two",
        &[
            Step::Make(7, FRONT, 1, Made::Done),
            Step::MakeOther(7, &[2], 1),
            Step::Adopts(2, 0, 3),
            Step::MakeOther(9, &[0], 1),
            Step::Boots(End::NoQuorum(1, 2)),
        ],
    ),
    (
        "over the first place of a slice, and those behind it are found no more",
        &[
            Step::Make(7, &[0, 2], 3, Made::Done),
            Step::MakeOther(8, &[0], 1),
            Step::Boots(End::NoQuorum(3, 4)),
        ],
    ),
    (
        "of two tables under one mark the first in the order of the slices",
        &[
            Step::Make(7, BACK, 1, Made::Done),
            Step::Make(7, FRONT, 1, Made::Done),
            Step::Adopts(2, 0, 3),
        ],
    ),
    (
        "made in the other order, too",
        &[
            Step::Make(7, FRONT, 1, Made::Done),
            Step::Make(7, BACK, 1, Made::Done),
            Step::Adopts(2, 0, 3),
        ],
    ),
    (
        "its own list decides, and not the other's",
        &[
            Step::Make(7, FRONT, 1, Made::Done),
            Step::Make(7, BACK, 1, Made::Done),
            Step::Lose(0b00011),
            Step::Boots(End::NoQuorum(1, 2)),
            Step::Lose(0b00100),
            Step::Adopts(2, 0, 2),
        ],
    ),
    (
        "a greater mark wins wherever it lies",
        &[
            Step::Make(7, FRONT, 1, Made::Done),
            Step::Make(7, BACK, 1, Made::Done),
            Step::Commits(1, Committed::Done),
            Step::Adopts(2, 1, 2),
            Step::Lose(0b01000),
            Step::Boots(End::NoQuorum(1, 2)),
            Step::Lose(0b10000),
            Step::Adopts(2, 0, 3),
        ],
    ),
];

#[test]
fn boots_take_one_database(rt: HostRuntime) -> Result<(), Fail> {
    let wrong = first_of(rt.alloc(), Layout::Five, CASES)?;
    assert!(rt; wrong.is_none(), "{}: {wrong:?}", name_of(CASES, wrong));
    Ok(())
}
