//! Boots while places change: a table lists the places that were and those that come, enough of each list is asked, and the change is over then.
use mdv_store_tests::{
    Case, Committed, End, Found, Image, Layout, Peeked, Step, first_of, name_of,
};
use std::test::Fail;

// The lines 2 k and 2 k + 1 are on drive k. Three places were, on the drives 0 to 2; and five come: that of drive 2, and of the drives 3, 4, 0 and 1 one each.
const OLD: &[usize] = &[0, 2, 4];

const NEW: &[usize] = &[4, 6, 8, 1, 3];

const FIVE: &[&str] = &[
    "amul-----",
    "a-ul-----",
    "a-ul-----",
    "a-ul-----",
    "a-ul-----",
];

// The table of the boot behind the change.
const FIRST: End = End::Adopted(Found {
    fresh: 7,
    boot: 2,
    table: 1,
    places: 5,
});

const CASES: &[Case] = &[
    (
        "both lists are read, and the list that comes alone is listed then",
        &[
            Step::Changes(OLD, NEW, 1),
            Step::Peeks(Peeked::Table(1, 7)),
            Step::Adopts(2, 1, 5),
            Step::Tells(FIVE),
            Step::Peeks(Peeked::Table(1, 5)),
            Step::Commits(2, Committed::Done),
            Step::Tells(FIVE),
            Step::Adopts(3, 2, 5),
        ],
    ),
    (
        "more than half of each list is enough for a boot",
        &[
            Step::Changes(OLD, NEW, 1),
            Step::Lose(0b11000),
            Step::Adopts(2, 1, 5),
            Step::Tells(&[
                "amul-----",
                "-----R---",
                "-----R---",
                "a-ul-----",
                "a-ul-----",
            ]),
            Step::Commits(2, Committed::Done),
            Step::Back(0b11000),
            Step::Adopts(3, 2, 5),
            Step::Tells(FIVE),
        ],
    ),
    (
        "too few of the old list",
        &[
            Step::Changes(OLD, NEW, 1),
            Step::Lose(0b00011),
            Step::Peeks(Peeked::NoQuorum(1, 2)),
            Step::Boots(End::NoQuorum(1, 2)),
            Step::Back(0b00011),
            Step::Adopts(2, 1, 5),
        ],
    ),
    (
        "too few of the list that comes",
        &[
            Step::Changes(OLD, NEW, 1),
            Step::Lose(0b11100),
            Step::Peeks(Peeked::NoQuorum(2, 3)),
            Step::Boots(End::NoQuorum(2, 3)),
            Step::Back(0b11100),
            Step::Adopts(2, 1, 5),
        ],
    ),
    (
        "too few of both: the old list's numbers are told",
        &[
            Step::Changes(OLD, NEW, 1),
            Step::Lose(0b11011),
            Step::Boots(End::NoQuorum(1, 2)),
        ],
    ),
    (
        "behind a boot the old list counts no more",
        &[
            Step::Changes(OLD, NEW, 1),
            Step::Adopts(2, 1, 5),
            Step::Lose(0b00011),
            Step::Commits(2, Committed::Done),
            Step::Boots(End::Adopted(Found {
                fresh: 7,
                boot: 3,
                table: 2,
                places: 5,
            })),
            Step::Back(0b00011),
            Step::Lose(0b11100),
            Step::Peeks(Peeked::NoQuorum(2, 3)),
            Step::Boots(End::NoQuorum(2, 3)),
        ],
    ),
    (
        "fewer than half of the list that came are left",
        &[
            Step::Changes(OLD, NEW, 1),
            Step::Adopts(2, 1, 5),
            Step::Lose(0b11000),
            Step::Commits(2, Committed::Done),
            Step::Lose(0b00100),
            Step::Commits(3, Committed::Lost(2, 5)),
            Step::CommitsNothing(4, Committed::Lost(2, 5)),
            Step::Back(0b11100),
            Step::Adopts(3, 3, 5),
        ],
    ),
    (
        "fewer than half of both are left",
        &[
            Step::Changes(OLD, NEW, 1),
            Step::Adopts(2, 1, 5),
            Step::Lose(0b11011),
            Step::Commits(2, Committed::Lost(1, 5)),
        ],
    ),
];

// The change is laid by 160 calls, and five watch the drives. Then a boot reads and syncs each of the five drives, looks at ten slices, on seven of which a place shows a table, and takes two calls for each of
// the seven claims, from 192 on; six for each of the seven tables, from 206 on; and six for each of the five tables of the list that comes, from 248 on.
const CALLS: &[Case] = &[
    (
        "two claims of the old list fail",
        &[
            Step::Fail(192),
            Step::Fail(193),
            Step::Changes(OLD, NEW, 1),
            Step::BootsWithout(0, End::Lost(1, 3)),
            Step::Adopts(3, 1, 5),
        ],
    ),
    (
        "three claims of the list that comes fail",
        &[
            Step::Fail(196),
            Step::Fail(197),
            Step::Fail(198),
            Step::Changes(OLD, NEW, 1),
            Step::BootsWithout(0, End::Lost(2, 5)),
            Step::Peeks(Peeked::Table(1, 7)),
            Step::Adopts(3, 1, 5),
        ],
    ),
    (
        "two tables of the old list fail",
        &[
            Step::Fail(206),
            Step::Fail(207),
            Step::Changes(OLD, NEW, 1),
            Step::BootsWithout(0, End::Lost(1, 3)),
            Step::Peeks(Peeked::Table(1, 7)),
            Step::Adopts(3, 1, 5),
        ],
    ),
    (
        "three tables of the list that comes fail",
        &[
            Step::Fail(218),
            Step::Fail(219),
            Step::Fail(220),
            Step::Changes(OLD, NEW, 1),
            Step::BootsWithout(0, End::Lost(2, 5)),
            Step::Peeks(Peeked::Table(1, 7)),
            Step::Adopts(3, 1, 5),
        ],
    ),
    (
        "one claim of both lists fails, and the place isn't written again",
        &[
            Step::Fail(196),
            Step::Changes(OLD, NEW, 1),
            Step::BootsWithout(0, FIRST),
            Step::Tells(&[
                "-m-lW----",
                "a-ul-----",
                "a-ul-----",
                "a-ul-----",
                "a-ul-----",
            ]),
            Step::Adopts(3, 1, 5),
            Step::Tells(&[
                "a-ul-----",
                "amul-----",
                "a-ul-----",
                "a-ul-----",
                "a-ul-----",
            ]),
        ],
    ),
    (
        "two of the five tables of the list that comes fail",
        &[
            Step::Fail(248),
            Step::Fail(249),
            Step::Changes(OLD, NEW, 1),
            Step::BootsWithout(0, FIRST),
            Step::Commits(2, Committed::Done),
            Step::Lose(0b10000),
            Step::Commits(3, Committed::Lost(2, 5)),
            Step::Back(0b10000),
            Step::Adopts(3, 3, 5),
        ],
    ),
    (
        "two of the last ones do: the old list is short then, but it isn't asked any more",
        &[
            Step::Fail(266),
            Step::Fail(267),
            Step::Changes(OLD, NEW, 1),
            Step::BootsWithout(0, FIRST),
            Step::Commits(2, Committed::Done),
            Step::Adopts(3, 2, 5),
        ],
    ),
    (
        "three of them do: it is lost between the records, and the next boot goes by the list alone",
        &[
            Step::Fail(248),
            Step::Fail(249),
            Step::Fail(250),
            Step::Changes(OLD, NEW, 1),
            Step::BootsWithout(0, End::Lost(2, 5)),
            Step::Peeks(Peeked::Table(1, 5)),
            Step::Lose(0b00011),
            Step::Peeks(Peeked::NoQuorum(1, 2)),
            Step::Back(0b00011),
            Step::Adopts(3, 1, 5),
            Step::Tells(&[
                "a-ul-----",
                "a-ul-----",
                "a-ul-----",
                "amul-----",
                "a-ul-----",
            ]),
        ],
    ),
    (
        "all of them do: the next boot goes by both lists",
        &[
            Step::Fail(248),
            Step::Fail(249),
            Step::Fail(250),
            Step::Fail(251),
            Step::Fail(252),
            Step::Changes(OLD, NEW, 1),
            Step::BootsWithout(0, End::Lost(0, 5)),
            Step::Peeks(Peeked::Table(1, 7)),
            Step::Adopts(3, 1, 5),
        ],
    ),
    (
        "the same, and the host crashes between the records",
        &[
            Step::Fail(248),
            Step::Fail(249),
            Step::Fail(250),
            Step::Fail(251),
            Step::Fail(252),
            Step::Changes(OLD, NEW, 1),
            Step::BootsWithout(0, End::Lost(0, 5)),
            Step::Crash(Image::Stable),
            Step::Peeks(Peeked::Table(1, 7)),
            Step::Lose(0b00011),
            Step::Peeks(Peeked::NoQuorum(1, 2)),
            Step::Back(0b00011),
            Step::Adopts(3, 1, 5),
            Step::Lose(0b00011),
            Step::Peeks(Peeked::Table(1, 5)),
        ],
    ),
];

// Of three places on three drives the first two stay. The change is laid by 100 calls, and three watch the drives. Then a boot reads and syncs each drive, looks at three slices, on each of which a place shows a table,
// and takes two calls for each claim, from 115 on, six for each of the three tables, from 121 on, and six for each of the two tables of the list that comes, from 139 on.
const WERE: &[usize] = &[0, 1, 2];

const STAY: &[usize] = &[0, 1];

const TWO: End = End::Adopted(Found {
    fresh: 7,
    boot: 2,
    table: 1,
    places: 2,
});

// Half of the list that comes suffices for a host's own database.
const HALVES: &[Case] = &[
    (
        "one claim of the list that comes fails",
        &[
            Step::Fail(115),
            Step::Changes(WERE, STAY, 1),
            Step::BootsWithout(0, TWO),
            Step::Commits(2, Committed::Done),
            Step::Adopts(3, 2, 2),
        ],
    ),
    (
        "one of its tables fails, as both are written",
        &[
            Step::Fail(121),
            Step::Changes(WERE, STAY, 1),
            Step::BootsWithout(0, TWO),
            Step::Adopts(3, 1, 2),
        ],
    ),
    (
        "or as it alone is",
        &[
            Step::Fail(139),
            Step::Changes(WERE, STAY, 1),
            Step::BootsWithout(0, TWO),
            Step::Commits(2, Committed::Done),
            Step::Lose(0b010),
            Step::Commits(3, Committed::Lost(0, 2)),
            Step::Back(0b010),
            Step::Adopts(3, 2, 2),
        ],
    ),
];

// And doesn't for a set's.
const SET_HALVES: &[Case] = &[
    (
        "one claim of the list that comes fails",
        &[
            Step::Fail(115),
            Step::Changes(WERE, STAY, 1),
            Step::BootsWithout(0, End::Lost(1, 2)),
            Step::Peeks(Peeked::Table(1, 3)),
            Step::Adopts(3, 1, 2),
        ],
    ),
    (
        "one of its tables fails, as both are written",
        &[
            Step::Fail(121),
            Step::Changes(WERE, STAY, 1),
            Step::BootsWithout(0, End::Lost(1, 2)),
            Step::Peeks(Peeked::Table(1, 3)),
            Step::Adopts(3, 1, 2),
        ],
    ),
    (
        "or as it alone is",
        &[
            Step::Fail(139),
            Step::Changes(WERE, STAY, 1),
            Step::BootsWithout(0, End::Lost(1, 2)),
            Step::Peeks(Peeked::Table(1, 2)),
            Step::Adopts(3, 1, 2),
        ],
    ),
];

#[test]
fn each_list_is_asked(rt: HostRuntime) -> Result<(), Fail> {
    let wrong = first_of(rt.alloc(), Layout::Five, CASES)?;
    assert!(rt; wrong.is_none(), "{}: {wrong:?}", name_of(CASES, wrong));
    Ok(())
}

#[test]
fn failed_calls_lose_places(rt: HostRuntime) -> Result<(), Fail> {
    let wrong = first_of(rt.alloc(), Layout::Five, CALLS)?;
    assert!(rt; wrong.is_none(), "{}: {wrong:?}", name_of(CALLS, wrong));
    Ok(())
}

#[test]
fn half_of_the_list_that_comes_is_enough_but_for_a_set(rt: HostRuntime) -> Result<(), Fail> {
    let own = first_of(rt.alloc(), Layout::Three, HALVES)?;
    assert!(rt; own.is_none(), "{}: {own:?}", name_of(HALVES, own));
    let set = first_of(rt.alloc(), Layout::Shared, SET_HALVES)?;
    assert!(rt; set.is_none(), "{}: {set:?}", name_of(SET_HALVES, set));
    Ok(())
}
