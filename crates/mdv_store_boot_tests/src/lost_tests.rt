//! What makes a creation, a commit or a boot end for want of places or of numbers.
use mdv_store_tests::{Case, Committed, End, Found, Image, Layout, Made, Step, first_of, name_of};
use std::test::Fail;

// A creation takes twelve calls for each place, six of them for its format, and two more for each place of a slice that gets several. A commit takes six
// for each.
const COMMITS: &[Case] = &[
    (
        "the only place is lost",
        &[
            Step::Make(7, &[0], 1, Made::Done),
            Step::Commits(1, Committed::Done),
            Step::Lose(0b00001),
            Step::Commits(2, Committed::Lost(0, 1)),
            Step::CommitsNothing(3, Committed::Lost(0, 1)),
            Step::Back(0b00001),
            Step::Adopts(2, 1, 1),
        ],
    ),
    (
        "one of two places goes on, and none doesn't",
        &[
            Step::Make(7, &[0, 2], 1, Made::Done),
            Step::Lose(0b00001),
            Step::Commits(1, Committed::Done),
            Step::Lose(0b00010),
            Step::Commits(2, Committed::Lost(0, 2)),
            Step::CommitsNothing(3, Committed::Lost(0, 2)),
            Step::Back(0b00011),
            Step::Adopts(2, 1, 2),
        ],
    ),
    (
        "two of three places go on, and one doesn't",
        &[
            Step::Make(7, &[0, 2, 4], 1, Made::Done),
            Step::Lose(0b00010),
            Step::Commits(1, Committed::Done),
            Step::Lose(0b00100),
            Step::Commits(2, Committed::Lost(1, 3)),
            Step::CommitsNothing(3, Committed::Lost(1, 3)),
            Step::Back(0b00110),
            Step::Adopts(2, 2, 3),
        ],
    ),
    (
        "two of four places go on, and one doesn't, though it took the table",
        &[
            Step::Make(7, &[0, 2, 4, 6], 1, Made::Done),
            Step::Lose(0b00001),
            Step::Commits(1, Committed::Done),
            Step::Lose(0b00010),
            Step::Commits(2, Committed::Done),
            Step::Lose(0b00100),
            Step::Commits(3, Committed::Lost(1, 4)),
            Step::CommitsNothing(4, Committed::Lost(1, 4)),
            Step::Back(0b00111),
            Step::Adopts(2, 3, 4),
        ],
    ),
    (
        "and where that place is lost, the table before stands",
        &[
            Step::Make(7, &[0, 2, 4, 6], 1, Made::Done),
            Step::Lose(0b00001),
            Step::Commits(1, Committed::Done),
            Step::Lose(0b00010),
            Step::Commits(2, Committed::Done),
            Step::Lose(0b00100),
            Step::Commits(3, Committed::Lost(1, 4)),
            Step::Back(0b00111),
            Step::Lose(0b01000),
            Step::Adopts(2, 2, 4),
            Step::Back(0b01000),
            Step::Adopts(3, 2, 4),
        ],
    ),
    (
        "a commit goes on at half, and a boot doesn't",
        &[
            Step::Make(7, &[0, 2], 2, Made::Done),
            Step::Lose(0b00001),
            Step::Commits(1, Committed::Done),
            Step::Boots(End::NoQuorum(2, 3)),
            Step::Back(0b00001),
            Step::Adopts(2, 1, 4),
        ],
    ),
    (
        "one failed call, and the place isn't written till the next boot",
        &[
            Step::Make(7, &[0, 2], 1, Made::Done),
            Step::Fail(24),
            Step::Commits(1, Committed::Done),
            Step::Commits(2, Committed::Done),
            Step::Lose(0b00010),
            Step::Commits(3, Committed::Lost(0, 2)),
            Step::Back(0b00010),
            Step::Adopts(2, 2, 2),
        ],
    ),
    (
        "one failed call, and no place of its drive is active",
        &[
            Step::Make(7, &[0, 2], 2, Made::Done),
            Step::Fail(56),
            Step::Commits(1, Committed::Done),
            Step::Fail(69),
            Step::Commits(2, Committed::Lost(0, 4)),
            Step::CommitsNothing(3, Committed::Lost(0, 4)),
            Step::Adopts(2, 1, 4),
        ],
    ),
    (
        "the same, behind a place that took the table",
        &[
            Step::Make(7, &[0, 2], 2, Made::Done),
            Step::Fail(56),
            Step::Commits(1, Committed::Done),
            Step::Fail(75),
            Step::Commits(2, Committed::Lost(0, 4)),
            Step::Adopts(2, 2, 4),
        ],
    ),
    (
        "a failed call on the only slice, at its first place",
        &[
            Step::Make(7, &[0], 3, Made::Done),
            Step::Fail(42),
            Step::Commits(1, Committed::Lost(0, 3)),
            Step::Adopts(2, 0, 3),
        ],
    ),
    (
        "at its second place",
        &[
            Step::Make(7, &[0], 3, Made::Done),
            Step::Fail(48),
            Step::Commits(1, Committed::Lost(0, 3)),
            Step::Adopts(2, 1, 3),
        ],
    ),
    (
        "the last sync of its first place, which kept the gate closed",
        &[
            Step::Make(7, &[0], 3, Made::Done),
            Step::Fail(47),
            Step::Commits(1, Committed::Lost(0, 3)),
            Step::Crash(Image::Stable),
            Step::Adopts(2, 0, 3),
        ],
    ),
    (
        "or opened it",
        &[
            Step::Make(7, &[0], 3, Made::Done),
            Step::Fail(47),
            Step::Commits(1, Committed::Lost(0, 3)),
            Step::Crash(Image::Last),
            Step::Adopts(2, 1, 3),
        ],
    ),
];

const CREATIONS: &[Case] = &[
    (
        "the first call of a format fails",
        &[
            Step::Fail(0),
            Step::Make(7, &[0, 2, 4], 1, Made::Failed),
            Step::Boots(End::Empty),
        ],
    ),
    (
        "the last call of the formats fails",
        &[
            Step::Fail(17),
            Step::Make(7, &[0, 2, 4], 1, Made::Failed),
            Step::Boots(End::Empty),
        ],
    ),
    (
        "the first blanking fails",
        &[
            Step::Fail(0),
            Step::Make(7, &[0], 3, Made::Failed),
            Step::Boots(End::Empty),
        ],
    ),
    (
        "a drive without places is lost",
        &[
            Step::Lose(0b11000),
            Step::Make(7, &[0, 2, 4], 1, Made::Done),
            Step::Adopts(2, 0, 3),
        ],
    ),
    (
        "a drive with a place is lost",
        &[
            Step::Lose(0b00100),
            Step::Make(7, &[0, 2, 4], 1, Made::Failed),
            Step::Boots(End::Empty),
            Step::Back(0b00100),
            Step::Boots(End::Empty),
            Step::Make(7, &[0, 2, 4], 1, Made::Done),
            Step::Adopts(2, 0, 3),
        ],
    ),
    (
        "two of three places take the table",
        &[
            Step::Fail(18),
            Step::Make(7, &[0, 2, 4], 1, Made::Done),
            Step::Commits(1, Committed::Done),
            Step::Adopts(2, 1, 3),
        ],
    ),
    (
        "one of two places takes it",
        &[
            Step::Fail(12),
            Step::Make(7, &[0, 2], 1, Made::Done),
            Step::Adopts(2, 0, 2),
        ],
    ),
    (
        "one of three places takes it",
        &[
            Step::Fail(18),
            Step::Fail(19),
            Step::Make(7, &[0, 2, 4], 1, Made::Lost(1, 3)),
            Step::Adopts(2, 0, 3),
        ],
    ),
    (
        "no place takes it",
        &[
            Step::Fail(18),
            Step::Fail(19),
            Step::Fail(20),
            Step::Make(7, &[0, 2, 4], 1, Made::Lost(0, 3)),
            Step::Boots(End::Empty),
        ],
    ),
    (
        "the only place doesn't",
        &[
            Step::Fail(6),
            Step::Make(7, &[0], 1, Made::Lost(0, 1)),
            Step::Boots(End::Empty),
        ],
    ),
    (
        "of three on one slice the first takes it",
        &[
            Step::Fail(30),
            Step::Make(7, &[0], 3, Made::Lost(0, 3)),
            Step::Adopts(2, 0, 3),
        ],
    ),
];

// A table without volumes has 24 bytes and 12 for each place, a volume 50, and a slot has room for 3072.
const LENGTHS: &[Case] = &[
    (
        "three places",
        &[
            Step::Make(7, &[0, 2, 4], 1, Made::Done),
            Step::CommitsMany(61, Committed::TooLong(3110, 3072)),
            Step::Commits(1, Committed::Done),
            Step::Adopts(2, 1, 3),
        ],
    ),
    (
        "a database that is lost",
        &[
            Step::Make(7, &[0], 1, Made::Done),
            Step::Lose(0b00001),
            Step::CommitsMany(61, Committed::TooLong(3086, 3072)),
            Step::Commits(1, Committed::Lost(0, 1)),
            Step::CommitsMany(61, Committed::Lost(0, 1)),
        ],
    ),
];

// The claim of a slice's first replica is block 19 of its drive.
const NUMBERS: &[Case] = &[
    (
        "the greatest number was claimed",
        &[
            Step::Make(7, &[0, 2, 4], 1, Made::Done),
            Step::Claim(2, 19, 9223372036854775807),
            Step::Boots(End::Spent),
            Step::Lose(0b00100),
            Step::Adopts(2, 0, 3),
        ],
    ),
    (
        "the one below it was",
        &[
            Step::Make(7, &[0, 2, 4], 1, Made::Done),
            Step::Claim(2, 19, 9223372036854775806),
            Step::Adopts(9223372036854775807, 0, 3),
            Step::Commits(1, Committed::Done),
            Step::Boots(End::Spent),
        ],
    ),
    (
        "no number is so great",
        &[
            Step::Make(7, &[0, 2, 4], 1, Made::Done),
            Step::Claim(2, 19, 9223372036854775808),
            Step::Adopts(2, 0, 3),
            Step::Lose(0b00001),
            Step::Boots(End::NoQuorum(1, 2)),
        ],
    ),
    (
        "a greater one was claimed at a place that isn't listed",
        &[
            Step::Make(7, &[6], 1, Made::Done),
            Step::Make(7, &[0, 2, 4], 1, Made::Done),
            Step::Claim(3, 19, 40),
            Step::Adopts(41, 0, 3),
        ],
    ),
];

// A boot reads and syncs each drive, looks at each slice, two calls where a place shows one table, and takes two calls for each claim and six for each
// table. The images before it take one for each drive.
const ADOPTED_2: End = End::Adopted(Found {
    fresh: 7,
    boot: 2,
    table: 0,
    places: 2,
});

const ADOPTED_3: End = End::Adopted(Found {
    fresh: 7,
    boot: 2,
    table: 0,
    places: 3,
});

// Those that go alike for a host's own database and for a set's.
const BOOTS: &[Case] = &[
    (
        "a drive's first block isn't read, or the drive not synced, of two places",
        &[
            Step::Fail(27),
            Step::Make(7, &[0, 1], 1, Made::Done),
            Step::BootsWithout(0b001, End::NoQuorum(1, 2)),
            Step::Adopts(2, 0, 2),
        ],
    ),
    (
        "of three places",
        &[
            Step::Fail(42),
            Step::Make(7, &[0, 1, 2], 1, Made::Done),
            Step::BootsWithout(0b010, ADOPTED_3),
            Step::Adopts(3, 0, 3),
        ],
    ),
    (
        "a master isn't read, of two places",
        &[
            Step::Fail(33),
            Step::Make(7, &[0, 1], 1, Made::Done),
            Step::BootsWithout(0, End::NoQuorum(1, 2)),
            Step::Adopts(2, 0, 2),
        ],
    ),
    (
        "a table isn't read, of three",
        &[
            Step::Fail(46),
            Step::Make(7, &[0, 1, 2], 1, Made::Done),
            Step::BootsWithout(0, ADOPTED_3),
            Step::Adopts(3, 0, 3),
        ],
    ),
    (
        "a slice without places isn't read",
        &[
            Step::Fail(37),
            Step::Make(7, &[0, 1], 1, Made::Done),
            Step::BootsWithout(0, ADOPTED_2),
        ],
    ),
    (
        "both claims fail",
        &[
            Step::Fail(38),
            Step::Fail(39),
            Step::Make(7, &[0, 1], 1, Made::Done),
            Step::BootsWithout(0, End::Lost(0, 2)),
            Step::Crash(Image::Stable),
            Step::Adopts(2, 0, 2),
        ],
    ),
    (
        "the syncs of both claims fail, which a crash keeps",
        &[
            Step::Fail(39),
            Step::Fail(41),
            Step::Make(7, &[0, 1], 1, Made::Done),
            Step::BootsWithout(0, End::Lost(0, 2)),
            Step::Crash(Image::Last),
            Step::Adopts(3, 0, 2),
        ],
    ),
    (
        "one claim of three fails",
        &[
            Step::Fail(51),
            Step::Make(7, &[0, 1, 2], 1, Made::Done),
            Step::BootsWithout(0, ADOPTED_3),
            Step::Commits(1, Committed::Done),
            Step::Lose(0b010),
            Step::Commits(2, Committed::Lost(1, 3)),
        ],
    ),
    (
        "two claims of three fail",
        &[
            Step::Fail(51),
            Step::Fail(52),
            Step::Make(7, &[0, 1, 2], 1, Made::Done),
            Step::BootsWithout(0, End::Lost(1, 3)),
            Step::Adopts(3, 0, 3),
        ],
    ),
    (
        "two tables of three fail",
        &[
            Step::Fail(57),
            Step::Fail(58),
            Step::Make(7, &[0, 1, 2], 1, Made::Done),
            Step::BootsWithout(0, End::Lost(1, 3)),
            Step::Adopts(3, 0, 3),
        ],
    ),
];

// Half of the places suffices for a host's own database.
const HALVES: &[Case] = &[
    (
        "one claim of two fails",
        &[
            Step::Fail(38),
            Step::Make(7, &[0, 1], 1, Made::Done),
            Step::BootsWithout(0, ADOPTED_2),
            Step::Commits(1, Committed::Done),
            Step::Lose(0b010),
            Step::Commits(2, Committed::Lost(0, 2)),
        ],
    ),
    (
        "one table of two fails",
        &[
            Step::Fail(42),
            Step::Make(7, &[0, 1], 1, Made::Done),
            Step::BootsWithout(0, ADOPTED_2),
            Step::Adopts(3, 0, 2),
        ],
    ),
];

// And doesn't for a set's; a commit goes on at half there, too.
const SET_HALVES: &[Case] = &[
    (
        "one claim of two fails",
        &[
            Step::Fail(38),
            Step::Make(7, &[0, 1], 1, Made::Done),
            Step::BootsWithout(0, End::Lost(1, 2)),
            Step::Adopts(3, 0, 2),
        ],
    ),
    (
        "one table of two fails",
        &[
            Step::Fail(42),
            Step::Make(7, &[0, 1], 1, Made::Done),
            Step::BootsWithout(0, End::Lost(1, 2)),
            Step::Adopts(3, 0, 2),
        ],
    ),
    (
        "a drive is lost, and a boot needs more than half",
        &[
            Step::Make(7, &[0, 1], 1, Made::Done),
            Step::Lose(0b001),
            Step::Commits(1, Committed::Done),
            Step::Boots(End::NoQuorum(1, 2)),
        ],
    ),
    (
        "the other set's replicas are ignored",
        &[
            Step::MakeOther(8, &[0], 1),
            Step::Boots(End::Empty),
            Step::Make(7, &[1, 2], 1, Made::Done),
            Step::Adopts(2, 0, 2),
        ],
    ),
];

#[test]
fn commits_need_half(rt: HostRuntime) -> Result<(), Fail> {
    let wrong = first_of(rt.alloc(), Layout::Five, COMMITS)?;
    assert!(rt; wrong.is_none(), "{}: {wrong:?}", name_of(COMMITS, wrong));
    Ok(())
}

#[test]
fn creations_need_each_format_and_half(rt: HostRuntime) -> Result<(), Fail> {
    let wrong = first_of(rt.alloc(), Layout::Five, CREATIONS)?;
    assert!(rt; wrong.is_none(), "{}: {wrong:?}", name_of(CREATIONS, wrong));
    Ok(())
}

#[test]
fn texts_and_numbers_have_limits(rt: HostRuntime) -> Result<(), Fail> {
    let long = first_of(rt.alloc(), Layout::Five, LENGTHS)?;
    assert!(rt; long.is_none(), "{}: {long:?}", name_of(LENGTHS, long));
    let spent = first_of(rt.alloc(), Layout::Five, NUMBERS)?;
    assert!(rt; spent.is_none(), "{}: {spent:?}", name_of(NUMBERS, spent));
    Ok(())
}

const RUNS: &[(Layout, &[Case])] = &[
    (Layout::Three, BOOTS),
    (Layout::Shared, BOOTS),
    (Layout::Three, HALVES),
    (Layout::Shared, SET_HALVES),
];

#[test]
fn boots_need_half_and_sets_more(rt: HostRuntime) -> Result<(), Fail> {
    for number in 0..RUNS.len() {
        let (layout, cases) = RUNS[number];
        let wrong = first_of(rt.alloc(), layout, cases)?;
        assert!(rt;
            wrong.is_none(),
            "{number}, {}: {wrong:?}",
            name_of(cases, wrong)
        );
    }
    Ok(())
}
