//! What a peek tells of the drives, beside the boots there.
use mdv_store_tests::{Case, Committed, End, Image, Layout, Made, Peeked, Step, first_of, name_of};
use std::test::Fail;

// The first places of the drives 0 to 2, and of those behind them.
const FRONT: &[usize] = &[0, 2, 4];

const BACK: &[usize] = &[6, 8];

// A creation takes twelve calls for each place. In front of a peek five calls read the five drives; so its first call, the read of the first place of
// drive 0, is the sixth.
const CASES: &[Case] = &[
    (
        "nothing was made",
        &[
            Step::Peeks(Peeked::Empty),
            Step::Lose(0b11111),
            Step::Peeks(Peeked::Empty),
        ],
    ),
    (
        "all drives answer",
        &[
            Step::Make(7, FRONT, 1, Made::Done),
            Step::Peeks(Peeked::Table(0, 3)),
            Step::Commits(1, Committed::Done),
            Step::Peeks(Peeked::Table(1, 3)),
            Step::Commits(2, Committed::Done),
            Step::Crash(Image::Last),
            Step::Peeks(Peeked::Table(2, 3)),
            Step::Adopts(2, 2, 3),
            Step::Peeks(Peeked::Table(2, 3)),
        ],
    ),
    (
        "of three drives one is lost, then two, then all",
        &[
            Step::Make(7, FRONT, 1, Made::Done),
            Step::Commits(1, Committed::Done),
            Step::Lose(0b00010),
            Step::Peeks(Peeked::Table(1, 3)),
            Step::Lose(0b00001),
            Step::Peeks(Peeked::NoQuorum(1, 2)),
            Step::Lose(0b00100),
            Step::Peeks(Peeked::Empty),
            Step::Back(0b00111),
            Step::Peeks(Peeked::Table(1, 3)),
        ],
    ),
    (
        "half of the places isn't enough",
        &[
            Step::Make(7, BACK, 2, Made::Done),
            Step::Lose(0b10000),
            Step::Peeks(Peeked::NoQuorum(2, 3)),
            Step::Boots(End::NoQuorum(2, 3)),
        ],
    ),
    (
        "two databases, and the one that is left where the other's drives are lost",
        &[
            Step::Make(7, FRONT, 1, Made::Done),
            Step::Make(8, BACK, 1, Made::Done),
            Step::Peeks(Peeked::TwoDatabases(7, 8)),
            Step::Lose(0b00011),
            Step::Peeks(Peeked::TwoDatabases(7, 8)),
            Step::Lose(0b00100),
            Step::Peeks(Peeked::Table(0, 2)),
        ],
    ),
    (
        "another host's replicas are ignored",
        &[Step::MakeOther(8, BACK, 1), Step::Peeks(Peeked::Empty)],
    ),
    (
        "a read fails, and the others are enough",
        &[
            Step::Make(7, FRONT, 1, Made::Done),
            Step::Fail(42),
            Step::PeeksWithout(0b00001, Peeked::Table(0, 3)),
        ],
    ),
    (
        "a read fails, and the others aren't enough; the next peek reads that drive",
        &[
            Step::Make(7, &[0, 2], 1, Made::Done),
            Step::Fail(30),
            Step::PeeksWithout(0b00001, Peeked::NoQuorum(1, 2)),
            Step::Peeks(Peeked::Table(0, 2)),
        ],
    ),
    (
        "the drive that holds the only replica doesn't answer",
        &[
            Step::Make(7, &[0], 1, Made::Done),
            Step::Fail(18),
            Step::PeeksWithout(0b00001, Peeked::Empty),
            Step::Peeks(Peeked::Table(0, 1)),
        ],
    ),
];

#[test]
fn tells_what_a_boot_takes(rt: HostRuntime) -> Result<(), Fail> {
    let wrong = first_of(rt.alloc(), Layout::Five, CASES)?;
    assert!(rt; wrong.is_none(), "{}: {wrong:?}", name_of(CASES, wrong));
    Ok(())
}
