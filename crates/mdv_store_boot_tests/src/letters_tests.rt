//! The nine letters of listed places: a m u l W R F M D, as they are told behind a creation, a boot and commits.
use mdv_store_tests::{Committed, End, Found, Layout, Made, Step, first_wrong};
use std::test::Fail;

const WELL: &[&str] = &["amul-----", "a-ul-----", "a-ul-----"];

// The second boot's.
const SECOND: Found = Found {
    fresh: 7,
    boot: 2,
    table: 0,
    places: 3,
};

// On three drives: what is done, and the letters then. The first replica on slice 7 begins at block 18: master, claim, two gates, and the first slot's body.
const CASES: &[&[Step]] = &[
    // a creation, and commits behind it
    &[
        Step::Make(7, &[0, 2, 4], 1, Made::Done),
        Step::Tells(WELL),
        Step::Commits(1, Committed::Done),
        Step::Tells(WELL),
    ],
    // a creation in which the write to the second place fails: the places are formatted by eighteen calls, and the table takes six at each
    &[
        Step::Fail(25),
        Step::Make(7, &[0, 2, 4], 1, Made::Done),
        Step::Tells(&["amul-----", "---lW----", "a-ul-----"]),
    ],
    // a boot
    &[
        Step::Make(7, &[0, 2, 4], 1, Made::Done),
        Step::Adopts(2, 0, 3),
        Step::Tells(WELL),
    ],
    // a boot without a drive
    &[
        Step::Make(7, &[0, 2, 4], 1, Made::Done),
        Step::Lose(0b00010),
        Step::Adopts(2, 0, 3),
        Step::Tells(&["amul-----", "-----R---", "a-ul-----"]),
    ],
    &[
        Step::Make(7, &[0, 2, 4], 1, Made::Done),
        Step::Lose(0b00001),
        Step::Adopts(2, 0, 3),
        Step::Tells(&["-----R---", "amul-----", "a-ul-----"]),
    ],
    // a boot in which a read fails on a drive that is up: behind the creation's calls five watch the drives, ten bring them up, and the next one looks at drive 0
    &[
        Step::Make(7, &[0, 2, 4], 1, Made::Done),
        Step::Fail(52),
        Step::BootsWithout(0, End::Adopted(SECOND)),
        Step::Tells(&["-----R---", "amul-----", "a-ul-----"]),
    ],
    // a master, a claim, a gate and a body
    &[
        Step::Make(7, &[0, 2, 4], 1, Made::Done),
        Step::Spoil(0, 18, 0),
        Step::Adopts(2, 0, 3),
        Step::Tells(&["-------M-", "amul-----", "a-ul-----"]),
    ],
    &[
        Step::Make(7, &[0, 2, 4], 1, Made::Done),
        Step::Spoil(1, 19, 0),
        Step::Adopts(2, 0, 3),
        Step::Tells(&["amul-----", "---l--F--", "a-ul-----"]),
    ],
    &[
        Step::Make(7, &[0, 2, 4], 1, Made::Done),
        Step::Spoil(1, 21, 0),
        Step::Adopts(2, 0, 3),
        Step::Tells(&["amul-----", "---l--F--", "a-ul-----"]),
    ],
    &[
        Step::Make(7, &[0, 2, 4], 1, Made::Done),
        Step::Spoil(2, 22, 0),
        Step::Adopts(2, 0, 3),
        Step::Tells(&["amul-----", "a-ul-----", "---l----D"]),
    ],
    // a master and a claim
    &[
        Step::Make(7, &[0, 2, 4], 1, Made::Done),
        Step::Spoil(2, 18, 0),
        Step::Spoil(2, 19, 0),
        Step::Adopts(2, 0, 3),
        Step::Tells(&["amul-----", "a-ul-----", "------FM-"]),
    ],
    // a write that fails behind a creation, and behind a boot; the next boot looks anew
    &[
        Step::Make(7, &[0, 2, 4], 1, Made::Done),
        Step::Lose(0b00001),
        Step::Tells(WELL),
        Step::Commits(1, Committed::Done),
        Step::Tells(&["-m-lW----", "a-ul-----", "a-ul-----"]),
        Step::Back(0b00001),
        Step::Adopts(2, 1, 3),
        Step::Tells(&["a-ul-----", "amul-----", "a-ul-----"]),
    ],
    &[
        Step::Make(7, &[0, 2, 4], 1, Made::Done),
        Step::Lose(0b00010),
        Step::Adopts(2, 0, 3),
        Step::Lose(0b00100),
        Step::Commits(1, Committed::Lost(1, 3)),
        Step::Tells(&["amul-----", "-----R---", "---lW----"]),
    ],
    // the drive of the first place is there again, with an older table
    &[
        Step::Make(7, &[0, 2, 4], 1, Made::Done),
        Step::Lose(0b00001),
        Step::Adopts(2, 0, 3),
        Step::Back(0b00001),
        Step::Adopts(3, 0, 3),
        Step::Tells(&["a-ul-----", "amul-----", "a-ul-----"]),
    ],
    // of three on each of two slices: what lies behind a place that isn't readable is not looked at
    &[
        Step::Make(7, &[0, 2], 3, Made::Done),
        Step::Spoil(0, 34, 0),
        Step::Adopts(2, 0, 6),
        Step::Tells(&[
            "amul-----",
            "-------M-",
            "---------",
            "a-ul-----",
            "a-ul-----",
            "a-ul-----",
        ]),
    ],
];

#[test]
fn letters_tell_of_each_place(rt: HostRuntime) -> Result<(), Fail> {
    for number in 0..CASES.len() {
        let wrong = first_wrong(rt.alloc(), Layout::Five, CASES[number])?;
        assert!(rt; wrong.is_none(), "{number}: {wrong:?}");
    }
    Ok(())
}
