//! Worked changes of places: what was answered, and what boots find behind them.
use crate::host::{Asked, Moved};
use crate::step::{Case, Step, first_of};
use mdv_store_tests::{Committed, End, Image, Layout};
use std::test::Fail;

// The lines 2 k and 2 k + 1 are on drive k: on the first three places have room, on the other one has.
const SECOND: &[usize] = &[2];

const SECOND_AND_THIRD: &[usize] = &[2, 4];

const THREE: &[usize] = &[0, 2, 4];

const DONE: Moved = Moved::Done(true);

const LEFT: Moved = Moved::Done(false);

const CASES: &[Case] = &[
    (
        "a second and a third place are added",
        &[
            Step::Make(&[0], 1),
            Step::Commits(1, Committed::Done),
            Step::Moves(Asked::Add(SECOND_AND_THIRD, 1, 16), DONE),
            Step::Marks(1, 3),
            Step::Commits(2, Committed::Done),
            Step::Crash(Image::Stable),
            Step::Adopts(2, 2, 3),
            Step::Lose(0b00001),
            Step::Commits(3, Committed::Done),
            Step::Adopts(3, 3, 3),
            Step::Lose(0b00010),
            Step::Boots(End::NoQuorum(1, 2)),
            Step::Back(0b00001),
            Step::Adopts(4, 3, 3),
            Step::Back(0b00010),
            Step::Adopts(5, 3, 3),
        ],
    ),
    (
        "two places are added on one slice",
        &[
            Step::Make(&[0], 1),
            Step::Moves(Asked::Add(SECOND, 2, 16), DONE),
            Step::Adopts(2, 0, 3),
            Step::Lose(0b00001),
            Step::Adopts(3, 0, 3),
            Step::Back(0b00001),
            Step::Lose(0b00010),
            Step::Boots(End::NoQuorum(1, 2)),
            Step::Back(0b00010),
            Step::Adopts(4, 0, 3),
        ],
    ),
    (
        "a place is dropped, and no boot finds it then",
        &[
            Step::Make(THREE, 1),
            Step::Moves(Asked::Drop(&[4]), DONE),
            Step::Adopts(2, 0, 2),
            Step::Lose(0b00010),
            Step::Commits(1, Committed::Done),
            Step::Boots(End::NoQuorum(1, 2)),
            Step::Lose(0b00001),
            Step::Boots(End::Empty),
            Step::Back(0b00011),
            Step::Adopts(3, 1, 2),
        ],
    ),
    (
        "all places of two slices are dropped at once",
        &[
            Step::Make(&[0, 2], 2),
            Step::Moves(Asked::Add(&[4], 1, 16), DONE),
            Step::Moves(Asked::Drop(&[0, 2]), DONE),
            Step::Adopts(2, 0, 1),
            Step::Lose(0b00100),
            Step::Boots(End::Empty),
            Step::Back(0b00100),
            Step::Adopts(3, 0, 1),
        ],
    ),
    (
        "a place is dropped on a drive that is lost meanwhile: it isn't wiped, and is in no list when it is back",
        &[
            Step::Make(THREE, 1),
            Step::Lose(0b00100),
            Step::Moves(Asked::Drop(&[4]), LEFT),
            Step::Commits(1, Committed::Done),
            Step::Back(0b00100),
            Step::Adopts(2, 1, 2),
            Step::Lose(0b00011),
            Step::Boots(End::NoQuorum(1, 2)),
            Step::Back(0b00011),
            Step::Adopts(3, 1, 2),
        ],
    ),
    (
        "the place is added again where its old replica was",
        &[
            Step::Make(THREE, 1),
            Step::Lose(0b00100),
            Step::Moves(Asked::Drop(&[4]), LEFT),
            Step::Back(0b00100),
            Step::Adopts(2, 0, 2),
            Step::Moves(Asked::Add(&[4], 3, 16), DONE),
            Step::Adopts(3, 0, 5),
            Step::Lose(0b00011),
            Step::Adopts(4, 0, 5),
        ],
    ),
    (
        "the first place alone is left",
        &[
            Step::Make(THREE, 1),
            Step::Commits(1, Committed::Done),
            Step::Moves(Asked::First, DONE),
            Step::Lose(0b00110),
            Step::Adopts(2, 1, 1),
            Step::Back(0b00110),
            Step::Lose(0b00001),
            Step::Boots(End::Empty),
            Step::Back(0b00001),
            Step::Adopts(3, 1, 1),
        ],
    ),
    (
        "the first place of three on one slice is left",
        &[
            Step::Make(&[0], 3),
            Step::Moves(Asked::First, DONE),
            Step::Commits(1, Committed::Done),
            Step::Adopts(2, 1, 1),
        ],
    ),
    (
        "the database ends, and another one may be made there",
        &[
            Step::Make(THREE, 1),
            Step::Moves(Asked::First, DONE),
            Step::Ends(true),
            Step::Boots(End::Empty),
            Step::Crash(Image::Stable),
            Step::Boots(End::Empty),
            Step::MakeAnother(8, 0),
            Step::Commits(1, Committed::Done),
        ],
    ),
    (
        "its last drive is lost: it may be there still",
        &[
            Step::Make(&[0], 1),
            Step::Lose(0b00001),
            Step::Ends(false),
            Step::Back(0b00001),
            Step::Adopts(2, 0, 1),
            Step::Ends(true),
            Step::Boots(End::Empty),
        ],
    ),
    (
        "a dropped place that was down shows its old table once the database ended, and no boot adopts that",
        &[
            Step::Make(THREE, 1),
            Step::Lose(0b00100),
            Step::Moves(Asked::First, LEFT),
            Step::Ends(true),
            Step::Back(0b00100),
            Step::Boots(End::NoQuorum(1, 2)),
        ],
    ),
    (
        "fewer than half are active: nothing is written",
        &[
            Step::Make(THREE, 1),
            Step::Lose(0b00110),
            Step::Commits(1, Committed::Lost(1, 3)),
            Step::MovesNothing(Asked::Add(&[6], 1, 16), Moved::Lost(1, 3)),
            Step::MovesNothing(Asked::First, Moved::Lost(1, 3)),
            Step::Back(0b00110),
            Step::Adopts(2, 1, 3),
        ],
    ),
    (
        "the drive of a place that is added is lost: the lists are as before",
        &[
            Step::Make(&[0], 1),
            Step::Lose(0b00010),
            Step::Moves(Asked::Add(SECOND_AND_THIRD, 1, 16), Moved::Failed),
            Step::Commits(1, Committed::Done),
            Step::Moves(Asked::Add(&[4], 1, 16), DONE),
            Step::Back(0b00010),
            Step::Adopts(2, 1, 2),
        ],
    ),
    (
        "with the places that are left the list that comes is lost: the old ones have both lists",
        &[
            Step::Make(THREE, 1),
            Step::Lose(0b00110),
            Step::Moves(Asked::Drop(&[0]), Moved::Lost(1, 3)),
            Step::Commits(1, Committed::Lost(1, 3)),
            Step::Back(0b00110),
            Step::Adopts(2, 0, 2),
            Step::Commits(2, Committed::Done),
            Step::Lose(0b00001),
            Step::Adopts(3, 2, 2),
        ],
    ),
];

#[test]
fn places_change(rt: HostRuntime) -> Result<(), Fail> {
    let wrong = first_of(rt.alloc(), Layout::Five, Layout::Five.text(), CASES)?;
    assert!(rt; wrong.is_none(), "{wrong:?}");
    Ok(())
}

// Each creation takes 12 calls for a place, and the change begins behind them.
const CALLS: &[Case] = &[
    (
        "a write of a format fails: nothing of the list is changed, and it may be asked again",
        &[
            Step::Fail(12),
            Step::Make(&[0], 1),
            Step::Moves(Asked::Add(SECOND_AND_THIRD, 1, 16), Moved::Failed),
            Step::Commits(1, Committed::Done),
            Step::Moves(Asked::Add(SECOND_AND_THIRD, 1, 16), DONE),
            Step::Adopts(2, 1, 3),
        ],
    ),
    (
        "the last call of the formats fails",
        &[
            Step::Fail(23),
            Step::Make(&[0], 1),
            Step::Moves(Asked::Add(SECOND_AND_THIRD, 1, 16), Moved::Failed),
            Step::Crash(Image::Last),
            Step::Adopts(2, 0, 1),
        ],
    ),
    (
        "the record with both lists fails at the only old place: what was asked is lost, and the next boot goes by what that shows",
        &[
            Step::Fail(24),
            Step::Make(&[0], 1),
            Step::Moves(Asked::Add(SECOND_AND_THIRD, 1, 16), Moved::Lost(0, 1)),
            Step::Crash(Image::Stable),
            Step::Adopts(2, 0, 3),
        ],
    ),
    (
        "it fails at one added place: the others are enough",
        &[
            Step::Fail(30),
            Step::Make(&[0], 1),
            Step::Moves(Asked::Add(SECOND_AND_THIRD, 1, 16), DONE),
            Step::Commits(1, Committed::Done),
            Step::Adopts(2, 1, 3),
        ],
    ),
    (
        "the record with the list that comes fails at two places: what was asked is lost",
        &[
            Step::Fail(42),
            Step::Fail(43),
            Step::Make(&[0], 1),
            Step::Moves(Asked::Add(SECOND_AND_THIRD, 1, 16), Moved::Lost(1, 3)),
            Step::Adopts(2, 0, 3),
        ],
    ),
    (
        "a wipe fails: the place is dropped all the same",
        &[
            Step::Fail(66),
            Step::Make(THREE, 1),
            Step::Moves(Asked::Drop(&[4]), LEFT),
            Step::Commits(1, Committed::Done),
            Step::Adopts(2, 1, 2),
        ],
    ),
    (
        "the sync of the last wipe fails, and the crash keeps the master",
        &[
            Step::Fail(13),
            Step::Make(&[0], 1),
            Step::Ends(false),
            Step::Crash(Image::Stable),
            Step::Adopts(2, 0, 1),
        ],
    ),
    (
        "or it doesn't",
        &[
            Step::Fail(13),
            Step::Make(&[0], 1),
            Step::Ends(false),
            Step::Crash(Image::Last),
            Step::Boots(End::Empty),
        ],
    ),
];

#[test]
fn failed_calls_leave_places(rt: HostRuntime) -> Result<(), Fail> {
    let wrong = first_of(rt.alloc(), Layout::Five, Layout::Five.text(), CALLS)?;
    assert!(rt; wrong.is_none(), "{wrong:?}");
    Ok(())
}

// Two drives, on the second of which four places of 4,096 blocks have room.
const LONG: &[u8] = b"host hostA
host hostB
drive c0t0d0 66 hostA a0.img
drive c0t1d0 16402 hostA a1.img
slice c0t0d0s0 0 2
slice c0t0d0s7 2 64 db
slice c0t1d0s7 2 16400 db
";

const FOUR: Asked = Asked::Add(&[1], 4, 4096);

const LONG_CASES: &[Case] = &[
    (
        "the change is stopped once one old place of three has both lists: four places of seven want a boot, and it finishes the change",
        &[
            Step::Make(&[0], 3),
            // four masters are blanked, four places formatted, and one table is written
            Step::Stop(38),
            Step::Moves(FOUR, Moved::Lost(0, 3)),
            Step::Crash(Image::Stable),
            Step::Lose(0b10),
            Step::Boots(End::NoQuorum(3, 4)),
            Step::Back(0b10),
            Step::Adopts(2, 0, 7),
            Step::Marks(2, 1),
            Step::Lose(0b01),
            Step::Adopts(3, 0, 7),
        ],
    ),
    (
        "a moment before no place has them: the old list alone counts",
        &[
            Step::Make(&[0], 3),
            Step::Stop(36),
            Step::Moves(FOUR, Moved::Lost(0, 3)),
            Step::Crash(Image::Stable),
            Step::Lose(0b10),
            Step::Adopts(2, 0, 3),
            Step::Marks(2, 0),
        ],
    ),
    (
        "the long places come alone, and go again",
        &[
            Step::Make(&[0], 3),
            Step::Moves(FOUR, DONE),
            Step::Moves(Asked::Drop(&[0]), DONE),
            Step::Commits(1, Committed::Done),
            Step::Lose(0b01),
            Step::Adopts(2, 1, 4),
            Step::Moves(Asked::First, DONE),
            Step::Commits(2, Committed::Done),
            Step::Adopts(3, 2, 1),
            Step::Ends(true),
            Step::Boots(End::Empty),
        ],
    ),
];

#[test]
fn long_places_come(rt: HostRuntime) -> Result<(), Fail> {
    let wrong = first_of(rt.alloc(), Layout::Three, LONG, LONG_CASES)?;
    assert!(rt; wrong.is_none(), "{wrong:?}");
    Ok(())
}
