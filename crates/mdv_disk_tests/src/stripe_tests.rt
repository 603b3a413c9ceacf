ghost use Rattle.std.specs.Prelude.{◌≡◌, ◌+◌, ◌<◌, ◌^◌, [], ◌∷◌, IsTrue};
ghost use Rattle.mdv_shelf.specs.MemShelf.{shelf_sizes};
ghost use Rattle.std.specs.List.{All};

use mdv_base::{Block, DriveNo, DriveSet, ZERO_BLOCK};
use mdv_dev::{Chain, DriveRun, Piece, Placed, read_blocks, write_blocks};
use mdv_shelf::{MemShelf, Shelf};
use mdv_stripe::{Leg, NoStripe, Stripe};
use std::test::Fail;

// What is asked of a stripe, and the answer.
enum Line {
    Blocks(u64),
    /// The component of a block, and which block of it that is.
    Leg(u64, usize, u64),
    /// The drive, first block and length of the first piece of so many blocks from one on.
    Piece(u64, u64, u32, u64, u64),
}

// Whether no run ends behind the last block that a number tells.
fn are_well(runs: &[DriveRun]) -> bool
    ensures { IsTrue result → All (λ run. run.first + run.count < 2 ^ 64) runs.now }
{
    for run in runs {
        if run.first.checked_add(run.count).is_none() {
            return false;
        }
    }
    true
}

fn piece_of<D: Placed>(device: &D, at: u64, count: u64) -> Option<Piece>
    requires { D.IsWell device.now }
{
    if count == 0 || at > device.blocks() || count > device.blocks() - at {
        return None;
    }
    Some(device.piece(at, count))
}

pub(crate) fn is_piece<D: Placed>(
    device: &D,
    at: u64,
    count: u64,
    drive: u32,
    block: u64,
    long: u64,
) -> bool
    requires { D.IsWell device.now }
{
    match piece_of(device, at, count) {
        Some(piece) => piece.drive.0 == drive && piece.block == block && piece.count == long,
        None => false,
    }
}

fn is_so(stripe: &Stripe<'_, DriveRun>, line: &Line) -> bool
    requires { ⟦<Stripe<'static, DriveRun> as Placed>⟧.IsWell stripe.now }
{
    match *line {
        Line::Blocks(blocks) => stripe.blocks() == blocks,
        Line::Leg(at, component, block) => {
            at < stripe.blocks() && stripe.leg_of(at) == Leg { component, block }
        }
        Line::Piece(at, count, drive, block, long) => {
            is_piece(stripe, at, count, drive, block, long)
        }
    }
}

// The first line that isn't so, or why there is no stripe. Of runs that end too far back it is one behind the last line.
fn first_wrong(
    components: &[DriveRun],
    interlace: u64,
    lines: &[Line],
) -> Result<Option<usize>, NoStripe> {
    if !are_well(components) {
        return Ok(Some(lines.len()));
    }
    let stripe = Stripe::new(components, interlace)?;
    for (number, line) in lines.iter().enumerate() {
        if !is_so(&stripe, line) {
            return Ok(Some(number));
        }
    }
    Ok(None)
}

struct Case {
    components: &'static [DriveRun],
    interlace: u64,
    lines: &'static [Line],
}

// Three drives, of whose slices the shortest one has four units of 16 blocks.
pub(crate) const THREE: &[DriveRun] = &[
    DriveRun {
        drive: DriveNo(0),
        first: 100,
        count: 70,
    },
    DriveRun {
        drive: DriveNo(1),
        first: 0,
        count: 79,
    },
    DriveRun {
        drive: DriveNo(2),
        first: 16,
        count: 400,
    },
];

// Two slices of one unit each, one behind the other on a drive.
const NEIGHBOURS: &[DriveRun] = &[
    DriveRun {
        drive: DriveNo(0),
        first: 8,
        count: 16,
    },
    DriveRun {
        drive: DriveNo(0),
        first: 24,
        count: 16,
    },
];

const LONE: &[DriveRun] = &[DriveRun {
    drive: DriveNo(3),
    first: 7,
    count: 10,
}];

const CASES: &[Case] = &[
    Case {
        components: THREE,
        interlace: 16,
        lines: &[
            Line::Blocks(192),
            Line::Leg(0, 0, 0),
            Line::Leg(15, 0, 15),
            Line::Leg(16, 1, 0),
            Line::Leg(47, 2, 15),
            Line::Leg(48, 0, 16),
            Line::Leg(100, 0, 36),
            Line::Leg(191, 2, 63),
            Line::Piece(0, 192, 0, 100, 16),
            Line::Piece(5, 100, 0, 105, 11),
            Line::Piece(5, 10, 0, 105, 10),
            Line::Piece(47, 2, 2, 31, 1),
            Line::Piece(48, 144, 0, 116, 16),
            Line::Piece(191, 1, 2, 79, 1),
        ],
    },
    Case {
        components: THREE,
        interlace: 24,
        lines: &[
            Line::Blocks(144),
            Line::Leg(143, 2, 47),
            Line::Piece(72, 72, 0, 124, 24),
        ],
    },
    // Where the next unit lies right behind, the piece goes on.
    Case {
        components: NEIGHBOURS,
        interlace: 16,
        lines: &[
            Line::Blocks(32),
            Line::Leg(20, 1, 4),
            Line::Piece(3, 29, 0, 11, 29),
            Line::Piece(3, 20, 0, 11, 20),
        ],
    },
    // A lone component is all of the stripe, whatever the interlace.
    Case {
        components: LONE,
        interlace: 16,
        lines: &[
            Line::Blocks(10),
            Line::Leg(9, 0, 9),
            Line::Piece(3, 7, 3, 10, 7),
        ],
    },
];

#[test]
fn blocks_lie_in_their_units(rt: HostRuntime) -> Result<(), Fail> {
    for case in CASES {
        assert_eq!(rt;
            first_wrong(case.components, case.interlace, case.lines)?,
            None
        );
    }
    Ok(())
}

const SHORT: &[DriveRun] = &[
    DriveRun {
        drive: DriveNo(0),
        first: 0,
        count: 64,
    },
    DriveRun {
        drive: DriveNo(1),
        first: 0,
        count: 31,
    },
];

const NONE: &[DriveRun] = &[DriveRun {
    drive: DriveNo(1),
    first: 5,
    count: 0,
}];

const LONG: &[DriveRun] = &[
    DriveRun {
        drive: DriveNo(0),
        first: 0,
        count: 1 << 63,
    },
    DriveRun {
        drive: DriveNo(1),
        first: 0,
        count: 1 << 63,
    },
];

const MANY: &[DriveRun] = &[DriveRun {
    drive: DriveNo(0),
    first: 0,
    count: 16,
}; 101];

const REFUSED: &[(&[DriveRun], u64, NoStripe)] = &[
    (&[], 16, NoStripe::TooFew),
    (&[], 15, NoStripe::TooFew),
    (MANY, 1, NoStripe::TooMany),
    (THREE, 15, NoStripe::BadInterlace),
    (LONE, 204801, NoStripe::BadInterlace),
    (SHORT, 32, NoStripe::TooSmall),
    (NONE, 16, NoStripe::TooSmall),
    (LONG, 16, NoStripe::TooLong),
];

#[test]
fn stripes_are_refused(rt: HostRuntime) {
    for (components, interlace, why) in REFUSED {
        assert_eq!(rt; first_wrong(components, *interlace, &[]), Err(*why));
    }
}

// Four units of 16 blocks on each of two drives.
const PAIR: &[DriveRun] = &[
    DriveRun {
        drive: DriveNo(0),
        first: 100,
        count: 70,
    },
    DriveRun {
        drive: DriveNo(1),
        first: 0,
        count: 79,
    },
];

// Writes five blocks of a stripe, from its block 14 on, the first two of them in another unit than the others: whether that was answered, and the drives
// that failed.
fn put(shelf: &mut MemShelf, blocks: &mut [Block; 5]) -> Result<(bool, DriveSet), Fail>
    requires { shelf_sizes shelf.old ≡ 170 ∷ (79 ∷ []) }
    ensures { shelf_sizes shelf.new ≡ shelf_sizes shelf.old }
{
    let stripe = Stripe::new(PAIR, 16).map_err(|_| "a stripe")?;
    let mut failed = DriveSet::new();
    let answer = write_blocks(&stripe, shelf, 14, blocks, &mut failed);
    Ok((answer.is_ok(), failed))
}

// Whether these five blocks are read, from the stripe and from the drives.
fn are_there(shelf: &mut MemShelf, blocks: &[Block; 5]) -> Result<bool, Fail>
    requires { shelf_sizes shelf.old ≡ 170 ∷ (79 ∷ []) }
{
    let stripe = Stripe::new(PAIR, 16).map_err(|_| "a stripe")?;
    let mut out = [ZERO_BLOCK; 5];
    read_blocks(&stripe, shelf, 14, &mut out)?;
    let mut first = [ZERO_BLOCK; 3];
    shelf.read(DriveNo(0), 113, &mut first)?;
    let mut second = [ZERO_BLOCK; 4];
    shelf.read(DriveNo(1), 0, &mut second)?;
    Ok(
        out == *blocks
            && first == [ZERO_BLOCK, blocks[0], blocks[1]]
            && second == [blocks[2], blocks[3], blocks[4], ZERO_BLOCK],
    )
}

#[test]
fn what_was_written_is_read(rt: HostRuntime) -> Result<(), Fail> {
    let mut shelf = MemShelf::new(rt.alloc(), &[170, 79])?;
    let mut blocks = [[1; 512], [2; 512], [3; 512], [4; 512], [5; 512]];
    let (whole, _failed) = put(&mut shelf, &mut blocks)?;
    assert!(rt; whole);
    shelf.crash(&[]);
    assert!(rt; are_there(&mut shelf, &blocks)?);
    Ok(())
}

// Calls of a write, by their numbers, that fail, and whether the first drive is told then, and the second one.
struct Torn {
    calls: &'static [u64],
    first: bool,
    second: bool,
}

const TORN: &[Torn] = &[
    Torn {
        calls: &[],
        first: false,
        second: false,
    },
    Torn {
        calls: &[0],
        first: true,
        second: false,
    },
    Torn {
        calls: &[0, 1],
        first: true,
        second: true,
    },
    Torn {
        calls: &[1],
        first: false,
        second: true,
    },
    Torn {
        calls: &[1, 2],
        first: true,
        second: true,
    },
    Torn {
        calls: &[2],
        first: true,
        second: false,
    },
    Torn {
        calls: &[3],
        first: false,
        second: true,
    },
    Torn {
        calls: &[2, 3],
        first: true,
        second: true,
    },
];

// Lets the calls of these numbers fail.
fn fail_calls(shelf: &mut MemShelf, calls: &[u64]) -> Result<(), Fail>
    ensures { shelf_sizes shelf.new ≡ shelf_sizes shelf.old }
{
    for call in calls {
        shelf.fail_call(*call)?;
    }
    Ok(())
}

#[test]
fn a_torn_write_tells_its_drives(rt: HostRuntime) -> Result<(), Fail> {
    for torn in TORN {
        let mut shelf = MemShelf::new(rt.alloc(), &[170, 79])?;
        fail_calls(&mut shelf, torn.calls)?;
        let (whole, failed) = put(&mut shelf, &mut [[1; 512]; 5])?;
        assert_eq!(rt; whole, torn.calls.is_empty());
        assert_eq!(rt; failed.contains(DriveNo(0)), torn.first);
        assert_eq!(rt; failed.contains(DriveNo(1)), torn.second);
    }
    Ok(())
}

// What a crash leaves of the first drive's first block of the write, and of the second drive's.
fn left(shelf: &mut MemShelf) -> Result<[Block; 2], Fail>
    requires { shelf_sizes shelf.old ≡ 170 ∷ (79 ∷ []) }
{
    shelf.crash(&[]);
    let mut first = [ZERO_BLOCK; 1];
    shelf.read(DriveNo(0), 114, &mut first)?;
    let mut second = [ZERO_BLOCK; 1];
    shelf.read(DriveNo(1), 0, &mut second)?;
    Ok([first[0], second[0]])
}

#[test]
fn a_torn_write_syncs_the_other_drive(rt: HostRuntime) -> Result<(), Fail> {
    let mut shelf = MemShelf::new(rt.alloc(), &[170, 79])?;
    shelf.fail_call(1)?;
    put(&mut shelf, &mut [[1; 512]; 5])?;
    assert_eq!(rt; left(&mut shelf)?, [[1; 512], ZERO_BLOCK]);
    let mut shelf = MemShelf::new(rt.alloc(), &[170, 79])?;
    shelf.fail_call(2)?;
    put(&mut shelf, &mut [[1; 512]; 5])?;
    assert_eq!(rt; left(&mut shelf)?, [ZERO_BLOCK, [1; 512]]);
    Ok(())
}

#[test]
fn stripes_follow_one_another(rt: HostRuntime) -> Result<(), Fail> {
    let volume = Chain {
        front: Stripe::new(PAIR, 16).map_err(|_| "a stripe")?,
        back: Stripe::new(LONE, 16).map_err(|_| "a stripe")?,
    };
    assert_eq!(rt; volume.blocks(), 138);
    assert!(rt; is_piece(&volume, 120, 18, 1, 56, 8));
    assert!(rt; is_piece(&volume, 128, 10, 3, 7, 10));
    Ok(())
}
