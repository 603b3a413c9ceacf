ghost use Rattle.std.specs.Prelude.{◌≡◌, [], ◌∷◌};
ghost use Rattle.mdv_shelf.specs.MemShelf.{shelf_sizes};

use crate::stripe_tests::{THREE, is_piece};
use mdv_base::{DriveNo, DriveSet, ZERO_BLOCK};
use mdv_dev::{DriveRun, Placed, read_blocks, write_blocks};
use mdv_extent::Run;
use mdv_shelf::{MemShelf, Shelf};
use mdv_soft::{NoSoft, Soft};
use mdv_stripe::Stripe;
use std::test::Fail;

// What is asked of a soft partition, and the answer.
enum Line {
    Blocks(u64),
    /// Which block of the base a block is.
    At(u64, u64),
    /// The drive, first block and length of the first piece of so many blocks from one on.
    Piece(u64, u64, u32, u64, u64),
}

fn is_so<'a, D: Placed>(soft: &Soft<'a, D>, line: &Line) -> bool
    requires { ⟦<Soft<'a, D> as Placed>⟧.IsWell soft.now }
{
    match *line {
        Line::Blocks(blocks) => soft.blocks() == blocks,
        Line::At(at, block) => at < soft.blocks() && soft.at_of(at) == block,
        Line::Piece(at, count, drive, block, long) => {
            is_piece(soft, at, count, drive, block, long)
        }
    }
}

// The first line that isn't so, or why there is no soft partition.
fn first_wrong<D: Placed>(
    base: &D,
    extents: &[Run],
    lines: &[Line],
) -> Result<Option<usize>, NoSoft>
    requires { D.IsWell base.now }
{
    let soft = Soft::new(base, extents)?;
    for (number, line) in lines.iter().enumerate() {
        if !is_so(&soft, line) {
            return Ok(Some(number));
        }
    }
    Ok(None)
}

struct Case {
    extents: &'static [Run],
    lines: &'static [Line],
}

// On a stripe of three, in units of 16 blocks.
const ON_A_STRIPE: &[Case] = &[
    // The first extent lies behind the second one.
    Case {
        extents: &[Run { at: 40, blocks: 20 }, Run { at: 3, blocks: 30 }],
        lines: &[
            Line::Blocks(50),
            Line::At(0, 40),
            Line::At(19, 59),
            Line::At(20, 3),
            Line::At(49, 32),
            Line::Piece(0, 50, 2, 24, 8),
            Line::Piece(8, 42, 0, 116, 12),
            Line::Piece(10, 3, 0, 118, 3),
            Line::Piece(20, 30, 0, 103, 13),
            Line::Piece(33, 17, 1, 0, 16),
            Line::Piece(49, 1, 2, 16, 1),
        ],
    },
    // The second extent lies right behind the first one on the drive, and its header on another: the piece goes on.
    Case {
        extents: &[Run { at: 10, blocks: 6 }, Run { at: 48, blocks: 10 }],
        lines: &[
            Line::Blocks(16),
            Line::At(6, 48),
            Line::Piece(0, 16, 0, 110, 16),
            Line::Piece(2, 10, 0, 112, 10),
        ],
    },
];

// A slice of 100 blocks.
const SLICE: DriveRun = DriveRun {
    drive: DriveNo(3),
    first: 7,
    count: 100,
};

const ON_A_SLICE: &[Case] = &[
    // With one block between them for the header, and no block left.
    Case {
        extents: &[Run { at: 1, blocks: 10 }, Run { at: 12, blocks: 88 }],
        lines: &[
            Line::Blocks(98),
            Line::At(9, 10),
            Line::At(10, 12),
            Line::At(97, 99),
            Line::Piece(0, 98, 3, 8, 10),
            Line::Piece(4, 6, 3, 12, 6),
            Line::Piece(10, 88, 3, 19, 88),
        ],
    },
    Case {
        extents: &[Run { at: 1, blocks: 99 }],
        lines: &[Line::Blocks(99), Line::Piece(0, 99, 3, 8, 99)],
    },
];

#[test]
fn blocks_lie_in_their_extents(rt: HostRuntime) -> Result<(), Fail> {
    let stripe = Stripe::new(THREE, 16).map_err(|_| "a stripe")?;
    for case in ON_A_STRIPE {
        assert_eq!(rt; first_wrong(&stripe, case.extents, case.lines)?, None);
    }
    for case in ON_A_SLICE {
        assert_eq!(rt; first_wrong(&SLICE, case.extents, case.lines)?, None);
    }
    Ok(())
}

const MANY: &[Run] = &[Run { at: 0, blocks: 0 }; 17];

const REFUSED: &[(&[Run], NoSoft)] = &[
    (&[], NoSoft::TooFew),
    (MANY, NoSoft::TooMany),
    (
        &[Run { at: 5, blocks: 1 }, Run { at: 0, blocks: 0 }],
        NoSoft::EmptyExtent,
    ),
    (
        &[Run { at: 5, blocks: 1 }, Run { at: 0, blocks: 101 }],
        NoSoft::NoHeader,
    ),
    (&[Run { at: 1, blocks: 100 }], NoSoft::PastTheEnd),
    (
        &[
            Run {
                at: 1,
                blocks: u64::MAX,
            },
            Run { at: 1, blocks: 1 },
        ],
        NoSoft::PastTheEnd,
    ),
    (&[Run { at: 101, blocks: 1 }], NoSoft::PastTheEnd),
    // The header of one is the last block of the other.
    (
        &[Run { at: 1, blocks: 10 }, Run { at: 11, blocks: 5 }],
        NoSoft::SharedBlock,
    ),
    (
        &[Run { at: 20, blocks: 5 }, Run { at: 1, blocks: 19 }],
        NoSoft::SharedBlock,
    ),
    (
        &[
            Run { at: 9, blocks: 1 },
            Run { at: 50, blocks: 3 },
            Run { at: 50, blocks: 1 },
        ],
        NoSoft::SharedBlock,
    ),
];

#[test]
fn soft_partitions_are_refused(rt: HostRuntime) {
    for (extents, why) in REFUSED {
        assert_eq!(rt; first_wrong(&SLICE, extents, &[]), Err(*why));
    }
}

// Four blocks in the second unit of the first drive, and ten in the first one of the second.
const PARTS: &[Run] = &[Run { at: 56, blocks: 4 }, Run { at: 20, blocks: 10 }];

// Writes five blocks of a soft partition, the first two of them in another extent than the others, and reads them again, from it and from the drives.
fn round(shelf: &mut MemShelf) -> Result<bool, Fail>
    requires { shelf_sizes shelf.old ≡ 170 ∷ (79 ∷ (416 ∷ [])) }
{
    let stripe = Stripe::new(THREE, 16).map_err(|_| "a stripe")?;
    let soft = Soft::new(&stripe, PARTS).map_err(|_| "a soft partition")?;
    let mut blocks = [[1; 512], [2; 512], [3; 512], [4; 512], [5; 512]];
    write_blocks(&soft, shelf, 2, &mut blocks, &mut DriveSet::new())?;
    shelf.crash(&[]);
    let mut out = [ZERO_BLOCK; 5];
    read_blocks(&soft, shelf, 2, &mut out)?;
    let mut first = [ZERO_BLOCK; 4];
    shelf.read(DriveNo(0), 125, &mut first)?;
    let mut second = [ZERO_BLOCK; 5];
    shelf.read(DriveNo(1), 3, &mut second)?;
    Ok(
        out == blocks
            && first == [ZERO_BLOCK, blocks[0], blocks[1], ZERO_BLOCK]
            && second == [ZERO_BLOCK, blocks[2], blocks[3], blocks[4], ZERO_BLOCK],
    )
}

#[test]
fn what_was_written_is_read(rt: HostRuntime) -> Result<(), Fail> {
    let mut shelf = MemShelf::new(rt.alloc(), &[170, 79, 416])?;
    assert!(rt; round(&mut shelf)?);
    Ok(())
}
