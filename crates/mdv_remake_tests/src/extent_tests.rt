//! The blocks of soft partitions, and their headers.

use mdv_base::{Identity, VolId, ZERO_BLOCK};
use mdv_extent::*;
use std::test::Fail;

const LOW_EXTENT: Run = Run { at: 1, blocks: 400 };

const HIGH_EXTENT: Run = Run {
    at: 402,
    blocks: 300,
};

#[test]
fn soft_partitions_stand_one_behind_another(rt: HostRuntime) -> Result<(), Fail> {
    let free = free_runs(rt.alloc(), 1000, &[])?;
    let first = allocate(rt.alloc(), free.as_slice(), 400).ok().ok_or("d1")?;
    assert!(rt; first.as_slice() == [LOW_EXTENT].as_slice());

    let free = free_runs(rt.alloc(), 1000, &[LOW_EXTENT])?;
    let second = allocate(rt.alloc(), free.as_slice(), 300).ok().ok_or("d2")?;
    assert!(rt; second.as_slice() == [HIGH_EXTENT].as_slice());
    Ok(())
}

#[test]
fn a_block_is_left_for_each_header(rt: HostRuntime) -> Result<(), Fail> {
    let tight = Run {
        at: 401,
        blocks: 300,
    };
    assert!(rt; lie_apart(rt.alloc(), 702, &[HIGH_EXTENT, LOW_EXTENT])?);
    assert!(rt; !lie_apart(rt.alloc(), 701, &[HIGH_EXTENT, LOW_EXTENT])?);
    assert!(rt; !lie_apart(rt.alloc(), 1000, &[LOW_EXTENT, tight])?);
    assert!(rt; !lie_apart(rt.alloc(), 1000, &[Run { at: 0, blocks: 1 }])?);
    Ok(())
}

#[test]
fn the_blocks_of_a_cleared_one_are_taken_again(rt: HostRuntime) -> Result<(), Fail> {
    let used = release(rt.alloc(), &[HIGH_EXTENT, LOW_EXTENT], &[LOW_EXTENT])?;
    assert!(rt; used.as_slice() == [HIGH_EXTENT].as_slice());

    let free = free_runs(rt.alloc(), 1000, &[HIGH_EXTENT])?;
    let refused = allocate(rt.alloc(), free.as_slice(), 698);
    assert!(rt; refused.err() == Some(SpaceFault::NoSpace(697)));
    let third = allocate(rt.alloc(), free.as_slice(), 400).ok().ok_or("d3")?;
    assert!(rt; third.as_slice() == [LOW_EXTENT].as_slice());
    Ok(())
}

#[test]
fn a_header_is_spelled_byte_by_byte(rt: HostRuntime) -> Result<(), Fail> {
    let header = Header {
        identity: Identity {
            fresh: 0x0102030405060708,
            number: 9,
        },
        volume: VolId(0x1fff),
        index: 2,
        extents: 16,
        run: Run {
            at: 402,
            blocks: 300,
        },
    };
    let mut block = ZERO_BLOCK;
    block[..8].copy_from_slice(&[0x4d, 0x44, 0x56, 0x53, 0x4f, 0x46, 0x54, 0x31]);
    block[8..20].copy_from_slice(&[1, 2, 3, 4, 5, 6, 7, 8, 0, 0, 0, 9]);
    block[20..24].copy_from_slice(&[0x1f, 0xff, 2, 16]);
    block[24..40].copy_from_slice(&[0, 0, 0, 0, 0, 0, 1, 0x92, 0, 0, 0, 0, 0, 0, 1, 0x2c]);
    assert!(rt; header_block(&header) == block);
    assert!(rt; read_header(&block) == Some(header));

    block[511] = 1;
    assert!(rt; read_header(&block).is_none());
    Ok(())
}
