// What lines by which volumes are cleared are answered, and the lines behind them.

use crate::lines::{Lines, Row, WIDE, WIDE_BLOCKS, first_wrong};
use std::test::Fail;

// Each refusal of a clearing in its place: E1, E2, E4, E26. All that the line names goes, or none, and behind a boot it's gone too.
const CLEARINGS: &[Row] = &[
    ("metaclear d0 -f", "refused E1 BadLine"),
    ("metaclear d0 hsp001", "refused E2 NoDatabase"),
    ("metaclear -a", "refused E2 NoDatabase"),
    ("metadb -a -f c0t0d0s7", "ok"),
    ("metaclear -a", "ok"),
    ("metaclear hsp001 d0", "refused E4 NoSuchVolume"),
    ("metaclear -r hsp001", "refused E26 NoSuchPool"),
    ("metainit d0 1 1 c0t0d0s0", "ok"),
    ("metainit d1 1 1 c0t0d0s1", "ok"),
    ("metainit d2 1 1 c0t0d0s3", "ok"),
    ("metaclear d0 d3", "refused E4 NoSuchVolume"),
    ("metaclear -r d1 hsp001", "refused E26 NoSuchPool"),
    (
        "metastat -p",
        "d0 1 1 c0t0d0s0\nd1 1 1 c0t0d0s1\nd2 1 1 c0t0d0s3\nok",
    ),
    ("metaclear d1 d0 d1", "ok"),
    ("metastat -p", "d2 1 1 c0t0d0s3\nok"),
    ("metastat -p d1", "refused E4 NoSuchVolume"),
    ("metaclear d1", "refused E4 NoSuchVolume"),
    ("boot", "ok"),
    ("metaclear d1", "refused E4 NoSuchVolume"),
    ("metainit d1 1 1 c0t0d0s0", "ok"),
    ("metaclear -rf d2", "ok"),
    ("metastat -p", "d1 1 1 c0t0d0s0\nok"),
    ("metaclear -af", "ok"),
    ("metastat -p", "ok"),
    ("boot", "ok"),
    ("metastat -p", "ok"),
];

// What the blocks of a volume that is cleared held they hold still: of the same one, made again and shorter, and of another one on the slice.
const CLEARED_BLOCKS: &[Row] = &[
    ("metadb -a -f c0t0d0s7", "ok"),
    ("metainit d0 2 1 c0t0d0s0 1 c0t0d0s1", "ok"),
    ("write d0 999 ab", "ok"),
    ("write d0 1000 cd", "ok"),
    ("metaclear d0", "ok"),
    ("read d0 999 1", "refused E4 NoSuchVolume"),
    ("write d0 999 ef", "refused E4 NoSuchVolume"),
    ("fill d0 999 1 ef", "refused E4 NoSuchVolume"),
    ("metattach d0 c0t0d0s3", "refused E4 NoSuchVolume"),
    ("metainit d0 1 1 c0t0d0s1", "ok"),
    ("read d0 0 2", "0 cd\n1 -\nok"),
    ("read d0 990 1", "refused E22 OutOfRange"),
    ("metainit d1 1 1 c0t0d0s4", "ok"),
    ("read d1 0 1", "0 ab\nok"),
    ("metainit d2 1 1 c0t0d0s0", "refused E7 SliceInUse"),
    ("write d1 0 12", "ok"),
    ("metaclear -r d1", "ok"),
    ("metattach d0 c0t0d0s0", "ok"),
    ("read d0 1989 1", "1989 12\nok"),
    ("boot", "ok"),
    ("read d0 0 1", "0 cd\nok"),
    ("read d0 1989 1", "1989 12\nok"),
];

// A volume is made and cleared in turn, by fifteen lines.
const IN_TURN: &[Row] = &[
    ("metadb -a -f -l 64 c0t0d0s7", "ok"),
    ("metainit d1 1 1 c0t0d0s0", "ok"),
    ("metaclear d1", "ok"),
    ("metainit d1 1 1 c0t0d0s0", "ok"),
    ("metaclear d1", "ok"),
    ("metainit d1 1 1 c0t0d0s0", "ok"),
    ("metaclear d1", "ok"),
    ("metainit d1 1 1 c0t0d0s0", "ok"),
    ("metaclear d1", "ok"),
    ("metainit d1 1 1 c0t0d0s0", "ok"),
    ("metaclear d1", "ok"),
    ("metainit d1 1 1 c0t0d0s0", "ok"),
    ("metaclear d1", "ok"),
    ("metainit d1 1 1 c0t0d0s0", "ok"),
    ("metaclear d1", "ok"),
    ("metainit d1 1 1 c0t0d0s0", "ok"),
    ("metastat -p", "d1 1 1 c0t0d0s0\nok"),
    ("boot", "ok"),
    ("metastat -p", "d1 1 1 c0t0d0s0\nok"),
];

// The volume goes on whose drive a write failed, and another one has its slice at once.
const FAILED_AND_CLEARED: &[Row] = &[
    ("metadb -a -f -l 16 c0t0d0s7", "ok"),
    ("metainit d0 1 1 c0t0d0s0", "ok"),
    ("write d0 5 ab", "refused E23 IoFault"),
    ("metaclear d0", "ok"),
    ("metainit d1 1 1 c0t0d0s0", "ok"),
    ("read d1 5 1", "5 ab\nok"),
    ("write d1 5 cd", "ok"),
    ("boot", "ok"),
    ("read d1 5 1", "5 cd\nok"),
    ("metastat -p", "d1 1 1 c0t0d0s0\nok"),
];

const EACH: &[Lines] = &[
    Lines {
        table: WIDE,
        blocks: WIDE_BLOCKS,
        failing: &[],
        rows: CLEARINGS,
    },
    Lines {
        table: WIDE,
        blocks: WIDE_BLOCKS,
        failing: &[],
        rows: CLEARED_BLOCKS,
    },
    Lines {
        table: WIDE,
        blocks: WIDE_BLOCKS,
        failing: &[],
        rows: IN_TURN,
    },
    // The boot makes 3 calls, the creation 12, the volume 6, the replies before the write two, and the write one.
    Lines {
        table: WIDE,
        blocks: WIDE_BLOCKS,
        failing: &[24],
        rows: FAILED_AND_CLEARED,
    },
];

#[test]
fn answers_lines_that_clear_volumes(rt: HostRuntime) -> Result<(), Fail> {
    assert_eq!(rt; first_wrong(rt.alloc(), EACH)?, None);
    Ok(())
}
