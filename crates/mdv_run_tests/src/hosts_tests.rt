// Two hosts of one table, whose runs take turns.
use crate::ground::NARROW;
use crate::story::{Act, Story, expect_act, expect_acts};
use std::test::Fail;

// Both hosts have a place and a volume in the same blocks of drives of their own, and a shared drive lies between.
const TABLE: &str = "host alpha
host beta
drive c0t0d0 8240 alpha a0.img
drive c0t1d0 8240 beta b0.img
drive c0t2d0 32 shared s.img
drive c0t3d0 32 beta b1.img
drive c0t4d0 32 alpha a1.img
mediator alpha 32 ma.img
slice c0t0d0s7 16 8208 db
slice c0t1d0s7 16 8208 db
slice c0t2d0s7 0 16 db
slice c0t2d0s0 16 16
slice c0t0d0s0 0 16
slice c0t1d0s0 0 16
slice c0t3d0s0 0 32
slice c0t4d0s0 0 32
";

const SIZES: &[u64] = &[8240, 8240, 32, 32, 32, 32];

// The drives that aren't the host's own are away, so that a call on one would fail.
const OF_ALPHA: &[u32] = &[1, 2, 3, 5];

const OF_BETA: &[u32] = &[0, 2, 4, 5];

const FIRST: Act = Act(
    OF_ALPHA,
    "alpha",
    "metadb -a -f c0t1d0s7
metadb -a -f c0t2d0s7
metadb -a -f c0t0d0s7
metainit d0 1 1 c0t1d0s0
metainit d0 1 1 c0t0d0s0
metainit d1 1 1 c0t4d0s0
write d0 3 aa
write d1 31 a1
",
    "refused E6 NoSuchSlice
refused E6 NoSuchSlice
ok
refused E6 NoSuchSlice
ok
ok
ok
ok
",
);

const TURNS: &[Act] = &[
    FIRST,
    Act(
        OF_BETA,
        "beta",
        "read d0 3 1
metadb -a -f c0t0d0s7
metadb -a c0t1d0s7
metadb -a -f c0t1d0s7
metainit d0 1 1 c0t1d0s0
metainit d2 1 1 c0t3d0s0
read d0 3 1
read d1 31 1
write d0 3 bb
write d2 31 b2
",
        "refused E2 NoDatabase
refused E6 NoSuchSlice
refused E3 NeedForce
ok
ok
ok
3 -
ok
refused E4 NoSuchVolume
ok
ok
",
    ),
    Act(
        OF_ALPHA,
        "alpha",
        "read d0 3 1
read d1 31 1
read d2 31 1
metadb -a -f c0t0d0s7
write d0 3 cc
",
        "3 aa
ok
31 a1
ok
refused E4 NoSuchVolume
refused E7 SliceInUse
ok
",
    ),
    Act(
        OF_BETA,
        "beta",
        "boot
read d0 3 1
read d2 31 1
metadb -a -f c0t1d0s7
",
        "ok
3 bb
ok
31 b2
ok
refused E7 SliceInUse
",
    ),
    Act(OF_ALPHA, "alpha", "boot\nread d0 3 1\n", "ok\n3 cc\nok\n"),
];

#[test]
fn hosts_take_turns(rt: HostRuntime) -> Result<(), Fail> {
    let mut story = Story::new(rt.alloc(), TABLE, SIZES)?;
    for act in TURNS {
        expect_act(&rt, &mut story, act)?;
    }
    let newest = vec![in rt.alloc(); 27719; 16480]?;
    let shows = story.has_block(0, 3, b"\xcc")? && story.has_block(1, 3, b"\xbb")?;
    assert!(rt; shows);
    for choice in [&[], newest.as_slice()] {
        let mut story = Story::new(rt.alloc(), TABLE, SIZES)?;
        expect_acts(&rt, &mut story, TURNS, choice)?;
    }
    Ok(())
}

// Runs over a replica of 16 blocks in a place of 24, by the host that is alone there.
const SHORT: &[Act] = &[
    Act(
        &[],
        "alpha",
        "metadb -a -f c0t0d0s7
metadb -a -f -l 25 c0t0d0s7
metadb -a -f -l 16 c0t0d0s7
metainit d0 1 1 c0t0d0s0
metainit d1 1 1 c0t0d0s1
boot
metainit d2 1 1 c0t0d0s2
write d2 0 aa
",
        "refused E10 TooSmall
refused E10 TooSmall
ok
ok
ok
ok
ok
ok
",
    ),
    Act(
        &[],
        "alpha",
        "boot
read d2 0 1
metastat -p
metadb -a -f -l 24 c0t0d0s7
",
        "ok
0 aa
ok
d0 1 1 c0t0d0s0
d1 1 1 c0t0d0s1
d2 1 1 c0t0d0s2
ok
refused E7 SliceInUse
",
    ),
];

// No block of the place behind a short replica is written, and none of the slice in front of it.
#[test]
fn a_short_replica_leaves_the_rest_of_its_slice(rt: HostRuntime) -> Result<(), Fail> {
    let mut story = Story::new(rt.alloc(), NARROW.table, NARROW.sizes)?;
    for at in 16..56 {
        story.put(0, at, b"of before")?;
    }
    for act in SHORT {
        expect_act(&rt, &mut story, act)?;
    }
    for at in 16..56 {
        let is_kept = (32..48).contains(&at) || story.has_block(0, at, b"of before")?;
        assert!(rt; is_kept, "{at}");
    }
    Ok(())
}

// A host's first run leaves each block of the drives that aren't its own as it was.
#[test]
fn a_host_leaves_the_drives_of_others(rt: HostRuntime) -> Result<(), Fail> {
    let mut story = Story::new(rt.alloc(), TABLE, SIZES)?;
    for (drive, blocks) in [(1, 8240), (2, 32), (3, 32), (5, 32)] {
        for at in 0..blocks {
            story.put(drive, at, b"not alpha's")?;
        }
    }
    let Act(_, host, script, told) = FIRST;
    expect_act(&rt, &mut story, &Act(&[], host, script, told))?;
    for (drive, blocks) in [(1, 8240), (2, 32), (3, 32), (5, 32)] {
        for at in 0..blocks {
            assert!(rt; story.has_block(drive, at, b"not alpha's")?, "{drive} {at}");
        }
    }
    Ok(())
}
