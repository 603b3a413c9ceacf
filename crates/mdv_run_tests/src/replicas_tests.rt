// `metadb -d`, and `metadb -a` while a database is open or by an entry of `tab`: what they do, what they are refused for, and that an entry makes what its line would.
use crate::ground::PLACES;
use crate::story::{Act, Story, expect_act};
use mdv_base::{Block, DriveNo, ZERO_BLOCK};
use mdv_shelf::Shelf;
use std::process::Abort;
use std::test::Fail;

// Each refusal in its place: E2, E6, E12, E13 where no place lies on a slice, E3 where all go. A slice that is named
// twice counts once. Behind a database that was deleted another one is made.
const DROPS: &[Act] = &[
    Act(
        &[],
        "alpha",
        "metadb -d c0t0d0s7\nmetadb -d -f c0t3d0s7\nmetadb -a -f -l 16 c0t0d0s7 c0t1d0s7\n",
        "refused E2 NoDatabase\nrefused E2 NoDatabase\nok\n",
    ),
    Act(
        &[],
        "alpha",
        "metadb -d c0t0d0s0 c0t3d0s7\nmetadb -d c0t2d0s7 c0t0d0s0\nmetadb -d c0t0d0s7 c0t1d0s7 c0t2d0s7\n",
        "refused E6 NoSuchSlice\nrefused E12 WrongKind\nrefused E13 WrongState Absent\n",
    ),
    Act(
        &[],
        "alpha",
        "metadb -d c0t1d0s7 c0t0d0s7\nmetadb -d c0t0d0s7 c0t0d0s7\nmetadb -d -f c0t0d0s7 c0t1d0s7\nmetadb -d -f c0t1d0s7\nmetadb -d c0t1d0s7\n",
        "refused E3 NeedForce\nok\nrefused E13 WrongState Absent\nok\nrefused E2 NoDatabase\n",
    ),
    Act(
        &[],
        "alpha",
        "metastat -p\nmetadb -d\nmetadb -d mddb01\nmetadb -a -f -l 16 c0t2d0s7\nmetadb -d -f c0t2d0s7\nmetadb -a -f -l 16 c0t1d0s7\nmetadb -d c0t1d0s7\n",
        "refused E2 NoDatabase\nrefused E1 BadLine\nrefused E1 BadLine\nok\nok\nok\nrefused E3 NeedForce\n",
    ),
];

// A script's last line needs no newline. Behind a deletion the next boot finds no database, with several replicas on one slice too.
const LAST_LINES: &[Act] = &[
    Act(
        &[],
        "alpha",
        "metadb -a -f -c 3 -l 16 c0t0d0s7\nmetadb -d c0t0d0s7",
        "ok\nrefused E3 NeedForce\n",
    ),
    Act(&[], "alpha", "metadb -d -f c0t0d0s7", "ok\n"),
    Act(&[], "alpha", "", ""),
    Act(&[], "alpha", "metastat -p\n", "refused E2 NoDatabase\n"),
];

// Without a drive that has a place not all places go, and the places that stay have to be active, at least half of them.
// A replica on a drive that is away can be taken away, and made anew once the drive is back.
const DROPS_DOWN: &[Act] = &[
    Act(
        &[],
        "alpha",
        "metadb -a -f -l 16 c0t0d0s7 c0t1d0s7 c0t2d0s7\n",
        "ok\n",
    ),
    Act(
        &[2],
        "alpha",
        "metadb -d c0t0d0s7 c0t1d0s7 c0t2d0s7\nmetadb -d -f c0t2d0s7 c0t1d0s7 c0t0d0s7\n",
        "refused E13 WrongState Down\nrefused E13 WrongState Down\n",
    ),
    Act(
        &[2],
        "alpha",
        "metadb -d c0t0d0s7 c0t1d0s7\nmetadb -d c0t0d0s7\nmetadb -d c0t2d0s7\n",
        "refused E13 WrongState Inactive\nok\nok\n",
    ),
    Act(
        &[],
        "alpha",
        "metadb -d c0t0d0s7 c0t1d0s7\nmetadb -a -l 16 c0t2d0s7 c0t0d0s7\nmetadb -d c0t0d0s7 c0t1d0s7 c0t2d0s7\n",
        "refused E13 WrongState Absent\nok\nrefused E3 NeedForce\n",
    ),
];

// The first place fails in the change behind the creation: then not all go, for the first one would be the last. But it
// can be taken away itself, and then others.
const DROPS_FAILED: Act = Act(
    &[],
    "alpha",
    "metadb -a -f -l 16 c0t0d0s7 c0t1d0s7 c0t2d0s7
metainit d10 1 1 c0t1d0s0
metadb -d c0t0d0s7 c0t1d0s7 c0t2d0s7
metadb -d -f c0t0d0s7 c0t1d0s7 c0t2d0s7
metadb -d c0t1d0s7 c0t2d0s7
metadb -d c0t0d0s7
metadb -d c0t1d0s7
",
    "ok
ok
refused E13 WrongState Inactive
refused E13 WrongState Inactive
refused E13 WrongState Inactive
ok
ok
",
);

// Behind the creation's reply.
const BEHIND_THREE: u64 = 46;

fn begin<R: Abort + AllocGlobal>(rt: &R) -> Result<Story, Fail> {
    Ok(Story::new(rt.alloc(), PLACES.0, PLACES.1)?)
}

fn expect<R: Abort + AllocGlobal>(rt: &R, story: &mut Story, acts: &[Act]) -> Result<(), Fail> {
    for act in acts {
        expect_act(rt, story, act)?;
    }
    Ok(())
}

#[test]
fn refuses_to_drop_places(rt: HostRuntime) -> Result<(), Fail> {
    for acts in [DROPS, LAST_LINES, DROPS_DOWN] {
        expect(&rt, &mut begin(&rt)?, acts)?;
    }
    let mut story = begin(&rt)?;
    story.lose_at(0, BEHIND_THREE)?;
    expect_act(&rt, &mut story, &DROPS_FAILED)
}

// The first entry of a number counts, and each refusal is in its place: E1 without one, then those of its line.
const LISTED: &[Act] = &[
    Act(
        &[],
        "alpha",
        "metadb -a -f mddb01\n",
        "refused E1 BadLine\n",
    ),
    Act(
        &[],
        "alpha",
        "tab
mddb01 -c 2 -l 16 c0t2d0s7
mddb01 c0t9d0s7
mddb02 c0t3d0s7
mddb03 c0t0d0s0
mddb04 -l 16 c0t0d0s7 c0t0d0s7
mddb05 -l 49 c0t1d0s7
mddb06 -c 49 -l 16 c0t1d0s7
mddb07 -l 16 c0t1d0s7
end
metadb -a mddb02
metadb -a mddb03
metadb -a mddb01
metadb -a -f mddb04
metadb -a -f mddb05
metadb -a -f mddb08
metadb -a -f mddb01
metadb -a mddb01
metadb -a mddb02
metadb -a mddb06
metadb -a mddb07
metadb -a -f mddb09
metainit d10 1 1 c0t1d0s0
boot
metadb -a mddb07
metadb -a mddb01
metastat -p
metadb -d c0t2d0s7
metadb -d c0t0d0s7
",
        "entries 8
ok
refused E6 NoSuchSlice
refused E12 WrongKind
refused E3 NeedForce
refused E7 SliceInUse
refused E10 TooSmall
refused E1 BadLine
ok
refused E7 SliceInUse
refused E6 NoSuchSlice
refused E9 TooMany
ok
refused E1 BadLine
ok
ok
refused E1 BadLine
refused E1 BadLine
d10 1 1 c0t1d0s0
ok
ok
refused E13 WrongState Absent
",
    ),
];

#[test]
fn makes_a_database_by_an_entry(rt: HostRuntime) -> Result<(), Fail> {
    expect(&rt, &mut begin(&rt)?, LISTED)
}

const BY_ENTRY: Act = Act(
    &[],
    "alpha",
    "tab\nmddb07 -l 17 -c 2 c0t2d0s7 c0t0d0s7\nend\nmetadb -a -f mddb07\n",
    "entries 1\nok\nok\n",
);

const BY_LINE: Act = Act(
    &[],
    "alpha",
    "metadb -a -f -c 2 -l 17 c0t2d0s7 c0t0d0s7\n",
    "ok\n",
);

fn block_at(story: &mut Story, drive: u32, at: u64) -> Result<Block, Fail> {
    let mut out = [ZERO_BLOCK];
    if drive >= story.shelf.drives()
        || at >= story.shelf.blocks(DriveNo(drive))
        || story.shelf.read(DriveNo(drive), at, &mut out).is_err()
    {
        return Err(Fail::from("a failed read"));
    }
    Ok(out[0])
}

#[test]
fn an_entry_makes_what_its_line_makes(rt: HostRuntime) -> Result<(), Fail> {
    let mut by_entry = begin(&rt)?;
    let mut by_line = begin(&rt)?;
    expect_act(&rt, &mut by_entry, &BY_ENTRY)?;
    expect_act(&rt, &mut by_line, &BY_LINE)?;
    for drive in 0..3 {
        for at in 0..80 {
            let same = block_at(&mut by_entry, drive, at)? == block_at(&mut by_line, drive, at)?;
            assert!(rt; same, "{drive} {at}");
        }
    }
    Ok(())
}
