// Runs of a host with three drives, each of which is away for a run, fails one call or is lost at one.
use crate::ground::THREE;
use crate::story::{Act, Story, expect_act, expect_acts};
use mdv_run_law::RunStatus;
use std::process::Abort;
use std::test::Fail;

// A database on the second own drive, a volume on each, and a block of each.
const SPREAD: Act = Act(
    &[],
    "alpha",
    "metadb -a -f c0t1d0s7
metainit d0 1 1 c0t0d0s0
metainit d1 1 1 c0t1d0s1
metainit d2 1 1 c0t2d0s2
write d0 1 a0
write d1 1 a1
write d2 7 a2
",
    "ok\nok\nok\nok\nok\nok\nok\n",
);

// The slices of another host's drive and of a shared one are none of alpha's, and no block of theirs is written.
#[test]
fn volumes_lie_on_each_drive(rt: HostRuntime) -> Result<(), Fail> {
    let mut story = Story::new(rt.alloc(), THREE.table, THREE.sizes)?;
    for drive in [0, 3, 5] {
        for at in 0..24 {
            story.put(drive, at, b"others")?;
        }
    }
    let strange = Act(
        &[],
        "alpha",
        "metadb -a -f c1t0d0s7
metadb -a -f c2t0d0s7
metadb -a -f c0t0d0s0
metadb -a -f c0t2d0s7
metainit d0 1 1 c1t0d0s0
",
        "refused E6 NoSuchSlice
refused E6 NoSuchSlice
refused E12 WrongKind
refused E6 NoSuchSlice
refused E2 NoDatabase
",
    );
    expect_act(&rt, &mut story, &strange)?;
    expect_act(&rt, &mut story, &SPREAD)?;
    let again = Act(
        &[],
        "alpha",
        "metainit d3 1 1 c1t0d0s0
metainit d3 1 1 c2t0d0s0
metainit d3 1 1 c2t0d0s7
metainit d3 1 1 c0t1d0s7
metainit d3 1 1 c0t2d0s2
read d0 0 2
read d1 1 1
read d2 6 2
read d2 8 1
",
        "refused E6 NoSuchSlice
refused E6 NoSuchSlice
refused E6 NoSuchSlice
refused E12 WrongKind
refused E7 SliceInUse
0 -
1 a0
ok
1 a1
ok
6 -
7 a2
ok
refused E22 OutOfRange
",
    );
    expect_act(&rt, &mut story, &again)?;
    let lie = story.has_block(1, 9, b"\xa0")?
        && story.has_block(2, 1, b"\xa1")?
        && story.has_block(4, 23, b"\xa2")?;
    assert!(rt; lie);
    for drive in [0, 3, 5] {
        for at in 0..24 {
            assert!(rt; story.has_block(drive, at, b"others")?, "{drive} {at}");
        }
    }
    Ok(())
}

// Each drive is away for runs, and comes back. A volume is made on a drive that is away, since its table alone is written. A
// volume whose drive is away is refused by its own calls alone, and the creation of a first database by any drive.
const COMES_AND_GOES: &[Act] = &[
    SPREAD,
    Act(
        &[1],
        "alpha",
        "metadb -a -f c0t1d0s7
read d0 1 1
read d1 1 1
write d0 1 b0
write d2 7 b2
read d2 7 1
boot
metadb -a c0t1d0s7
read d0 1 1
",
        "refused E7 SliceInUse
refused E23 IoFault
1 a1
ok
refused E23 IoFault
ok
7 b2
ok
ok
refused E7 SliceInUse
refused E23 IoFault
",
    ),
    Act(
        &[],
        "alpha",
        "read d0 1 1
read d2 7 1
write d0 1 c0
metadb -a -f c0t1d0s7
",
        "1 a0
ok
7 b2
ok
ok
refused E7 SliceInUse
",
    ),
    Act(
        &[2],
        "alpha",
        "read d0 1 1
write d2 7 c2
metainit d3 1 1 c0t0d0s0
metadb -a -f c0t1d0s7
boot
read d1 1 1
tab
hsp001
end
",
        "refused E2 NoDatabase
refused E2 NoDatabase
refused E2 NoDatabase
refused E13 WrongState Down
ok
refused E2 NoDatabase
entries 1
ok
",
    ),
    Act(
        &[1, 4],
        "alpha",
        "read d0 1 1
read d2 7 1
read d1 1 1
write d1 1 c1
metainit d0 1 1 c0t0d0s0
metainit d3 1 1 c0t2d0s2
",
        "refused E23 IoFault
refused E23 IoFault
1 a1
ok
ok
refused E5 NameTaken
refused E7 SliceInUse
",
    ),
    Act(
        &[1, 2, 4],
        "alpha",
        "read d0 1 1
metadb -a -f c0t1d0s7
boot
",
        "refused E2 NoDatabase
refused E13 WrongState Down
ok
",
    ),
    Act(
        &[],
        "alpha",
        "read d0 1 1
read d1 1 1
read d2 7 1
",
        "1 c0
ok
1 c1
ok
7 b2
ok
",
    ),
];

// Without a crash, and with ones that leave of each block what is on the disk, or the newest value.
#[test]
fn a_drive_goes_and_comes_back(rt: HostRuntime) -> Result<(), Fail> {
    let mut story = Story::new(rt.alloc(), THREE.table, THREE.sizes)?;
    for act in COMES_AND_GOES {
        expect_act(&rt, &mut story, act)?;
    }
    let newest = vec![in rt.alloc(); 27719; THREE.written as usize]?;
    for choice in [&[], newest.as_slice()] {
        let mut story = Story::new(rt.alloc(), THREE.table, THREE.sizes)?;
        expect_acts(&rt, &mut story, COMES_AND_GOES, choice)?;
    }
    Ok(())
}

// The drive of d2 is away as it is made.
#[test]
fn a_volume_is_made_on_a_drive_that_is_away(rt: HostRuntime) -> Result<(), Fail> {
    let acts = [
        Act(&[], "alpha", "metadb -a -f c0t1d0s7\n", "ok\n"),
        Act(
            &[4],
            "alpha",
            "metainit d2 1 1 c0t2d0s2
write d2 0 ab
boot
read d2 0 1
",
            "ok
refused E23 IoFault
ok
refused E23 IoFault
",
        ),
        Act(
            &[],
            "alpha",
            "read d2 0 1
write d2 0 cd
read d2 0 1
",
            "0 -
ok
ok
0 cd
ok
",
        ),
    ];
    let mut story = Story::new(rt.alloc(), THREE.table, THREE.sizes)?;
    expect_acts(&rt, &mut story, &acts, &[])
}

const CREATION: &str = "metadb -a -f c0t1d0s7\nboot\nmetadb -a -f c0t1d0s7\n";

// A boot of blank drives makes seven calls: two for each own drive, and one where the place is. Where one of them fails no
// database is made until a boot has seen each drive.
#[test]
fn no_creation_behind_a_boot_that_missed_a_drive(rt: HostRuntime) -> Result<(), Fail> {
    for call in 0..7 {
        let mut story = Story::new(rt.alloc(), THREE.table, THREE.sizes)?;
        story.shelf.fail_call(call)?;
        let told = "refused E13 WrongState Down\nok\nok\n";
        expect_act(&rt, &mut story, &Act(&[], "alpha", CREATION, told))?;
    }
    let mut story = Story::new(rt.alloc(), THREE.table, THREE.sizes)?;
    story.shelf.fail_call(7)?;
    let told = "refused E23 IoFault\nok\nok\n";
    expect_act(&rt, &mut story, &Act(&[], "alpha", CREATION, told))
}

const LOOKS: &str = "read d0 1 1\nread d1 1 1\nread d2 7 1\nmetadb -a -f c0t1d0s7\n";

const ALL: &str = "1 a0\nok\n1 a1\nok\n7 a2\nok\nrefused E7 SliceInUse\n";

const NONE: &str =
    "refused E2 NoDatabase\nrefused E2 NoDatabase\nrefused E2 NoDatabase\nrefused E13 WrongState Down\n";

// Which call of a run over the three volumes fails, and what it tells: two calls for each drive, three at the place, eight to
// adopt the table (there the run ends), and those of the lines.
const FAILED_CALLS: &[(u64, &str)] = &[
    (0, ALL),
    (1, ALL),
    (2, NONE),
    (3, NONE),
    (4, ALL),
    (5, ALL),
    (6, NONE),
    (7, NONE),
    (8, NONE),
    (
        17,
        "refused E23 IoFault\n1 a1\nok\n7 a2\nok\nrefused E7 SliceInUse\n",
    ),
    (
        19,
        "1 a0\nok\nrefused E23 IoFault\n7 a2\nok\nrefused E7 SliceInUse\n",
    ),
    (
        21,
        "1 a0\nok\n1 a1\nok\nrefused E23 IoFault\nrefused E7 SliceInUse\n",
    ),
];

// The drives hold the three volumes. The calls of the run that made them are counted: its boot makes 7, the creation 12,
// each volume 6, each write 2, and each of the seven replies one.
fn begin<R: Abort + AllocGlobal>(rt: &R) -> Result<Story, Fail> {
    let mut story = Story::new(rt.alloc(), THREE.table, THREE.sizes)?;
    expect_act(rt, &mut story, &SPREAD)?;
    Ok(story)
}

const CALLS_BEFORE: u64 = 50;

#[test]
fn a_failed_call_of_a_boot_is_its_drives_alone(rt: HostRuntime) -> Result<(), Fail> {
    for (call, told) in FAILED_CALLS {
        let mut story = begin(&rt)?;
        story.shelf.fail_call(call.saturating_add(CALLS_BEFORE))?;
        expect_act(&rt, &mut story, &Act(&[], "alpha", LOOKS, told))?;
    }
    let panic = RunStatus::Panic {
        active: 0,
        listed: 1,
    };
    for call in 9..17 {
        let mut story = begin(&rt)?;
        story.shelf.fail_call(CALLS_BEFORE + call)?;
        let status = story.run("alpha", LOOKS)?;
        assert_eq!(rt; status, panic, "{call}");
        assert!(rt; story.news()?.is_empty(), "{call}");
    }
    Ok(())
}
