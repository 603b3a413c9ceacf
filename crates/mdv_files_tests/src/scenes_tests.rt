// What runs find of files, and what calls on them leave.

use crate::scene::{Call, Scene, Step};
use std::io;

const ONE: &str = "host a
drive c0t0d0 8 a @d0.img
";

const BLOCKS: &[Step] = &[
    Step::File("@d0.img", 8),
    Step::Begin(ONE, ""),
    Step::Done(Call::Write(3, &[0x5a, 0xc3])),
    Step::Done(Call::Sync),
    Step::End,
    Step::Has("@d0.img", &[0, 0, 0, 0x5a, 0xc3, 0, 0, 0]),
    Step::Begin(ONE, ""),
    Step::Done(Call::Read(2, &[0, 0x5a, 0xc3, 0, 0])),
];

const SEVEN: &str = "host a
drive c0t0d0 8 a @none
drive c0t1d0 8 a @short
drive c0t2d0 8 a @long
drive c0t3d0 8 a /dev/null
drive c0t4d0 8 a @right
drive c0t5d0 8 a @hard
drive c0t6d0 8 a @soft
";

const SIX_LOST: &str = "c0t0d0 @none: missing
c0t1d0 @short: has 3584 bytes and the table says 4096
c0t2d0 @long: has 4608 bytes and the table says 4096
c0t3d0 /dev/null: not a file or device
c0t5d0 @hard: the same file as drive c0t4d0
c0t6d0 @soft: the same file as drive c0t4d0
";

const RIGHT: &str = "host a
drive c0t0d0 8 a @right
";

const NO_DRIVES: &[Step] = &[
    Step::File("@right", 8),
    Step::File("@short", 7),
    Step::File("@long", 9),
    Step::Hard("@right", "@hard"),
    Step::Soft("@right", "@soft"),
    Step::Begin(SEVEN, SIX_LOST),
    Step::Beside(RIGHT, "c0t0d0 @right: in use by another run\n"),
    Step::End,
    Step::Beside(RIGHT, ""),
    Step::Folder("@a\nb"),
    Step::File("@a\nb/d0.img", 8),
    Step::Soft("@a\nb/d0.img", "@line"),
    Step::Beside(
        "host a\ndrive c0t0d0 8 a @line\n",
        "c0t0d0 @line: its path has a newline\n",
    ),
];

const FAILED_BEFORE: &str =
    "c0t0d0 @d0.img: a write or sync on it failed since the system started; start the program through bin/metad
";

const LINK_FAILED: &str =
    "c0t0d0 @soft: a write or sync on it failed since the system started; start the program through bin/metad
";

const BOTH_LOST: &str =
    "c0t0d0 @d0.img: a write or sync on it failed since the system started; start the program through bin/metad
c0t1d0 @hard: the same file as drive c0t0d0
";

const CUT_SHORT: &str =
    "c0t0d0 @d0.img: drives.failed or the boot id can't be read: the last line is cut short; start the program through bin/metad
";

const FAILED_WRITE: &[Step] = &[
    Step::File("@d0.img", 8),
    Step::Open("@d0.img", false, "@d0.img"),
    Step::Done(Call::Read(0, &[0])),
    Step::Done(Call::Sync),
    Step::Fails(Call::Write(1, &[0])),
    Step::Remembers("@d0.img"),
    Step::Fails(Call::Read(0, &[0])),
    Step::Fails(Call::Write(1, &[0])),
    Step::Fails(Call::Sync),
    Step::Remembers("@d0.img"),
    Step::End,
    Step::Beside(ONE, FAILED_BEFORE),
    Step::Soft("@d0.img", "@soft"),
    Step::Beside("host a\ndrive c0t0d0 8 a @soft\n", LINK_FAILED),
    Step::Hard("@d0.img", "@hard"),
    Step::Beside(
        "host a\ndrive c0t0d0 8 a @d0.img\ndrive c0t1d0 8 a @hard\n",
        BOTH_LOST,
    ),
    Step::Remember("a0a0 @d0.img\n"),
    Step::Beside(ONE, ""),
    Step::Remember("a0a0 /som"),
    Step::Beside(ONE, CUT_SHORT),
];

const FAILED_SYNC: &[Step] = &[
    Step::Open("/dev/null", true, "/some"),
    Step::Done(Call::Write(1, &[0])),
    Step::Fails(Call::Sync),
    Step::Fails(Call::Write(1, &[0])),
    Step::Names("/some", true),
    Step::Names("/som", false),
];

const FULL_DISK: &[Step] = &[
    Step::Open("/dev/full", true, "/other"),
    Step::Done(Call::Read(1, &[0])),
    Step::Fails(Call::Write(1, &[0])),
    Step::Fails(Call::Read(1, &[0])),
    Step::Names("/other", true),
];

const LOST_DRIVE: &[Step] = &[
    Step::Lost,
    Step::Done(Call::Give),
    Step::Fails(Call::Read(7, &[0])),
    Step::Fails(Call::Write(7, &[0])),
    Step::Fails(Call::Sync),
];

const FOREIGN_DRIVE: &[Step] = &[
    Step::Foreign,
    Step::Done(Call::Give),
    Step::Fails(Call::Read(7, &[0])),
    Step::Fails(Call::Write(7, &[0])),
    Step::Fails(Call::Sync),
    Step::Fails(Call::Read(0, &[0])),
];

// Two hosts, of which b has a drive without a file, a drive that both reach, and a mediator.
const TWO_HOSTS: &str = "host a
host b
drive c0t0d0 8 a @a0.img
drive c0t1d0 8 b @b1.img
drive c0t2d0 8 a @a2.img
drive c0t3d0 8 b @none
drive c0t4d0 8 shared @shared
mediator a 32 @mediator
";

const TWO_RUNS: &[Step] = &[
    Step::File("@a0.img", 8),
    Step::File("@b1.img", 8),
    Step::File("@a2.img", 8),
    Step::Begin(TWO_HOSTS, ""),
    Step::BesideOf("b", TWO_HOSTS, "c0t3d0 @none: missing\n"),
    Step::Beside(
        TWO_HOSTS,
        "c0t0d0 @a0.img: in use by another run\nc0t2d0 @a2.img: in use by another run\n",
    ),
    Step::BesideOf("c", TWO_HOSTS, ""),
    Step::End,
    Step::Beside(TWO_HOSTS, ""),
    Step::Hard("@b1.img", "@none"),
    Step::BesideOf(
        "b",
        TWO_HOSTS,
        "c0t3d0 @none: the same file as drive c0t1d0\n",
    ),
];

const UNSYNCED: &[Step] = &[
    Step::Unsynced("/dev/null", "/third"),
    Step::Names("/third", true),
];

const SCENES: &[(&str, &[Step])] = &[
    ("blocks_are_kept_where_they_belong", BLOCKS),
    ("what_is_no_drive_is_lost", NO_DRIVES),
    ("a_failed_write_shuts_a_drive", FAILED_WRITE),
    ("a_failed_sync_shuts_a_drive", FAILED_SYNC),
    ("a_full_disk_shuts_a_drive", FULL_DISK),
    ("a_lost_drive_fails_and_replies_are_told", LOST_DRIVE),
    ("a_file_that_cannot_be_synced_is_no_drive", UNSYNCED),
    ("a_drive_of_another_host_fails", FOREIGN_DRIVE),
    ("runs_of_two_hosts_open_their_own_drives", TWO_RUNS),
];

// The place of the first step that isn't so. Where there is none, the folder goes.
fn wrong_in(scene: &mut Scene, steps: &[Step]) -> io::Result<Option<usize>> {
    let wrong = scene.first_wrong(steps);
    if wrong.is_none() {
        scene.clear()?;
    }
    Ok(wrong)
}

fn wrong_step(rt: &HostRuntime, name: &str, steps: &[Step]) -> io::Result<Option<usize>> {
    let mut scene = Scene::new(rt, name)?;
    wrong_in(&mut scene, steps)
}

#[test]
fn scenes_go_as_they_are_written(rt: HostRuntime) {
    for (name, steps) in SCENES {
        let wrong = wrong_step(&rt, name, steps);
        assert!(rt; matches!(wrong, Ok(None)), "{name} at {wrong:?}");
    }
}
