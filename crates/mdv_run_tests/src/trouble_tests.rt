// Runs in which each call fails once, is the last, or loses a drive.
use crate::ground::{Ground, NARROW, SMALL, THREE};
use crate::life::{End, Step, begun_on, calm, play};
use crate::script::Line;
use crate::spots::Value;
use crate::trouble::Trouble;
use std::process::Abort;
use std::test::Fail;

const CREATION: &[Line] = &[Line::Forced];

const BOOT: &[Line] = &[Line::Boot, Line::Forced];

const CREATIONS: &[Line] = &[Line::Forced, Line::Boot, Line::Forced];

const ENDS: &[End] = &[End::Stable, End::Newest, End::Drawn(1), End::Drawn(2)];

// The kinds of trouble on one drive, and on three, each of which may be lost.
const KINDS: &[Trouble] = &[Trouble::Fail(0), Trouble::Lose(0, 0), Trouble::Stop(0)];

const LOSSES: &[Trouble] = &[
    Trouble::Lose(1, 0),
    Trouble::Lose(2, 0),
    Trouble::Lose(4, 0),
    Trouble::Fail(0),
    Trouble::Stop(0),
];

// The trouble of that kind at that call.
fn at_call(kind: Trouble, call: u64) -> Trouble {
    match kind {
        Trouble::Lose(drive, _) => Trouble::Lose(drive, call),
        Trouble::Stop(_) => Trouble::Stop(call),
        _ => Trouble::Fail(call),
    }
}

// What comes before a run on these drives, its lines, and those of a calm run behind it.
#[derive(Clone, Copy)]
struct Lives<'a> {
    ground: Ground,
    runs: &'a [&'a [Line]],
    lines: &'a [Line],
    behind: &'a [Line],
}

impl Lives<'_> {
    // Each of these kinds of trouble at each of so many calls, and each of these ends.
    fn expect_each_trouble<R: Abort + AllocGlobal>(
        self,
        rt: &R,
        calls: u64,
        kinds: &[Trouble],
        ends: &[End],
    ) -> Result<(), Fail> {
        for call in 0..calls {
            for kind in kinds {
                for end in ends {
                    self.expect(rt, at_call(*kind, call), *end)?;
                }
            }
        }
        Ok(())
    }

    fn expect<R: Abort + AllocGlobal>(
        self,
        rt: &R,
        trouble: Trouble,
        end: End,
    ) -> Result<(), Fail> {
        let mut life = begun_on(rt, self.ground, self.runs)?;
        let step = Step {
            lines: self.lines,
            away: &[],
            trouble,
            end,
        };
        play(rt, &mut life, step)?;
        play(rt, &mut life, calm(self.behind))?;
        Ok(())
    }
}

fn expect_on_one_drive<R: Abort + AllocGlobal>(
    rt: &R,
    runs: &[&[Line]],
    lines: &[Line],
    calls: u64,
    behind: &[Line],
) -> Result<(), Fail> {
    let lives = Lives {
        ground: SMALL,
        runs,
        lines,
        behind,
    };
    lives.expect_each_trouble(rt, calls, KINDS, ENDS)
}

// On a blank drive the run's boot makes 3 calls, the creation 12 and its reply one; the line `boot` makes 4 to look, 8 to
// adopt and one to tell.
#[test]
fn of_creations_and_boots(rt: HostRuntime) -> Result<(), Fail> {
    expect_on_one_drive(&rt, &[], CREATIONS, 30, CREATION)?;
    expect_on_one_drive(&rt, &[CREATION], BOOT, 27, CREATION)?;
    expect_on_one_drive(&rt, &[CREATION, &[]], BOOT, 28, CREATION)
}

// A creation that is refused, a short one, and one more.
const SHORT_CREATIONS: &[Line] = &[
    Line::Short(25),
    Line::Short(18),
    Line::Boot,
    Line::Short(16),
];

const SHORT_MADE: &[Line] = &[Line::Short(17), Line::Volume(0)];

const SHORT_CHANGES: &[Line] = &[
    Line::Volume(1),
    Line::Clear(0),
    Line::Boot,
    Line::Volume(2),
    Line::Forced,
];

fn expect_in_narrow<R: Abort + AllocGlobal>(
    rt: &R,
    runs: &[&[Line]],
    lines: &[Line],
    calls: u64,
    behind: &[Line],
) -> Result<(), Fail> {
    let lives = Lives {
        ground: NARROW,
        runs,
        lines,
        behind,
    };
    lives.expect_each_trouble(rt, calls, KINDS, ENDS)
}

// In a place of 24 blocks: a creation behind one of another length that was stopped, changes, and boots.
#[test]
fn of_short_replicas(rt: HostRuntime) -> Result<(), Fail> {
    expect_in_narrow(&rt, &[], SHORT_CREATIONS, 32, &[Line::Short(24)])?;
    expect_in_narrow(&rt, &[SHORT_MADE], SHORT_CHANGES, 49, &[Line::Short(24)])
}

const MADE: &[Line] = &[Line::Forced, Line::Volume(0)];

const WRITES: &[Line] = &[
    Line::Write(0, 5, Value::Ab),
    Line::Write(0, 5, Value::Cd),
    Line::Volume(1),
    Line::Write(1, 0, Value::Long),
    Line::Boot,
    Line::Read(0, 5),
    Line::Read(1, 0),
];

const READS: &[Line] = &[Line::Volume(1), Line::Read(0, 5), Line::Read(1, 0)];

// A block that is written twice, one of a volume that is made between, and a boot before both are read.
#[test]
fn of_volumes(rt: HostRuntime) -> Result<(), Fail> {
    expect_on_one_drive(&rt, &[MADE], WRITES, 48, READS)
}

// A database, and a volume on each of three drives.
const SPREAD: &[Line] = &[
    Line::Forced,
    Line::Volume(0),
    Line::Volume(1),
    Line::Volume(2),
];

const ON_EACH: &[Line] = &[
    Line::Write(0, 5, Value::Ab),
    Line::Write(1, 5, Value::Cd),
    Line::Write(2, 5, Value::Long),
    Line::Boot,
    Line::Read(0, 5),
    Line::Write(2, 5, Value::Ab),
    Line::Read(1, 5),
    Line::Forced,
];

const LOOKS: &[Line] = &[
    Line::Forced,
    Line::Read(0, 5),
    Line::Read(1, 5),
    Line::Read(2, 5),
];

const TWO_ENDS: &[End] = &[End::Newest, End::Drawn(3)];

// A blank boot of three drives makes 7 calls, and one that finds a table with two open slots 17.
#[test]
fn of_three_drives(rt: HostRuntime) -> Result<(), Fail> {
    let creations = Lives {
        ground: THREE,
        runs: &[],
        lines: CREATIONS,
        behind: CREATION,
    };
    creations.expect_each_trouble(&rt, 39, LOSSES, TWO_ENDS)?;
    let writes = Lives {
        ground: THREE,
        runs: &[SPREAD],
        lines: ON_EACH,
        behind: LOOKS,
    };
    writes.expect_each_trouble(&rt, 54, LOSSES, TWO_ENDS)
}
