// Lives of volumes and their blocks.
use crate::life::{End, Step, begun, play};
use crate::script::Line;
use crate::spots::Value;
use crate::trouble::Trouble;
use std::process::Abort;
use std::test::Fail;

const MADE: &[Line] = &[Line::Forced, Line::Volume(0)];

const READ_TWICE: &[Line] = &[Line::Read(0, 5), Line::Read(0, 5)];

const ENDS: &[End] = &[
    End::Stable,
    End::Newest,
    End::Drawn(1),
    End::Drawn(2),
    End::Drawn(3),
    End::Drawn(4),
];

// What two reads tell before the line was done, and behind it.
type Told = (&'static str, &'static str);

// Stops a run of the line behind such a run, and crashes; two runs then read block 5 of d0 twice each. They tell either,
// and all the same; behind a line whose `ok` was told they tell that it was done.
fn expect_stop<R: Abort + AllocGlobal>(
    rt: &R,
    before: &[Line],
    line: Line,
    calls: u64,
    end: End,
    told: Told,
) -> Result<bool, Fail> {
    let mut life = begun(rt, &[before])?;
    let step = Step {
        lines: &[line],
        away: &[],
        trouble: Trouble::Stop(calls),
        end,
    };
    let stopped = play(rt, &mut life, step)?;
    let mut reads = Step {
        lines: READ_TWICE,
        away: &[],
        trouble: Trouble::Nothing,
        end,
    };
    let first = play(rt, &mut life, reads)?;
    reads.end = End::Stable;
    let second = play(rt, &mut life, reads)?;
    let was_told = stopped.told.as_str() == "ok\n";
    let is_told = are_told(was_told, first.told.as_str(), second.told.as_str(), told);
    assert!(rt; is_told, "{calls} {end:?}");
    Ok(was_told)
}

// Whether two runs told the same, and what they may.
fn are_told(was_told: bool, first: &str, second: &str, (undone, done): Told) -> bool {
    first == second && (first == done || (!was_told && first == undone))
}

// A boot over two slots makes 13 calls, the write two, and its reply one.
#[test]
fn a_write_is_stopped_at_each_call(rt: HostRuntime) -> Result<(), Fail> {
    let line = Line::Write(0, 5, Value::Ab);
    let told = ("5 -\nok\n5 -\nok\n", "5 ab\nok\n5 ab\nok\n");
    for calls in 0..17 {
        for end in ENDS {
            let was_told = expect_stop(&rt, MADE, line, calls, *end, told)?;
            assert!(rt; was_told == (calls == 16), "{calls}");
        }
    }
    Ok(())
}

// A boot over one slot makes 12 calls, the change six, and its reply one.
#[test]
fn a_change_is_stopped_at_each_call(rt: HostRuntime) -> Result<(), Fail> {
    let told = (
        "refused E4 NoSuchVolume\nrefused E4 NoSuchVolume\n",
        "5 -\nok\n5 -\nok\n",
    );
    for calls in 0..20 {
        for end in ENDS {
            let was_told = expect_stop(&rt, &[Line::Forced], Line::Volume(0), calls, *end, told)?;
            assert!(rt; was_told == (calls == 19), "{calls}");
        }
    }
    Ok(())
}
