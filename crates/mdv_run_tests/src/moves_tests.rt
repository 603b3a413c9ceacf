// Lines by which replicas come and go, stopped at each of their calls, and of the boot before: what boots find behind a crash
// then, with each subset of the drives, which all are back behind each boot, and one line more.
use crate::ground::PLACES;
use crate::story::Story;
use mdv_run_law::RunStatus;
use std::process::Abort;
use std::test::Fail;

/// A script that makes a database with a volume; a line behind it, which is stopped; and whether that may end the database.
struct Case {
    made: &'static str,
    line: &'static str,
    ends: bool,
}

const ONE: &str = "metadb -a -f -l 16 c0t0d0s7\nmetainit d0 1 1 c0t0d0s0\n";

const THREE: &str = "metadb -a -f -l 16 c0t0d0s7 c0t1d0s7 c0t2d0s7\nmetainit d0 1 1 c0t0d0s0\n";

const CASES: &[Case] = &[
    Case {
        made: ONE,
        line: "metadb -a -l 16 c0t1d0s7 c0t2d0s7\n",
        ends: false,
    },
    Case {
        made: THREE,
        line: "metadb -d c0t0d0s7\n",
        ends: false,
    },
    Case {
        made: THREE,
        line: "metadb -d -f c0t0d0s7 c0t1d0s7 c0t2d0s7\n",
        ends: true,
    },
];

// Of each block what was on the disk, or one of the values that were written since.
const CHOICES: &[&[u32]] = &[&[], &[1; 240], &[2; 240]];

// Each subset of the drives; behind each of them all are back.
const AWAY: &[&[u32]] = &[&[0], &[1], &[2], &[0, 1], &[0, 2], &[1, 2], &[0, 1, 2], &[]];

const VOLUME: &str = "d0 1 1 c0t0d0s0\nok\n";

const NONE: &str = "refused E2 NoDatabase\n";

/// What a boot finds: the database with its volume, none, too few replicas, or something else.
#[derive(Clone, Copy, PartialEq, Eq)]
enum Found {
    There,
    Gone,
    TooFew,
    Other,
}

/// What a boot finds that has these drives away.
fn found_without(story: &mut Story, away: &[u32]) -> Result<Found, Fail> {
    story.lose(away)?;
    let status = story.run("alpha", "metastat -p\n")?;
    let told = story.news()?;
    story.bring_back(away)?;
    Ok(match status {
        RunStatus::Done if told.as_str() == VOLUME => Found::There,
        RunStatus::SomeRefused if told.as_str() == NONE => Found::Gone,
        RunStatus::NoQuorum { .. } => Found::TooFew,
        _ => Found::Other,
    })
}

/// What the last one of these boots finds, which has all drives; none where one of them finds what it may not: too few replicas, or no database, though all
/// drives are there and none may have ended.
fn last_found(story: &mut Story, ends: bool) -> Result<Found, Fail> {
    let mut last = Found::Other;
    for away in AWAY {
        last = found_without(story, away)?;
        let may_be = match last {
            Found::There => true,
            Found::Gone => ends || !away.is_empty(),
            Found::TooFew => !away.is_empty(),
            Found::Other => false,
        };
        if !may_be {
            return Ok(Found::Other);
        }
    }
    Ok(last)
}

/// One line more: another volume, or where the database has ended another one.
fn goes_on(story: &mut Story, found: Found) -> Result<bool, Fail> {
    let status = story.run("alpha", "metainit d1 1 1 c0t1d0s0\n")?;
    let told = story.news()?;
    if found == Found::There {
        return Ok(status == RunStatus::Done && told.as_str() == "ok\n");
    }
    let anew = story.run("alpha", "metadb -a -f -l 16 c0t2d0s7\n")?;
    let made = story.news()?;
    Ok(
        found == Found::Gone
            && told.as_str() == NONE
            && anew == RunStatus::Done
            && made.as_str() == "ok\n",
    )
}

/// The run is stopped behind so many calls, then a crash leaves what this choice picks. Whether the line was answered before
/// the stop, and whether all is as it may be.
fn is_kept<R: Abort + AllocGlobal>(
    rt: &R,
    case: &Case,
    stop: u64,
    choice: &[u32],
) -> Result<(bool, bool), Fail> {
    let mut story = Story::new(rt.alloc(), PLACES.0, PLACES.1)?;
    if story.run("alpha", case.made)? != RunStatus::Done {
        return Ok((true, false));
    }
    story.shelf.stop_after(stop);
    let whole = story.run("alpha", case.line)? == RunStatus::Done;
    story.news()?;
    story.shelf.crash(choice);
    let found = last_found(&mut story, case.ends)?;
    let kept = goes_on(&mut story, found)?;
    Ok((whole, kept))
}

fn stops<R: Abort + AllocGlobal>(rt: &R, case: &Case, choice: &[u32]) -> Result<(), Fail> {
    for stop in 0..600 {
        let (whole, kept) = is_kept(rt, case, stop, choice)?;
        assert!(rt; kept, "{} {stop} {choice:?}", case.line);
        if whole {
            return Ok(());
        }
    }
    Err(Fail::from("a line that isn't answered"))
}

#[test]
fn places_come_and_go_over_stops(rt: HostRuntime) -> Result<(), Fail> {
    for case in CASES {
        for choice in CHOICES {
            stops(&rt, case, choice)?;
        }
    }
    Ok(())
}
