// Drawn lives in which replicas come and go by lines, while drives are away and runs are stopped, beside the plain program of `roster`.
use crate::ground::PLACES;
use crate::life::{drawn, next};
use crate::roster::{ALL, Drives, Request, Roster, only};
use crate::spots::Value;
use crate::story::{Story, status_behind};
use mdv_run_law::RunStatus;
use std::alloc::{AllocError, Global};
use std::process::Abort;
use std::test::Fail;

// The numbers of the drives that are away, by the set.
const NUMBERS: [&[u32]; 8] = [&[], &[0], &[1], &[0, 1], &[2], &[0, 2], &[1, 2], &[0, 1, 2]];

const AWAY: &[Drives] = &[0, 0, 0, 0, 0, 0, 1, 2, 4, 3, 5, 6];

const BLOCKS: u64 = 240;

// The master of a drive's first replica.
const MASTER: u64 = 32;

const PROBES: &[Request] = &[
    Request::Print,
    Request::Probe(0),
    Request::Probe(1),
    Request::Probe(2),
    Request::Read(0),
    Request::Read(1),
    Request::Read(2),
];

// A run as it is drawn. Where it is stopped all drives are there.
#[derive(Debug, Drop)]
struct Turn {
    requests: Vec<Request>,
    away: Drives,
    stop: Option<u64>,
    choice: Vec<u32>,
}

fn numbers_of(drives: Drives) -> &'static [u32] {
    NUMBERS.get(usize::from(drives)).copied().unwrap_or(&[])
}

fn script_of(alloc: Global, requests: &[Request]) -> Result<String, AllocError> {
    let mut script = String::new(alloc);
    for request in requests {
        request.push_to(alloc, &mut script)?;
    }
    Ok(script)
}

// The status of a run with these drives away, and what it tells.
fn course_of(
    alloc: Global,
    roster: &mut Roster,
    away: Drives,
    requests: &[Request],
) -> Result<(RunStatus, String), AllocError> {
    let mut told = String::new(alloc);
    let mut short = roster.begin(away);
    for request in requests {
        if short.is_none() {
            short = roster.answer(alloc, *request, &mut told)?;
        }
    }
    let status = match short {
        Some((readable, needed)) => RunStatus::NoQuorum { readable, needed },
        None => status_behind(told.as_str()),
    };
    Ok((status, told))
}

// Whether a run goes as it has to. Behind it all drives are back.
fn is_played(
    alloc: Global,
    story: &mut Story,
    roster: &mut Roster,
    away: Drives,
    requests: &[Request],
) -> Result<bool, Fail> {
    let (status, told) = course_of(alloc, roster, away, requests)?;
    let script = script_of(alloc, requests)?;
    story.lose(numbers_of(away))?;
    let ended = story.run("alpha", script.as_str())?;
    let news = story.news()?;
    story.bring_back(numbers_of(away))?;
    if away == 0 && matches!(ended, RunStatus::NoQuorum { .. }) {
        blank(story)?;
        roster.wipe();
    }
    Ok(ended == status && news.as_str() == told.as_str())
}

// Of a deleted database a replica came back: the drives are blanked.
fn blank(story: &mut Story) -> Result<(), Fail> {
    for drive in 0..3 {
        story.put(drive, MASTER, b"")?;
    }
    Ok(())
}

// The first of these by which a run that asks all that can be asked tells this.
fn first_like(
    alloc: Global,
    rosters: &[Option<Roster>],
    news: &str,
) -> Result<Option<Roster>, AllocError> {
    for roster in rosters {
        if let Some(found) = roster {
            let mut found = *found;
            let (_, told) = course_of(alloc, &mut found, 0, PROBES)?;
            if told.as_str() == news {
                return Ok(Some(found));
            }
        }
    }
    Ok(None)
}

// What a run of these lines may have come to that was stopped once it had told this, by what the next one found: the line in work is done, or not, or half.
fn found_behind(
    alloc: Global,
    roster: &Roster,
    requests: &[Request],
    told: &str,
    news: &str,
) -> Result<Option<Roster>, AllocError> {
    let mut before = *roster;
    let mut text = String::new(alloc);
    before.begin(0);
    for request in requests {
        let mut behind = before;
        let mut whole = String::from_str(alloc, text.as_str())?;
        behind.answer(alloc, *request, &mut whole)?;
        if !told.as_bytes().starts_with(whole.as_bytes()) {
            if !whole.as_bytes().starts_with(told.as_bytes()) {
                return Ok(None);
            }
            let half = match request {
                Request::Drop(_, _) => before.half_deleted(),
                _ => None,
            };
            return first_like(alloc, &[Some(before), half, Some(behind)], news);
        }
        before = behind;
        text = whole;
    }
    first_like(alloc, &[Some(before)], news)
}

// A run that is stopped and crashes; the next one finds what that may have come to, and what was begun is begun anew and taken back.
fn is_stopped(
    alloc: Global,
    story: &mut Story,
    roster: &mut Roster,
    turn: &Turn,
    calls: u64,
) -> Result<bool, Fail> {
    let script = script_of(alloc, turn.requests.as_slice())?;
    story.shelf.stop_after(calls);
    story.run("alpha", script.as_str())?;
    let told = story.news()?;
    story.shelf.crash(turn.choice.as_slice());
    story.run("alpha", script_of(alloc, PROBES)?.as_str())?;
    let news = story.news()?;
    let requests = turn.requests.as_slice();
    let found = found_behind(alloc, roster, requests, told.as_str(), news.as_str())?;
    let Some(found) = found else {
        return Ok(false);
    };
    *roster = found;
    let free = roster.free();
    if free == 0 {
        return Ok(true);
    }
    let again = [Request::Add(free, false), Request::Drop(free, false)];
    is_played(alloc, story, roster, 0, &again)
}

fn is_so(alloc: Global, story: &mut Story, roster: &mut Roster, turn: &Turn) -> Result<bool, Fail> {
    let is_so = match turn.stop {
        Some(calls) => is_stopped(alloc, story, roster, turn, calls)?,
        None => is_played(alloc, story, roster, turn.away, turn.requests.as_slice())?,
    };
    story.shelf.crash(turn.choice.as_slice());
    Ok(is_so)
}

// What is added on drives that are away is added there alone, so that no place is formatted and not listed.
fn drawn_request(state: u64, away: Drives) -> Request {
    let drive = ((state >> 40) % 3) as u8;
    let drives = (((state >> 44) % 7) as u8).saturating_add(1);
    let force = (state >> 50) % 3 != 0;
    match (state >> 33) % 17 {
        0..=2 if drives & away != 0 => Request::Add(drives & away, force),
        0..=2 => Request::Add(drives, force),
        3..=5 => Request::Drop(drives, force),
        6 => Request::Drop(only(drive), force),
        7 => Request::Drop(ALL, true),
        8 | 9 => Request::Volume(drive),
        10 => Request::Write(drive, Value::Ab),
        11 => Request::Write(drive, Value::Cd),
        12 | 13 => Request::Read(drive),
        14 => Request::Print,
        15 => Request::Clear(drive),
        _ => Request::Boot,
    }
}

// Up to seven lines by a drawn number.
fn drawn_turn(alloc: Global, roster: &Roster, state: u64) -> Result<Turn, AllocError> {
    let place = (state >> 45) % (AWAY.len() as u64).max(1);
    let away = AWAY.get(place as usize).copied().unwrap_or(0);
    let mut requests = Vec::new(alloc);
    let mut drawn_state = state;
    for _ in 0..(state >> 52) % 8 {
        drawn_state = next(drawn_state);
        requests.push(drawn_request(drawn_state, away))?;
    }
    let stop = if away == 0 && roster.is_tidy() && (state >> 30) % 2 == 0 {
        Some((state >> 20) % 160)
    } else {
        None
    };
    Ok(Turn {
        requests,
        away,
        stop,
        choice: drawn(alloc, state, BLOCKS)?,
    })
}

fn first_wrong(alloc: Global, seed: u64, turns: u64) -> Result<Option<Turn>, Fail> {
    let mut story = Story::new(alloc, PLACES.0, PLACES.1)?;
    let mut roster = Roster::new();
    let made = [
        Request::Add(ALL, true),
        Request::Volume(0),
        Request::Volume(1),
    ];
    if seed % 2 == 0 && !is_played(alloc, &mut story, &mut roster, 0, &made)? {
        return Err(Fail::from("a creation"));
    }
    let mut state = next(seed);
    for _ in 0..turns {
        state = next(state);
        let turn = drawn_turn(alloc, &roster, state)?;
        if !is_so(alloc, &mut story, &mut roster, &turn)? {
            return Ok(Some(turn));
        }
    }
    Ok(None)
}

fn expect_drawn<R: Abort + AllocGlobal>(rt: &R, lives: u64, turns: u64) -> Result<(), Fail> {
    for seed in 0..lives {
        let wrong = first_wrong(rt.alloc(), seed, turns)?;
        assert!(rt; wrong.is_none(), "{seed} {wrong:?}");
    }
    Ok(())
}

#[test]
fn places_come_and_go_in_drawn_lives(rt: HostRuntime) -> Result<(), Fail> {
    expect_drawn(&rt, 100, 20)
}
