// Drawn lives of several runs.
use crate::ground::{Ground, NARROW, SMALL, THREE, WIDE};
use crate::life::{End, Life, Step, calm, next, play};
use crate::script::Line;
use crate::spots::Value;
use crate::trouble::Trouble;
use std::alloc::{AllocError, Global};
use std::process::Abort;
use std::test::Fail;

// A narrow place has no room for the first two and for 25 blocks.
const CREATIONS: &[Line] = &[
    Line::Forced,
    Line::Short(4096),
    Line::Short(25),
    Line::Short(24),
    Line::Short(18),
    Line::Short(17),
    Line::Short(16),
];

fn drawn_creation(state: u64) -> Line {
    pick(CREATIONS, state >> 44, Line::Forced)
}

fn drawn_line(state: u64) -> Line {
    let volume = ((state >> 48) % 3) as u8;
    let at = (state >> 52) % 9;
    match (state >> 33) % 22 {
        0..=2 => drawn_creation(state),
        18 => Line::Elsewhere,
        19 => Line::Volume(volume),
        20 => Line::Clear(volume),
        3..=5 => Line::Boot,
        6 | 7 => Line::Volume(volume),
        8..=11 => Line::Read(volume, at),
        12 => Line::Write(volume, at, Value::Zeros),
        13 => Line::Write(volume, at, Value::Ab),
        14 => Line::Write(volume, at, Value::Cd),
        15 | 16 => Line::Tab(state >> 40),
        _ => Line::Write(volume, at, Value::Long),
    }
}

// Up to seven lines by a drawn number.
fn drawn_lines(alloc: Global, state: u64) -> Result<Vec<Line>, AllocError> {
    let mut lines = Vec::new(alloc);
    let mut drawn = state;
    for _ in 0..(state >> 50) % 8 {
        drawn = next(drawn);
        lines.push(drawn_line(drawn))?;
    }
    Ok(lines)
}

// One of the items by a drawn number.
fn pick<T: Copy>(items: &[T], state: u64, other: T) -> T {
    let place = state % (items.len() as u64).max(1);
    items.get(place as usize).copied().unwrap_or(other)
}

// A step of these lines by a drawn number.
fn step_of<'a>(ground: &Ground, lines: &'a [Line], state: u64) -> Step<'a> {
    let call = (state >> 20) % 40;
    let away = pick(ground.away, state >> 45, &[]);
    let trouble = match (state >> 30) % 6 {
        0 => Trouble::Nothing,
        1 => Trouble::Fail(call),
        2 => Trouble::FailBoth(call, call.saturating_add(1 + (state >> 16) % 16)),
        3 => Trouble::Lose(pick(ground.own, state >> 36, 0), call),
        _ => Trouble::Stop(call),
    };
    let end = match (state >> 40) % 4 {
        0 => End::Stable,
        1 => End::Newest,
        2 if trouble == Trouble::Nothing => End::Quiet,
        _ => End::Drawn(state),
    };
    Step {
        lines,
        away,
        trouble,
        end,
    }
}

// Lives of ten runs; every other one begins with a database of three volumes, where the place has room for it.
fn expect_drawn<R: Abort + AllocGlobal>(rt: &R, ground: Ground, lives: u64) -> Result<(), Fail> {
    for seed in 0..lives {
        let mut life = Life::new(rt.alloc(), ground)?;
        let mut state = next(seed);
        if seed % 2 == 0 {
            let whole = [
                drawn_creation(state),
                Line::Volume(1),
                Line::Volume(2),
                Line::Volume(0),
            ];
            play(rt, &mut life, calm(&whole))?;
        }
        for _ in 0..10 {
            state = next(state);
            let lines = drawn_lines(rt.alloc(), state)?;
            play(rt, &mut life, step_of(&ground, &lines, state))?;
        }
    }
    Ok(())
}

#[test]
fn drawn_lives(rt: HostRuntime) -> Result<(), Fail> {
    expect_drawn(&rt, SMALL, 400)
}

#[test]
fn drawn_lives_in_a_narrow_place(rt: HostRuntime) -> Result<(), Fail> {
    expect_drawn(&rt, NARROW, 400)
}

#[test]
fn drawn_lives_on_three_drives(rt: HostRuntime) -> Result<(), Fail> {
    expect_drawn(&rt, THREE, 500)
}

#[test]
fn drawn_lives_on_a_wide_drive(rt: HostRuntime) -> Result<(), Fail> {
    expect_drawn(&rt, WIDE, 60)
}
