//! Changes of places and ends that are stopped at each of their calls, crashes behind them, and the boots that follow, beside the plain world.
use crate::host::{Asked, change, end};
use crate::world::{Fails, World};
use mdv_store_tests::{Committed, Drives, End, Host, Image, Layout, Made, local_on};
use std::alloc::Global;
use std::test::Fail;

#[derive(Clone, Copy)]
enum Call {
    Moves(Asked<'static>),
    Ends,
}

// A database on these lines, so many places on each, behind a change and a commit; and what is stopped then. It makes so many calls where none fails.
#[derive(Clone, Copy)]
struct Story {
    on: &'static [usize],
    places: u8,
    before: Option<Asked<'static>>,
    base: u64,
    call: Call,
    calls: u64,
}

// The first call that fails, of those that are stopped, and how the others do; on which drives the crash keeps what was written last; and the drives of
// the first boot behind that.
#[derive(Clone, Copy, Debug)]
struct Stop {
    number: u64,
    fails: Fails,
    kept: Drives,
    first: Drives,
}

const ALL: Drives = 0b111;

// On each drive a slice on which three replicas have room, and one on which one has.
const TEXT: &[u8] = b"host hostA
host hostB
drive c0t0d0 98 hostA a0.img
drive c0t1d0 98 hostA a1.img
drive c0t2d0 98 hostA a2.img
slice c0t0d0s0 0 2
slice c0t0d0s7 2 64 db
slice c0t0d0s6 66 32 db
slice c0t1d0s7 2 64 db
slice c0t1d0s6 66 32 db
slice c0t2d0s7 2 64 db
slice c0t2d0s6 66 32 db
";

const FIRST_BOOTS: &[Drives] = &[0b011, 0b110, 0b101, 0b111];

const NEXT_BOOTS: &[Drives] = &[0b011, 0b100, 0b110, 0b010, 0b101, 0, 0b111, 0b001];

// For each call three ways, with each image and each first boot.
const STOPS: u64 = 96;

// One of so many is tried.
const EACH: u64 = 47;

fn stop_at(index: u64) -> Option<Stop> {
    let number = index / STOPS;
    let fails = match index % 3 {
        0 => Fails::Once(number),
        1 => Fails::From(number),
        _ => Fails::OnDrive((number % 3) as u32, number),
    };
    Some(Stop {
        number,
        fails,
        kept: (index / 3 % 8) as u32,
        first: *FIRST_BOOTS.get((index / 24 % 4) as usize)?,
    })
}

fn arm(host: &mut Host, base: u64, fails: Fails) -> Result<(), Fail> {
    match fails {
        Fails::Never => {}
        Fails::Once(number) => host.fail_call(base.saturating_add(number))?,
        Fails::From(number) => host.stop_after(number),
        Fails::OnDrive(drive, number) => host.lose_at(drive, base.saturating_add(number))?,
    }
    Ok(())
}

// What comes before. Whether it came to what it has to.
fn is_ready(
    alloc: Global,
    host: &mut Host,
    world: &mut World,
    story: &Story,
) -> Result<bool, Fail> {
    let ground = local_on(Layout::Five)?;
    if host.create(alloc, &ground.own, 7, story.on, story.places)? != Made::Done {
        return Ok(false);
    }
    if let Some(asked) = story.before {
        if world.change(&asked) != Some(change(host, alloc, &asked)?) {
            return Ok(false);
        }
    }
    let committed = host.commit(alloc, 1)?;
    Ok(committed == Committed::Done && world.commit(1) == Some(committed))
}

// The call that is stopped.
fn is_answered(
    alloc: Global,
    host: &mut Host,
    world: &mut World,
    call: &Call,
) -> Result<bool, Fail> {
    match call {
        Call::Moves(asked) => Ok(world.change(asked) == Some(change(host, alloc, asked)?)),
        Call::Ends => Ok(world.end() == Some(end(host)?)),
    }
}

// A boot with just these drives, and a commit where it adopts. Nothing is written where it doesn't.
fn boots_with(
    alloc: Global,
    host: &mut Host,
    world: &mut World,
    drives: Drives,
    table: u16,
) -> Result<bool, Fail> {
    let lost = ALL & !drives;
    host.bring_back(ALL);
    world.back(ALL);
    host.lose(lost);
    world.lose(lost);
    let want = world.boot();
    if matches!(want, End::Adopted(_)) {
        let boot = host.boot(alloc)?;
        let is_so = boot.end == want && boot.up == drives;
        return Ok(is_so && world.commit(table) == Some(host.commit(alloc, table)?));
    }
    let (boot, is_same) = host.boot_watched(alloc)?;
    Ok(boot.end == want && boot.up == drives && is_same)
}

fn next_boots(alloc: Global, host: &mut Host, world: &mut World) -> Result<bool, Fail> {
    let mut table = 2u16;
    for drives in NEXT_BOOTS {
        table = table.saturating_add(1);
        if !boots_with(alloc, host, world, *drives, table)? {
            return Ok(false);
        }
    }
    Ok(true)
}

// The call of the story, with the calls that fail in it.
fn is_stopped(
    alloc: Global,
    host: &mut Host,
    world: &mut World,
    story: &Story,
    stop: &Stop,
) -> Result<bool, Fail> {
    arm(host, story.base, stop.fails)?;
    world.fail(stop.fails);
    is_answered(alloc, host, world, &story.call)
}

// The crash, and the boots behind it.
fn comes_back(
    alloc: Global,
    host: &mut Host,
    world: &mut World,
    stop: &Stop,
) -> Result<bool, Fail> {
    host.crash(alloc, Image::LastOn(stop.kept))?;
    world.crash(stop.kept);
    Ok(boots_with(alloc, host, world, stop.first, 2)? && next_boots(alloc, host, world)?)
}

// Whether all goes as in the world.
fn is_kept(alloc: Global, story: &Story, stop: &Stop) -> Result<bool, Fail> {
    let ground = local_on(Layout::Five)?;
    let mut host = Host::new(alloc, TEXT, ground.own)?;
    let mut world = World::new(story.on, story.places);
    Ok(
        is_ready(alloc, &mut host, &mut world, story)?
            && is_stopped(alloc, &mut host, &mut world, story, stop)?
            && comes_back(alloc, &mut host, &mut world, stop)?,
    )
}

// The first stop of the story behind which something else happens. One of so many is tried.
fn first_broken(alloc: Global, story: &Story) -> Result<Option<Stop>, Fail> {
    for turn in 0..story.calls.saturating_add(1).saturating_mul(STOPS) / EACH {
        let Some(stop) = stop_at(turn.saturating_mul(EACH)) else {
            return Err("a stop".into());
        };
        if !is_kept(alloc, story, &stop)? {
            return Ok(Some(stop));
        }
    }
    Ok(None)
}

// The number of the first such story, and its stop.
fn first_of(alloc: Global, stories: &[Story]) -> Result<Option<(usize, Stop)>, Fail> {
    for number in 0..stories.len() {
        if let Some(stop) = first_broken(alloc, &stories[number])? {
            return Ok(Some((number, stop)));
        }
    }
    Ok(None)
}

// A creation takes 12 calls for a place, and 2 more where its slice gets several; and a commit 6.
const ADDS: &[Story] = &[
    Story {
        on: &[0],
        places: 1,
        before: None,
        base: 18,
        call: Call::Moves(Asked::Add(&[2, 4], 1, 16)),
        calls: 48,
    },
    Story {
        on: &[0],
        places: 1,
        before: None,
        base: 18,
        call: Call::Moves(Asked::Add(&[2], 2, 16)),
        calls: 52,
    },
];

const DROPS: &[Story] = &[
    Story {
        on: &[0, 2, 4],
        places: 1,
        before: None,
        base: 54,
        call: Call::Moves(Asked::Drop(&[4])),
        calls: 32,
    },
    Story {
        on: &[0],
        places: 1,
        before: Some(Asked::Add(&[2], 2, 16)),
        base: 82,
        call: Call::Moves(Asked::Drop(&[2])),
        calls: 28,
    },
];

const FIRSTS: &[Story] = &[
    Story {
        on: &[0, 2, 4],
        places: 1,
        before: None,
        base: 54,
        call: Call::Moves(Asked::First),
        calls: 28,
    },
    Story {
        on: &[0],
        places: 3,
        before: None,
        base: 60,
        call: Call::Moves(Asked::First),
        calls: 28,
    },
    Story {
        on: &[0],
        places: 1,
        before: None,
        base: 18,
        call: Call::Ends,
        calls: 2,
    },
    Story {
        on: &[0, 2, 4],
        places: 1,
        before: Some(Asked::First),
        base: 70,
        call: Call::Ends,
        calls: 2,
    },
];

#[test]
fn additions_stop_at_each_call(rt: HostRuntime) -> Result<(), Fail> {
    let broken = first_of(rt.alloc(), ADDS)?;
    assert!(rt; broken.is_none(), "{broken:?}");
    Ok(())
}

#[test]
fn drops_stop_at_each_call(rt: HostRuntime) -> Result<(), Fail> {
    let broken = first_of(rt.alloc(), DROPS)?;
    assert!(rt; broken.is_none(), "{broken:?}");
    Ok(())
}

#[test]
fn ends_stop_at_each_call(rt: HostRuntime) -> Result<(), Fail> {
    let broken = first_of(rt.alloc(), FIRSTS)?;
    assert!(rt; broken.is_none(), "{broken:?}");
    Ok(())
}
