//! Creations, commits and boots that are stopped at each of their calls, crashes behind them, and the boots that follow.
use mdv_store_tests::{
    Boot, Committed, Drives, End, Found, Ground, Host, Image, Layout, Made, has, local_on,
};
use std::alloc::Global;
use std::test::Fail;

// What is stopped. Database 8 has three places, on three drives or on one slice.
#[derive(Clone, Copy)]
enum Call {
    // Its creation, on places of database 7 or on blank ones.
    Create { older: bool },
    // The commit of table 1.
    Commit,
    // A boot behind that commit, which the places on these drives missed.
    Boot { missed: Drives },
}

// It makes so many calls where none fails, behind so many.
#[derive(Clone, Copy)]
struct Story {
    call: Call,
    on: &'static [usize],
    count: u8,
    base: u64,
    calls: u64,
}

// How a call is stopped: it alone fails, or from then on each one on a drive, or each one.
#[derive(Clone, Copy)]
enum Way {
    Once,
    Drive(u32),
    Always,
}

// The call, counted from the first one of those that are stopped; the image of the crash behind; and the drives of the first boot behind that.
#[derive(Clone, Copy)]
struct Stop {
    number: u64,
    way: Way,
    image: Image,
    first: Drives,
}

const IMAGES: &[Image] = &[Image::Stable, Image::Last, Image::Drawn(1), Image::Drawn(2)];

const ALL: Drives = 0b111;

// The drives of the first boot, and of those behind it.
const FIRST_BOOTS: &[Drives] = &[0b011, 0b110, 0b101, ALL];

const NEXT_BOOTS: &[Drives] = &[0b011, 0b100, 0b110, 0b010, 0b101, 0, ALL, 0b001];

const PLACES: u32 = 3;

// For each call each way with each first boot, and so with each image.
const STOPS: u64 = 12;

// One of so many is tried.
const EACH: u64 = 5;

fn way_at(number: u64, index: u64) -> Way {
    match index {
        0 => Way::Once,
        1 => Way::Always,
        _ => Way::Drive((number % 3) as u32),
    }
}

fn stop_at(index: u64) -> Option<Stop> {
    let number = index / STOPS;
    let (way, first) = (index % 3, index / 3 % 4);
    let image = (number % 4 + way + first) % 4;
    Some(Stop {
        number,
        way: way_at(number, way),
        image: *IMAGES.get(image as usize)?,
        first: *FIRST_BOOTS.get(first as usize)?,
    })
}

// What boots may do from here on.
#[derive(Clone, Copy)]
struct Promise {
    // The tables that they may adopt: of which database, and by which number.
    tables: &'static [(u64, u16)],
    // Each boot with a majority adopts one.
    kept: bool,
    // Each place has a replica of the database, so that this is so once one was adopted.
    whole: bool,
    // Each place shows a table.
    shown: bool,
    // What was adopted last.
    adopted: Option<Found>,
}

const NOTHING: &[(u64, u16)] = &[];

const OLDER: &[(u64, u16)] = &[(7, 0)];

const FIRST: &[(u64, u16)] = &[(8, 0)];

const NEXT_ONE: &[(u64, u16)] = &[(8, 1)];

const BOTH: &[(u64, u16)] = &[(8, 0), (8, 1)];

impl Promise {
    fn is_settled(&self) -> bool {
        self.kept || self.whole && self.adopted.is_some()
    }

    fn allows(&self, found: Found) -> bool {
        let follows = match self.adopted {
            None => true,
            Some(last) => {
                last.fresh == found.fresh && last.table == found.table && last.boot < found.boot
            }
        };
        follows && found.places == 3 && self.tables.contains(&(found.fresh, found.table))
    }

    // Whether a boot may end so where so many places are on drives that are up.
    fn may_end(&self, up: u32, end: End) -> bool {
        let majority = 2 <= up;
        match end {
            End::Adopted(found) => majority && self.allows(found),
            End::NoQuorum(readable, 2) => {
                !self.tables.is_empty()
                    && !(majority && self.is_settled())
                    && readable < 2
                    && (readable == up || !self.is_settled())
            }
            End::Empty => up == 0 || !self.is_settled() || !majority && !self.shown,
            _ => false,
        }
    }
}

// How many of the places are on these drives.
fn places_on(story: &Story, drives: Drives) -> u32 {
    if story.count == 1 {
        (drives & ALL).count_ones()
    } else if has(drives, 0) {
        PLACES
    } else {
        0
    }
}

fn make(
    alloc: Global,
    ground: &Ground,
    host: &mut Host,
    story: &Story,
    fresh: u64,
) -> Result<Made, Fail> {
    host.create(alloc, &ground.own, fresh, story.on, story.count)
}

// What comes before. Whether it came to what it has to.
fn is_ready(alloc: Global, ground: &Ground, host: &mut Host, story: &Story) -> Result<bool, Fail> {
    match story.call {
        Call::Create { older: false } => Ok(true),
        Call::Create { older: true } => Ok(make(alloc, ground, host, story, 7)? == Made::Done),
        Call::Commit => Ok(make(alloc, ground, host, story, 8)? == Made::Done),
        Call::Boot { missed } => {
            let made = make(alloc, ground, host, story, 8)?;
            host.lose(missed);
            let committed = host.commit(alloc, 1)?;
            host.crash(alloc, Image::Stable)?;
            host.bring_back(missed);
            let told = missed.count_ones() < 2;
            Ok(made == Made::Done && (committed == Committed::Done) == told)
        }
    }
}

fn arm(host: &mut Host, story: &Story, stop: &Stop) -> Result<(), Fail> {
    let number = story.base.saturating_add(stop.number);
    match stop.way {
        Way::Once => host.fail_call(number)?,
        Way::Drive(drive) => host.lose_at(drive, number)?,
        Way::Always => host.stop_after(stop.number),
    }
    Ok(())
}

// What the answer to a creation promises, where the tables of an older database may be found still; nothing, where it may not be.
fn of_creation(made: Made, older: bool) -> Option<Promise> {
    let (tables, kept, whole) = match made {
        Made::Done => (FIRST, true, true),
        Made::Failed if older => (OLDER, false, false),
        Made::Failed => (NOTHING, false, false),
        Made::Lost(0 | 1, PLACES) => (FIRST, false, true),
        _ => return None,
    };
    Some(Promise {
        tables,
        kept,
        whole,
        shown: false,
        adopted: None,
    })
}

fn of_commit(committed: Committed) -> Option<Promise> {
    let tables = match committed {
        Committed::Done => NEXT_ONE,
        Committed::Lost(0 | 1, PLACES) => BOTH,
        _ => return None,
    };
    Some(Promise {
        tables,
        kept: true,
        whole: true,
        shown: true,
        adopted: None,
    })
}

fn of_boot(end: End, missed: Drives) -> Option<Promise> {
    let promise = Promise {
        tables: if missed.count_ones() < 2 {
            NEXT_ONE
        } else {
            BOTH
        },
        kept: true,
        whole: true,
        shown: true,
        adopted: None,
    };
    match end {
        End::Adopted(found) if promise.allows(found) => Some(Promise {
            adopted: Some(found),
            ..promise
        }),
        End::Empty | End::NoQuorum(0 | 1, 2) | End::Lost(0 | 1, PLACES) => Some(promise),
        _ => None,
    }
}

// The call, and what its answer promises where the call of this number is the first that is stopped. Where none is, it is done.
fn promise_of(
    alloc: Global,
    ground: &Ground,
    host: &mut Host,
    story: &Story,
    number: u64,
) -> Result<Option<Promise>, Fail> {
    let (promise, is_done) = match story.call {
        Call::Create { older } => {
            let made = make(alloc, ground, host, story, 8)?;
            // of several on a slice the first master is blanked and synced first, and nothing is found there then
            let hides = 1 < story.count && 2 <= number;
            (of_creation(made, older && !hides), made == Made::Done)
        }
        Call::Commit => {
            let committed = host.commit(alloc, 1)?;
            (of_commit(committed), committed == Committed::Done)
        }
        Call::Boot { missed } => {
            let boot = host.boot(alloc)?;
            (of_boot(boot.end, missed), boot.clean)
        }
    };
    Ok(promise.filter(|_| number < story.calls || is_done))
}

// Whether a boot with these drives, on which so many places are, did what it may. What it adopted makes the promise narrower.
fn is_as(promise: &mut Promise, drives: Drives, up: u32, boot: Boot) -> bool {
    let may = promise.may_end(up, boot.end);
    if let End::Adopted(found) = boot.end {
        promise.adopted = Some(found);
    }
    may && boot.up == drives && boot.clean == (drives == ALL)
}

// A boot with just these drives, each of which holds what it was given. It keeps the promise, and has written nothing where it adopted nothing.
fn boots_with(
    alloc: Global,
    host: &mut Host,
    story: &Story,
    drives: Drives,
    promise: &mut Promise,
) -> Result<bool, Fail> {
    host.bring_back(ALL);
    host.lose(ALL & !drives);
    let up = places_on(story, drives);
    if 2 <= up && promise.is_settled() {
        return Ok(is_as(promise, drives, up, host.boot(alloc)?));
    }
    let (boot, is_same) = host.boot_watched(alloc)?;
    let is_quiet = matches!(boot.end, End::Adopted(_)) || is_same;
    Ok(is_as(promise, drives, up, boot) && is_quiet)
}

// The boots behind the first one.
fn next_boots(
    alloc: Global,
    host: &mut Host,
    story: &Story,
    promise: &mut Promise,
) -> Result<bool, Fail> {
    for drives in NEXT_BOOTS {
        if !boots_with(alloc, host, story, *drives, promise)? {
            return Ok(false);
        }
    }
    Ok(true)
}

// The crash behind the stop, and then all boots.
fn boots_keep(
    alloc: Global,
    host: &mut Host,
    story: &Story,
    stop: &Stop,
    promise: &mut Promise,
) -> Result<bool, Fail> {
    host.crash(alloc, stop.image)?;
    let first = boots_with(alloc, host, story, stop.first, promise)?;
    Ok(first && next_boots(alloc, host, story, promise)?)
}

fn keeps(
    alloc: Global,
    ground: &Ground,
    host: &mut Host,
    story: &Story,
    stop: &Stop,
) -> Result<bool, Fail> {
    if !is_ready(alloc, ground, host, story)? {
        return Ok(false);
    }
    arm(host, story, stop)?;
    match promise_of(alloc, ground, host, story, stop.number)? {
        Some(mut promise) => boots_keep(alloc, host, story, stop, &mut promise),
        None => Ok(false),
    }
}

// Whether all boots behind this stop do what they have to.
fn is_kept(alloc: Global, story: &Story, stop: &Stop) -> Result<bool, Fail> {
    let ground = local_on(Layout::Three)?;
    let mut host = Host::new(alloc, ground.layout.text(), ground.own)?;
    keeps(alloc, &ground, &mut host, story, stop)
}

// The number of the first stop of the story behind which something else happens. One of so many is tried.
fn first_broken(alloc: Global, story: &Story) -> Result<Option<u64>, Fail> {
    for turn in 0..story.calls.saturating_add(1).saturating_mul(STOPS) / EACH {
        let number = turn.saturating_mul(EACH);
        let Some(stop) = stop_at(number) else {
            return Err("a stop".into());
        };
        if !is_kept(alloc, story, &stop)? {
            return Ok(Some(number));
        }
    }
    Ok(None)
}

// The number of the first such story, and of its stop.
fn first_of(alloc: Global, stories: &[Story]) -> Result<Option<(usize, u64)>, Fail> {
    for number in 0..stories.len() {
        if let Some(stop) = first_broken(alloc, &stories[number])? {
            return Ok(Some((number, stop)));
        }
    }
    Ok(None)
}

const ON_DRIVES: &[usize] = &[0, 1, 2];

const ON_ONE: &[usize] = &[0];

const CREATIONS: &[Story] = &[
    Story {
        call: Call::Create { older: false },
        on: ON_DRIVES,
        count: 1,
        base: 0,
        calls: 36,
    },
    Story {
        call: Call::Create { older: true },
        on: ON_DRIVES,
        count: 1,
        base: 36,
        calls: 36,
    },
    Story {
        call: Call::Create { older: false },
        on: ON_ONE,
        count: 3,
        base: 0,
        calls: 42,
    },
    Story {
        call: Call::Create { older: true },
        on: ON_ONE,
        count: 3,
        base: 42,
        calls: 42,
    },
];

const COMMITS: &[Story] = &[
    Story {
        call: Call::Commit,
        on: ON_DRIVES,
        count: 1,
        base: 36,
        calls: 18,
    },
    Story {
        call: Call::Commit,
        on: ON_ONE,
        count: 3,
        base: 42,
        calls: 18,
    },
];

const BOOTS: &[Story] = &[
    Story {
        call: Call::Boot { missed: 0 },
        on: ON_DRIVES,
        count: 1,
        base: 54,
        calls: 39,
    },
    Story {
        call: Call::Boot { missed: 0b100 },
        on: ON_DRIVES,
        count: 1,
        base: 49,
        calls: 38,
    },
    Story {
        call: Call::Boot { missed: 0b110 },
        on: ON_DRIVES,
        count: 1,
        base: 44,
        calls: 37,
    },
    Story {
        call: Call::Boot { missed: 0 },
        on: ON_ONE,
        count: 3,
        base: 60,
        calls: 41,
    },
];

#[test]
fn creations_stop_at_each_call(rt: HostRuntime) -> Result<(), Fail> {
    let broken = first_of(rt.alloc(), CREATIONS)?;
    assert!(rt; broken.is_none(), "{broken:?}");
    Ok(())
}

#[test]
fn commits_stop_at_each_call(rt: HostRuntime) -> Result<(), Fail> {
    let broken = first_of(rt.alloc(), COMMITS)?;
    assert!(rt; broken.is_none(), "{broken:?}");
    Ok(())
}

#[test]
fn boots_stop_at_each_call(rt: HostRuntime) -> Result<(), Fail> {
    let broken = first_of(rt.alloc(), BOOTS)?;
    assert!(rt; broken.is_none(), "{broken:?}");
    Ok(())
}
