use crate::Draws;
use crate::act::{Act, Lists, PLACES, Spots, bit, has, of_drive, spot_at};
use crate::world::World;
use mdv_quorum::{Core, Event, SlotEnd};
use std::alloc::{AllocError, Global};
use std::test::Fail;

// Each of them with three chances of four.
fn drawn_set(draws: &mut Draws, of: Spots) -> Spots {
    (draws.below(1 << 28) | draws.below(1 << 28)) & of
}

// Some of the places, never none.
fn drawn_places(draws: &mut Draws, all: Spots) -> Spots {
    match draws.below(1 << 28) & all & PLACES {
        0 => all & PLACES,
        places => places,
    }
}

// On the way to these places, or no longer on the way to others.
fn moved(last: Option<Lists>, places: Spots) -> Lists {
    let Some(last) = last else {
        return Lists {
            first: places,
            second: None,
            mediators: 0,
        };
    };
    Lists {
        first: last.second.unwrap_or(last.first),
        second: if last.second.is_none() {
            Some(places)
        } else {
            None
        },
        mediators: last.mediators,
    }
}

// No longer on the way from other places.
fn settled(last: Option<Lists>, all: Spots) -> Lists {
    match last {
        Some(last) if last.second.is_none() => last,
        _ => moved(last, all),
    }
}

// As before, or the places change, or a mediator comes or goes.
fn drawn_lists(draws: &mut Draws, all: Spots, last: Option<Lists>) -> Lists {
    let places = drawn_places(draws, all);
    let seat = bit(16 + 4 * draws.below(3)) & all;
    let Some(last) = last else {
        return moved(None, places);
    };
    match draws.below(5) {
        0 | 1 => moved(Some(last), places),
        2 => Lists {
            mediators: last.mediators ^ seat,
            ..last
        },
        _ => last,
    }
}

fn drawn_act(draws: &mut Draws, all: Spots, last: Option<Lists>) -> Act {
    let some = drawn_set(draws, all);
    match draws.below(20) {
        0..=3 => Act::Read(some),
        4..=6 => Act::Claim(some),
        7..=10 => Act::Write(some),
        11..=13 => Act::Tell,
        14 | 15 => Act::List(drawn_lists(draws, all, last)),
        16 => Act::Format(some & !PLACES),
        17 | 18 => Act::Back(draws.below(7)),
        _ => drawn_end(draws, some),
    }
}

fn drawn_end(draws: &mut Draws, some: Spots) -> Act {
    match draws.below(8) {
        0 => Act::Wipe(some),
        1 => Act::Close(some),
        2 | 3 => Act::Lose(draws.below(7)),
        _ => Act::Crash,
    }
}

// Whether the core and the plain world say the same of what a boot may do at this place or seat.
fn agree_at(alloc: Global, core: &Core, world: &World, index: u32) -> bool {
    let spot = spot_at(index);
    if world.is_reading() {
        return core.may(alloc, &Event::Read(spot)) == world.may_read(index)
            && core.may(alloc, &Event::Claimed(spot)) == world.may_claim(index);
    }
    let slotted = Event::Slotted(spot, SlotEnd::Holds);
    !world.is_claiming() || core.may(alloc, &slotted) == world.may_write(index)
}

// The first place or seat at which they don't.
fn first_apart(alloc: Global, core: &Core, world: &World) -> Option<u32> {
    for index in 0..28 {
        if !agree_at(alloc, core, world, index) {
            return Some(index);
        }
    }
    None
}

// They also agree on what was adopted and what may be told, and a boot keeps what was told.
fn agree(alloc: Global, core: &Core, world: &World) -> bool {
    core.adopted() == world.adopted_mark()
        && core.may(alloc, &Event::Told) == world.may_tell()
        && world.keeps_what_was_told()
        && first_apart(alloc, core, world).is_none()
}

// The core beside the plain world, how many events happened to both, behind how many of them a boot
// had met a stale vote, and whether they agreed behind each of them.
#[derive(Drop)]
struct Pair {
    core: Core,
    world: World,
    events: u32,
    stale: u32,
    agrees: bool,
}

fn new_pair(alloc: Global, set: bool) -> Result<Pair, AllocError> {
    Ok(Pair {
        core: Core::new(alloc, set),
        world: World::new(alloc, set)?,
        events: 0,
        stale: 0,
        agrees: true,
    })
}

// An event that may happen, at the core and in the plain world.
fn step_both(
    alloc: Global,
    pair: &mut Pair,
    (act, index): (Act, u32),
    event: Event,
) -> Result<(), AllocError> {
    if !pair.core.may(alloc, &event) || !pair.core.has_room(&event) {
        return Ok(());
    }
    pair.core.step(alloc, event)?;
    pair.world.step(alloc, act, index)?;
    pair.events = pair.events.saturating_add(1);
    if pair.world.is_reading() && pair.world.meets_stale_vote() {
        pair.stale = pair.stale.saturating_add(1);
    }
    pair.agrees = pair.agrees && agree(alloc, &pair.core, &pair.world);
    Ok(())
}

fn play_at(alloc: Global, pair: &mut Pair, act: Act, index: u32) -> Result<(), AllocError> {
    let event = act.event(alloc, index)?;
    step_both(alloc, pair, (act, index), event)
}

// Each event of the act that may happen.
fn play_both(alloc: Global, pair: &mut Pair, act: Act) -> Result<(), AllocError> {
    for index in 0..32 {
        if has(act.spots(), index) {
            play_at(alloc, pair, act, index)?;
        }
    }
    Ok(())
}

// An act that is drawn; new places are mostly formatted before they are written.
fn play_next(
    alloc: Global,
    draws: &mut Draws,
    all: Spots,
    pair: &mut Pair,
) -> Result<(), AllocError> {
    let act = drawn_act(draws, all, pair.world.lists());
    play_both(alloc, pair, act)?;
    if let Act::List(_) = act {
        let places = drawn_set(draws, all & PLACES);
        play_both(alloc, pair, Act::Format(places))?;
    }
    Ok(())
}

// What was seen of worlds: so many events, boots and stale votes, behind each of which both agreed or not.
#[derive(Clone, Copy, Debug)]
struct Seen {
    events: u32,
    boots: u32,
    stale: u32,
    agrees: bool,
}

const NOTHING: Seen = Seen {
    events: 0,
    boots: 0,
    stale: 0,
    agrees: true,
};

fn both(one: Seen, other: Seen) -> Seen {
    Seen {
        events: one.events.saturating_add(other.events),
        boots: one.boots.saturating_add(other.boots),
        stale: one.stale.saturating_add(other.stale),
        agrees: one.agrees && other.agrees,
    }
}

fn outcome(pair: &Pair) -> Seen {
    Seen {
        events: pair.events,
        boots: pair.world.boots(),
        stale: pair.stale,
        agrees: pair.agrees,
    }
}

fn play_turns(
    alloc: Global,
    draws: &mut Draws,
    all: Spots,
    pair: &mut Pair,
) -> Result<Seen, AllocError> {
    for _ in 0..400 {
        play_next(alloc, draws, all, pair)?;
    }
    Ok(outcome(pair))
}

// A world of these places and seats.
fn play_drawn(alloc: Global, draws: &mut Draws, all: Spots) -> Result<Seen, AllocError> {
    let set = all > PLACES || draws.below(2) == 1;
    let mut pair = new_pair(alloc, set)?;
    play_turns(alloc, draws, all, &mut pair)
}

fn play_seed(alloc: Global, seed: u64, all: Spots) -> Result<Seen, AllocError> {
    let mut draws = Draws::new(seed);
    play_drawn(alloc, &mut draws, all)
}

fn play_worlds(alloc: Global, all: Spots) -> Result<Seen, AllocError> {
    let mut seen = NOTHING;
    for seed in 1..5 {
        seen = both(seen, play_seed(alloc, seed, all)?);
    }
    Ok(seen)
}

fn play_acts(alloc: Global, pair: &mut Pair, acts: &[Act]) -> Result<(), AllocError> {
    for act in acts {
        play_both(alloc, pair, *act)?;
    }
    Ok(())
}

// A table of these lists is written at the places that are here.
fn play_lists(alloc: Global, pair: &mut Pair, lists: Lists, here: Spots) -> Result<(), AllocError> {
    play_acts(
        alloc,
        pair,
        &[
            Act::List(lists),
            Act::Format(here),
            Act::Write(here),
            Act::Tell,
        ],
    )
}

// Places are dropped while one drive is away.
fn play_drop(
    alloc: Global,
    draws: &mut Draws,
    all: Spots,
    here: Spots,
    pair: &mut Pair,
) -> Result<(), AllocError> {
    let lists = moved(pair.world.lists(), drawn_places(draws, all));
    play_lists(alloc, pair, lists, here)?;
    let lists = settled(pair.world.lists(), all);
    play_lists(alloc, pair, lists, here)
}

// They are used again, and some have a table by the time the run stops.
fn play_use(
    alloc: Global,
    draws: &mut Draws,
    all: Spots,
    here: Spots,
    pair: &mut Pair,
) -> Result<(), AllocError> {
    let lists = moved(pair.world.lists(), all);
    let took = drawn_places(draws, all) & draws.below(1 << 28) & here;
    play_acts(
        alloc,
        pair,
        &[
            Act::List(lists),
            Act::Format(here),
            Act::Write(took),
            Act::Crash,
        ],
    )
}

// That drive is back and another is away: a boot reads some of the rest, and one behind it reads all.
fn play_boots(
    alloc: Global,
    draws: &mut Draws,
    all: Spots,
    away: u32,
    pair: &mut Pair,
) -> Result<(), AllocError> {
    let other = draws.below(4);
    let some = drawn_set(draws, all);
    play_acts(
        alloc,
        pair,
        &[
            Act::Back(away),
            Act::Lose(other),
            Act::Read(some),
            Act::Claim(some),
            Act::Crash,
            Act::Back(other),
            Act::Read(all),
            Act::Claim(all),
            Act::Write(all),
            Act::Tell,
        ],
    )
}

fn play_round(
    alloc: Global,
    draws: &mut Draws,
    all: Spots,
    pair: &mut Pair,
) -> Result<(), AllocError> {
    let away = draws.below(4);
    let here = all & !of_drive(away);
    play_both(alloc, pair, Act::Lose(away))?;
    play_drop(alloc, draws, all, here, pair)?;
    play_use(alloc, draws, all, here, pair)?;
    play_boots(alloc, draws, all, away, pair)?;
    let lists = settled(pair.world.lists(), all);
    play_lists(alloc, pair, lists, all)
}

// A world of these places, in which they are dropped and used again.
fn play_rounds(alloc: Global, seed: u64, all: Spots) -> Result<Seen, AllocError> {
    let mut draws = Draws::new(seed);
    let mut pair = new_pair(alloc, draws.below(2) == 1)?;
    play_lists(alloc, &mut pair, moved(None, all), all)?;
    for _ in 0..30 {
        play_round(alloc, &mut draws, all, &mut pair)?;
    }
    Ok(outcome(&pair))
}

fn play_reuse(alloc: Global, all: Spots) -> Result<Seen, AllocError> {
    let mut seen = NOTHING;
    for seed in 1..5 {
        seen = both(seen, play_rounds(alloc, seed, all)?);
    }
    Ok(seen)
}

// One to five places, and mediators beside them.
const DRAWN: &[Spots] = &[
    0x1, 0x11, 0x111, 0x1111, 0x1113, 0x11_0011, 0x111_0011, 0x111_1113,
];

#[test]
fn boots_agree_with_a_plain_world(rt: HostRuntime) -> Result<(), Fail> {
    for all in DRAWN {
        let seen = play_worlds(rt.alloc(), *all)?;
        let is_well = seen.agrees && seen.events > 300 && seen.boots > 4;
        assert!(rt; is_well, "{all:x}: {seen:?}");
    }
    Ok(())
}

// Three to five places, on three or four drives.
const REUSED: &[Spots] = &[0x111, 0x1111, 0x1113];

#[test]
fn boots_agree_where_dropped_places_are_used_again(rt: HostRuntime) -> Result<(), Fail> {
    for all in REUSED {
        let seen = play_reuse(rt.alloc(), *all)?;
        let is_well = seen.agrees && seen.boots > 4 && seen.stale > 4;
        assert!(rt; is_well, "{all:x}: {seen:?}");
    }
    Ok(())
}
