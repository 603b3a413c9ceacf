//! Worked cases as text: a line for each event, at one place after the other, and for what a boot
//! adopts.
//!
//! | Line | Says |
//! |---|---|
//! | `read 110`, `claim`, `write`, `format`, `wipe` | at each place or seat of the set |
//! | `list 111`, `move 111 11` | a creation or change with one list of places, or with an old one and a new one |
//! | `tell`, `crash`, `lose 0`, `back 0` | of the whole database, or of a drive |
//! | `boot 110` | a crash, and a boot that reads, claims, writes and tells |
//! | `no claim 110` | none of these events may happen now |
//! | `adopts 1 0` | the mark that the last boot adopted |
//!
//! A set is written in hexadecimal, a digit for each drive, drive 0 last.

use crate::act::{Act, Lists, PLACES, Spots, has};
use mdv_base::Mark;
use mdv_quorum::{Core, Event};
use std::alloc::{AllocError, Global};

fn act_at(verb: &str, set: Spots) -> Option<Act> {
    let act = match verb {
        "read" => Act::Read(set),
        "claim" => Act::Claim(set),
        "write" => Act::Write(set),
        "format" => Act::Format(set),
        "wipe" => Act::Wipe(set),
        "list" => Act::List(Lists {
            first: set & PLACES,
            second: None,
            mediators: set & !PLACES,
        }),
        "lose" => Act::Lose(set),
        "back" => Act::Back(set),
        _ => return None,
    };
    Some(act)
}

fn act_alone(verb: &str) -> Option<Act> {
    match verb {
        "tell" => Some(Act::Tell),
        "crash" => Some(Act::Crash),
        _ => None,
    }
}

// The numbers of a line are hexadecimal.
fn number_of(word: Option<&str>) -> Option<u32> {
    let mut number: u32 = 0;
    for digit in word?.chars() {
        number = number.checked_mul(16)?.checked_add(digit.to_digit(16)?)?;
    }
    Some(number)
}

fn act_of(line: &str) -> Option<Act> {
    let mut words = line.split_whitespace();
    let verb = words.next()?;
    let set = number_of(words.next());
    let second = number_of(words.next());
    match set {
        Some(first) if verb == "move" => Some(Act::List(Lists {
            first,
            second,
            mediators: 0,
        })),
        Some(set) => act_at(verb, set),
        None => act_alone(verb),
    }
}

fn mark_of(line: &str) -> Option<Mark> {
    let mut words = line.split_whitespace();
    let (boot, count) = (number_of(words.next()), number_of(words.next()));
    match (boot, count) {
        (Some(boot), Some(count)) => Some(Mark {
            boot: u64::from(boot),
            count: u64::from(count),
        }),
        _ => None,
    }
}

// Whether the event may happen; then it does.
fn happens(alloc: Global, core: &mut Core, event: Event) -> Result<bool, AllocError> {
    if !core.may(alloc, &event) || !core.has_room(&event) {
        return Ok(false);
    }
    core.step(alloc, event)?;
    Ok(true)
}

fn happens_at(alloc: Global, core: &mut Core, act: Act, index: u32) -> Result<bool, AllocError> {
    let event = act.event(alloc, index)?;
    happens(alloc, core, event)
}

// Whether each event of the act may happen where it happens, and did.
fn is_played(alloc: Global, core: &mut Core, act: Act) -> Result<bool, AllocError> {
    for index in 0..32 {
        if has(act.spots(), index) && !happens_at(alloc, core, act, index)? {
            return Ok(false);
        }
    }
    Ok(true)
}

fn is_refused_at(alloc: Global, core: &Core, act: Act, index: u32) -> Result<bool, AllocError> {
    let event = act.event(alloc, index)?;
    Ok(!core.may(alloc, &event))
}

// Whether no event of the act may happen.
fn is_refused(alloc: Global, core: &Core, act: Act) -> Result<bool, AllocError> {
    for index in 0..32 {
        if has(act.spots(), index) && !is_refused_at(alloc, core, act, index)? {
            return Ok(false);
        }
    }
    Ok(true)
}

fn boots(alloc: Global, core: &mut Core, on: Spots) -> Result<bool, AllocError> {
    let acts = [
        Act::Crash,
        Act::Read(on),
        Act::Claim(on),
        Act::Write(on),
        Act::Tell,
    ];
    for act in acts {
        if !is_played(alloc, core, act)? {
            return Ok(false);
        }
    }
    Ok(true)
}

// What a line says; none of a line that isn't of the form.
enum Said {
    Adopts(Mark),
    Boots(Spots),
    Refuses(Act),
    Plays(Act),
}

fn meaning(line: &str) -> Option<Said> {
    if let Some(adopted) = line.strip_prefix("adopts ") {
        return Some(Said::Adopts(mark_of(adopted)?));
    }
    if let Some(set) = line.strip_prefix("boot ") {
        return Some(Said::Boots(number_of(Some(set))?));
    }
    match line.strip_prefix("no ") {
        Some(refused) => Some(Said::Refuses(act_of(refused)?)),
        None => Some(Said::Plays(act_of(line)?)),
    }
}

fn is_so(alloc: Global, core: &mut Core, line: &str) -> Result<bool, AllocError> {
    match meaning(line) {
        Some(Said::Adopts(mark)) => Ok(core.adopted() == Some(mark)),
        Some(Said::Boots(on)) => boots(alloc, core, on),
        Some(Said::Refuses(act)) => is_refused(alloc, core, act),
        Some(Said::Plays(act)) => is_played(alloc, core, act),
        None => Ok(false),
    }
}

// The first line of the row that isn't so.
fn wrong_line<'a>(
    alloc: Global,
    core: &mut Core,
    row: &'a str,
) -> Result<Option<&'a str>, AllocError> {
    for line in row.lines() {
        if !is_so(alloc, core, line.trim())? {
            return Ok(Some(line));
        }
    }
    Ok(None)
}

/// The first line that isn't so of the rows, one after the other, from nothing.
pub(crate) fn first_wrong<'a>(
    alloc: Global,
    set: bool,
    rows: &[&'a str],
) -> Result<Option<&'a str>, AllocError> {
    let mut core = Core::new(alloc, set);
    for row in rows {
        let wrong = wrong_line(alloc, &mut core, row)?;
        if wrong.is_some() {
            return Ok(wrong);
        }
    }
    Ok(None)
}
