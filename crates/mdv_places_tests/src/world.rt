//! A plain world beside the store: what each place of a database holds, and what a boot, a commit, a change of places or the end comes to, call by call. It knows
//! of no block.
use crate::host::{Asked, Moved};
use mdv_store_tests::{Committed, Drives, End, Found, bit, has};

/// How calls fail from now on, each by its number from now on: none does; that one; each from that one on; or each on a drive.
#[derive(Clone, Copy, Debug)]
pub(crate) enum Fails {
    Never,
    Once(u64),
    From(u64),
    OnDrive(u32, u64),
}

// A place by its line and its number there. The lines 2 k and 2 k + 1 are on drive k.
#[derive(Clone, Copy, PartialEq, Eq)]
struct Spot {
    line: u8,
    number: u8,
}

const MOST: usize = 30;

const NOWHERE: Spot = Spot { line: 0, number: 0 };

#[derive(Clone, Copy)]
struct List {
    spots: [Spot; MOST],
    len: usize,
}

const NONE: List = List {
    spots: [NOWHERE; MOST],
    len: 0,
};

// A table, by its number, with its lists, the first of which is empty where it has one alone; and its mark.
#[derive(Clone, Copy)]
struct Written {
    boot: u64,
    count: u64,
    table: u16,
    old: List,
    new: List,
}

// What lies at a place: a master, which tells how many places the line has, a claim, and the newest table.
#[derive(Clone, Copy)]
struct Held {
    master: bool,
    places: u32,
    claim: u64,
    shown: Option<Written>,
}

const BLANK: Held = Held {
    master: false,
    places: 0,
    claim: 0,
    shown: None,
};

const LINES: usize = 10;

const ON_LINE: usize = 3;

const SPOTS: usize = 30;

// What a write does.
#[derive(Clone, Copy)]
enum Effect {
    Blanks,
    Heads(u64),
    Masters(u32),
    Opens(Written),
    Nothing,
}

// The open database: its table, and its active places.
#[derive(Clone, Copy)]
struct Open {
    last: Written,
    active: List,
}

/// What the places hold stably, and what was written last; which drives are lost; how calls fail; and what is open.
#[derive(Clone, Copy)]
pub(crate) struct World {
    stable: [Held; SPOTS],
    last: [Held; SPOTS],
    lost: Drives,
    fails: Fails,
    calls: u64,
    open: Option<Open>,
}

fn drive_of(spot: Spot) -> u32 {
    u32::from(spot.line / 2).min(31)
}

fn line_of(line: usize) -> u8 {
    line.min(255) as u8
}

fn index_of(spot: Spot) -> usize {
    usize::from(spot.line)
        .saturating_mul(ON_LINE)
        .saturating_add(usize::from(spot.number))
}

fn is_newer(a: &Written, b: &Written) -> bool {
    b.boot < a.boot || b.boot == a.boot && b.count < a.count
}

impl List {
    fn as_slice(&self) -> &[Spot] {
        &self.spots[..self.len.min(MOST)]
    }

    fn count(&self) -> u32 {
        self.len.min(MOST) as u32
    }

    fn has(&self, spot: Spot) -> bool {
        self.as_slice().iter().any(|other| *other == spot)
    }

    fn push(&mut self, spot: Spot) {
        if let Some(place) = self.spots.get_mut(self.len) {
            *place = spot;
            self.len = self.len.saturating_add(1);
        }
    }

    fn push_all(&mut self, other: &List) {
        for spot in other.as_slice() {
            if !self.has(*spot) {
                self.push(*spot);
            }
        }
    }

    fn push_line(&mut self, line: u8, places: u8) {
        for number in 0..places {
            self.push(Spot { line, number });
        }
    }

    fn on_lines(on: &[usize], places: u8) -> List {
        let mut list = NONE;
        for line in on {
            list.push_line(line_of(*line), places);
        }
        list
    }

    fn within(&self, other: &List) -> List {
        let mut list = NONE;
        for spot in self.as_slice() {
            if other.has(*spot) {
                list.push(*spot);
            }
        }
        list
    }

    fn without(&self, other: &List) -> List {
        let mut list = NONE;
        for spot in self.as_slice() {
            if !other.has(*spot) {
                list.push(*spot);
            }
        }
        list
    }

    fn off_drive(&self, drive: u32) -> List {
        let mut list = NONE;
        for spot in self.as_slice() {
            if drive_of(*spot) != drive {
                list.push(*spot);
            }
        }
        list
    }

    fn on_line(&self, line: u8) -> List {
        let mut list = NONE;
        for spot in self.as_slice() {
            if spot.line == line {
                list.push(*spot);
            }
        }
        list
    }

    fn off_lines(&self, on: &[usize]) -> List {
        let mut list = NONE;
        for spot in self.as_slice() {
            if !on.contains(&usize::from(spot.line)) {
                list.push(*spot);
            }
        }
        list
    }
}

impl Written {
    // All its places, once each.
    fn each(&self) -> List {
        let mut all = self.old;
        all.push_all(&self.new);
        all
    }

    // The numbers of the first list that isn't covered by these places: by half of it, or by more.
    fn short(&self, by: &List, more: bool) -> Option<(u32, u32)> {
        short_in(&self.old, by, more).or(short_in(&self.new, by, more))
    }
}

fn short_in(list: &List, by: &List, more: bool) -> Option<(u32, u32)> {
    let twice = list.within(by).count().saturating_mul(2);
    let listed = list.count();
    let is_enough = listed < twice || !more && listed == twice || listed == 0;
    if is_enough {
        None
    } else {
        Some((twice / 2, listed))
    }
}

// The list that comes.
fn list_after(asked: &Asked, list: &List) -> List {
    match *asked {
        Asked::Add(on, places, _) => {
            let mut next = *list;
            next.push_all(&List::on_lines(on, places));
            next
        }
        Asked::Drop(on) => list.off_lines(on),
        Asked::First => {
            let mut next = NONE;
            if let Some(spot) = list.as_slice().first() {
                next.push(*spot);
            }
            next
        }
    }
}

// The dropped places as they are wiped: line after line, and of each line the last one first.
fn wiped_in_order(list: &List, next: &List) -> List {
    let gone = list.without(next);
    let mut order = NONE;
    for first in gone.as_slice() {
        let line = gone.on_line(first.line).without(&order);
        for back in line.as_slice().iter().rev() {
            order.push(*back);
        }
    }
    order
}

impl World {
    /// A database that was just created, with so many places on each of these lines.
    pub(crate) fn new(on: &[usize], places: u8) -> World {
        let list = List::on_lines(on, places);
        let created = Written {
            boot: 1,
            count: 0,
            table: 0,
            old: NONE,
            new: list,
        };
        let mut held = [BLANK; SPOTS];
        for spot in list.as_slice() {
            if let Some(place) = held.get_mut(index_of(*spot)) {
                *place = Held {
                    master: true,
                    places: u32::from(places),
                    claim: 1,
                    shown: Some(created),
                };
            }
        }
        World {
            stable: held,
            last: held,
            lost: 0,
            fails: Fails::Never,
            calls: 0,
            open: Some(Open {
                last: created,
                active: list,
            }),
        }
    }

    pub(crate) fn is_open(&self) -> bool {
        self.open.is_some()
    }

    pub(crate) fn lost(&self) -> Drives {
        self.lost
    }

    /// The lines that have a listed place, one that is listed there twice once, and how many places are listed; of the open database.
    pub(crate) fn has_on(&self, line: usize) -> bool {
        match &self.open {
            Some(open) => open
                .last
                .each()
                .as_slice()
                .iter()
                .any(|spot| usize::from(spot.line) == line),
            None => false,
        }
    }

    pub(crate) fn listed(&self) -> u32 {
        self.open.map_or(0, |open| open.last.new.count())
    }

    /// Whether its table has one list, each place of which is active.
    pub(crate) fn is_whole(&self) -> bool {
        self.open.map_or(
            false,
            |open| open.last.old.len == 0 && open.active.len == open.last.new.len,
        )
    }

    pub(crate) fn has_one_list(&self) -> bool {
        self.open.map_or(false, |open| open.last.old.len == 0)
    }

    pub(crate) fn fail(&mut self, fails: Fails) {
        self.fails = fails;
        self.calls = 0;
    }

    pub(crate) fn lose(&mut self, drives: Drives) {
        self.lost |= drives;
    }

    pub(crate) fn back(&mut self, drives: Drives) {
        self.lost &= !drives;
    }

    /// A crash. What wasn't synced is there on these drives alone. No call fails from then on, but on lost drives.
    pub(crate) fn crash(&mut self, kept: Drives) {
        for line in 0..LINES {
            if !has(kept, (line / 2) as u32) {
                self.forget(line);
            }
        }
        self.stable = self.last;
        self.fails = Fails::Never;
        self.open = None;
    }

    fn forget(&mut self, line: usize) {
        for number in 0..ON_LINE {
            let index = line.saturating_mul(ON_LINE).saturating_add(number);
            if let (Some(last), Some(stable)) = (self.last.get_mut(index), self.stable.get(index)) {
                *last = *stable;
            }
        }
    }

    // Whether the next call, on this drive, passes.
    fn call(&mut self, drive: u32) -> bool {
        let number = self.calls;
        self.calls = number.saturating_add(1);
        let fails = match self.fails {
            Fails::Never => false,
            Fails::Once(one) => number == one,
            Fails::From(first) => first <= number,
            Fails::OnDrive(on, first) => on == drive && first <= number,
        };
        !fails && !has(self.lost, drive)
    }

    fn take(&mut self, spot: Spot, effect: Effect) {
        let Some(held) = self.last.get_mut(index_of(spot)) else {
            return;
        };
        match effect {
            Effect::Blanks => held.master = false,
            Effect::Heads(claim) => {
                held.claim = claim;
                held.shown = None;
            }
            Effect::Masters(places) => {
                held.master = true;
                held.places = places;
            }
            Effect::Opens(written) => held.shown = Some(written),
            Effect::Nothing => {}
        }
    }

    fn sync(&mut self, drive: u32) {
        for index in 0..SPOTS {
            let on = (index / ON_LINE / 2) as u32;
            if on == drive {
                if let (Some(stable), Some(last)) = (
                    self.stable.get_mut(index),
                    self.last.get(index),
                ) {
                    *stable = *last;
                }
            }
        }
    }

    // A write and a sync. Whether both pass.
    fn settle(&mut self, spot: Spot, effect: Effect) -> bool {
        let drive = drive_of(spot);
        if !self.call(drive) {
            return false;
        }
        self.take(spot, effect);
        if !self.call(drive) {
            return false;
        }
        self.sync(drive);
        true
    }

    fn format(&mut self, spot: Spot, claim: u64, places: u32) -> bool {
        self.settle(spot, Effect::Blanks)
            && self.settle(spot, Effect::Heads(claim))
            && self.settle(spot, Effect::Masters(places))
    }

    fn slot(&mut self, spot: Spot, written: Written) -> bool {
        self.settle(spot, Effect::Nothing)
            && self.settle(spot, Effect::Nothing)
            && self.settle(spot, Effect::Opens(written))
    }

    // At each of these places, but on drives on which a call failed meanwhile. Which are left, and which drives those are.
    fn write_all(&mut self, places: &List, written: Written) -> (List, Drives) {
        let mut left = *places;
        let mut failed = 0;
        for spot in places.as_slice() {
            if left.has(*spot) && !self.slot(*spot, written) {
                left = left.off_drive(drive_of(*spot));
                failed |= bit(drive_of(*spot));
            }
        }
        (left, failed)
    }

    fn held(&self, spot: Spot) -> Held {
        match self.last.get(index_of(spot)) {
            Some(held) => *held,
            None => BLANK,
        }
    }

    // Whether a boot finds a replica there: the drive answers, each one in front of it is there, and the line's first one tells of it.
    fn is_found(&self, spot: Spot) -> bool {
        let Spot { line, number } = spot;
        let first = self.held(Spot { line, number: 0 });
        let is_there = (0..number.saturating_add(1)).all(|number| self
            .held(Spot { line, number })
            .master);
        is_there
            && !has(self.lost, drive_of(spot))
            && (number == 0 || u32::from(number) < first.places)
    }

    fn found(&self) -> List {
        let mut found = NONE;
        for line in 0..LINES as u8 {
            for number in 0..ON_LINE as u8 {
                if self.is_found(Spot { line, number }) {
                    found.push(Spot { line, number });
                }
            }
        }
        found
    }

    fn newest_of(&self, found: &List) -> Option<Written> {
        let mut newest: Option<Written> = None;
        for spot in found.as_slice() {
            if let Some(shown) = self.held(*spot).shown {
                if newest.map_or(true, |last| is_newer(&shown, &last)) {
                    newest = Some(shown);
                }
            }
        }
        newest
    }

    fn greatest_of(&self, found: &List) -> u64 {
        let mut greatest = 0;
        for spot in found.as_slice() {
            let held = self.held(*spot);
            let shown = held.shown.map_or(0, |written| written.boot);
            greatest = held.claim.max(shown).max(greatest);
        }
        greatest
    }

    fn rewrite(&mut self, places: &List, written: Written) {
        for spot in places.as_slice() {
            if let Some(held) = self.last.get_mut(index_of(*spot)) {
                held.claim = written.boot;
                held.shown = Some(written);
            }
        }
    }

    /// A boot with the drives that aren't lost.
    pub(crate) fn boot(&mut self) -> End {
        self.open = None;
        let found = self.found();
        let Some(newest) = self.newest_of(&found) else {
            return End::Empty;
        };
        if let Some((readable, listed)) = newest.short(&found, true) {
            return End::NoQuorum(readable, listed / 2 + 1);
        }
        let mut written = Written {
            boot: self.greatest_of(&found).saturating_add(1),
            count: 0,
            ..newest
        };
        let active = written.each().within(&found);
        self.rewrite(&active, written);
        if written.old.len > 0 {
            written.count = 1;
            written.old = NONE;
            self.rewrite(&active.within(&written.new), written);
        }
        self.stable = self.last;
        self.open = Some(Open {
            last: written,
            active: active.within(&written.new),
        });
        End::Adopted(Found {
            fresh: 7,
            boot: written.boot,
            table: written.table,
            places: written.new.len,
        })
    }

    /// A commit of this table. None where nothing is open.
    pub(crate) fn commit(&mut self, table: u16) -> Option<Committed> {
        let mut open = self.open?;
        if let Some((active, listed)) = open.last.short(&open.active, false) {
            return Some(Committed::Lost(active, listed));
        }
        let next = Written {
            count: open.last.count.saturating_add(1),
            table,
            ..open.last
        };
        open.active = self.write_all(&open.active, next).0;
        let short = next.short(&open.active, false);
        if short.is_none() {
            open.last = next;
        }
        self.open = Some(open);
        match short {
            Some((active, listed)) => Some(Committed::Lost(active, listed)),
            None => Some(Committed::Done),
        }
    }

    // The masters of the added places are blanked, where a line gets several, the first one first and then those from the last one on; and each is formatted.
    fn form(&mut self, asked: &Asked, claim: u64) -> bool {
        let Asked::Add(on, places, _) = *asked else {
            return true;
        };
        if 1 < places && !self.clear_all(on, places) {
            return false;
        }
        self.format_all(&List::on_lines(on, places), claim, u32::from(places))
    }

    fn format_all(&mut self, added: &List, claim: u64, places: u32) -> bool {
        for spot in added.as_slice() {
            if !self.format(*spot, claim, places) {
                return false;
            }
        }
        true
    }

    fn clear_all(&mut self, on: &[usize], places: u8) -> bool {
        for line in on {
            if !self.clear(line_of(*line), places) {
                return false;
            }
        }
        true
    }

    fn clear(&mut self, line: u8, places: u8) -> bool {
        if !self.settle(Spot { line, number: 0 }, Effect::Blanks) {
            return false;
        }
        for number in (1..places).rev() {
            if !self.settle(Spot { line, number }, Effect::Blanks) {
                return false;
            }
        }
        true
    }

    /// Whether at least half of the list that comes is active, or added.
    pub(crate) fn may_change(&self, asked: &Asked) -> bool {
        let Some(open) = self.open else {
            return true;
        };
        let mut left = open.last;
        left.old = NONE;
        left.new = list_after(asked, &open.last.new);
        matches!(asked, Asked::Add(_, _, _)) || left.short(&open.active, false).is_none()
    }

    /// A change of places. None where nothing is open.
    pub(crate) fn change(&mut self, asked: &Asked) -> Option<Moved> {
        let mut open = self.open?;
        if let Some((active, listed)) = open.last.short(&open.active, false) {
            return Some(Moved::Lost(active, listed));
        }
        let list = open.last.new;
        let next = list_after(asked, &list);
        if !self.form(asked, open.last.boot) {
            return Some(Moved::Failed);
        }
        open.active.push_all(&next.without(&list));
        open.last.old = list;
        open.last.new = next;
        let (moved, failed) = self.list_each(&mut open);
        self.open = Some(open);
        if let Some((active, listed)) = moved {
            return Some(Moved::Lost(active, listed));
        }
        Some(Moved::Done(self.wipe_all(&wiped_in_order(&list, &next), failed)))
    }

    // The table is written with both lists, and then with the one that comes. The numbers of a list that is short then, and the drives on which a call failed.
    fn list_each(&mut self, open: &mut Open) -> (Option<(u32, u32)>, Drives) {
        let mut both = open.last;
        both.count = both.count.saturating_add(1);
        let (left, failed) = self.write_all(&open.active, both);
        open.active = left;
        if let Some(short) = both.short(&left, false) {
            return (Some(short), failed);
        }
        open.last = both;
        let mut one = both;
        one.old = NONE;
        one.count = one.count.saturating_add(1);
        let (left, more) = self.write_all(&left.within(&one.new), one);
        open.active = left;
        open.last.old = NONE;
        let short = one.short(&left, false);
        if short.is_none() {
            open.last = one;
        }
        (short, failed | more)
    }

    fn wipe_all(&mut self, places: &List, failed: Drives) -> bool {
        let mut failed = failed;
        let mut clean = true;
        for spot in places.as_slice() {
            let drive = drive_of(*spot);
            if has(failed, drive) || !self.settle(*spot, Effect::Blanks) {
                failed |= bit(drive);
                clean = false;
            }
        }
        clean
    }

    /// The end of a database with one place. None where nothing is open.
    pub(crate) fn end(&mut self) -> Option<bool> {
        let open = self.open?;
        self.open = None;
        let spot = *open.last.new.as_slice().first()?;
        Some(self.settle(spot, Effect::Blanks))
    }
}
