//! When each event may happen.

ghost use Rattle.std.specs.Prelude.{◌≡◌, ◌&&◌, ◌||◌, not};
ghost use Rattle.std.specs.List.{list_all};
ghost use Rattle.mdv_votes.specs.Spots.{is_in as spec_is_in, is_none as spec_is_none};
ghost use Rattle.mdv_votes.specs.declared.spot.Spot.{Spot};
ghost use Rattle.mdv_votes.specs.Quorum.{is_written as spec_is_written, is_claimed as spec_is_claimed, is_read as spec_is_read};
ghost use Rattle.mdv_votes.specs.Family.{knows_above as spec_knows_above};
ghost use Rattle.mdv_quorum.specs.May.{is_place, all_second, is_up as spec_is_up, shows_none as spec_shows_none, is_only_place as spec_is_only_place, is_lists as spec_is_lists, is_distinct as spec_is_distinct, is_one_more as spec_is_one_more, may_follow as spec_may_follow, is_lost as spec_is_lost, moves_on as spec_moves_on, same_second as spec_same_second};

use crate::Event;
use crate::machine::{Core, Stage};
use mdv_base::{DriveNo, NUMBER_LIMIT};
use mdv_votes::{
    Spot, SpotLists, Version, greatest_of, is_claimed, is_in, is_named, is_read, is_written,
    newest_of, no_table, place_at, same_spot, same_spots, table_at,
};
use std::alloc::Global;

fn is_lost(lost: &[DriveNo], drive: DriveNo) -> bool
    ensures { result ≡ spec_is_lost lost.now drive.0 }
{
    lost.iter().any(|d| d.0 == drive.0)
}

fn is_up(lost: &[DriveNo], p: Spot) -> bool
    ensures { result ≡ spec_is_up lost.now p }
{
    !is_lost(lost, p.drive)
}

fn shows_none(newest: Option<usize>) -> bool
    ensures { result ≡ spec_shows_none newest }
{
    match newest {
        Some(_) => false,
        None => true,
    }
}

/// Whether the table has one list, of this place alone.
fn is_only_place(lists: &SpotLists, p: Spot) -> bool
    ensures { result ≡ spec_is_only_place lists.now p }
{
    let only = match lists.first.as_slice() {
        [q] => same_spot(*q, p),
        _ => false,
    };
    only && lists.second.is_none()
}

fn is_distinct(list: &[Spot]) -> bool
    ensures { result ≡ spec_is_distinct list.now }
{
    for i in 0..list.len() {
        if is_in(&list[i + 1..], list[i]) {
            return false;
        }
    }
    true
}

fn all_places(list: &[Spot]) -> bool
    ensures { result ≡ list_all is_place list.now }
{
    list.iter().all(|p| !p.mediator)
}

fn are_places(lists: &SpotLists) -> bool
    ensures { result ≡ (list_all is_place lists.now.first && all_second lists.now.second) }
{
    let second = match &lists.second {
        Some(list) => all_places(list.as_slice()),
        None => true,
    };
    all_places(lists.first.as_slice()) && second
}

fn all_seats(list: &[Spot]) -> bool
    ensures { result ≡ list_all (λ (p : Spot). p.mediator) list.now }
{
    list.iter().all(|p| p.mediator)
}

fn are_seats(set: bool, mediators: &[Spot]) -> bool
    ensures { result ≡ ((list_all (λ (p : Spot). p.mediator) mediators.now && spec_is_distinct mediators.now) && (set || spec_is_none mediators.now)) }
{
    (all_seats(mediators) && is_distinct(mediators)) && (set || mediators.is_empty())
}

/// Whether places are places and mediators seats, each of these once, and none in a local database.
fn is_lists(set: bool, lists: &SpotLists) -> bool
    ensures { result ≡ spec_is_lists set lists.now }
{
    are_places(lists) && are_seats(set, lists.mediators.as_slice())
}

/// Whether the list has each of the others.
fn has_all(list: &[Spot], others: &[Spot]) -> bool
    ensures { result ≡ list_all (spec_is_in list.now) others.now }
{
    others.iter().all(|p| is_in(list, *p))
}

fn is_one_more(old: &[Spot], new: &[Spot]) -> bool
    ensures { result ≡ spec_is_one_more old.now new.now }
{
    has_all(new, old) && new.len().saturating_sub(1) <= old.len()
}

/// Whether the places change, the old list first, or the new one alone.
fn moves_on(old: &SpotLists, new: &SpotLists) -> bool
    ensures { result ≡ spec_moves_on old.now.first old.now.second new.now.first new.now.second }
{
    match (&old.second, &new.second) {
        (None, Some(_)) => same_spots(old.first.as_slice(), new.first.as_slice()),
        (Some(list), None) => same_spots(list.as_slice(), new.first.as_slice()),
        (None, None) => false,
        (Some(_), Some(_)) => false,
    }
}

fn same_second(old: &SpotLists, new: &SpotLists) -> bool
    ensures { result ≡ spec_same_second old.now.second new.now.second }
{
    match (&old.second, &new.second) {
        (None, None) => true,
        (Some(a), Some(b)) => same_spots(a.as_slice(), b.as_slice()),
        (None, Some(_)) => false,
        (Some(_), None) => false,
    }
}

/// Whether a table with these lists may be made from one with those.
fn may_follow(old: &SpotLists, new: &SpotLists) -> bool
    ensures { result ≡ spec_may_follow old.now new.now }
{
    let before = old.mediators.as_slice();
    let after = new.mediators.as_slice();
    let stay = same_spots(old.first.as_slice(), new.first.as_slice()) && same_second(old, new);
    let one = is_one_more(before, after) || is_one_more(after, before);
    (stay && one) || (moves_on(old, new) && same_spots(before, after))
}

impl Core {
    ghost use Rattle.std.specs.Prelude.{None, Some, nat_lt, ◌+◌, ◌^◌};
    ghost use Rattle.mdv_votes.specs.Family.{newest_of as spec_newest_of, greatest_of as spec_greatest_of};
    ghost use Rattle.mdv_quorum.specs.World.{last_table as spec_last_table};
    ghost use Rattle.mdv_quorum.specs.May.{may as spec_may, has_room as spec_has_room, may_read as spec_may_read, may_adopt as spec_may_adopt, may_choose as spec_may_choose, is_stale_vote as spec_is_stale_vote, is_fair as spec_is_fair, may_commit as spec_may_commit, is_target as spec_is_target, may_claim as spec_may_claim, may_slot as spec_may_slot, is_firm_in, may_format_place as spec_may_format_place, may_format as spec_may_format, may_wipe as spec_may_wipe, may_list as spec_may_list, may_tell as spec_may_tell};

    fn may_read(&self, p: Spot) -> bool
        ensures { result ≡ spec_may_read self.now p self.now.stage }
    {
        match &self.stage {
            Stage::Reading { .. } => {
                let place = place_at(self.places.as_slice(), p);
                is_up(self.lost.as_slice(), p) && (place.holds || p.mediator)
            }
            _ => false,
        }
    }

    fn is_target(&self, lists: &SpotLists, p: Spot) -> bool
        ensures { result ≡ spec_is_target self.now lists.now p }
    {
        place_at(self.places.as_slice(), p).holds && is_named(lists, p)
    }

    fn may_choose(&self, alloc: Global, p: Spot, read: &[Spot]) -> bool
        ensures { result ≡ spec_may_choose self.now p read.now (spec_newest_of self.now.family self.now.places None read.now) }
    {
        match newest_of(self.family.as_slice(), self.places.as_slice(), read) {
            Some(number) => self.may_choose_table(alloc, number, p, read),
            None => false,
        }
    }

    /// Whether a boot that read these places may choose the table of this number.
    fn may_choose_table(&self, alloc: Global, number: usize, p: Spot, read: &[Spot]) -> bool
        ensures { result ≡ spec_may_choose self.now p read.now (Some number) }
    {
        let none = no_table(alloc);
        let table = table_at(self.family.as_slice(), number, &none);
        if !self.may_adopt(table, read, p) {
            return false;
        }
        self.is_fair(alloc, number, read)
    }

    /// Whether this place shows none, though the table of this number names it, and was formatted
    /// again since a later one dropped it.
    fn is_stale_vote(&self, alloc: Global, number: usize, q: Spot) -> bool
        ensures { result ≡ spec_is_stale_vote self.now number q }
    {
        let none = no_table(alloc);
        let table = table_at(self.family.as_slice(), number, &none);
        let place = place_at(self.places.as_slice(), q);
        is_named(&table.lists, q) && (shows_none(place.newest) && number < place.floor)
    }

    /// Whether no vote among these for the table of this number is a stale one.
    fn is_fair(&self, alloc: Global, number: usize, read: &[Spot]) -> bool
        ensures { result ≡ spec_is_fair self.now number read.now }
    {
        read.iter().all(|q| !self.is_stale_vote(alloc, number, *q))
    }

    fn may_adopt(&self, table: &Version, read: &[Spot], p: Spot) -> bool
        ensures { result ≡ spec_may_adopt self.now table.now read.now p }
    {
        if !is_read(self.family.as_slice(), self.places.as_slice(), table, read) {
            return false;
        }
        if !self.is_target(&table.lists, p) {
            return false;
        }
        self.may_draw(read)
    }

    /// Whether the number that a boot draws is in its limit.
    fn may_draw(&self, read: &[Spot]) -> bool
        ensures { result ≡ nat_lt (spec_greatest_of self.now.family self.now.places 0 read.now + 1) (2 ^ 63) }
    {
        greatest_of(self.family.as_slice(), self.places.as_slice(), read) < NUMBER_LIMIT - 1
    }

    fn may_claim(&self, alloc: Global, p: Spot) -> bool
        ensures { result ≡ spec_may_claim self.now p self.now.stage }
    {
        match &self.stage {
            Stage::Reading { read } => self.may_choose(alloc, p, read.as_slice()),
            Stage::Claiming { next, .. } => self.is_target(&next.lists, p),
            Stage::Writing { boot: Some(_), .. } => self.is_last_target(alloc, p),
            _ => false,
        }
    }

    fn is_last_target(&self, alloc: Global, p: Spot) -> bool
        ensures { result ≡ spec_is_target self.now (spec_last_table self.now).lists p }
    {
        let none = no_table(alloc);
        let last = self.family.as_slice().len().saturating_sub(1);
        self.is_target(&table_at(self.family.as_slice(), last, &none).lists, p)
    }

    fn may_begin(&self, next: &Version, claimed: &[Spot], p: Spot) -> bool
        ensures { result ≡ (spec_is_claimed self.now.set next.now (spec_is_in claimed.now) && spec_is_target self.now next.now.lists p) }
    {
        is_claimed(self.set, next, claimed) && self.is_target(&next.lists, p)
    }

    fn may_slot(&self, alloc: Global, p: Spot) -> bool
        ensures { result ≡ spec_may_slot self.now p self.now.stage }
    {
        match &self.stage {
            Stage::Creating { next } => self.is_target(&next.lists, p),
            Stage::Claiming { next, claimed, .. } => self.may_begin(next, claimed.as_slice(), p),
            Stage::Writing { .. } => self.is_last_target(alloc, p),
            Stage::Ready { next: Some(next) } => self.is_target(&next.lists, p),
            _ => false,
        }
    }

    /// Whether the firm table names the place.
    fn is_in_firm(&self, alloc: Global, p: Spot) -> bool
        ensures { result ≡ is_firm_in self.now.family self.now.firm p }
    {
        match self.firm {
            Some(number) => {
                let none = no_table(alloc);
                is_named(&table_at(self.family.as_slice(), number, &none).lists, p)
            }
            None => false,
        }
    }

    fn may_format_place(&self, alloc: Global, p: Spot, lists: &SpotLists) -> bool
        ensures { result ≡ spec_may_format_place self.now p lists.now }
    {
        !p.mediator && (is_named(lists, p) && !self.is_in_firm(alloc, p))
    }

    fn may_format(&self, alloc: Global, p: Spot) -> bool
        ensures { result ≡ spec_may_format self.now p self.now.stage }
    {
        match &self.stage {
            Stage::Creating { next } => self.may_format_place(alloc, p, &next.lists),
            Stage::Ready { next } => {
                if p.mediator {
                    return !self.is_in_firm(alloc, p);
                }
                match next {
                    Some(next) => self.may_format_place(alloc, p, &next.lists),
                    None => false,
                }
            }
            _ => false,
        }
    }

    fn may_wipe(&self, alloc: Global, p: Spot) -> bool
        ensures { result ≡ spec_may_wipe self.now p self.now.stage }
    {
        let none = no_table(alloc);
        let last = self.family.as_slice().len().saturating_sub(1);
        let lists = &table_at(self.family.as_slice(), last, &none).lists;
        let firm = self.is_in_firm(alloc, p);
        let may = match &self.stage {
            Stage::Reading { .. } => !firm,
            Stage::Creating { next } => !is_named(&next.lists, p),
            Stage::Claiming { next, .. } => !firm && !is_named(&next.lists, p),
            Stage::Writing { .. } => !firm && !is_named(lists, p),
            Stage::Ready { .. } => !firm || is_only_place(lists, p),
        };
        !p.mediator && may
    }

    fn may_commit(&self, alloc: Global, lists: &SpotLists) -> bool
        ensures { result ≡ spec_may_commit self.now lists.now }
    {
        let none = no_table(alloc);
        let last = self.family.as_slice().len().saturating_sub(1);
        let table = table_at(self.family.as_slice(), last, &none);
        is_lists(self.set, lists)
            && (may_follow(&table.lists, lists) && table.mark.count < NUMBER_LIMIT - 1)
    }

    fn may_list(&self, alloc: Global, lists: &SpotLists) -> bool
        ensures { result ≡ spec_may_list self.now lists.now self.now.stage }
    {
        let new = is_lists(self.set, lists) && self.places.as_slice().is_empty();
        match &self.stage {
            Stage::Reading { .. } => new,
            Stage::Creating { .. } => new,
            Stage::Ready { .. } => self.may_commit(alloc, lists),
            _ => false,
        }
    }

    fn may_tell(&self, alloc: Global) -> bool
        ensures { result ≡ spec_may_tell self.now self.now.stage }
    {
        match &self.stage {
            Stage::Writing { took, .. } => self.is_last_written(alloc, took.as_slice()),
            _ => false,
        }
    }

    fn is_last_written(&self, alloc: Global, took: &[Spot]) -> bool
        ensures { result ≡ spec_is_written (spec_last_table self.now) (spec_is_in took.now) }
    {
        let none = no_table(alloc);
        let last = self.family.as_slice().len().saturating_sub(1);
        let table = table_at(self.family.as_slice(), last, &none);
        is_written(table, took)
    }

    /// Whether the change that the event issues has a number: there are 2^63. Only `Lists` issues one.
    pub fn has_room(&self, event: &Event) -> bool
        ensures { result ≡ spec_has_room self.now event.now }
    {
        match event {
            Event::Read(_) => true,
            Event::Claimed(_) => true,
            Event::Slotted(_, _) => true,
            Event::Formatted(_) => true,
            Event::Wiped(_) => true,
            Event::Lists(_) => self.changes < NUMBER_LIMIT,
            Event::Told => true,
            Event::Crash => true,
            Event::Lose(_) => true,
            Event::Back(_) => true,
        }
    }

    /// Whether the event may happen now.
    pub fn may(&self, alloc: Global, event: &Event) -> bool
        ensures { result ≡ spec_may self.now event.now }
    {
        match event {
            Event::Read(p) => self.may_read(*p),
            Event::Claimed(p) => self.may_claim(alloc, *p),
            Event::Slotted(p, _) => self.may_slot(alloc, *p),
            Event::Formatted(p) => self.may_format(alloc, *p),
            Event::Wiped(p) => self.may_wipe(alloc, *p),
            Event::Lists(lists) => self.may_list(alloc, lists),
            Event::Told => self.may_tell(alloc),
            Event::Crash => true,
            Event::Lose(drive) => !is_lost(self.lost.as_slice(), *drive),
            Event::Back(drive) => is_lost(self.lost.as_slice(), *drive),
        }
    }
}
