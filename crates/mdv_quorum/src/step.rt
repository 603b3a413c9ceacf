//! What each event does.

ghost use Rattle.std.specs.Prelude.{◌≡◌, ◌^◌, ◌<◌, IfOk, IsTrue};
ghost use Rattle.mdv_votes.specs.Family.{place_at as spec_place_at};
ghost use Rattle.mdv_quorum.specs.World.{rewritten_of, taken_after, places_after, without_drive as spec_without_drive};

use crate::machine::{Core, Stage};
use crate::{Event, SlotEnd};
use mdv_base::{DriveNo, Mark};
use mdv_votes::{
    Row, Spot, SpotLists, SpotState, Version, format_spot, greatest_of, is_named, is_written,
    last_list, newest_of, no_table, note_list, same_spots, set_claim, set_newest, table_at,
    wipe_spot,
};
use std::alloc::{AllocError, Global};

/// The adopted table once more, under the number that the boot draws.
fn rewritten(
    alloc: Global,
    set: bool,
    family: &[Version],
    places: &[SpotState],
    read: &[Spot],
    adopted: usize,
) -> Result<Version, AllocError>
    requires { (rewritten_of set family.now places.now read.now adopted).mark.boot < 2 ^ 63 }
    ensures { IfOk result (λ table. table ≡ rewritten_of set family.now places.now read.now adopted) }
{
    let none = no_table(alloc);
    let table = table_at(family, adopted, &none);
    let lists = table.lists.copied(alloc)?;
    let plan = table.plan.copied(alloc)?;
    let boot = greatest_of(family, places, read) + 1;
    let alone = lists.mediators.as_slice().is_empty();
    Ok(Version {
        mark: Mark { boot, count: 0 },
        parent: Some(adopted),
        change: None,
        lists,
        by_majority: set && alone,
        plan,
    })
}

/// The places that took a table, after one more write.
fn taken(alloc: Global, took: &Row<Spot>, p: Spot, end: SlotEnd) -> Result<Row<Spot>, AllocError>
    ensures { IfOk result (λ after. after ≡ taken_after took.now p end) }
{
    match end {
        SlotEnd::Closed => took.copied(alloc),
        SlotEnd::Holds => took.with(alloc, p),
    }
}

/// What is known of the places after a write of the table of this number.
fn after_write(places: &mut Row<SpotState>, number: usize, p: Spot, end: SlotEnd)
    requires { IsTrue (spec_place_at places.old p).holds }
    ensures { places.new ≡ places_after places.old number p end }
{
    match end {
        SlotEnd::Closed => {}
        SlotEnd::Holds => set_newest(places, p, number),
    }
}

/// The drives that are still lost once this one is back.
fn without_drive(
    alloc: Global,
    lost: &Row<DriveNo>,
    drive: DriveNo,
) -> Result<Row<DriveNo>, AllocError>
    ensures { IfOk result (λ rest. rest ≡ spec_without_drive lost.now drive.0) }
{
    let mut rest = Row::new(alloc);
    for other in lost.as_slice() {
        if other.0 != drive.0 {
            rest.push(*other)?;
        }
    }
    Ok(rest)
}

impl Core {
    ghost use Rattle.std.specs.Prelude.{◌+◌, ◌-◌, ◌++◌, ◌∷◌, [], OnOk, OnErr, None, Some, option_to_list, not, length, map};
    ghost use Rattle.mdv_votes.specs.Spots.{is_in as spec_is_in, same_spots as spec_same_spots};
    ghost use Rattle.mdv_votes.specs.Quorum.{is_written as spec_is_written};
    ghost use Rattle.mdv_votes.specs.Family.{put_at, formatted};
    ghost use Rattle.mdv_quorum.specs.World.{read as spec_read, claimed as spec_claimed, last_table as spec_last_table, settled, with_table, with_taken, wrote as spec_wrote, slotted as spec_slotted, told_at, created, changed, lists_at, formatted_seat, formatted_under, formatted_at, wiped_at, crashed, happens};
    ghost use Rattle.mdv_quorum.specs.May.{may_claim, may_slot, may_list, may, has_room, IsReady};
    ghost use Rattle.mdv_quorum.specs.declared.machine.Stage.TheVariants.{Writing};

    /// A boot knows what is at this place.
    fn read(&mut self, p: Spot) -> Result<(), AllocError>
        ensures ok { OnOk result (self.new ≡ spec_read self.old p self.old.stage) }
        ensures err { OnErr result (self.new ≡ self.old) }
    {
        if let Stage::Reading { read } = &mut self.stage {
            read.push(p)?;
        }
        Ok(())
    }

    /// A boot claims a place: the first claim chooses the table and draws the number.
    fn claim(&mut self, alloc: Global, p: Spot) -> Result<(), AllocError>
        requires { IsTrue (may_claim self.old p self.old.stage) }
        ensures ok { OnOk result (self.new ≡ spec_claimed self.old p self.old.stage) }
        ensures err { OnErr result (self.new ≡ self.old) }
    {
        let family = self.family.as_slice();
        match &mut self.stage {
            Stage::Reading { read } => {
                let Some(adopted) = newest_of(family, self.places.as_slice(), read.as_slice())
                else {
                    return Ok(());
                };
                let places = self.places.as_slice();
                let next = rewritten(alloc, self.set, family, places, read.as_slice(), adopted)?;
                let claimed = Row::of_one(alloc, p)?;
                set_claim(&mut self.places, p, next.mark.boot);
                self.stage = Stage::Claiming {
                    adopted,
                    next,
                    claimed,
                };
            }
            Stage::Claiming { next, claimed, .. } => {
                claimed.push(p)?;
                set_claim(&mut self.places, p, next.mark.boot);
            }
            Stage::Writing { .. } => {
                let none = no_table(alloc);
                let claim = table_at(family, family.len().saturating_sub(1), &none)
                    .mark
                    .boot;
                set_claim(&mut self.places, p, claim);
            }
            _ => {}
        }
        Ok(())
    }

    /// The last table of the family is firm where it is written.
    fn settle_last(&mut self, alloc: Global, written: bool)
        ensures { self.new ≡ settled self.old (spec_last_table self.old) written }
    {
        if !written {
            return;
        }
        let last = self.family.as_slice().len().saturating_sub(1);
        let none = no_table(alloc);
        let table = table_at(self.family.as_slice(), last, &none);
        note_list(&mut self.places, last, last_list(&table.lists).as_slice());
        self.firm = Some(last);
    }

    /// One write of the last table of the family, which these places have taken with it.
    fn write(&mut self, alloc: Global, p: Spot, end: SlotEnd, boot: Option<usize>, took: Row<Spot>)
        requires { IsTrue (spec_place_at self.old.places p).holds }
        ensures { self.new ≡ with_taken self.old p end boot took }
    {
        let last = self.family.as_slice().len().saturating_sub(1);
        let none = no_table(alloc);
        let written = is_written(
            table_at(self.family.as_slice(), last, &none),
            took.as_slice(),
        );
        after_write(&mut self.places, last, p, end);
        self.stage = Stage::Writing { boot, took };
        self.settle_last(alloc, written);
    }

    /// The first write of a table.
    fn write_first(
        &mut self,
        alloc: Global,
        p: Spot,
        end: SlotEnd,
        boot: Option<usize>,
        next: Version,
    ) -> Result<(), AllocError>
        requires { IsTrue (spec_place_at self.old.places p).holds }
        ensures ok { OnOk result (self.new ≡ spec_wrote (with_table self.old next) p end boot []) }
        ensures err { OnErr result (self.new ≡ self.old) }
    {
        let took = taken(alloc, &Row::new(alloc), p, end)?;
        self.family.push(next)?;
        self.write(alloc, p, end, boot, took);
        Ok(())
    }

    /// A write of the table in hand.
    fn slot(&mut self, alloc: Global, p: Spot, end: SlotEnd) -> Result<(), AllocError>
        requires { IsTrue (may_slot self.old p self.old.stage) }
        ensures ok { OnOk result (self.new ≡ spec_slotted self.old p end self.old.stage) }
        ensures err { OnErr result (self.new ≡ self.old) }
    {
        match &self.stage {
            Stage::Creating { next } => {
                let next = next.copied(alloc)?;
                self.write_first(alloc, p, end, None, next)?;
            }
            Stage::Claiming { adopted, next, .. } => {
                let boot = Some(*adopted);
                let next = next.copied(alloc)?;
                self.write_first(alloc, p, end, boot, next)?;
            }
            Stage::Ready { next: Some(next) } => {
                let next = next.copied(alloc)?;
                self.write_first(alloc, p, end, None, next)?;
            }
            Stage::Writing { boot, took } => {
                let boot = *boot;
                let took = taken(alloc, took, p, end)?;
                self.write(alloc, p, end, boot, took);
            }
            _ => {}
        }
        Ok(())
    }

    /// A change is acknowledged; that of a boot completes it.
    fn tell(&mut self, alloc: Global) -> Result<(), AllocError>
        ensures ok { OnOk result (self.new ≡ told_at self.old self.old.stage) }
        ensures err { OnErr result (self.new ≡ self.old) }
    {
        let Stage::Writing { boot, .. } = &self.stage else {
            return Ok(());
        };
        let none = no_table(alloc);
        let last = self.family.as_slice().len().saturating_sub(1);
        let table = table_at(self.family.as_slice(), last, &none);
        match *boot {
            Some(adopted) => {
                self.log = table.plan.copied(alloc)?;
                self.adopted = Some(adopted);
            }
            None => {
                if let Some(change) = table.change {
                    self.told.push(change)?;
                }
            }
        }
        self.stage = Stage::Ready { next: None };
        Ok(())
    }

    /// The first table of a database.
    fn create(&mut self, alloc: Global, lists: SpotLists) -> Result<(), AllocError>
        requires { self.old.changes < 2 ^ 63 }
        ensures ok { OnOk result (self.new ≡ created self.old lists) }
        ensures err { OnErr result (self.new ≡ self.old) }
    {
        let plan = Row::of_one(alloc, self.changes)?;
        let log = Row::of_one(alloc, self.changes)?;
        let next = Version {
            mark: Mark { boot: 1, count: 0 },
            parent: None,
            change: Some(self.changes),
            lists,
            by_majority: false,
            plan,
        };
        self.stage = Stage::Creating { next };
        self.changes += 1;
        self.log = log;
        Ok(())
    }

    /// The table after a change, made from the one that was told last.
    fn commit(&mut self, alloc: Global, lists: SpotLists) -> Result<(), AllocError>
        requires changes { self.old.changes < 2 ^ 63 }
        requires count { (spec_last_table self.old).mark.count + 1 < 2 ^ 63 }
        ensures ok { OnOk result (self.new ≡ changed self.old lists (not (spec_same_spots (spec_last_table self.old).lists.mediators lists.mediators))) }
        ensures err { OnErr result (self.new ≡ self.old) }
    {
        let none = no_table(alloc);
        let last = self.family.as_slice().len().saturating_sub(1);
        let table = table_at(self.family.as_slice(), last, &none);
        let by_majority = !same_spots(table.lists.mediators.as_slice(), lists.mediators.as_slice());
        let plan = table.plan.with(alloc, self.changes)?;
        let log = plan.copied(alloc)?;
        let mark = Mark {
            boot: table.mark.boot,
            count: table.mark.count + 1,
        };
        let next = Version {
            mark,
            parent: Some(last),
            change: Some(self.changes),
            lists,
            by_majority,
            plan,
        };
        self.stage = Stage::Ready { next: Some(next) };
        self.changes += 1;
        self.log = log;
        Ok(())
    }

    /// The next table has these lists.
    fn list(&mut self, alloc: Global, lists: SpotLists) -> Result<(), AllocError>
        requires may { IsTrue (may_list self.old lists self.old.stage) }
        requires changes { self.old.changes < 2 ^ 63 }
        ensures ok { OnOk result (self.new ≡ lists_at self.old lists self.old.stage) }
        ensures err { OnErr result (self.new ≡ self.old) }
    {
        match &self.stage {
            Stage::Reading { .. } => self.create(alloc, lists)?,
            Stage::Creating { .. } => self.create(alloc, lists)?,
            Stage::Ready { .. } => self.commit(alloc, lists)?,
            _ => {}
        }
        Ok(())
    }

    /// A replica's place is formatted for the table in hand.
    fn format_place(&mut self, p: Spot, boot: u64) -> Result<(), AllocError>
        ensures ok { OnOk result (self.new ≡ formatted_under self.old p boot) }
        ensures err { OnErr result (self.new ≡ self.old) }
    {
        format_spot(&mut self.places, p, boot, None)
    }

    /// A mediator's seat is written with the mark of the firm table.
    fn format_seat(&mut self, alloc: Global, p: Spot) -> Result<(), AllocError>
        ensures ok { OnOk result (self.new ≡ formatted_seat self.old p) }
        ensures err { OnErr result (self.new ≡ self.old) }
    {
        let none = no_table(alloc);
        let last = self.family.as_slice().len().saturating_sub(1);
        let boot = table_at(self.family.as_slice(), last, &none).mark.boot;
        format_spot(&mut self.places, p, boot, Some(last))?;
        self.stage = Stage::Ready { next: None };
        Ok(())
    }

    /// A place or seat is formatted.
    fn format(&mut self, alloc: Global, p: Spot) -> Result<(), AllocError>
        ensures ok { OnOk result (self.new ≡ formatted_at self.old p self.old.stage) }
        ensures err { OnErr result (self.new ≡ self.old) }
    {
        match &self.stage {
            Stage::Creating { next } => {
                let boot = next.mark.boot;
                self.format_place(p, boot)?;
            }
            Stage::Ready { next } => {
                if p.mediator {
                    self.format_seat(alloc, p)?;
                } else if let Some(next) = next {
                    let boot = next.mark.boot;
                    self.format_place(p, boot)?;
                }
            }
            _ => {}
        }
        Ok(())
    }

    /// Where the core is ready: a place is blanked that the firm table doesn't name, or its only one.
    fn wipe_ready(&mut self, alloc: Global, p: Spot)
        requires { IsReady self.old.stage }
        ensures { self.new ≡ wiped_at self.old p self.old.stage }
    {
        let none = no_table(alloc);
        let last = self.family.as_slice().len().saturating_sub(1);
        let table = table_at(self.family.as_slice(), last, &none);
        let named = is_named(&table.lists, p);
        wipe_spot(&mut self.places, p);
        if named {
            self.deleted = Some(p);
            self.stage = Stage::Reading {
                read: Row::new(alloc),
            };
            return;
        }
        if let Stage::Ready { next: Some(next) } = &self.stage
            && is_named(&next.lists, p)
        {
            self.stage = Stage::Ready { next: None };
        }
    }

    /// A place is blanked.
    fn blank(&mut self, alloc: Global, p: Spot)
        ensures { self.new ≡ wiped_at self.old p self.old.stage }
    {
        match &self.stage {
            Stage::Ready { .. } => self.wipe_ready(alloc, p),
            _ => wipe_spot(&mut self.places, p),
        }
    }

    /// The boot and the table in hand are forgotten.
    fn crash(&mut self, alloc: Global)
        ensures { self.new ≡ crashed self.old }
    {
        self.adopted = None;
        self.stage = Stage::Reading {
            read: Row::new(alloc),
        };
    }

    /// One event. An event that may not happen is the caller's error, and so is a change behind the last
    /// number. Where memory is short, the core is as before.
    pub fn step(&mut self, alloc: Global, event: Event) -> Result<(), AllocError>
        requires may { IsTrue (may self.old event) }
        requires room { IsTrue (has_room self.old event) }
        ensures ok { OnOk result (self.new ≡ happens self.old event) }
        ensures err { OnErr result (self.new ≡ self.old) }
    {
        match event {
            Event::Read(p) => self.read(p)?,
            Event::Claimed(p) => self.claim(alloc, p)?,
            Event::Slotted(p, end) => self.slot(alloc, p, end)?,
            Event::Formatted(p) => self.format(alloc, p)?,
            Event::Wiped(p) => self.blank(alloc, p),
            Event::Lists(lists) => self.list(alloc, lists)?,
            Event::Told => self.tell(alloc)?,
            Event::Crash => self.crash(alloc),
            Event::Lose(drive) => self.lost.push(drive)?,
            Event::Back(drive) => self.lost = without_drive(alloc, &self.lost, drive)?,
        }
        Ok(())
    }
}
