//! What each event does to the plain world.

use super::{Stage, Version, World, named, plan_after};
use crate::act::{Act, Lists, Spots, bit, has, of_drive};
use mdv_base::Mark;
use std::alloc::{AllocError, Global};

impl World {
    pub(crate) fn step(&mut self, alloc: Global, act: Act, index: u32) -> Result<(), AllocError> {
        match act {
            Act::Read(_) => self.read |= bit(index),
            Act::Claim(_) => self.claim(index)?,
            Act::Write(_) => self.write(index)?,
            Act::Close(_) => self.begin_writing()?,
            Act::Format(_) => self.format(index),
            Act::Wipe(_) => self.wipe(index),
            Act::List(lists) => self.list(alloc, lists)?,
            Act::Tell => self.tell()?,
            Act::Crash => self.crash(),
            Act::Lose(drive) => self.lost |= of_drive(drive),
            Act::Back(drive) => self.lost &= !of_drive(drive),
        }
        Ok(())
    }

    // The first claim chooses the table, and draws the number.
    fn claim(&mut self, index: u32) -> Result<(), AllocError> {
        if self.stage == Stage::Reading {
            self.choose()?;
            self.claimed = 0;
        }
        self.claimed |= bit(index);
        if let Some(disk) = self.disks.get_mut(index as usize) {
            disk.claim = self.number;
        }
        Ok(())
    }

    fn choose(&mut self) -> Result<(), AllocError> {
        self.chosen = self.newest();
        self.number = self.greatest_number().saturating_add(1);
        self.stage = Stage::Claiming;
        let mark = Mark {
            boot: self.number,
            count: 0,
        };
        let Some(table) = self.chosen.and_then(|number| self.tables.get(number)) else {
            return Ok(());
        };
        self.next = Some(Version {
            mark,
            lists: table.lists,
            by_majority: self.set && table.lists.mediators == 0,
            plan: table.plan.clone()?,
        });
        Ok(())
    }

    fn begin_writing(&mut self) -> Result<(), AllocError> {
        if let Some(table) = self.next.take() {
            self.tables.push(table)?;
            self.took = 0;
            self.stage = Stage::Writing;
        }
        Ok(())
    }

    fn write(&mut self, index: u32) -> Result<(), AllocError> {
        self.begin_writing()?;
        self.took |= bit(index);
        if let Some(disk) = self.disks.get_mut(index as usize) {
            disk.shows = self.tables.len().checked_sub(1);
        }
        self.settle()
    }

    // The last table is firm once enough places took it.
    fn settle(&mut self) -> Result<(), AllocError> {
        let number = self.tables.len().saturating_sub(1);
        if self.is_newly_firm(number) {
            self.firm.push(number)?;
        }
        Ok(())
    }

    fn is_newly_firm(&self, number: usize) -> bool {
        match self.tables.get(number) {
            Some(table) => self.is_written(table) && !self.firm.contains(&number),
            None => false,
        }
    }

    // A place is formatted for the table in hand, a mediator's seat for the one that was told.
    fn format(&mut self, index: u32) {
        self.formatted |= bit(index);
        if index < 16 {
            let number = match &self.next {
                Some(table) => table.mark.boot,
                None => 0,
            };
            self.set_disk(index, number, None);
        } else {
            let last = self.tables.len().checked_sub(1);
            self.set_disk(index, self.mark_of(last).boot, last);
            self.next = None;
        }
    }

    fn wipe(&mut self, index: u32) {
        self.formatted &= !bit(index);
        if self.stage != Stage::Ready {
            return;
        }
        if self
            .tables
            .last()
            .is_some_and(|table| has(named(table.lists), index))
        {
            self.read = 0;
            self.stage = Stage::Reading;
        } else if self
            .next
            .as_ref()
            .is_some_and(|table| has(named(table.lists), index))
        {
            self.next = None;
        }
    }

    fn list(&mut self, alloc: Global, lists: Lists) -> Result<(), AllocError> {
        let last = self.tables.last();
        let plan = plan_after(alloc, last, self.changes)?;
        let (mark, by_majority) = match last {
            Some(table) => (
                Mark {
                    boot: table.mark.boot,
                    count: table.mark.count.saturating_add(1),
                },
                table.lists.mediators != lists.mediators,
            ),
            None => (Mark { boot: 1, count: 0 }, false),
        };
        self.changes = self.changes.saturating_add(1);
        self.issued = plan.clone()?;
        self.chosen = None;
        self.stage = Stage::Ready;
        self.next = Some(Version {
            mark,
            lists,
            by_majority,
            plan,
        });
        Ok(())
    }

    // A boot that is completed strikes what it didn't adopt.
    fn tell(&mut self) -> Result<(), AllocError> {
        let Some(table) = self.tables.last() else {
            return Ok(());
        };
        if self.chosen.is_some() {
            self.issued = table.plan.clone()?;
            self.adopted = self.chosen;
            self.chosen = None;
            self.boots = self.boots.saturating_add(1);
        } else if let Some(change) = table.plan.last() {
            self.told.push(*change)?;
        }
        self.stage = Stage::Ready;
        Ok(())
    }

    fn crash(&mut self) {
        self.read = 0;
        self.took = 0;
        self.next = None;
        self.chosen = None;
        self.adopted = None;
        self.stage = Stage::Reading;
    }
}
