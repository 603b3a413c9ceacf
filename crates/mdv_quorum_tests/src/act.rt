//! Events at sets of places and seats.

use mdv_base::DriveNo;
use mdv_quorum::{Event, Row, SlotEnd, Spot, SpotList, SpotLists};
use std::alloc::{AllocError, Global};

// A set of places and seats. Each hexadecimal digit is a drive, the last one drive 0, and its bits
// are four places of that drive; those of drives 4 to 7 are mediators' seats.
pub(crate) type Spots = u32;

pub(crate) const PLACES: Spots = 0xffff;

pub(crate) fn has(set: Spots, index: u32) -> bool {
    set.checked_shr(index).unwrap_or(0) % 2 == 1
}

pub(crate) fn bit(index: u32) -> Spots {
    1u32.checked_shl(index).unwrap_or(0)
}

// The places and seats of a drive.
pub(crate) fn of_drive(drive: u32) -> Spots {
    0xfu32.checked_shl(drive.saturating_mul(4)).unwrap_or(0)
}

pub(crate) fn spot_at(index: u32) -> Spot {
    Spot {
        drive: DriveNo(index / 4),
        first: u64::from(index % 4),
        mediator: index >= 16,
    }
}

fn list_of(alloc: Global, set: Spots) -> Result<SpotList, AllocError> {
    let mut list = Row::new(alloc);
    for index in 0..32 {
        if has(set, index) {
            list.push(spot_at(index))?;
        }
    }
    Ok(list)
}

// What a table names.
#[derive(Clone, Copy, Debug)]
pub(crate) struct Lists {
    pub(crate) first: Spots,
    pub(crate) second: Option<Spots>,
    pub(crate) mediators: Spots,
}

impl Lists {
    fn spot_lists(self, alloc: Global) -> Result<SpotLists, AllocError> {
        let first = list_of(alloc, self.first)?;
        let second = match self.second {
            Some(set) => Some(list_of(alloc, set)?),
            None => None,
        };
        let mediators = list_of(alloc, self.mediators)?;
        Ok(SpotLists {
            first,
            second,
            mediators,
        })
    }
}

// An event at each place or seat of a set, one after the other, or one of the whole database.
#[derive(Clone, Copy, Debug)]
pub(crate) enum Act {
    Read(Spots),
    Claim(Spots),
    Write(Spots),
    Close(Spots),
    Format(Spots),
    Wipe(Spots),
    List(Lists),
    Tell,
    Crash,
    Lose(u32),
    Back(u32),
}

impl Act {
    // Where it happens; what isn't at a place or seat happens once.
    pub(crate) fn spots(self) -> Spots {
        match self {
            Act::Read(set) | Act::Claim(set) | Act::Write(set) => set,
            Act::Close(set) | Act::Format(set) | Act::Wipe(set) => set,
            _ => 1,
        }
    }

    pub(crate) fn event(self, alloc: Global, index: u32) -> Result<Event, AllocError> {
        let spot = spot_at(index);
        let event = match self {
            Act::Read(_) => Event::Read(spot),
            Act::Claim(_) => Event::Claimed(spot),
            Act::Write(_) => Event::Slotted(spot, SlotEnd::Holds),
            Act::Close(_) => Event::Slotted(spot, SlotEnd::Closed),
            Act::Format(_) => Event::Formatted(spot),
            Act::Wipe(_) => Event::Wiped(spot),
            Act::List(lists) => Event::Lists(lists.spot_lists(alloc)?),
            Act::Tell => Event::Told,
            Act::Crash => Event::Crash,
            Act::Lose(drive) => Event::Lose(DriveNo(drive)),
            Act::Back(drive) => Event::Back(DriveNo(drive)),
        };
        Ok(event)
    }
}
