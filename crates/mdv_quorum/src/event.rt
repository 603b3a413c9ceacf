use mdv_base::DriveNo;
use mdv_votes::{Spot, SpotLists};

/// What the write of a table leaves at a place: its older slot closed, or the table in it.
#[derive(Clone, Copy)]
pub enum SlotEnd {
    Closed,
    Holds,
}

/// What happens to the replicas and mediators of one database.
#[derive(Drop)]
pub enum Event {
    Read(Spot),
    Claimed(Spot),
    Slotted(Spot, SlotEnd),
    Formatted(Spot),
    Wiped(Spot),
    Lists(SpotLists),
    Told,
    Crash,
    Lose(DriveNo),
    Back(DriveNo),
}
