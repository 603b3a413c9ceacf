//! The rule by which a boot decides, from the replicas and mediators that it can read, which table
//! of a database is in force: a pure machine over what happens to them.
#![tactic(auto)]

mod event;
mod machine;
mod may;
mod step;
mod theorem;

pub use event::{Event, SlotEnd};
pub use machine::Core;
pub use mdv_votes::{
    Row, Since, Spot, SpotList, SpotLists, SpotState, Version, at_least_half, more_than_half,
};
pub use theorem::{events_join, numbers_rise, stands_always};
