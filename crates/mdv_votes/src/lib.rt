//! What a vote is over: lists of places and mediators, the tables of a family, what each place
//! holds, and which places suffice to write a table, to claim it and to read it.
#![tactic(auto)]

mod family;
mod law;
mod places;
mod quorum;
mod row;
mod spot;
mod spots;
mod version;

pub use family::{greatest_of, last_list, mark_at, newest_of, no_table, table_at};
pub use law::{halves_meet, newest_is_greatest, quorums_grow, quorums_meet};
pub use places::{format_spot, note_list, place_at, set_claim, set_newest, wipe_spot};
pub use quorum::{is_claimed, is_read, is_written};
pub use row::Row;
pub use spot::{Spot, SpotList, SpotLists};
pub use spots::{at_least_half, is_in, is_named, more_than_half, same_spot, same_spots};
pub use version::{Since, SpotState, Version};
