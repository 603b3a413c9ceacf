//! The entries of an md.tab, read from its text.
#![tactic(auto)]

mod entry;
mod form;
mod graph;
mod group;
mod index;
mod key;
mod law;
mod lines;
mod making;
mod need;
mod options;
mod queue;
mod read;
mod stripe;

pub use entry::{Entry, Extent, MirrorOptions, RaidOptions, ReadFrom, Room, Row};
pub use form::read_entry;
pub use group::{MAX_TEXT, set_of};
pub use law::{has_one_order, reads_as_one_tab};
pub use lines::is_ascii_line;
pub use need::order_of_need;
pub use read::{MAX_ENTRIES, TabFault, read_tab};
