//! The volumes and pools of a table, printed as the text of an md.tab.
#![tactic(auto)]

mod law;
mod line;
mod print;
mod walk;
mod word;

pub use law::{printed_entries_wait_for_none, prints_each_volume_once, reads_as_it_is_printed};
pub use print::{print_named, print_tab};
