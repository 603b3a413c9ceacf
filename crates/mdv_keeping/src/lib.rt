//! A change of a table of a table of drives leaves such a table.
#![tactic(auto)]

mod law;
mod next;

pub use law::tables_stay;
pub use next::next_table;
