//! Entries of an md.tab as changes of a table, and tables that what is printed of them makes again.
#![tactic(auto)]

mod asked;
mod law;

pub use asked::{change_of, clearing_of, is_few, is_short_row, is_within, row_of};
pub use law::prints_make_again;
