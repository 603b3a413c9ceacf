//! The volumes of a local database's table as the text of an md.tab.
#![tactic(auto)]

mod law;
mod text;

pub use law::{listings_are_lines, listings_tell_volumes};
pub use text::listing;
