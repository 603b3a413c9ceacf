//! Which tables are of a table of drives, with their lists of places.
#![tactic(auto)]

mod each;
mod lists;
mod of_geometry;
mod rows;
mod settling;
mod status;
mod uses;

pub use each::EachPlace;
pub use lists::{each_of, first_of, last_of};
pub use of_geometry::is_of_geometry;
pub use settling::{settle, with_lists};
