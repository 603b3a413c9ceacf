//! The places of an open database change: places are added, or dropped, or the first one alone is left; and a database with one place ends.
#![tactic(auto)]

mod asked;
mod changing;
mod ending;
mod forming;
mod listing;

pub use asked::{Move, add_places, copy_of, list_first, list_less};
pub use changing::{PlacesFault, change_places};
pub use ending::end;
