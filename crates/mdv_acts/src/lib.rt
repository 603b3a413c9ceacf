//! What is done at places before a table is written there: their masters are blanked, and replicas of a database are formatted, slice by slice; and how the
//! masters of dropped places are blanked once a table without them was written.
#![tactic(auto)]

mod clearing;
mod formatting;
mod law;
mod place;
mod wiping;

pub use clearing::clear_all;
pub use formatting::{Owner, format_all};
pub use law::wipe_orders_tell;
pub use place::place_at;
pub use wiping::{wipe_each, wipe_order};
