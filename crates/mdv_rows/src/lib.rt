//! Stripes that come to a volume of stripes: what refuses one, and what the volume and its states are then.
#![tactic(auto)]

mod adding;
mod asking;

pub use adding::{added_states, refuse_add, volume_with_row};
pub use asking::{components_in, filled, is_nesting, lacks_one, rows_of};
