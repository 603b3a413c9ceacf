//! Submirrors that are taken away, go offline or come back: what refuses it, which one has the last copy of
//! a block, which component has it, and the states that are left.
#![tactic(auto)]

mod copies;
mod leaving;
mod legs;
mod runs;
mod states;

pub use copies::{has_bare, is_last_on};
pub use leaving::{mirror_without, refuse_detach, refuse_offline, refuse_online, with_word};
pub use legs::{Leg, Legs, legs_of};
pub use runs::{has_part_on, is_part_on};
pub use states::{are_okay, detach_states, offline_states, online_states, worst};
