//! What the run of a script comes to, and how its drive stands with its history at each moment: the definitions that
//! `run` is held to, and the laws that make of them a theorem over every life.
#![tactic(auto)]

mod law;
mod status;

pub use law::{lives_stand, one_course};
pub use status::RunStatus;
