//! The commands of one host: it boots the state database from its drives, carries lines out, and tells a
//! reply to each.
#![tactic(auto)]

mod change;
mod create;
mod engine;
mod keep;
mod lists;
mod places;
mod print;
mod replicas;
mod state;
mod transfer;

pub use engine::Engine;
pub use state::State;
