//! How the drives stand with all databases that were ever begun on them, and how each call of the store, and each change of places, takes them on: laws for the crates that
//! carry commands out.
#![tactic(auto)]

mod law;

pub use law::{
    blank_boots_go, boots_go, commits_go, creations_go, databases_last, databases_meet, ends_go,
    moves_go, strikes_go, tells_go,
};
