//! How the drives stand with the log of a database with several replicas: definitions, and laws for the crates that write.
#![tactic(auto)]

mod law;

pub use law::{
    adoptions_go, calls_trace, commits_go, crashes_stand, creations_go, databases_stand,
    databases_turn, finds_hold, formed_stay, frames, known_stay, new_drives_stand, nothing_holds,
    others_go, places_go, places_trace, slices_clear, stores_turn,
};
