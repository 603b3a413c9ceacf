//! How a change moves the volumes of a table: definitions and a law.
#![tactic(auto)]

mod law;

pub use law::maps_go;
