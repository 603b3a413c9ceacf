//! The log of a database, and the machine of events that it is: definitions for the crates that write, and a law.
#![tactic(auto)]

mod law;

pub use law::courses_are_logs;
