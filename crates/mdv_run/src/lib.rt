//! The run of one host: it boots the state database from its drive, reads a script item by item, and
//! tells a reply to each.
#![tactic(auto)]

mod session;

pub use session::run;
