//! Soft partitions: one device that lies in extents of another one.
#![tactic(auto)]

mod judge;
mod law;
mod no_soft;
mod soft;
mod spot;

pub use law::{causes_exclude, extents_match, pieces_end, softs_stand};
pub use no_soft::NoSoft;
pub use soft::Soft;
