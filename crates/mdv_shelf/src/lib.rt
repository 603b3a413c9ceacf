//! Drives as the volume manager sees them: a model of what a read gives and what a crash may leave, the
//! traits of a shelf of drives and of a bench that also takes replies, and a shelf in memory.
#![tactic(auto)]

mod mem_shelf;
mod settling;
mod shelf;

pub use mem_shelf::MemShelf;
pub use settling::settle;
pub use shelf::{Bench, Shelf};
