//! The items of a script, read one by one: lines that ask for something, and `tab` blocks.
#![tactic(auto)]

mod asked;
mod gather;
mod reader;

pub use gather::GatherFault;
pub use reader::{ItemEnd, ItemReader};
