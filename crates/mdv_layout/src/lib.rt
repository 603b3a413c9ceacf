//! Volumes as devices: a volume of rows is laid out over the slices of its components, and each piece of it found.
#![tactic(auto)]

mod laying;
mod layout;
mod leaf;
mod row;

pub use laying::lay_out;
pub use layout::Layout;
