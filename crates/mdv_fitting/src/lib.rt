//! Whether a table fits a table of drives, and the tables of a table of drives by their texts.
#![tactic(auto)]

mod bases;
mod beside;
mod climb;
mod decoding;
mod extents;
mod fit;
mod held;
mod key;
mod parts;
mod places;
mod slices;

pub use decoding::decode;
pub use fit::fits;
