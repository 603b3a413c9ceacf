//! Several values of a list at once, by their keys, and marks of volumes and pools by their numbers.
#![tactic(auto)]

mod marks;
mod using;
mod values;

pub use marks::{Marks, PoolMarks, VolumeMarks, pools_marked, volumes_marked};
pub use using::{mark_named, pools_beside, used_beside};
pub use values::{remove_all, remove_marked, replace_all};
