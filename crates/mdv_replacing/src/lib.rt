//! Components of a mirror or a RAID-5 volume that are enabled, or in whose place other ones come: what refuses
//! it, and what the volume and the states are then.
#![tactic(auto)]

mod holding;
mod members;
mod refusing;
mod renewing;

pub use members::Member;
pub use refusing::{refuse_enable_part, refuse_replace_part};
pub use renewing::{freed_spares, part_states, renewed_volume};
