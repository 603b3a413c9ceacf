//! Whether a table holds together, whatever drives there are: what its volumes name and are used by, their lengths,
//! the spares of pools and on which components lie, and that each block of a mirror has a copy.
#![tactic(auto)]

mod covered;
mod distinct;
mod kinds;
mod owners;
mod seats;
mod shape;
mod sizes;
mod taken;

pub use distinct::set_of;
pub use seats::{slice_key, spare_keys};
pub use shape::is_shaped;
