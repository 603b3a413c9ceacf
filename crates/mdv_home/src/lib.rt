//! Which drives of a table are a host's own, and that its database has its replicas on slices of these alone.
#![tactic(auto)]

mod drives;
mod host;
mod law;

pub use drives::{OwnDrives, has_drives, is_own};
pub use host::host_in;
pub use law::{drives_are_own, sites_are_own, slices_are_within, views_are_own};
