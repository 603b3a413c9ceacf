//! Where the volumes of a plan lie on drives, and that they lie apart: definitions and laws.
#![tactic(auto)]

mod law;

pub use law::{chained_lie, fronts_lie, tables_lie, volumes_tell};
