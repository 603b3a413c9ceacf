//! Where a boot looks for the replicas of a database, what the drives show of one with several, and of its world as the votes know it:
//! definitions, and laws for the crates that write.
#![tactic(auto)]

mod law;
mod site;

pub use law::{
    boots_choose, claims_go, formats_go, founds_stay, frames, others_go, sites_are, slots_go,
    slots_show, tables_begin, wipes_go,
};
pub use site::{LEAST_BLOCKS, Site, site_of, takes_replicas};
