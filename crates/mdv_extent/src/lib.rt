//! Soft partitions, as `metainit -p` makes them, on their base: which blocks are free, how extents are
//! found in them and given back, and the header before each extent.
#![tactic(auto)]

mod apart;
mod cursor;
mod form;
mod free;
mod law;
mod page;
mod run;
mod share;

pub use apart::lie_apart;
pub use form::{Header, header_block, read_header};
pub use free::{free_runs, release};
pub use law::{
    allotments_lie_free, free_runs_are_free, given_extents_stay, one_list_is_free,
    releases_give_back, used_runs_stay,
};
pub use run::{MAX_EXTENTS, Run};
pub use share::{SpaceFault, allocate};
