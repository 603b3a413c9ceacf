//! The configuration of a database in all its kinds: where its replicas lie, its volumes, pools and
//! sets, what is noted of them, and which blocks and volumes are in use by what.
#![tactic(auto)]

mod clash;
mod listed;
mod lists;
mod named;
mod parents;
mod plan;
mod pool;
mod resumed;
mod set;
mod sorted;
mod status;
mod table;
mod uses;
mod volume;

pub use clash::{Asked, is_neighbour, meets_db, meets_db_beside, neighbours_of, overlap, slice_at};
pub use listed::{Copied, Listed};
pub use lists::Lists;
pub use mdv_name::read_geometries_are_sound;
pub use named::add_named;
pub use parents::{names_pool, names_volume};
pub use plan::Plan;
pub use pool::{MAX_POOLS, MAX_SPARES, Pool, Spare};
pub use resumed::{has_dirty, part_resumed};
pub use set::{MAX_HOSTS, MAX_MEDIATORS, MAX_PENDING, MAX_SET_DRIVES, Mediator, Pending, SetData};
pub use sorted::{Keyed, Sorted};
pub use status::{
    KindStatus, MAX_REGIONS, MirrorStatus, PartStatus, RaidState, RaidStatus, Regions, Resync,
    SpareState, SpareStatus, SpareUse, State, Status, VolumeStatus,
};
pub use table::Table;
pub use uses::{SliceUse, User, Uses, same_base, same_slice};
pub use volume::{
    Base, Component, MAX_COLUMNS, MAX_COMPONENTS, MAX_SUBMIRRORS, MAX_VOLUMES, Mirror, Raid,
    ReadOption, Row, Soft, Stripe, Volume, VolumeKind, WriteOption,
};
