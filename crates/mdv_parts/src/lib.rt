//! The parts of which the lines of a script and the entries of an md.tab are made.
#![tactic(auto)]

mod component;
mod items;
mod law;
mod names;
mod options;
mod part;
mod part_list;
mod read;
mod runs;

pub use component::{Component, component_of, pool_of, slice_of, volume_of};
pub use items::Items;
pub use law::spells_one_list;
pub use names::{Scope, read_pool, read_volume};
pub use options::{
    MAX_LENGTH, MAX_REPLICAS, MIN_LENGTH, ReplicaOptions, has_letter, number_between, number_of,
    size_of, split_interlace, split_pool, split_replica_options,
};
pub use part::{Part, read_part};
pub use part_list::PartList;
pub use read::read_parts;
pub use runs::{split_components, split_slices, split_volumes};
