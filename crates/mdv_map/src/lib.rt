//! Where the blocks of volumes lie on drives, and what each of them has lived through: laws for every kind of volume.
#![tactic(auto)]

mod law;

pub use law::{
    answers_follow, areas_cover, beginnings_follow, boots_follow, chains_lie, copies_follow,
    crashes_follow, cuts_lie, flushes_follow, issues_follow, mirrors_lie, narrower_maps_follow,
    requests_stand, rewritings_follow, rewritings_join, runs_lie, soft_partitions_lie, stripes_lie,
};
