//! What volumes have lived through, told of each by its own blocks, and histories of all of them with their databases: laws for the crates that
//! carry commands out.
#![tactic(auto)]

mod history_law;
mod law;

pub use history_law::{
    beginnings_go, boots_go, creations_go, databases_go, databases_live, lists_stay, reads_go,
    restarts_go, strikes_go, tells_go, told_writes_last, vacant_stay, volumes_live, writes_go,
};
pub use law::{
    beginnings_stand, boots_settle, boots_stand, frames_stand, issues_alone_add, reads_stand,
    restarts_stand, runs_stand, tables_lie, writes_last, writes_stand,
};
