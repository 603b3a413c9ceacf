//! The options of a line, and the commands that they and the parts behind them ask for.
#![tactic(auto)]

mod command;
mod given;
mod options;
mod spares;
mod volumes;

pub use command::{Command, Pools, SetChange};
pub use given::{Given, has, length_given, only, set_given};
pub use options::split_options;
pub use spares::read_metahs;
pub use volumes::{
    read_metaclear, read_metadb, read_metadetach, read_metainit, read_metaoffline, read_metaonline,
    read_metareplace, read_metastat, read_metattach,
};
