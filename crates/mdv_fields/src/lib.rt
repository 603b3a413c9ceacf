//! The parts of a record: how each number, name, place, component and state is spelled in it and read from it,
//! and lists of them.
#![tactic(auto)]

mod blocks;
mod fault;
mod laying;
mod list;
mod name;
mod number;
mod order;
mod part;
mod place;
mod reader;
mod set;
mod state;

pub use fault::RecordError;
pub use laying::lay;
pub use list::{lay_list, lay_long, lay_short, read_list, read_long, read_short};
pub use order::{Ordered, ascend};
pub use part::{Part, Spelled};
pub use place::are_spaced;
pub use reader::Reader;
