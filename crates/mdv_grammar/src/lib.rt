//! A line of a script, read by its whole grammar.
#![tactic(auto)]

mod blocks;
mod law;
mod line;
mod operands;
mod sets;
mod verb;

pub use law::asks_one_thing;
pub use line::{Line, WordsFault, asks_nothing, read_line};
