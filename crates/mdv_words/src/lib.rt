//! An item of a script, a line or a `tab` block, read as what an engine carries out.
#![tactic(auto)]

mod command;
mod law;
mod line;
mod listed;
mod written;

pub use command::{Alteration, Command};
pub use law::{commands_are_in_form, entries_are_in_form, reads_one_line};
pub use line::{Line, read_line};
pub use listed::{Listed, replicas_listed};
pub use mdv_grammar::WordsFault;
pub use written::Written;
