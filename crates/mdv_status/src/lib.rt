//! What is told as text: the reply to a read of a volume's blocks, to a block of entries, and to a
//! print.
#![tactic(auto)]

mod law;
mod values;

pub use law::{
    entries_are_one_reply, prints_are_one_reply, refusals_are_one_reply, values_are_lines,
    values_are_one_reply, values_are_told,
};
pub use values::ValueText;
