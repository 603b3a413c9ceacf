//! Numbers, sizes and the words of a line.
#![tactic(auto)]

mod hex;
mod numeral;
mod token;
mod unit;
mod words;

pub use hex::{read_block, read_pair};
pub use numeral::{number, split_number};
pub use token::{TextFault, Token, split};
pub use unit::{MAX_BLOCKS, size};
pub use words::first_word;
