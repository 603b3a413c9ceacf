//! One replica of a state database: how its blocks are spelled on a drive, and how it is formatted,
//! looked at and written so that a crash never leaves half a table.
#![tactic(auto)]

mod cursor;
mod forms;
mod law;
mod looking;
mod page;
mod reading;
mod replica;

pub use forms::{Gate, Master, claim_block, gate_block, master_block};
pub use law::{claims_show, formats_show, newest_stays, one_head, slots_show, wipes_show};
pub use looking::{Seen, inspect};
pub use page::Page;
pub use reading::{read_claim, read_gate, read_master};
pub use replica::{
    Head, MAX_BLOCKS, MIN_BLOCKS, PlaceAt, Slot, format, read_body, wipe, write_claim, write_slot,
};
