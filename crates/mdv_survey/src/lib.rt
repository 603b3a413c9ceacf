//! What a boot finds of a database whose replicas lie on many slices and drives, and which of its tables it takes.
#![tactic(auto)]

mod body;
mod choosing;
mod head;
mod law;
mod replica;
mod slice;
mod slots;
mod surveying;
mod telling;

pub use choosing::{Choice, choose};
pub use head::{greatest_of, spare_slot};
pub use law::{counts_are_one, letters_are_one};
pub use replica::{Newest, Other, Replica, Survey};
pub use surveying::survey;
pub use telling::letters;
