//! What a boot sees of its drives before it writes: which of them come up, and what the slices of a site hold on those that answer.
#![tactic(auto)]

mod drives;
mod looking;
mod peeking;

pub use drives::bring_up;
pub use looking::{Looked, look};
pub use peeking::{PeekRefusal, Peeked, peek};
