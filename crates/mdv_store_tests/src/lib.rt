//! A host with drives in memory and its database on many slices there, and lists of steps that it takes.
#![tactic(auto)]

mod host;
mod numbered;
mod step;
mod tables;

pub use host::{Boot, Committed, Drives, End, Found, Host, Image, Made, Peeked, bit, has, may_ask};
pub use step::{Case, Step, first_of, first_wrong, name_of};
pub use tables::{Ground, Layout, local_on, shared_on};
