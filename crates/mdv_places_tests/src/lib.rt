//! How the places of a database change, on the host of `mdv_store_tests`: worked changes, changes that are stopped at each of their calls, and drawn lives.
#![tactic(auto)]

mod asking;
mod host;

pub use host::{Asked, Moved, change, end};

#[cfg(test)]
mod life_tests;
#[cfg(test)]
mod row_tests;
#[cfg(test)]
mod step;
#[cfg(test)]
mod stop_tests;
#[cfg(test)]
mod world;
