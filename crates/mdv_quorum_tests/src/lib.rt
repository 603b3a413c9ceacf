//! Worked cases of the rule by which a boot decides which table is in force, and drawn ones.
#![tactic(auto)]

#[cfg(test)]
mod act;
#[cfg(test)]
mod drawn_tests;
mod draws;
#[cfg(test)]
mod row;
#[cfg(test)]
mod row_tests;
#[cfg(test)]
mod world;

pub use draws::Draws;
