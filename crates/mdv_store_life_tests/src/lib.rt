//! What a database on many slices and drives lives through: creations, commits and boots that are stopped, spoiled replicas, and drawn lives.
#![tactic(auto)]

#[cfg(test)]
mod life_tests;
#[cfg(test)]
mod spoiled_tests;
#[cfg(test)]
mod stop_tests;
#[cfg(test)]
mod world;
