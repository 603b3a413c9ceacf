//! What a place on a drive shows, read in the plainest way there is, to hold whole lives of the state
//! database against.
#![tactic(auto)]

#[cfg(test)]
mod answers_tests;
#[cfg(test)]
mod bench;
#[cfg(test)]
mod blocks;
#[cfg(test)]
mod clear_tests;
#[cfg(test)]
mod course;
#[cfg(test)]
mod drives_tests;
#[cfg(test)]
mod ground;
#[cfg(test)]
mod hosts_tests;
#[cfg(test)]
mod life;
#[cfg(test)]
mod life_tests;
#[cfg(test)]
mod lines;
#[cfg(test)]
mod moves_tests;
#[cfg(test)]
mod places_tests;
mod reading;
#[cfg(test)]
mod reading_tests;
#[cfg(test)]
mod replicas_tests;
#[cfg(test)]
mod roster;
#[cfg(test)]
mod roster_tests;
#[cfg(test)]
mod scenes_tests;
#[cfg(test)]
mod script;
mod shown;
#[cfg(test)]
mod spots;
#[cfg(test)]
mod status_tests;
#[cfg(test)]
mod story;
#[cfg(test)]
mod stripes;
#[cfg(test)]
mod stripes_tests;
#[cfg(test)]
mod tab_tests;
#[cfg(test)]
mod torn_tests;
#[cfg(test)]
mod trouble;
#[cfg(test)]
mod trouble_tests;
#[cfg(test)]
mod uses_tests;
#[cfg(test)]
mod volume_tests;
#[cfg(test)]
mod writes;

pub use reading::{PlaceBlocks, read_place, second_body};
pub use shown::{Shown, ShownTable, ShownVolume};
