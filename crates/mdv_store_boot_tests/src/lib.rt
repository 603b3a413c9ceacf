//! Worked boots, peeks, commits and creations of a database on many slices and drives, each a list of steps with what has to come of it.
#![tactic(auto)]

#[cfg(test)]
mod boot_tests;
#[cfg(test)]
mod changing_tests;
#[cfg(test)]
mod letters_tests;
#[cfg(test)]
mod lost_tests;
#[cfg(test)]
mod mixed_tests;
#[cfg(test)]
mod over_tests;
#[cfg(test)]
mod peek_tests;
