//! Tests of drives in files, on files and devices of the system.
#![tactic(auto)]

#[cfg(test)]
mod scene;
#[cfg(test)]
mod scenes_tests;
#[cfg(test)]
mod uses_tests;
