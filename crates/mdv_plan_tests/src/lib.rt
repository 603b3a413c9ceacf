//! Tests of the configuration of a database and of its changes.
#![tactic(auto)]

#[cfg(test)]
mod change_tests;
#[cfg(test)]
mod drives;
#[cfg(test)]
mod facts;
#[cfg(test)]
mod given_tests;
#[cfg(test)]
mod plan_tests;
#[cfg(test)]
mod replacing_tests;
#[cfg(test)]
mod steps;
