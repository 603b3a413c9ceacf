//! Tests of the text of a whole table.
#![tactic(auto)]

#[cfg(test)]
mod tables;
#[cfg(test)]
mod text_tests;
#[cfg(test)]
mod texts;
