//! Tests of names and lines, of the table of drives, and of the slices that replicas may lie on.
#![tactic(auto)]

#[cfg(test)]
mod base_tests;
#[cfg(test)]
mod drawn_tests;
#[cfg(test)]
mod drives_tests;
#[cfg(test)]
mod grammar_tests;
#[cfg(test)]
mod home_tests;
#[cfg(test)]
mod name_tests;
#[cfg(test)]
mod parts_tests;
#[cfg(test)]
mod site_tests;
#[cfg(test)]
mod tab_tests;
#[cfg(test)]
mod text_tests;
#[cfg(test)]
mod words_tests;
