//! Tests of tables that are made of the text of an md.tab, and printed again, of an engine's tables as such a text,
//! and of the blocks of soft partitions.
#![tactic(auto)]

#[cfg(test)]
mod extent_tests;
#[cfg(test)]
mod fitting_tests;
#[cfg(test)]
mod listing_tests;
#[cfg(test)]
mod print_tests;
#[cfg(test)]
mod tables;
