//! Tests of the script, the drive in memory, a replica on it, the reply to a read, a database's table and its text, stripes, and soft partitions.
#![tactic(auto)]

#[cfg(test)]
mod drives;
#[cfg(test)]
mod port_tests;
#[cfg(test)]
mod record_tests;
#[cfg(test)]
mod replica_tests;
#[cfg(test)]
mod shelf_tests;
#[cfg(test)]
mod soft_tests;
#[cfg(test)]
mod status_tests;
#[cfg(test)]
mod stripe_tests;
#[cfg(test)]
mod table_tests;
