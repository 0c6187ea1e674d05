//! Tests of records in SQL tables over files in memory, by their public calls.
#![tactic(auto)]

#[cfg(test)]
mod acceptor_rows;
#[cfg(test)]
mod batches;
#[cfg(test)]
mod counts;
#[cfg(test)]
mod files;
#[cfg(test)]
mod kinds;
#[cfg(test)]
mod owners;
#[cfg(test)]
mod slip;
#[cfg(test)]
mod slips;
#[cfg(test)]
mod stops;
#[cfg(test)]
mod tables;
#[cfg(test)]
mod uses;
#[cfg(test)]
mod versions;
