//! A node whose calls share commits, over lines that come together, one by one and cut anywhere.
#![tactic(auto)]

#[cfg(test)]
mod batches;
#[cfg(test)]
mod left;
mod stores;
