//! Tests of nodes that keep what they did, of their plant and of their threads, of what the nodes of `live` are
//! asked and learn, of the program's words, of a writer that is full and of what is logged. What plans, scripts and
//! bodies print is told by `upsched_examples`.
#![tactic(auto)]

#[cfg(test)]
mod cluster;
#[cfg(test)]
mod commands;
#[cfg(test)]
mod driving;
#[cfg(test)]
mod five;
#[cfg(test)]
mod live;
#[cfg(test)]
mod records;
#[cfg(test)]
mod schedule;
