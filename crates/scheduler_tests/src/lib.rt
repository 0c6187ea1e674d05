//! Tests of times, MAP bodies and commands as bytes, of a cut beside its first body, of cuts with settings, of intervals
//! for ranging, of modems, of calls at their limits, of tables that are adopted, of states of hosts, of reasons of
//! refusals, and of a scheduler over epochs, by the public calls of `minislot_time`, `map_body`, `flow_state`,
//! `grant_machine`, `command_log`, `row_bytes`, `host_states`, `epochs` and `modem`. What plans print, and what modems of a script do, stands as data in
//! examples/.
#![tactic(auto)]

#[cfg(test)]
mod bodies;
#[cfg(test)]
mod cells;
#[cfg(test)]
mod changes;
#[cfg(test)]
mod commands;
#[cfg(test)]
mod handed_out;
#[cfg(test)]
mod heard_cells;
#[cfg(test)]
mod kept;
#[cfg(test)]
mod limits;
#[cfg(test)]
mod maintenance;
#[cfg(test)]
mod modems;
#[cfg(test)]
mod ranging;
#[cfg(test)]
mod rows;
#[cfg(test)]
mod states;
#[cfg(test)]
mod times;
#[cfg(test)]
mod why;
