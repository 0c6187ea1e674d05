//! The scheduler as a machine: commands in, outputs out.
#![tactic(auto)]

mod command;
mod cut;
mod cut_laws;
mod laws;
mod machine;
mod output;
mod refusals;
mod rows;
mod why;

pub use command::Command;
pub use cut_laws::{backoffs_are_told, minislots_are_kept, nothing_is_held_back};
pub use grant_machine_parts::CutSettings;
pub use laws::{
    cells_are_granted, counts_are_told, counts_step, grants_are_leased, grants_are_told,
    leases_are_apart, maintenance_is_due, maintenance_is_told, maps_are_bodies,
    maps_are_bodies_from, maps_are_disjoint, openings_have_no_owner, other_grants_are_due,
    outputs_go_on, owners_are_one, parts_are_whole, requests_are_granted_once, shared_maps_are_one,
    sids_are_unicast, unsolicited_grants_are_due,
};
pub use machine::Machine;
pub use output::{MapBytes, Output, again};
