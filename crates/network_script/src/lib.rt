//! Scripts of events over nodes and modems: what they may do, and what holds of every run.
#![tactic(auto)]

mod laws;
mod world;

pub use laws::{
    each_is_answered, examples, few_faults, headline, learned_is_kept, one_owner, one_schedule,
    runs_join, votes_legal,
};
pub use world::World;
