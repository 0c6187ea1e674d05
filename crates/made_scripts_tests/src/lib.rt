//! Tests of scripts that are made: what a run of each reports is what it was to have. By the public calls of
//! `made_scripts`, `script_text` and `network_script`.
#![tactic(auto)]

#[cfg(test)]
mod made;
