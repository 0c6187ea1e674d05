//! Tests of ballots, of letters as bytes and lines, of records that keep what is written and records that fail, of
//! counted votes and of nodes, by the public calls of `ballots`, `letter_bytes`, `node_lines`, `acceptor`,
//! `faulty_records`, `learner`, `node`, `script_text`, `seats`, `network_script` and `hosts`. What scripts print is data
//! in examples/.
#![tactic(auto)]

#[cfg(test)]
mod failing_records;
#[cfg(test)]
mod failing_runs;
pub mod faulty_nodes;
#[cfg(test)]
mod joining;
#[cfg(test)]
mod letter_lines;
#[cfg(test)]
mod letters;
#[cfg(test)]
mod records;
#[cfg(test)]
mod strange_letters;
#[cfg(test)]
mod vote_list;
pub mod wrong_answers;
