//! What a script is to have.

use ballots::Members;

/// What a script is to have. Percents are at most 100.
#[derive(Clone, Copy, Debug)]
pub struct Wishes<'a> {
    pub members: Members,
    /// The ids of the modems.
    pub modems: &'a [u32],
    /// Which of the many such scripts it is.
    pub seed: u64,
    /// How many letters in a hundred are lost.
    pub lose: u8,
    /// How many letters in a hundred come again.
    pub repeat: u8,
    /// How many times a node crashes.
    pub crashes: u32,
    /// How many times another node takes over the lead.
    pub takeovers: u32,
}
