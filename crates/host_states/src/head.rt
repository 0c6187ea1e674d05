//! What a state tells beside tables.

/// Which epoch a state is of, and which host.
#[derive(Clone, Copy, Debug, PartialEq, Eq)]
pub struct StateHead {
    /// The epoch at whose start the tables stand so, counted from 1.
    pub epoch: u64,
    /// How many places the log of an epoch has.
    pub places: u64,
    /// How many outputs came in the epochs before.
    pub before: u64,
    /// The host's number, below `members`.
    pub id: u8,
    /// How many hosts there are.
    pub members: u8,
}
