/// Where the journal of a node stands.
#[derive(Clone, Copy, Debug, PartialEq, Eq)]
pub enum Phase {
    /// The node holds nothing, and no life of it goes on.
    Unborn,
    /// A life goes on.
    Up,
    /// No more of a life comes.
    Cut,
    /// The node crashed.
    Down,
}
