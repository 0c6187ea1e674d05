//! What each command is told by the words of the command line.

/// What `maps` is told.
#[derive(Clone, Copy, Debug)]
pub struct MapsWords<'a> {
    /// The path of the plan.
    pub plan: &'a str,
}

/// What `run` is told.
#[derive(Clone, Copy, Debug)]
pub struct RunWords<'a> {
    /// The path of the script.
    pub script: &'a str,
    /// Whether the faults of nodes are logged too.
    pub verbose: bool,
    /// The path of the folder in which the nodes keep their records, if that isn't memory.
    pub store: Option<&'a str>,
}

/// What `show` is told.
#[derive(Clone, Copy, Debug)]
pub struct ShowWords<'a> {
    /// A MAP body in hexadecimal.
    pub hex: &'a str,
}

/// What `live` is told.
#[derive(Clone, Copy, Debug)]
pub struct LiveWords<'a> {
    /// The path of the plan.
    pub plan: &'a str,
    /// How many turns each node has, at most 1,000,000.
    pub turns: u32,
    /// Whether what each node did is counted in the log too.
    pub verbose: bool,
}

/// What `node` is told.
#[derive(Clone, Copy, Debug)]
pub struct NodeWords<'a> {
    /// The node's number.
    pub number: &'a str,
    /// How many members there are.
    pub members: &'a str,
    /// The path of the database of its records, if they aren't in memory.
    pub store: Option<&'a str>,
    /// Whether it is a new node, which has no records yet.
    pub is_new: bool,
}

/// What `script` is told.
#[derive(Clone, Copy, Debug)]
pub struct ScriptWords<'a> {
    /// How many members there are.
    pub members: &'a str,
    /// The path of the plan whose commands are offered, if there is one.
    pub plan: Option<&'a str>,
    /// Which of the many such scripts it is.
    pub seed: u64,
    /// How many letters in a hundred are lost, at most 100.
    pub lose: u8,
    /// How many letters in a hundred come again, at most 100.
    pub repeat: u8,
    /// How many times a node crashes.
    pub crashes: u32,
    /// How many times another node takes over the lead.
    pub takeovers: u32,
    /// The ids of the modems, if there are some.
    pub modems: Option<&'a str>,
}
