//! What is noted of an event as it happens.

use crate::sight::Sight;
use seats::Answer;

/// The number of an event in its script, its answer, how many letters and how many outputs there were before it and
/// behind it, and what was seen of the node that it asked.
#[derive(Clone, Copy, Drop)]
pub(crate) struct Mark {
    pub step: usize,
    pub answer: Answer,
    pub letters: (usize, usize),
    pub outputs: (usize, usize),
    pub sight: Option<Sight>,
}

/// Which rows of a run an event of a script brought: those from a number on, and before another one.
#[derive(Clone, Copy, Debug, PartialEq, Eq, Drop)]
pub struct Stage {
    /// Its number: the first event of a script is event 0.
    pub number: usize,
    /// Whether it delivers all letters that wait, and so may bring any number of rows. Each other event brings one.
    pub all: bool,
    pub from: usize,
    pub to: usize,
}

/// What is noted of events, one after another. Over the world that they left it gives the run.
#[derive(Drop)]
pub struct Marks {
    pub(crate) marks: Vec<Mark>,
    pub(crate) stages: Vec<Stage>,
}
