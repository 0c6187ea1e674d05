//! What is drawn of a run.

ghost use Rattle.std.specs.Prelude.{◌≡◌, ◌<◌, ◌^◌};
ghost use Rattle.run_picture.specs.Parts.{lanes};

use ballots::Letter;
use seats::ReleasedOutput;
use watched_runs::{Row, Watched};

/// A run as it is drawn: how many nodes and modems there are, which events are drawn, what happened, the rows of
/// events, of the events that sent each letter, and of those that released each output, the number of the first event
/// that delivers each letter, and the place that each letter shows to be chosen.
#[derive(Clone, Copy)]
pub(crate) struct Scene<'a> {
    pub members: u64,
    pub modems: u64,
    pub span: (usize, usize),
    pub run: &'a Watched<'a>,
    pub letters: &'a [Letter],
    pub outputs: &'a [ReleasedOutput],
    pub rows: &'a [u32],
    pub senders: &'a [u32],
    pub releasers: &'a [u32],
    pub firsts: &'a [usize],
    pub choices: &'a [Option<u64>],
}

/// An event, and where its row is.
#[derive(Clone, Copy)]
pub(crate) struct Spot<'a> {
    pub row: Row<'a>,
    pub y: u64,
}

/// What is drawn of each event: its row's thin line, its number, what happens, its answer, its mark, the arrow of the
/// letter that it delivers, that of the output that it hears, what the
/// letter says, and what is told of the node.
#[derive(Clone, Copy, Debug, PartialEq, Eq)]
pub(crate) enum Part {
    Rule,
    Number,
    Happening,
    Answered,
    Mark,
    Arrow,
    Hearing,
    Label,
    Told,
}

/// How many lanes there are.
pub(crate) fn lanes(scene: &Scene<'_>) -> u64
    requires members { scene.now.members < 2 ^ 32 }
    requires modems { scene.now.modems < 2 ^ 32 }
    ensures { result ≡ lanes scene.now }
{
    scene.members + scene.modems
}
