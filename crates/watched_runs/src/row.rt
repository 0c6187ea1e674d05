//! What a run tells of an event.

ghost use Rattle.std.specs.Prelude.{◌+◌, ◌<◌, ◌^◌, length};

use crate::sight::Sight;
use ballots::Letter;
use seats::{Answer, ReleasedOutput};
use world_events::Event;

/// Letters in the order of their sending. The first of them has this number among all letters of the run.
#[derive(Clone, Copy)]
pub struct Letters<'a> {
    pub first: usize,
    pub letters: &'a [Letter],
    ghost fits: { first + length letters.now < 2 ^ 64 },
}

/// An event of a run, with all that it brought.
#[derive(Clone, Copy)]
pub struct Row<'a> {
    /// Its number: the first event of a run is event 0.
    pub number: usize,
    /// The number of the event of the script that brought it: the first one is event 0.
    pub step: usize,
    pub event: &'a Event,
    /// What it did.
    pub answer: Answer,
    /// The letter that it delivers, where one with that number was sent before: one, or none.
    pub came: Letters<'a>,
    /// The letters that it had a node send.
    pub sent: Letters<'a>,
    /// The outputs that it had a node release.
    pub released: &'a [ReleasedOutput],
    /// What is seen of the node that it asks, if it asks one.
    pub sight: Option<Sight>,
}
