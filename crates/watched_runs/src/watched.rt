//! A run that was watched, in rows.

ghost use Rattle.std.specs.Prelude.{◌≡◌, ◌<◌, ◌≤◌, take, drop, get_or, length};
ghost use Rattle.watched_runs.specs.Marks.{between, row_at};
ghost use Rattle.watched_runs.specs.Rows.{came_by};
ghost use Rattle.watched_runs.specs.Shown.{numbered, shown};

use crate::mark::{Mark, Marks, Stage};
use crate::row::{Letters, Row};
use ballots::Letter;
use network_script::World;
use node::Node;
use seats::{ReleasedOutput, Transmission};
use std::marker::Model;
use world_events::Event;

/// The first items of a list: as many as these, or all.
fn first_of<T>(items: &[T], count: usize) -> &[T]
    ensures { result.now ≡ take count items.now }
{
    let count = count.min(items.len());
    &items[..count]
}

/// What is between two indexes of a list.
fn between<T>(items: &[T], bounds: (usize, usize)) -> &[T]
    ensures { result.now ≡ between bounds items.now }
{
    let items = first_of(items, bounds.1);
    let from = bounds.0.min(items.len());
    &items[from..]
}

/// Letter `i` of those that were sent, if there is one.
fn letter_at(i: usize, sent: &[Letter]) -> Letters<'_>
    ensures { numbered result ≡ (i, take 1 (drop i sent.now)) }
{
    let letters = first_of(between(sent, (i, sent.len())), 1);
    Letters { first: i, letters }
}

/// The letter that an event delivers, of those that were sent.
fn came_by<'a>(event: &Event, sent: &'a [Letter]) -> Letters<'a>
    ensures { numbered result ≡ came_by sent.now event.now }
{
    match event {
        Event::Deliver(i) => letter_at(*i, sent),
        Event::DeliverThenCrash(i) => letter_at(*i, sent),
        _ => Letters {
            first: 0,
            letters: &[],
        },
    }
}

/// The letters between two indexes, numbered from the first index on.
fn letters_between(letters: &[Letter], bounds: (usize, usize)) -> Letters<'_>
    ensures { numbered result ≡ (bounds.0, between bounds letters.now) }
{
    Letters {
        first: bounds.0,
        letters: between(letters, bounds),
    }
}

/// The row of an event of this number, of which this was noted.
fn row_at<'a>(
    number: usize,
    event: &'a Event,
    mark: Mark,
    letters: &'a [Letter],
    outputs: &'a [ReleasedOutput],
) -> Row<'a>
    ensures { shown result ≡ row_at number event.now mark letters.now outputs.now }
{
    Row {
        number,
        step: mark.step,
        event,
        answer: mark.answer,
        came: came_by(event, first_of(letters, mark.letters.0)),
        sent: letters_between(letters, mark.letters),
        released: between(outputs, mark.outputs),
        sight: mark.sight,
    }
}

fn event_at(events: &[Event], i: usize) -> &Event
    requires { i < length events.now }
    ensures { result.now ≡ get_or events.now i result.now }
{
    &events[i]
}

fn mark_at(marks: &[Mark], i: usize) -> Mark
    requires { i < length marks.now }
    ensures { result ≡ get_or marks.now i result }
{
    marks[i]
}

/// A run: its events in rows, and the letters, the outputs and the transmissions of the world that they left.
#[derive(Drop)]
pub struct Watched<'a> {
    events: &'a [Event],
    marks: &'a [Mark],
    stages: &'a [Stage],
    letters: &'a [Letter],
    outputs: &'a [ReleasedOutput],
    transmissions: &'a [Transmission],
}

impl<'a> Model for Watched<'a> {
    ghost use Rattle.watched_runs.specs.Marks.{rows_from};
    ghost use Rattle.watched_runs.specs.Rows.{Seen};

    ghost Value = { Seen };

    ghost view = { λ w. record {
      rows = rows_from 0 w.events.now w.marks.now w.letters.now w.outputs.now;
      stages = w.stages.now;
      letters = w.letters.now;
      outputs = w.outputs.now;
      transmissions = w.transmissions.now;
    } };
}

impl Marks {
    ghost use Rattle.network_script.specs.World.{Written};
    ghost use Rattle.network_script.specs.Worlds.{StandsFor};
    ghost use Rattle.watched_runs.specs.Marks.{seen_in};

    /// The run of these events, which left this world.
    pub fn over<'a, N: Node>(&'a self, events: &'a [Event], world: &'a World<N>) -> Watched<'a>
        ensures { (w : Written) → StandsFor world.now w → result ≡ seen_in events.now self.now w }
    {
        Watched {
            events,
            marks: self.marks.as_slice(),
            stages: self.stages.as_slice(),
            letters: world.letters(),
            outputs: world.outputs(),
            transmissions: world.transmissions(),
        }
    }
}

impl<'a> Watched<'a> {
    /// How many events there were.
    pub fn len(&self) -> usize
        ensures { result ≡ length self.now.rows }
    {
        self.events.len().min(self.marks.len())
    }

    /// The row of event `i`.
    pub fn row(&self, i: usize) -> Row<'a>
        requires { i < length self.now.rows }
        ensures { shown result ≡ get_or self.now.rows i (shown result) }
    {
        let event = event_at(self.events, i);
        let mark = mark_at(self.marks, i);
        row_at(i, event, mark, self.letters, self.outputs)
    }

    /// Which rows each event of the script brought, in order.
    pub fn stages(&self) -> &'a [Stage]
        ensures { result.now ≡ self.now.stages }
    {
        self.stages
    }

    /// Which rows a stage has: those from a number on, and before another one, of the rows that there are.
    pub fn rows_of(&self, stage: &Stage) -> (usize, usize)
        ensures order { result.0 ≤ result.1 }
        ensures within { result.1 ≤ length self.now.rows }
        ensures same { between result self.now.rows ≡ between (stage.now.from, stage.now.to) self.now.rows }
    {
        let to = stage.to.min(self.len());
        (stage.from.min(to), to)
    }

    /// Every letter that was sent up to the run's end, in order.
    pub fn letters(&self) -> &'a [Letter]
        ensures { result.now ≡ self.now.letters }
    {
        self.letters
    }

    /// Every output that was released up to the run's end, in order.
    pub fn outputs(&self) -> &'a [ReleasedOutput]
        ensures { result.now ≡ self.now.outputs }
    {
        self.outputs
    }

    /// Every transmission up to the run's end, in order.
    pub fn transmissions(&self) -> &'a [Transmission]
        ensures { result.now ≡ self.now.transmissions }
    {
        self.transmissions
    }
}
