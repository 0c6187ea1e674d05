//! A run as far as it came, and how it goes on.

ghost use Rattle.std.specs.Prelude.{◌≡◌, ◌∷◌, [], ℕ, List, OnOk};
ghost use Rattle.std.specs.List.{AllZip};
ghost use Rattle.network_script.specs.World.{Written};
ghost use Rattle.network_script.specs.Worlds.{AreHonest, StandsFor, node_count};
ghost use Rattle.watched_runs.specs.Following.{GoesOn, HasGone, comes_by, delivered, followed};
ghost use Rattle.watched_runs.specs.Rows.{Row};
ghost use Rattle.watched_runs.specs.Steps.{IsOf, was_taken};

use crate::mark::Mark;
use crate::watching::note;
use ballots::Letter;
use network_script::World;
use node::Node;
use script_steps::Deliveries;
use seats::{Answer, OutOfMemory};
use std::alloc::{AllocError, Global};
use world_events::Event;

/// A run as far as it came: its events, what was noted of each, and which letters were sent and came.
#[derive(Drop)]
pub(crate) struct Course {
    pub events: Vec<Event>,
    pub marks: Vec<Mark>,
    pub deliveries: Deliveries,
}

/// The letter that an event delivers.
fn delivered(event: &Event) -> Option<usize>
    ensures { result ≡ delivered event.now }
{
    match event {
        Event::Deliver(i) => Some(*i),
        Event::DeliverThenCrash(i) => Some(*i),
        _ => None,
    }
}

/// Whether a node took the letter that was delivered, whatever became of that.
fn was_taken(answer: Answer) -> bool
    ensures { result ≡ was_taken answer }
{
    match answer {
        Answer::Refused(_) => false,
        _ => true,
    }
}

/// A letter that is delivered came, where it was taken.
fn comes_by(
    deliveries: &mut Deliveries,
    letter: Option<usize>,
    taken: bool,
) -> Result<(), AllocError>
    ensures { OnOk result (deliveries.new ≡ comes_by letter taken deliveries.old) }
{
    match (letter, taken) {
        (Some(i), true) => deliveries.comes(i),
        _ => Ok(()),
    }
}

/// What came and was sent by an event at which this was noted, where these are all letters now.
fn follow(
    alloc: Global,
    deliveries: &mut Deliveries,
    event: &Event,
    mark: &Mark,
    letters: &[Letter],
) -> Result<(), AllocError>
    ensures { OnOk result (deliveries.new ≡ followed event.now mark.now letters.now deliveries.old) }
{
    comes_by(deliveries, delivered(event), was_taken(mark.answer))?;
    deliveries.sends(alloc, letters)
}

/// One event, which the entry of this number brings.
pub(crate) fn note_event<N: Node>(
    alloc: Global,
    world: &mut World<N>,
    number: usize,
    event: Event,
    course: &mut Course,
) -> Result<(), OutOfMemory>
    ensures honesty { AreHonest world.new → AreHonest world.old }
    ensures members { node_count world.new ≡ node_count world.old }
    ensures run { OnOk result (AreHonest world.new → (members : ℕ) (w0 w : Written) (rows : List Row) → StandsFor world.old w
        → HasGone members w0 course.old rows w → (w' : Written) × (more : List Row) × StandsFor world.new w'
        × GoesOn members w0 course.new rows more w w' × AllZip (IsOf number) (event ∷ []) more) }
{
    let mark = note(world, number, &event)?;
    follow(
        alloc,
        &mut course.deliveries,
        &event,
        &mark,
        world.letters(),
    )?;
    course.marks.push(mark)?;
    course.events.push(event)?;
    Ok(())
}
