//! Entries that happen in a world, one after another: each as the events that it is there.

ghost use Rattle.std.specs.Prelude.{◌≡◌, ◌++◌, [], ℕ, List, length, map, IfOk, OnOk};
ghost use Rattle.std.specs.List.{AllZip};
ghost use Rattle.ballots.specs.declared.letters.Letter.{Letter};
ghost use Rattle.network_script.specs.World.{Written};
ghost use Rattle.network_script.specs.Worlds.{AreHonest, StandsFor, node_count};
ghost use Rattle.script_steps.specs.Plain.{round_of, rounds_of};
ghost use Rattle.script_steps.specs.declared.entry.Entry.TheVariants as entries;
ghost use Rattle.seats.specs.Fresh.{AreFresh};
ghost use Rattle.seats.specs.Receiving.{AreNew};
ghost use Rattle.watched_runs.specs.Following.{GoesOn, HasGone, StepsGo};
ghost use Rattle.watched_runs.specs.Marks.{seen_in};
ghost use Rattle.watched_runs.specs.Rows.{Row};
ghost use Rattle.watched_runs.specs.Steps.{AreRounds, IsOf, IsStepRun, Leave, PlainStepsAreEvents, StepRunsAreRuns};
ghost use Rattle.watched_runs.specs.Steps.{after, begun, is_all, stage_of};

use crate::course::{Course, note_event};
use crate::mark::{Marks, Stage};
use modem::Modem;
use network_script::World;
use node::Node;
use script_steps::{DeliverAll, Deliveries, Entry, Step, plain_event};
use seats::OutOfMemory;
use std::alloc::Global;
use world_events::Event;

/// One step, as the event that it is there.
fn note_step<N: Node>(
    alloc: Global,
    world: &mut World<N>,
    number: usize,
    step: Step,
    course: &mut Course,
) -> Result<(), OutOfMemory>
    ensures honesty { AreHonest world.new → AreHonest world.old }
    ensures members { node_count world.new ≡ node_count world.old }
    ensures run { OnOk result (AreHonest world.new → (members : ℕ) (w0 w : Written) (rows : List Row) → StandsFor world.old w
        → HasGone members w0 course.old rows w → (w' : Written) × (more : List Row) × StandsFor world.new w'
        × GoesOn members w0 course.new rows more w w' × AllZip (IsOf number) (round_of (entries.One step) w.letters course.old.deliveries.came) more) }
{
    let event = plain_event(alloc, step, world.letters(), &mut course.deliveries)?;
    note_event(alloc, world, number, event, course)?;
    Ok(())
}

/// Each letter that waits as the round begins comes, but for those that are excepted.
fn note_round<N: Node>(
    alloc: Global,
    world: &mut World<N>,
    number: usize,
    all: &DeliverAll,
    course: &mut Course,
) -> Result<(), OutOfMemory>
    ensures honesty { AreHonest world.new → AreHonest world.old }
    ensures members { node_count world.new ≡ node_count world.old }
    ensures run { OnOk result (AreHonest world.new → (members : ℕ) (w0 w : Written) (rows : List Row) → StandsFor world.old w
        → HasGone members w0 course.old rows w → (w' : Written) × (more : List Row) × StandsFor world.new w'
        × GoesOn members w0 course.new rows more w w' × AllZip (IsOf number) (round_of (entries.All all.now) w.letters course.old.deliveries.came) more) }
{
    let numbers = course
        .deliveries
        .waiting_but(alloc, all.except(), world.letters())?;
    for i in numbers {
        note_event(alloc, world, number, Event::Deliver(i), course)?;
    }
    Ok(())
}

/// One round after another.
fn note_all<N: Node>(
    alloc: Global,
    world: &mut World<N>,
    number: usize,
    all: &DeliverAll,
    course: &mut Course,
) -> Result<(), OutOfMemory>
    ensures honesty { AreHonest world.new → AreHonest world.old }
    ensures members { node_count world.new ≡ node_count world.old }
    ensures run { OnOk result (AreHonest world.new → (members : ℕ) (w0 w : Written) (rows : List Row) → StandsFor world.old w
        → HasGone members w0 course.old rows w → (w' : Written) × (more : List Row) × StandsFor world.new w' × GoesOn members w0 course.new rows more w w'
        × ((ls : List Letter) → AreRounds (w'.letters ++ ls) number (entries.All all.now) all.now.rounds (after begun rows) more)) }
{
    for _round in 0..all.rounds() {
        note_round(alloc, world, number, all, course)?;
    }
    Ok(())
}

/// All rounds of an entry.
fn note_rounds<N: Node>(
    alloc: Global,
    world: &mut World<N>,
    number: usize,
    entry: Entry,
    course: &mut Course,
) -> Result<(), OutOfMemory>
    ensures honesty { AreHonest world.new → AreHonest world.old }
    ensures members { node_count world.new ≡ node_count world.old }
    ensures run { OnOk result (AreHonest world.new → (members : ℕ) (w0 w : Written) (rows : List Row) → StandsFor world.old w
        → HasGone members w0 course.old rows w → (w' : Written) × (more : List Row) × StandsFor world.new w' × GoesOn members w0 course.new rows more w w'
        × ((ls : List Letter) → AreRounds (w'.letters ++ ls) number entry (rounds_of entry) (after begun rows) more)) }
{
    match entry {
        Entry::One(step) => {
            note_step(alloc, world, number, step, course)?;
            Ok(())
        }
        Entry::All(all) => {
            note_all(alloc, world, number, &all, course)?;
            Ok(())
        }
    }
}

fn is_all(entry: &Entry) -> bool
    ensures { result ≡ is_all entry.now }
{
    match entry {
        Entry::One(_) => false,
        Entry::All(_) => true,
    }
}

/// An entry of this number, and which rows it brings.
fn note_entry<N: Node>(
    alloc: Global,
    world: &mut World<N>,
    number: usize,
    entry: Entry,
    course: &mut Course,
) -> Result<Stage, OutOfMemory>
    ensures honesty { AreHonest world.new → AreHonest world.old }
    ensures members { node_count world.new ≡ node_count world.old }
    ensures run { IfOk result (λ stage. AreHonest world.new → (members : ℕ) (w0 w : Written) (rows : List Row) → StandsFor world.old w
        → HasGone members w0 course.old rows w → (w' : Written) × (more : List Row) × StandsFor world.new w' × GoesOn members w0 course.new rows more w w'
        × ((ls : List Letter) → AreRounds (w'.letters ++ ls) number entry (rounds_of entry) (after begun rows) more)
        × (stage ≡ stage_of number entry (after begun rows) (after (after begun rows) more))) }
{
    let from = course.events.len();
    let all = is_all(&entry);
    note_rounds(alloc, world, number, entry, course)?;
    let to = course.events.len();
    Ok(Stage {
        number,
        all,
        from,
        to,
    })
}

/// The entries one after another, the events that they are, and what is noted of each.
fn note_entries<N: Node>(
    alloc: Global,
    world: &mut World<N>,
    entries: Vec<Entry>,
) -> Result<(Vec<Event>, Marks), OutOfMemory>
    ensures honesty { AreHonest world.new → AreHonest world.old }
    ensures run { IfOk result (λ told. AreHonest world.new → (w : Written) → StandsFor world.old w → w.letters ≡ [] →
        (w' : Written) × StepsGo (length w.nodes) w entries.items told.0.items (seen_in told.0.items told.1 w') w' × StandsFor world.new w') }
{
    let mut stages = Vec::with_capacity(alloc, entries.len())?;
    let mut course = Course {
        events: Vec::with_capacity(alloc, entries.len())?,
        marks: Vec::with_capacity(alloc, entries.len())?,
        deliveries: Deliveries::new(alloc),
    };
    for entry in entries {
        let number = stages.len();
        let stage = note_entry(alloc, world, number, entry, &mut course)?;
        stages.push(stage)?;
    }
    let Course { events, marks, .. } = course;
    Ok((events, Marks { marks, stages }))
}

/// The entries of a script happen to fresh nodes and new modems, each as the events that it is in the world so far:
/// one, or a delivery for each letter that waits. These events are given, and the world as they left it, with what was
/// noted of them, which gives the run (`over`): what is promised of it holds where the nodes of that world are honest.
/// The fault is want of memory.
pub fn watch_steps<N: Node>(
    alloc: Global,
    nodes: Vec<N>,
    modems: Vec<Modem>,
    entries: Vec<Entry>,
) -> Result<(Vec<Event>, Marks, World<N>), OutOfMemory>
    requires nodes { AreFresh N.who N.honest N.stands nodes.items }
    requires modems { AreNew modems.items }
    ensures { IfOk result (λ left. AreHonest left.2 → (w : Written) × StandsFor left.2 w
        × IsStepRun (length nodes.items) (map (λ modem. modem.id) modems.items) entries.items left.0.items (seen_in left.0.items left.1 w)
        × Leave (length nodes.items) (map (λ modem. modem.id) modems.items) left.0.items (seen_in left.0.items left.1 w) w) }
{
    let mut world = World::new(alloc, nodes, modems)?;
    let (events, marks) = note_entries(alloc, &mut world, entries)?;
    Ok((events, marks, world))
}

/// A run of entries is one of the script of the events that they come to. So what holds of every run holds of it.
pub fn step_runs()
    ensures { StepRunsAreRuns }
{}

/// Entries that are events come to just these.
pub fn plain_steps()
    ensures { PlainStepsAreEvents }
{}
