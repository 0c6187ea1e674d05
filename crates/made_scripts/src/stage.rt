//! A world at work, the events that it had so far, and the letters that are still to come.

use acceptor::PlainRecords;
use ballots::{Letter, Members};
use network_script::World;
use node::SchedNode;
use seats::{Answer, OutOfMemory, PlainNode, ReleasedOutput, new_modems, plain_nodes};
use std::alloc::Global;
use world_events::Event;

/// A letter that is still to come.
#[derive(Clone, Copy)]
pub struct Coming {
    /// Its number in the order of sending.
    pub letter: usize,
    /// Whether it came before.
    pub is_repeat: bool,
}

/// A world over records in memory, its events so far, and the letters that are still to come.
#[derive(Drop)]
pub struct Stage {
    world: World<PlainNode>,
    events: Vec<Event>,
    coming: Vec<Coming>,
}

impl Stage {
    /// Before the first event.
    pub fn new(alloc: Global, members: Members, modems: &[u32]) -> Result<Stage, OutOfMemory> {
        let nodes = plain_nodes(alloc, members)?;
        let modems = new_modems(alloc, modems)?;
        let world = World::new(alloc, nodes, modems)?;
        Ok(Stage {
            world,
            events: Vec::new(alloc),
            coming: Vec::new(alloc),
        })
    }

    /// The event happens, and the letters that it sends are to come.
    pub fn happen(&mut self, event: Event) -> Result<Answer, OutOfMemory> {
        let sent = self.world.letters().len();
        let past = self.events.len();
        self.events.push(event)?;
        let report = self.world.run(&self.events[past..])?;
        for letter in sent..self.world.letters().len() {
            self.is_to_come(letter, false)?;
        }
        match report.answers().first() {
            Some(answer) => Ok(*answer),
            None => Err(OutOfMemory),
        }
    }

    /// The letter is to come.
    pub fn is_to_come(&mut self, letter: usize, is_repeat: bool) -> Result<(), OutOfMemory> {
        self.coming.push(Coming { letter, is_repeat })?;
        Ok(())
    }

    /// How many letters are to come.
    pub fn coming(&self) -> usize {
        self.coming.len()
    }

    /// Takes one of the letters that are to come. The last one takes its place.
    pub fn take(&mut self, place: usize) -> Option<Coming> {
        if place < self.coming.len() {
            Some(self.coming.swap_remove(place))
        } else {
            None
        }
    }

    /// The node that a letter is to.
    pub fn addressee(&self, letter: usize) -> Option<usize> {
        let letter = self.world.letters().get(letter)?;
        Some(usize::from(letter.to.number()))
    }

    /// Every output that a node released, in order.
    pub fn outputs(&self) -> &[ReleasedOutput] {
        self.world.outputs()
    }

    /// The events.
    pub fn into_events(self) -> Vec<Event> {
        let Stage { events, .. } = self;
        events
    }
}
