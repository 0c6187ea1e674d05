//! Modems that hear what nodes release, want and tick.

use crate::chances::Chances;
use crate::sights::{Sight, Stretch, sight_of};
use crate::stage::Stage;
use minislot_time::Slot;
use seats::OutOfMemory;
use std::alloc::Global;
use world_events::Event;

/// The most minislots that a modem wants.
const MOST_WANTED: usize = 64;

/// A flow of a modem, by the modem's index.
#[derive(Clone, Copy, PartialEq, Eq)]
struct Flow {
    modem: usize,
    ch: u8,
    sid: u16,
}

/// The flow wants minislots, or it doesn't.
fn want_some(stage: &mut Stage, chances: &mut Chances, flow: &Flow) -> Result<(), OutOfMemory> {
    if chances.percent(50) {
        let n = 1 + chances.below(MOST_WANTED) as u16;
        stage.happen(Event::Want(flow.modem, flow.ch, flow.sid, n))?;
    }
    Ok(())
}

/// The modem comes to the first minislot of the stretch, where it acts in it.
fn come(
    stage: &mut Stage,
    chances: &mut Chances,
    modem: usize,
    ch: u8,
    stretch: &Stretch,
    acts: bool,
) -> Result<(), OutOfMemory> {
    if acts {
        let random = chances.number();
        stage.happen(Event::Tick(modem, ch, stretch.slot, random))?;
    }
    Ok(())
}

/// What modems know of the outputs that they heard.
#[derive(Drop)]
pub struct Plant<'a> {
    alloc: Global,
    /// The ids of the modems.
    ids: &'a [u32],
    flows: Vec<Flow>,
    /// The last place of the log whose output they heard.
    heard: u64,
    /// The minislot at which they hear what is no MAP.
    now: Slot,
}

impl<'a> Plant<'a> {
    /// Modems that heard nothing.
    pub fn new(alloc: Global, ids: &'a [u32], start: Slot) -> Plant<'a> {
        Plant {
            alloc,
            ids,
            flows: Vec::new(alloc),
            heard: 0,
            now: start,
        }
    }

    /// The modems hear the outputs from this one on, but those of places that they heard before.
    pub fn hear_from(
        &mut self,
        stage: &mut Stage,
        chances: &mut Chances,
        first: usize,
    ) -> Result<(), OutOfMemory> {
        if self.ids.is_empty() {
            return Ok(());
        }
        for number in first..stage.outputs().len() {
            self.hear(stage, chances, number)?;
        }
        Ok(())
    }

    /// Each modem hears the output, unless its place was heard before.
    fn hear(
        &mut self,
        stage: &mut Stage,
        chances: &mut Chances,
        number: usize,
    ) -> Result<(), OutOfMemory> {
        let Some(released) = stage.outputs().get(number) else {
            return Ok(());
        };
        if released.numbered.place <= self.heard {
            return Ok(());
        }
        self.heard = released.numbered.place;
        let sight = sight_of(self.alloc, &released.numbered.output)?;
        match sight {
            Sight::Assigned { id, ch, sid } => {
                self.hear_all(stage, number)?;
                self.assign(id, ch, sid)
            }
            Sight::Map {
                ch,
                start,
                stretches,
            } => {
                self.now = start;
                self.want(stage, chances, ch)?;
                self.hear_all(stage, number)?;
                self.work(stage, chances, ch, stretches.as_slice())
            }
            Sight::Other => self.hear_all(stage, number),
        }
    }

    /// Each modem hears the output.
    fn hear_all(&self, stage: &mut Stage, number: usize) -> Result<(), OutOfMemory> {
        for modem in 0..self.ids.len() {
            stage.happen(Event::Hear(modem, number, self.now))?;
        }
        Ok(())
    }

    /// The flows of the modems of this id have a SID.
    fn assign(&mut self, id: u32, ch: u8, sid: u16) -> Result<(), OutOfMemory> {
        for (modem, its) in self.ids.iter().enumerate() {
            if *its == id {
                self.flows.push(Flow { modem, ch, sid })?;
            }
        }
        Ok(())
    }

    /// Some of the channel's flows want minislots.
    fn want(&self, stage: &mut Stage, chances: &mut Chances, ch: u8) -> Result<(), OutOfMemory> {
        for flow in &self.flows {
            if flow.ch == ch {
                want_some(stage, chances, flow)?;
            }
        }
        Ok(())
    }

    /// The modems come to the stretches of a MAP of the channel.
    fn work(
        &self,
        stage: &mut Stage,
        chances: &mut Chances,
        ch: u8,
        stretches: &[Stretch],
    ) -> Result<(), OutOfMemory> {
        for stretch in stretches {
            self.tick(stage, chances, ch, stretch)?;
        }
        Ok(())
    }

    /// Each modem that may have to do something in the stretch comes to its first minislot.
    fn tick(
        &self,
        stage: &mut Stage,
        chances: &mut Chances,
        ch: u8,
        stretch: &Stretch,
    ) -> Result<(), OutOfMemory> {
        for modem in 0..self.ids.len() {
            let acts = self.acts(modem, ch, stretch);
            come(stage, chances, modem, ch, stretch, acts)?;
        }
        Ok(())
    }

    /// Whether the modem may have to do something in the stretch, which is everybody's or of a flow of its own.
    fn acts(&self, modem: usize, ch: u8, stretch: &Stretch) -> bool {
        let its = Flow {
            modem,
            ch,
            sid: stretch.sid,
        };
        stretch.is_everybodys() || self.flows.iter().any(|flow| *flow == its)
    }
}
