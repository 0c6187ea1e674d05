//! What modems see of an output.

use grant_machine::Output;
use map_body::{Interval, decode};
use minislot_time::Slot;
use seats::OutOfMemory;
use std::alloc::Global;

/// The SID of everybody.
const EVERYBODY: u16 = 0x3fff;

/// A stretch of a MAP in which a modem may have to do something.
#[derive(Clone, Copy)]
pub struct Stretch {
    pub sid: u16,
    pub slot: Slot,
}

impl Stretch {
    /// Whether it is everybody's.
    pub fn is_everybodys(&self) -> bool {
        self.sid == EVERYBODY
    }
}

/// What modems see of an output.
#[derive(Drop)]
pub enum Sight {
    /// Modem `id` has a SID on a channel.
    Assigned {
        id: u32,
        ch: u8,
        sid: u16,
    },
    /// A MAP, and its stretches in order.
    Map {
        ch: u8,
        start: Slot,
        stretches: Vec<Stretch>,
    },
    Other,
}

/// The stretches of these intervals behind a minislot.
fn stretches_of(
    alloc: Global,
    start: Slot,
    intervals: &[Interval],
) -> Result<Vec<Stretch>, OutOfMemory> {
    let mut stretches = Vec::new(alloc);
    for interval in intervals {
        let from = u64::from(interval.from.get());
        if let Some(slot) = Slot::new(start.get() + from) {
            stretches.push(Stretch {
                sid: interval.sid.get(),
                slot,
            })?;
        }
    }
    Ok(stretches)
}

/// The stretches of a MAP's body, none where the bytes are no body.
fn stretches_in(alloc: Global, start: Slot, bytes: &[u8]) -> Result<Vec<Stretch>, OutOfMemory> {
    match decode(alloc, bytes) {
        Ok(body) => stretches_of(alloc, start, body.intervals(alloc)?.as_slice()),
        Err(_) => Ok(Vec::new(alloc)),
    }
}

/// What modems see of an output.
pub fn sight_of(alloc: Global, output: &Output) -> Result<Sight, OutOfMemory> {
    match output {
        Output::Assigned { modem, ch, sid, .. } => Ok(Sight::Assigned {
            id: *modem,
            ch: *ch,
            sid: *sid,
        }),
        Output::Map {
            ch,
            start,
            bytes,
            ..
        } => Ok(Sight::Map {
            ch: *ch,
            start: *start,
            stretches: stretches_in(alloc, *start, bytes.as_slice())?,
        }),
        _ => Ok(Sight::Other),
    }
}
