//! What may happen in a world.

use ballots::{Bytes, NodeId};
use minislot_time::Slot;

/// What happens next. Nodes, letters, outputs and modems are named by their numbers from 0 on. A
/// loss is a letter that no event delivers.
#[derive(Drop)]
pub enum Event {
    /// Node k is asked to lead.
    Lead(usize),
    /// Node k is offered a value.
    Offer(usize, Bytes),
    /// Node k tells another what it has learned from a place on.
    Tell(usize, NodeId, u64),
    /// Letter i comes to the node that it is to.
    Deliver(usize),
    /// Letter i comes, what the node answers is thrown away, and the node crashes.
    DeliverThenCrash(usize),
    /// Node k crashes.
    Crash(usize),
    /// Node k, which crashed, starts over its records.
    Restart(usize),
    /// Node k releases what it can, at a minislot time.
    Release(usize, u64),
    /// Modem m hears output i near a minislot time.
    Hear(usize, usize, Slot),
    /// Modem m wants to send a request of so many minislots, by a channel and a SID.
    Want(usize, u8, u16, u16),
    /// Modem m comes to a minislot of a channel, with a random number for its back-off.
    Tick(usize, u8, Slot, u64),
}
