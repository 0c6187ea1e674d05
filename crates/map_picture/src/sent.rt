//! What modems transmitted.

ghost use Rattle.std.specs.Prelude.{IfOk};
ghost use Rattle.std.specs.List.Sorted.{IsPermutation};
ghost use Rattle.map_picture.specs.Wedges.{IsInOrder};

use minislot_time::Slot;
use modem::Sending;
use std::alloc::{AllocError, Global};

/// What a modem sent in a minislot of a channel.
#[derive(Clone, Copy, Debug)]
pub struct Sent {
    /// Which modem it was: two that sent in one minislot of a channel collide.
    pub modem: usize,
    /// The id by which that modem is told.
    pub id: u32,
    pub channel: u8,
    pub slot: Slot,
    pub sending: Sending,
}

/// The same, in the order of their minislots.
pub(crate) fn in_order(alloc: Global, sent: &[Sent]) -> Result<Vec<Sent>, AllocError>
    ensures same { IfOk result (λ ordered. IsPermutation sent.now ordered.items) }
    ensures order { IfOk result (λ ordered. IsInOrder ordered.items) }
{
    let mut ordered = Vec::from_slice(alloc, sent)?;
    ordered.sort_by_key(|t| t.slot.get())?;
    Ok(ordered)
}
