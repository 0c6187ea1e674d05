//! The frame of a MAP.

ghost use Rattle.std.specs.Prelude.{◌≡◌, ◌≤◌, ◌+◌, length, take, drop, IfOk};
ghost use Rattle.map_frames.specs.Frames.{header_bytes, message_of, framed, frame_of, body_begins, longest_body};

use crate::checks::{frame_check, header_check};
use std::alloc::{AllocError, Global};

/// To all cable modems.
const EVERY_MODEM: [u8; 6] = [0x01, 0xE0, 0x2F, 0x00, 0x00, 0x01];

/// From a CMTS of an address that is for documentation.
const CMTS: [u8; 6] = [0x00, 0x00, 0x5E, 0x00, 0x53, 0x01];

/// DSAP, SSAP, control; version 1; type MAP; a reserved byte.
const MESSAGE_HEAD: [u8; 6] = [0x00, 0x00, 0x03, 0x01, 0x03, 0x00];

/// The MAC header up to its check, where so many bytes follow it.
fn header_of(count: u16) -> [u8; 4]
    ensures { result ≡ header_bytes count }
{
    let [high, low] = count.to_be_bytes();
    [0xC2, 0, high, low]
}

/// The message that a frame carries, up to its check.
fn message_of(alloc: Global, body: &[u8]) -> Result<Vec<u8>, AllocError>
    requires { length body.now ≤ longest_body }
    ensures { IfOk result (λ bytes. bytes.items ≡ message_of body.now) }
{
    let len = 6 + body.len() as u16;
    let mut out = Vec::with_capacity(alloc, 20 + body.len())?;
    out.extend_from_slice(&EVERY_MODEM)?;
    out.extend_from_slice(&CMTS)?;
    out.extend_from_slice(&len.to_be_bytes())?;
    out.extend_from_slice(&MESSAGE_HEAD)?;
    out.extend_from_slice(body)?;
    Ok(out)
}

/// A header and a message with the check behind each.
#[tactic(auto, unfolding(crate::specs::Frames::framed))]
fn framed(alloc: Global, header: &[u8], message: &[u8]) -> Result<Vec<u8>, AllocError>
    requires header { length header.now ≤ 4 }
    requires message { length message.now ≤ 1056 }
    ensures { IfOk result (λ bytes. bytes.items ≡ framed header.now message.now) }
{
    let mut out = Vec::with_capacity(alloc, header.len() + message.len() + 6)?;
    out.extend_from_slice(header)?;
    out.extend_from_slice(&header_check(header).to_le_bytes())?;
    out.extend_from_slice(message)?;
    out.extend_from_slice(&frame_check(message).to_le_bytes())?;
    Ok(out)
}

/// The frame of a MAP with a body of these bytes: a MAC management message with both of its checks.
#[tactic(auto, using(crate::proofs::Framed::framed_whole))]
pub fn frame(alloc: Global, body: &[u8]) -> Result<Vec<u8>, AllocError>
    requires { length body.now ≤ longest_body }
    ensures bytes { IfOk result (λ bytes. bytes.items ≡ frame_of body.now) }
    ensures body { IfOk result (λ bytes. take (length body.now) (drop body_begins bytes.items) ≡ body.now) }
    ensures length { IfOk result (λ bytes. length bytes.items ≡ 30 + length body.now) }
{
    let message = message_of(alloc, body)?;
    let header = header_of(24 + body.len() as u16);
    framed(alloc, &header, &message)
}
