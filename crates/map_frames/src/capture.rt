//! A capture file of frames.

ghost use Rattle.std.specs.Prelude.{◌≡◌, ◌≤◌, length, IfOk};
ghost use Rattle.map_frames.specs.Frames.{frame_of, longest_body};
ghost use Rattle.map_frames.specs.Captures.{file_head, record_of};

use crate::frames::frame;
use std::alloc::{AllocError, Global};

/// Magic number, version 2.4, two fields that are 0, the longest packet, link type DOCSIS.
const FILE_HEAD: [u8; 24] = [
    0xD4, 0xC3, 0xB2, 0xA1, 2, 0, 4, 0, 0, 0, 0, 0, 0, 0, 0, 0, 0xFF, 0xFF, 0, 0, 143, 0, 0, 0,
];

/// What a capture file begins with.
pub fn file_head() -> [u8; 24]
    ensures { result ≡ file_head }
{
    FILE_HEAD
}

/// A frame as it stands in a capture file.
#[tactic(auto, unfolding(crate::specs::Captures::record_of))]
fn record_of(alloc: Global, seconds: u32, frame: &[u8]) -> Result<Vec<u8>, AllocError>
    requires { length frame.now ≤ 1066 }
    ensures { IfOk result (λ bytes. bytes.items ≡ record_of seconds frame.now) }
{
    let len = (frame.len() as u32).to_le_bytes();
    let mut out = Vec::with_capacity(alloc, 16 + frame.len())?;
    out.extend_from_slice(&seconds.to_le_bytes())?;
    out.extend_from_slice(&[0; 4])?;
    out.extend_from_slice(&len)?;
    out.extend_from_slice(&len)?;
    out.extend_from_slice(frame)?;
    Ok(out)
}

/// The frame of a MAP with a body of these bytes as it stands in a capture file, with its time in seconds.
pub fn record(alloc: Global, seconds: u32, body: &[u8]) -> Result<Vec<u8>, AllocError>
    requires { length body.now ≤ longest_body }
    ensures { IfOk result (λ bytes. bytes.items ≡ record_of seconds (frame_of body.now)) }
{
    let framed = frame(alloc, body)?;
    record_of(alloc, seconds, &framed)
}
