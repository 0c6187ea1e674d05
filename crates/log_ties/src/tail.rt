//! Where a log ends behind its last commit.

ghost use Rattle.std.specs.Prelude.{◌≡◌, ◌+◌, ◌*◌, ◌<◌, ◌≤◌, ◌↔◌, ℕ, length, slice_index, IfOk, IsTrue, MatchOption};
ghost use Rattle.std.specs.Prelude.{OnOk};
ghost use Rattle.log_ties.specs.Ties.{EndsWithin, HasOwnSaltsAt};
ghost use Rattle.log_ties.specs.Tails.{IsQuiet, Reaches, IsShapeOf};
ghost use Rattle.sqlite_disk.specs.Disk.{CountsFault, Holds};
ghost use Rattle.sqlite_wal.specs.Format.{part, stored_sum};
ghost use Rattle.sqlite_wal.specs.Outcome.{FailsFor, Never};
ghost use Rattle.sqlite_wal.specs.Reads.{IsClean, OnlyReads};
ghost use Rattle.sqlite_wal.specs.Recovery.{frame_at, header, sum_before, Replays};

use crate::header::{FRAME_HEADER_LEN, HEADER_LEN, SALTS, get_be32, get_sum, is_frame};
use sqlite_disk::Disk;
use sqlite_wal::Error;
use std::alloc::Global;
use std::io;

/// A log's header, the size of its pages in bytes, and its length in bytes.
#[derive(Clone, Copy)]
pub(crate) struct Shape {
    pub(crate) head: [u8; 32],
    pub(crate) page_size: usize,
    pub(crate) length: usize,
}

/// So many frames of a log, and the offset behind them.
#[derive(Clone, Copy)]
pub(crate) struct Place {
    pub(crate) frames: usize,
    pub(crate) at: usize,
}

/// The checksum that the log has at this offset.
fn read_sum<D: Disk>(log: &mut D, at: usize) -> io::Result<(u32, u32)>
    requires usable { IsTrue (D.Disk.is_usable log.old) }
    requires within { IsClean D.Disk log.old → at + 8 ≤ length (D.Disk.seen log.old) }
    ensures sum { IfOk result (λ sum. IsClean D.Disk log.new → sum ≡ stored_sum (part (D.Disk.seen log.old) at 8) 0) }
    ensures faults { CountsFault result (D.Disk.faults log.old) (D.Disk.faults log.new) }
    ensures same { OnlyReads D.Disk log.old log.new }
{
    let mut sum = [0; 8];
    log.read_at(at, &mut sum)?;
    Ok(get_sum(&sum, 0))
}

/// The checksum that the frame behind this place goes on from.
fn sum_behind<D: Disk>(log: &mut D, shape: &Shape, place: Place) -> io::Result<(u32, u32)>
    requires usable { IsTrue (D.Disk.is_usable log.old) }
    requires shape { IsClean D.Disk log.old → IsShapeOf (D.Disk.seen log.old) shape.now.head shape.now.page_size shape.now.length }
    requires place { place.at ≡ frame_at shape.now.page_size place.frames }
    requires within { place.at ≤ shape.now.length }
    ensures sum { IfOk result (λ sum. IsClean D.Disk log.new → sum ≡ sum_before shape.now.page_size (D.Disk.seen log.old) place.frames) }
    ensures faults { CountsFault result (D.Disk.faults log.old) (D.Disk.faults log.new) }
    ensures same { OnlyReads D.Disk log.old log.new }
{
    if place.frames == 0 {
        return Ok(get_sum(&shape.head, 24));
    }
    read_sum(log, place.at - shape.page_size - FRAME_HEADER_LEN + 16)
}

/// The checksum behind the frame at this offset, where that passes behind the one before and doesn't commit.
fn read_uncommitted<D: Disk>(
    log: &mut D,
    head: &[u8; 32],
    before: (u32, u32),
    at: usize,
    buf: &mut [u8],
) -> io::Result<Option<(u32, u32)>>
    requires usable { IsTrue (D.Disk.is_usable log.old) }
    requires long { 24 ≤ length buf.old }
    requires within { IsClean D.Disk log.old → at + length buf.old ≤ length (D.Disk.seen log.old) }
    ensures found { IfOk result (λ found. IsClean D.Disk log.new → let frame = part (D.Disk.seen log.old) at (length buf.old) in
        MatchOption found (¬ IsQuiet head.now before frame) (λ sum. IsQuiet head.now before frame × (sum ≡ stored_sum frame 16))) }
    ensures faults { CountsFault result (D.Disk.faults log.old) (D.Disk.faults log.new) }
    ensures same { OnlyReads D.Disk log.old log.new }
{
    log.read_at(at, buf)?;
    if is_frame(head, before, buf) && get_be32(buf, 4) == 0 {
        Ok(Some(get_sum(buf, 16)))
    } else {
        Ok(None)
    }
}

/// The place before the first frame that isn't there, doesn't pass, or commits, from this one on.
fn uncommitted_end<D: Disk>(
    log: &mut D,
    shape: &Shape,
    from: Place,
    buf: &mut [u8],
) -> io::Result<Place>
    requires usable { IsTrue (D.Disk.is_usable log.old) }
    requires shape { IsClean D.Disk log.old → IsShapeOf (D.Disk.seen log.old) shape.now.head shape.now.page_size shape.now.length }
    requires buf { length buf.old ≡ 24 + shape.now.page_size }
    requires from { from.at ≡ frame_at shape.now.page_size from.frames }
    requires within { from.at ≤ shape.now.length }
    ensures place { IfOk result (λ last. last.at ≡ frame_at shape.now.page_size last.frames) }
    ensures within { IfOk result (λ last. last.at ≤ shape.now.length) }
    ensures reaches { IfOk result (λ last. IsClean D.Disk log.new → Reaches shape.now.page_size (D.Disk.seen log.old) from.frames last.frames) }
    ensures faults { CountsFault result (D.Disk.faults log.old) (D.Disk.faults log.new) }
    ensures same { OnlyReads D.Disk log.old log.new }
{
    let end = shape.length;
    let mut before = sum_behind(log, shape, from)?;
    let Place { mut frames, mut at } = from;
    while end - at >= buf.len() {
        let Some(sum) = read_uncommitted(log, &shape.head, before, at, buf)? else {
            return Ok(Place { frames, at });
        };
        before = sum;
        at += buf.len();
        frames += 1;
    }
    Ok(Place { frames, at })
}

/// Reads a part of the log.
fn read_part<D: Disk>(log: &mut D, at: usize, buf: &mut [u8]) -> io::Result<()>
    requires usable { IsTrue (D.Disk.is_usable log.old) }
    requires some { 0 < length buf.old }
    requires within { IsClean D.Disk log.old → at + length buf.old ≤ length (D.Disk.seen log.old) }
    ensures read { OnOk result (IsClean D.Disk log.new → Holds (D.Disk.seen log.old) at buf.new) }
    ensures faults { CountsFault result (D.Disk.faults log.old) (D.Disk.faults log.new) }
    ensures same { OnlyReads D.Disk log.old log.new }
{
    log.read_at(at, buf)
}

/// Whether these are the first bytes of the header's salts.
fn are_own_salts(head: &[u8; 32], found: &[u8]) -> bool
    requires { length found.now ≤ 8 }
    ensures { IsTrue result ↔ ((i : ℕ) → i < length found.now → slice_index found.now i ≡ slice_index head.now (16 + i)) }
{
    for (i, byte) in found.iter().enumerate() {
        if *byte != head[SALTS + i] {
            return false;
        }
    }
    true
}

/// Whether the frame at this offset has begun, and what is left of its salts is as in the header.
fn has_own_salts<D: Disk>(log: &mut D, shape: &Shape, at: usize) -> io::Result<bool>
    requires usable { IsTrue (D.Disk.is_usable log.old) }
    requires shape { IsClean D.Disk log.old → IsShapeOf (D.Disk.seen log.old) shape.now.head shape.now.page_size shape.now.length }
    requires within { at ≤ shape.now.length }
    ensures own { IfOk result (λ b. IsClean D.Disk log.new → (IsTrue b ↔ HasOwnSaltsAt (D.Disk.seen log.old) at)) }
    ensures faults { CountsFault result (D.Disk.faults log.old) (D.Disk.faults log.new) }
    ensures same { OnlyReads D.Disk log.old log.new }
{
    let left = shape.length - at;
    if left <= 8 {
        return Ok(left > 0);
    }
    let count = if left < 16 { left - 8 } else { 8 };
    let mut salts = [0u8; 8];
    let found = &mut salts[..count];
    read_part(log, at + 8, found)?;
    Ok(are_own_salts(&shape.head, found))
}

/// Whether the log ends within a commit, where recovery takes so many frames.
pub(crate) fn ends_within<D: Disk>(
    alloc: Global,
    log: &mut D,
    shape: &Shape,
    frames: usize,
) -> Result<bool, Error>
    requires usable { IsTrue (D.Disk.is_usable log.old) }
    requires shape { IsClean D.Disk log.old → IsShapeOf (D.Disk.seen log.old) shape.now.head shape.now.page_size shape.now.length }
    requires size { shape.now.page_size ≤ 65536 }
    requires long { 32 ≤ shape.now.length }
    requires replays { IsClean D.Disk log.old → Replays shape.now.page_size (D.Disk.seen log.old) frames }
    ensures cut { IfOk result (λ b. IsClean D.Disk log.new → (IsTrue b ↔ ((k : ℕ) × EndsWithin shape.now.page_size (D.Disk.seen log.old) k))) }
    ensures cause { FailsFor result (IsClean D.Disk log.new) (D.Disk.faults log.old) (D.Disk.faults log.new) Never }
    ensures same { OnlyReads D.Disk log.old log.new }
{
    let mut buf = vec![in alloc; 0; FRAME_HEADER_LEN + shape.page_size]?;
    if frames > (shape.length - HEADER_LEN) / buf.len() {
        return Ok(false);
    }
    let at = HEADER_LEN + frames * buf.len();
    let last = uncommitted_end(log, shape, Place { frames, at }, &mut buf)?;
    if shape.length - last.at >= buf.len() {
        return Ok(false);
    }
    if last.frames > frames {
        return Ok(true);
    }
    Ok(has_own_salts(log, shape, last.at)?)
}
