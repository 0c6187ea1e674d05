//! How many commits a log has, and whether it has any.

ghost use Rattle.std.specs.Prelude.{◌≡◌, ◌+◌, ◌≤◌, ◌↔◌, ℕ, length, IfOk, IsTrue, MatchOption};
ghost use Rattle.log_ties.specs.Tails.{HasHeaderOf, IsShapeOf};
ghost use Rattle.log_ties.specs.Ties.{commits_to, FailsOnlyFor, HasCommit, HasCommits, RefusesTie};
ghost use Rattle.sqlite_disk.specs.Disk.{CountsFault};
ghost use Rattle.sqlite_wal.specs.Format.{be32, IsSigned};
ghost use Rattle.sqlite_wal.specs.Reads.{IsClean, OnlyReads};
ghost use Rattle.sqlite_wal.specs.Recovery.{frame_at};

use crate::header::{FRAME_HEADER_LEN, HEADER_LEN, get_be32, is_signed};
use crate::tail::Shape;
use crate::tie::{frames_of, read_head};
use sqlite_disk::Disk;
use sqlite_wal::Error;
use std::alloc::Global;
use std::io;

/// Where a frame has the number of pages that it commits.
const COMMITTED: usize = 4;

/// The number that the log has at this offset.
fn read_be32<D: Disk>(log: &mut D, at: usize) -> io::Result<u32>
    requires usable { IsTrue (D.Disk.is_usable log.old) }
    requires within { IsClean D.Disk log.old → at + 4 ≤ length (D.Disk.seen log.old) }
    ensures number { IfOk result (λ n. IsClean D.Disk log.new → n ≡ be32 (D.Disk.seen log.old) at) }
    ensures faults { CountsFault result (D.Disk.faults log.old) (D.Disk.faults log.new) }
    ensures same { OnlyReads D.Disk log.old log.new }
{
    let mut number = [0; 4];
    log.read_at(at, &mut number)?;
    Ok(get_be32(&number, 0))
}

/// How many of so many frames commit.
fn count_commits<D: Disk>(log: &mut D, shape: &Shape, frames: usize) -> io::Result<usize>
    requires usable { IsTrue (D.Disk.is_usable log.old) }
    requires shape { IsClean D.Disk log.old → IsShapeOf (D.Disk.seen log.old) shape.now.head shape.now.page_size shape.now.length }
    requires size { shape.now.page_size ≤ 65536 }
    requires within { frame_at shape.now.page_size frames ≤ shape.now.length }
    ensures count { IfOk result (λ n. IsClean D.Disk log.new → n ≡ commits_to shape.now.page_size (D.Disk.seen log.old) frames) }
    ensures faults { CountsFault result (D.Disk.faults log.old) (D.Disk.faults log.new) }
    ensures same { OnlyReads D.Disk log.old log.new }
{
    let step = FRAME_HEADER_LEN + shape.page_size;
    let mut count = 0;
    for i in 0..frames {
        if read_be32(log, HEADER_LEN + i * step + COMMITTED)? != 0 {
            count += 1;
        }
    }
    Ok(count)
}

/// How many commits recovery takes of a log under this header. None of a log that SQLite doesn't read, or of which
/// recovery takes no number of frames.
fn commits_under<D: Disk>(
    alloc: Global,
    log: &mut D,
    head: [u8; 32],
    len: usize,
) -> Result<Option<usize>, Error>
    requires usable { IsTrue (D.Disk.is_usable log.old) }
    requires read { IsClean D.Disk log.old → HasHeaderOf (D.Disk.seen log.old) head len }
    requires signed { IsSigned head }
    requires long { 32 ≤ len }
    ensures counted { IfOk result (λ found. IsClean D.Disk log.new
        → MatchOption found ((n : ℕ) → ¬ HasCommits (D.Disk.seen log.old) n) (HasCommits (D.Disk.seen log.old))) }
    ensures cause { FailsOnlyFor result (IsClean D.Disk log.new) (D.Disk.faults log.old) (D.Disk.faults log.new) (RefusesTie (D.Disk.seen log.old)) }
    ensures same { OnlyReads D.Disk log.old log.new }
{
    let Some((shape, frames)) = frames_of(alloc, log, head, len)? else {
        return Ok(None);
    };
    if frames > (shape.length - HEADER_LEN) / (FRAME_HEADER_LEN + shape.page_size) {
        return Ok(None);
    }
    Ok(Some(count_commits(log, &shape, frames)?))
}

/// How many commits recovery takes of a log. None where the log isn't one that SQLite reads, or recovery takes no number
/// of its frames. It is only read.
///
/// # Errors
///
/// `Io` where a read failed, `OutOfMemory`, and `Full` of a log whose frames 32 bits don't number.
pub fn commits_of<D: Disk>(alloc: Global, log: &mut D) -> Result<Option<usize>, Error>
    requires { IsTrue (D.Disk.is_usable log.old) }
    ensures counted { IfOk result (λ found. IsClean D.Disk log.new
        → MatchOption found ((n : ℕ) → ¬ HasCommits (D.Disk.seen log.old) n) (HasCommits (D.Disk.seen log.old))) }
    ensures cause { FailsOnlyFor result (IsClean D.Disk log.new) (D.Disk.faults log.old) (D.Disk.faults log.new) (RefusesTie (D.Disk.seen log.old)) }
    ensures same { OnlyReads D.Disk log.old log.new }
{
    let len = log.len()?;
    if len < HEADER_LEN {
        return Ok(None);
    }
    let head = read_head(log)?;
    if is_signed(&head) {
        commits_under(alloc, log, head, len)
    } else {
        Ok(None)
    }
}

/// Whether recovery takes a commit of a log. It is only read.
///
/// # Errors
///
/// As `commits_of`.
pub fn has_commit<D: Disk>(alloc: Global, log: &mut D) -> Result<bool, Error>
    requires { IsTrue (D.Disk.is_usable log.old) }
    ensures so { IfOk result (λ has. IsClean D.Disk log.new → (IsTrue has ↔ HasCommit (D.Disk.seen log.old))) }
    ensures cause { FailsOnlyFor result (IsClean D.Disk log.new) (D.Disk.faults log.old) (D.Disk.faults log.new) (RefusesTie (D.Disk.seen log.old)) }
    ensures same { OnlyReads D.Disk log.old log.new }
{
    match commits_of(alloc, log)? {
        Some(count) => Ok(count > 0),
        None => Ok(false),
    }
}
