//! What is told of a database file and its log.

ghost use Rattle.std.specs.Prelude.{◌≡◌, ◌+◌, ◌≤◌, ◌↔◌, ℕ, List, length, IfOk, IfSome, IsTrue, MatchOption};
ghost use Rattle.log_ties.specs.declared.tie.Loss.{Loss};
ghost use Rattle.log_ties.specs.Tails.{HasHeaderOf, IsFoundIn, NoneReplay, image_of};
ghost use Rattle.log_ties.specs.Ties.{FailsOnlyFor, IsCut, IsLost, IsOfMaking, IsThere, IsToldOf, RefusesTie};
ghost use Rattle.sqlite_disk.specs.Disk.{CountsFault};
ghost use Rattle.sqlite_wal.specs.Files.{seen_image};
ghost use Rattle.sqlite_wal.specs.Format.{IsSigned};
ghost use Rattle.sqlite_wal.specs.Reads.{AreClean, IsClean, OnlyReads};
ghost use Rattle.sqlite_wal.specs.Recovery.{header};

use crate::header::{BEGUN, HEADER_LEN, VERSION, get_be32, is_signed};
use crate::tail::{Shape, ends_within};
use sqlite_disk::{Disk, Files};
use sqlite_wal::{Error, PageSize, probe_frames};
use std::alloc::Global;
use std::io;

/// What the commits of a log count, from the first to the last, and what the database file counts by itself.
#[derive(Clone, Copy, Debug, PartialEq, Eq)]
pub struct Times {
    pub first: u64,
    pub last: u64,
    pub file: u64,
}

/// What was lost of a database file and its log. The last three are told by the tables in them, which `tie_of` doesn't
/// read.
#[derive(Clone, Copy, Debug, PartialEq, Eq)]
pub enum Loss {
    /// The log isn't there, or has no byte.
    NoLog,
    /// The log ends at this byte, within its header or within a commit.
    CutAt(usize),
    /// The log has no header that its checksum is right for.
    Damaged,
    /// The database file isn't there, or has one byte, and the log is of one.
    NoDatabase,
    /// The log's commits don't go on from what the database file counts.
    OtherTime(Times),
    /// The database file can be read by itself, and not with the log's commits.
    OtherFile,
    /// They have no tables, and the log is behind some.
    NoTables,
}

/// What a database file and its log tell of each other.
#[derive(Clone, Copy, Debug, PartialEq, Eq)]
pub enum Tie {
    /// There is no database yet.
    New,
    /// Both are there, and nothing shows that one of them lost anything. No checkpoint was made yet: the log alone has
    /// all that was written.
    Begun,
    /// The same, behind a checkpoint.
    Tied,
    Lost(Loss),
}

/// The log's header.
pub(crate) fn read_head<D: Disk>(log: &mut D) -> io::Result<[u8; 32]>
    requires usable { IsTrue (D.Disk.is_usable log.old) }
    requires long { IsClean D.Disk log.old → 32 ≤ length (D.Disk.seen log.old) }
    ensures head { IfOk result (λ head. IsClean D.Disk log.new → head ≡ header (D.Disk.seen log.old)) }
    ensures faults { CountsFault result (D.Disk.faults log.old) (D.Disk.faults log.new) }
    ensures same { OnlyReads D.Disk log.old log.new }
{
    let mut head = [0; 32];
    log.read_at(0, &mut head)?;
    Ok(head)
}

/// The shape of a log that SQLite reads under this header, and how many of its frames recovery takes. None is of a log
/// that it doesn't read, or of which recovery takes no number of frames.
pub(crate) fn frames_of<D: Disk>(
    alloc: Global,
    log: &mut D,
    head: [u8; 32],
    len: usize,
) -> Result<Option<(Shape, usize)>, Error>
    requires usable { IsTrue (D.Disk.is_usable log.old) }
    requires read { IsClean D.Disk log.old → HasHeaderOf (D.Disk.seen log.old) head len }
    requires signed { IsSigned head }
    requires long { 32 ≤ len }
    ensures found { IfOk result (λ found. IsClean D.Disk log.new
        → MatchOption found (NoneReplay (D.Disk.seen log.old)) (λ (shape, k). IsFoundIn (D.Disk.seen log.old) shape.head shape.page_size shape.length k)) }
    ensures size { IfOk result (λ found. IfSome found (λ (shape, k). (shape.page_size ≤ 65536) × (32 ≤ shape.length))) }
    ensures cause { FailsOnlyFor result (IsClean D.Disk log.new) (D.Disk.faults log.old) (D.Disk.faults log.new) (RefusesTie (D.Disk.seen log.old)) }
    ensures same { OnlyReads D.Disk log.old log.new }
{
    if get_be32(&head, 4) != VERSION {
        return Ok(None);
    }
    let Some(size) = PageSize::new(get_be32(&head, 8) as usize) else {
        return Ok(None);
    };
    match probe_frames(alloc, log, size) {
        Ok(numbers) => {
            let shape = Shape {
                head,
                page_size: size.bytes(),
                length: len,
            };
            Ok(Some((shape, numbers.len())))
        }
        Err(Error::Corrupt) => Ok(None),
        Err(fault) => Err(fault),
    }
}

/// Whether the log ends within a commit.
fn is_cut<D: Disk>(alloc: Global, log: &mut D, head: [u8; 32], len: usize) -> Result<bool, Error>
    requires usable { IsTrue (D.Disk.is_usable log.old) }
    requires read { IsClean D.Disk log.old → HasHeaderOf (D.Disk.seen log.old) head len }
    requires signed { IsSigned head }
    requires long { 32 ≤ len }
    ensures cut { IfOk result (λ b. IsClean D.Disk log.new → (IsTrue b ↔ IsCut (D.Disk.seen log.old))) }
    ensures cause { FailsOnlyFor result (IsClean D.Disk log.new) (D.Disk.faults log.old) (D.Disk.faults log.new) (RefusesTie (D.Disk.seen log.old)) }
    ensures same { OnlyReads D.Disk log.old log.new }
{
    match frames_of(alloc, log, head, len)? {
        Some((shape, frames)) => ends_within(alloc, log, &shape, frames),
        None => Ok(false),
    }
}

/// Whether the log is of a making, with nothing committed.
fn is_of_making<D: Disk>(
    alloc: Global,
    log: &mut D,
    head: [u8; 32],
    len: usize,
) -> Result<bool, Error>
    requires usable { IsTrue (D.Disk.is_usable log.old) }
    requires read { IsClean D.Disk log.old → HasHeaderOf (D.Disk.seen log.old) head len }
    requires signed { IsSigned head }
    requires long { 32 ≤ len }
    ensures making { IfOk result (λ b. IsClean D.Disk log.new → (IsTrue b ↔ IsOfMaking (D.Disk.seen log.old))) }
    ensures cause { FailsOnlyFor result (IsClean D.Disk log.new) (D.Disk.faults log.old) (D.Disk.faults log.new) (RefusesTie (D.Disk.seen log.old)) }
    ensures same { OnlyReads D.Disk log.old log.new }
{
    if get_be32(&head, 12) != BEGUN {
        return Ok(false);
    }
    match frames_of(alloc, log, head, len)? {
        Some((_shape, frames)) => Ok(frames == 0),
        None => Ok(false),
    }
}

/// What the log tells beside a database file that is there.
fn tie_beside<D: Disk>(alloc: Global, log: &mut D) -> Result<Tie, Error>
    requires { IsTrue (D.Disk.is_usable log.old) }
    ensures told { IfOk result (λ tie. IsClean D.Disk log.new → (db : List ℕ) → IsThere db → IsToldOf (image_of (D.Disk.seen log.old) db) tie) }
    ensures cause { FailsOnlyFor result (IsClean D.Disk log.new) (D.Disk.faults log.old) (D.Disk.faults log.new) (RefusesTie (D.Disk.seen log.old)) }
    ensures same { OnlyReads D.Disk log.old log.new }
{
    let len = log.len()?;
    if len < HEADER_LEN {
        let loss = if len == 0 {
            Loss::NoLog
        } else {
            Loss::CutAt(len)
        };
        return Ok(Tie::Lost(loss));
    }
    let head = read_head(log)?;
    if !is_signed(&head) {
        let is_being_written = head[0] == 0;
        return Ok(if is_being_written {
            Tie::Tied
        } else {
            Tie::Lost(Loss::Damaged)
        });
    }
    if is_cut(alloc, log, head, len)? {
        return Ok(Tie::Lost(Loss::CutAt(len)));
    }
    let is_uncopied = get_be32(&head, 12) == BEGUN;
    Ok(if is_uncopied { Tie::Begun } else { Tie::Tied })
}

/// What the log tells where there is no database file.
fn tie_alone<D: Disk>(alloc: Global, log: &mut D) -> Result<Tie, Error>
    requires { IsTrue (D.Disk.is_usable log.old) }
    ensures told { IfOk result (λ tie. IsClean D.Disk log.new → (db : List ℕ) → ¬ IsThere db → IsToldOf (image_of (D.Disk.seen log.old) db) tie) }
    ensures cause { FailsOnlyFor result (IsClean D.Disk log.new) (D.Disk.faults log.old) (D.Disk.faults log.new) (RefusesTie (D.Disk.seen log.old)) }
    ensures same { OnlyReads D.Disk log.old log.new }
{
    let len = log.len()?;
    if len < HEADER_LEN {
        return Ok(Tie::New);
    }
    let head = read_head(log)?;
    if !is_signed(&head) || is_of_making(alloc, log, head, len)? {
        Ok(Tie::New)
    } else {
        Ok(Tie::Lost(Loss::NoDatabase))
    }
}

/// What a database file and its log tell of each other, as they are. They are only read. A loss is told of both exactly
/// where it is theirs.
///
/// # Errors
///
/// `Io` where a read failed, `OutOfMemory`, and `Full` of a log whose frames 32 bits don't number.
pub fn tie_of<D: Disk>(alloc: Global, files: &mut Files<D>) -> Result<Tie, Error>
    requires log_usable { IsTrue (D.Disk.is_usable files.old.log) }
    requires db_usable { IsTrue (D.Disk.is_usable files.old.db) }
    ensures told { IfOk result (λ tie. AreClean D.Disk files.new.log files.new.db → IsToldOf (seen_image D.Disk files.old.log files.old.db) tie) }
    ensures lost { (loss : Loss) → IsLost (seen_image D.Disk files.old.log files.old.db) loss
        → IfOk result (λ tie. AreClean D.Disk files.new.log files.new.db → tie ≡ Tie.Lost loss) }
    ensures cause { FailsOnlyFor result (AreClean D.Disk files.new.log files.new.db) (D.Disk.faults files.old.log + D.Disk.faults files.old.db)
        (D.Disk.faults files.new.log + D.Disk.faults files.new.db) (RefusesTie (D.Disk.seen files.old.log)) }
    ensures log { OnlyReads D.Disk files.old.log files.new.log }
    ensures db { OnlyReads D.Disk files.old.db files.new.db }
{
    let is_there = files.db.len()? > 1;
    if is_there {
        tie_beside(alloc, &mut files.log)
    } else {
        tie_alone(alloc, &mut files.log)
    }
}
