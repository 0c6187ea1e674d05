//! Whether a log is behind the tables of a database.

ghost use Rattle.std.specs.Prelude.{◌≡◌, ◌≤◌, ◌↔◌, IfOk, IsTrue};
ghost use Rattle.log_ties.specs.Tails.{HasHeaderOf};
ghost use Rattle.log_ties.specs.Ties.{FailsOnlyFor, IsBehindTables, RefusesTie};
ghost use Rattle.sqlite_wal.specs.Format.{IsSigned};
ghost use Rattle.sqlite_wal.specs.Reads.{IsClean, OnlyReads};

use crate::commits::has_commit;
use crate::header::{BEGUN, HEADER_LEN, get_be32, is_signed};
use crate::tie::read_head;
use sqlite_disk::Disk;
use sqlite_wal::Error;
use std::alloc::Global;

/// Where a header has its count of checkpoints.
const CHECKPOINTS: usize = 12;

/// Whether a log under this header is behind the tables of a database.
fn is_behind_under<D: Disk>(
    alloc: Global,
    log: &mut D,
    head: [u8; 32],
    len: usize,
) -> Result<bool, Error>
    requires usable { IsTrue (D.Disk.is_usable log.old) }
    requires read { IsClean D.Disk log.old → HasHeaderOf (D.Disk.seen log.old) head len }
    requires signed { IsSigned head }
    requires long { 32 ≤ len }
    ensures so { IfOk result (λ is. IsClean D.Disk log.new → (IsTrue is ↔ IsBehindTables (D.Disk.seen log.old))) }
    ensures cause { FailsOnlyFor result (IsClean D.Disk log.new) (D.Disk.faults log.old) (D.Disk.faults log.new) (RefusesTie (D.Disk.seen log.old)) }
    ensures same { OnlyReads D.Disk log.old log.new }
{
    let checkpoints = get_be32(&head, CHECKPOINTS);
    if checkpoints == BEGUN {
        return Ok(false);
    }
    if checkpoints > 0 {
        return Ok(true);
    }
    has_commit(alloc, log)
}

/// Whether a log is as only one behind the tables of a database is: where these aren't there, they are lost. It is only
/// read.
///
/// # Errors
///
/// `Io` where a read failed, `OutOfMemory`, and `Full` of a log whose frames 32 bits don't number.
pub fn is_behind_tables<D: Disk>(alloc: Global, log: &mut D) -> Result<bool, Error>
    requires { IsTrue (D.Disk.is_usable log.old) }
    ensures so { IfOk result (λ is. IsClean D.Disk log.new → (IsTrue is ↔ IsBehindTables (D.Disk.seen log.old))) }
    ensures cause { FailsOnlyFor result (IsClean D.Disk log.new) (D.Disk.faults log.old) (D.Disk.faults log.new) (RefusesTie (D.Disk.seen log.old)) }
    ensures same { OnlyReads D.Disk log.old log.new }
{
    let len = log.len()?;
    if len < HEADER_LEN {
        return Ok(false);
    }
    let head = read_head(log)?;
    if is_signed(&head) {
        is_behind_under(alloc, log, head, len)
    } else {
        Ok(false)
    }
}
