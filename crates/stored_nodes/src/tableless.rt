//! Whether two files lost their tables, and what tables tell of files that lost something.

ghost use Rattle.std.specs.Prelude.{◌≡◌, ◌≤◌, ◌↔◌, [], IfErr, IfOk, IfSome, IsTrue, Some};
ghost use Rattle.log_ties.specs.Ties.{IsBehindTables};
ghost use Rattle.log_ties.specs.declared.tie.Loss.{Loss as Lost};
ghost use Rattle.sqlite.specs.Files.{faults_of, image_of};
ghost use Rattle.sqlite_wal.specs.Reads.{AreClean, IsClean, OnlyReads};
ghost use Rattle.stored_nodes.specs.Lost.{IsUnknown, NeverLies};
ghost use Rattle.stored_nodes.specs.Tableless.{IsFoundBlank, IsLostByTables, IsTableless, ShowsByTables, ShowsTableless};

use crate::copies::copy_of;
use crate::looks::opened_copy;
use crate::start::StartFault;
use crate::ties::unknown;
use crate::times::other_time_of;
use acceptor_store::OpenFault;
use log_ties::{Loss, is_behind_tables};
use sqlite::Files;
use sqlite_disk::Disk;
use std::alloc::{AllocError, Global};

/// Whether a copy holds a database without tables.
fn is_blank_in<D: Disk + Drop>(alloc: Global, copy: Files<D>) -> Result<bool, AllocError>
    requires log { IsTrue (D.Disk.is_usable copy.log) }
    requires db { IsTrue (D.Disk.is_usable copy.db) }
    ensures { NeverLies D.Disk → IfOk result (IsFoundBlank (image_of D.Disk copy)) }
{
    match opened_copy(alloc, copy) {
        Ok(conn) => Ok(acceptor_store_parts::is_blank(conn.schema())),
        Err(OpenFault::Refused) => Ok(false),
        Err(_) => Err(AllocError),
    }
}

/// Whether two files hold a database without tables.
fn are_blank<D: Disk>(alloc: Global, files: &mut Files<D>) -> Result<bool, StartFault>
    requires log_usable { IsTrue (D.Disk.is_usable files.old.log) }
    requires db_usable { IsTrue (D.Disk.is_usable files.old.db) }
    ensures found { AreClean D.Disk files.new.log files.new.db → IfOk result (IsFoundBlank (image_of D.Disk files.old)) }
    ensures due { IfErr result (λ e. AreClean D.Disk files.new.log files.new.db
        → IsUnknown (image_of D.Disk files.old) (faults_of D.Disk files.old) (faults_of D.Disk files.new) e) }
    ensures counts { faults_of D.Disk files.old ≤ faults_of D.Disk files.new }
    ensures log { OnlyReads D.Disk files.old.log files.new.log }
    ensures db { OnlyReads D.Disk files.old.db files.new.db }
{
    let copy = copy_of(alloc, files)?;
    match is_blank_in(alloc, copy) {
        Ok(is_blank) => Ok(is_blank),
        Err(_) => Err(StartFault::OutOfMemory),
    }
}

/// Whether a log is behind tables.
fn is_behind<D: Disk>(alloc: Global, log: &mut D) -> Result<bool, StartFault>
    requires { IsTrue (D.Disk.is_usable log.old) }
    ensures so { IfOk result (λ is. IsClean D.Disk log.new → (IsTrue is ↔ IsBehindTables (D.Disk.seen log.old))) }
    ensures due { IfErr result (λ e. IsClean D.Disk log.new
        → IsUnknown (record { log = D.Disk.seen log.old; db = [] }) (D.Disk.faults log.old) (D.Disk.faults log.new) e) }
    ensures counts { D.Disk.faults log.old ≤ D.Disk.faults log.new }
    ensures same { OnlyReads D.Disk log.old log.new }
{
    match is_behind_tables(alloc, log) {
        Ok(is_behind) => Ok(is_behind),
        Err(error) => Err(unknown(error)),
    }
}

/// What shows that two files lost their tables, if it shows: they hold a database without any, and the log is behind
/// some. The files are only read.
fn tableless_of<D: Disk>(alloc: Global, files: &mut Files<D>) -> Result<Option<Loss>, StartFault>
    requires log_usable { IsTrue (D.Disk.is_usable files.old.log) }
    requires db_usable { IsTrue (D.Disk.is_usable files.old.db) }
    ensures shown { IfOk result (λ found. AreClean D.Disk files.new.log files.new.db → IfSome found (ShowsTableless (image_of D.Disk files.old))) }
    ensures told { (loss : Lost) → IsTableless (image_of D.Disk files.old) loss → AreClean D.Disk files.new.log files.new.db
        → IfOk result (λ found. found ≡ Some loss) }
    ensures due { IfErr result (λ e. AreClean D.Disk files.new.log files.new.db
        → IsUnknown (image_of D.Disk files.old) (faults_of D.Disk files.old) (faults_of D.Disk files.new) e) }
    ensures counts { faults_of D.Disk files.old ≤ faults_of D.Disk files.new }
    ensures log { OnlyReads D.Disk files.old.log files.new.log }
    ensures db { OnlyReads D.Disk files.old.db files.new.db }
{
    let is_behind = is_behind(alloc, &mut files.log)?;
    if !is_behind {
        return Ok(None);
    }
    let are_blank = are_blank(alloc, files)?;
    Ok(if are_blank {
        Some(Loss::NoTables)
    } else {
        None
    })
}

/// What the tables of two files show to be lost, if anything: the files are of two times, or have no tables behind some.
/// They are only read.
pub(crate) fn lost_by_tables<D: Disk>(
    alloc: Global,
    files: &mut Files<D>,
) -> Result<Option<Loss>, StartFault>
    requires log_usable { IsTrue (D.Disk.is_usable files.old.log) }
    requires db_usable { IsTrue (D.Disk.is_usable files.old.db) }
    ensures shown { IfOk result (λ found. AreClean D.Disk files.new.log files.new.db → IfSome found (ShowsByTables (image_of D.Disk files.old))) }
    ensures told { (loss : Lost) → IsLostByTables (image_of D.Disk files.old) loss → AreClean D.Disk files.new.log files.new.db
        → IfOk result (λ found. found ≡ Some loss) }
    ensures due { IfErr result (λ e. AreClean D.Disk files.new.log files.new.db
        → IsUnknown (image_of D.Disk files.old) (faults_of D.Disk files.old) (faults_of D.Disk files.new) e) }
    ensures counts { faults_of D.Disk files.old ≤ faults_of D.Disk files.new }
    ensures log { OnlyReads D.Disk files.old.log files.new.log }
    ensures db { OnlyReads D.Disk files.old.db files.new.db }
{
    match other_time_of(alloc, files)? {
        Some(loss) => Ok(Some(loss)),
        None => tableless_of(alloc, files),
    }
}
