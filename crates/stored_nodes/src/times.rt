//! Whether a database file and its log are of one time, by the transactions that each counts.

ghost use Rattle.std.specs.Prelude.{◌≡◌, ◌≢◌, ◌<◌, ◌≤◌, ℕ, [], false, IfErr, IfOk, IfSome, IsTrue, None, Some};
ghost use Rattle.acceptor_store_parts.specs.Tables.{schema_of};
ghost use Rattle.log_ties.specs.Ties.{HasCommits};
ghost use Rattle.sqlite.specs.Effect.{IsDatabase};
ghost use Rattle.sqlite.specs.Files.{faults_of, image_of};
ghost use Rattle.sqlite.specs.Held.{state};
ghost use Rattle.sqlite_wal.specs.Reads.{AreClean, IsClean, OnlyReads};
ghost use Rattle.stored_nodes.specs.Looks.{AlwaysClean};
ghost use Rattle.stored_nodes.specs.Lost.{IsUnknown, NeverLies};
ghost use Rattle.stored_nodes.specs.Times.{AreToldAs, IsOtherTime, IsReadAs, ReadsCount, ShowsOtherTime};
ghost use Rattle.log_ties.specs.declared.tie.Loss.{Loss as Lost};

use crate::copies::{copied, copy_of};
use crate::looks::opened_copy;
use crate::start::StartFault;
use crate::ties::unknown;
use acceptor_store::OpenFault;
use acceptor_store_parts::{Version, read_count, version_of};
use log_ties::{Loss, Times, commits_of};
use sqlite::{Alter, Connection, Files};
use sqlite_disk::{Disk, Memory};
use sqlite_schema::schema::Schema;
use std::alloc::{AllocError, Global};

/// Whether the tables are those of an owner, which count transactions.
fn has_counts(alloc: Global, schema: &Schema) -> Result<bool, AllocError>
    ensures yes { IfOk result (λ has. IsTrue has → schema.now ≡ schema_of Version.Fourth) }
    ensures no { IfOk result (λ has. has ≡ false → schema.now ≢ schema_of Version.Fourth) }
{
    match version_of(alloc, schema)? {
        Some(Version::Third | Version::Fourth) => Ok(true),
        Some(Version::First) => Ok(false),
        Some(Version::Second) => Ok(false),
        None => Ok(false),
    }
}

/// The count of a database that a connection to a copy sees, and 0 where it has none. A call of it fails for want of
/// memory alone.
fn counted<S: Alter + Drop>(alloc: Global, conn: Connection<S>) -> Result<u64, AllocError>
    ensures { AlwaysClean S.Store → IsDatabase (state S.Store conn).now → IfOk result (λ n. ReadsCount n (state S.Store conn).now) }
{
    let mut conn = conn;
    if !has_counts(alloc, conn.schema())? {
        return Ok(0);
    }
    match read_count(alloc, &mut conn) {
        Ok(Some(count)) => Ok(count),
        Ok(None) => Ok(0),
        Err(_) => Err(AllocError),
    }
}

/// The count of the database in a copy, where it is one.
fn count_in<D: Disk + Drop>(alloc: Global, copy: Files<D>) -> Result<Option<u64>, AllocError>
    requires log { IsTrue (D.Disk.is_usable copy.log) }
    requires db { IsTrue (D.Disk.is_usable copy.db) }
    ensures { NeverLies D.Disk → IfOk result (IsReadAs (image_of D.Disk copy)) }
{
    match opened_copy(alloc, copy) {
        Ok(conn) => match counted(alloc, conn) {
            Ok(count) => Ok(Some(count)),
            Err(fault) => Err(fault),
        },
        Err(OpenFault::Refused) => Ok(None),
        Err(_) => Err(AllocError),
    }
}

/// What a database file counts by itself, where it can be read so.
fn count_alone<D: Disk>(alloc: Global, db: &mut D) -> Result<Option<u64>, StartFault>
    requires { IsTrue (D.Disk.is_usable db.old) }
    ensures read { IsClean D.Disk db.new → IfOk result (IsReadAs (record { log = []; db = D.Disk.seen db.old })) }
    ensures due { IfErr result (λ e. IsClean D.Disk db.new
        → IsUnknown (record { log = []; db = D.Disk.seen db.old }) (D.Disk.faults db.old) (D.Disk.faults db.new) e) }
    ensures counts { D.Disk.faults db.old ≤ D.Disk.faults db.new }
    ensures same { OnlyReads D.Disk db.old db.new }
{
    let copy = copied(alloc, db)?;
    let log = Memory::new(alloc);
    match count_in(alloc, Files { log, db: copy }) {
        Ok(count) => Ok(count),
        Err(_) => Err(StartFault::OutOfMemory),
    }
}

/// What a database file and its log count together, where they can be read.
fn count_both<D: Disk>(alloc: Global, files: &mut Files<D>) -> Result<Option<u64>, StartFault>
    requires log_usable { IsTrue (D.Disk.is_usable files.old.log) }
    requires db_usable { IsTrue (D.Disk.is_usable files.old.db) }
    ensures read { AreClean D.Disk files.new.log files.new.db → IfOk result (IsReadAs (image_of D.Disk files.old)) }
    ensures due { IfErr result (λ e. AreClean D.Disk files.new.log files.new.db
        → IsUnknown (image_of D.Disk files.old) (faults_of D.Disk files.old) (faults_of D.Disk files.new) e) }
    ensures counts { faults_of D.Disk files.old ≤ faults_of D.Disk files.new }
    ensures log { OnlyReads D.Disk files.old.log files.new.log }
    ensures db { OnlyReads D.Disk files.old.db files.new.db }
{
    let copy = copy_of(alloc, files)?;
    match count_in(alloc, copy) {
        Ok(count) => Ok(count),
        Err(_) => Err(StartFault::OutOfMemory),
    }
}

/// What is told of a log with so many commits, by what the database file counts alone and with it.
fn told_by(commits: u64, file: u64, both: Option<u64>) -> Option<Loss>
    requires { 0 < commits }
    ensures so { IfSome result (AreToldAs commits file both) }
    ensures all { (loss : Lost) → AreToldAs commits file both loss → result ≡ Some loss }
{
    let Some(last) = both else {
        return if file > 0 {
            Some(Loss::OtherFile)
        } else {
            None
        };
    };
    let before = last.saturating_sub(commits);
    if file < before || last < file {
        let first = before + 1;
        return Some(Loss::OtherTime(Times { first, last, file }));
    }
    None
}

/// A number that isn't 0.
fn some_above(count: u64) -> Option<u64>
    ensures some { IfSome result (λ n. (n ≡ count) × (0 < n)) }
    ensures none { result ≡ None → count ≡ 0 }
{
    if count > 0 { Some(count) } else { None }
}

/// How many commits a log has, where it has some.
fn commits_in<D: Disk>(alloc: Global, log: &mut D) -> Result<Option<u64>, StartFault>
    requires { IsTrue (D.Disk.is_usable log.old) }
    ensures some { IfOk result (λ found. IsClean D.Disk log.new → IfSome found (HasCommits (D.Disk.seen log.old))) }
    ensures above { IfOk result (λ found. IfSome found (λ n. 0 < n)) }
    ensures none { IfOk result (λ found. IsClean D.Disk log.new → found ≡ None → (n : ℕ) → HasCommits (D.Disk.seen log.old) n → n ≡ 0) }
    ensures due { IfErr result (λ e. IsClean D.Disk log.new
        → IsUnknown (record { log = D.Disk.seen log.old; db = [] }) (D.Disk.faults log.old) (D.Disk.faults log.new) e) }
    ensures counts { D.Disk.faults log.old ≤ D.Disk.faults log.new }
    ensures same { OnlyReads D.Disk log.old log.new }
{
    match commits_of(alloc, log) {
        Ok(Some(count)) => Ok(some_above(count as u64)),
        Ok(None) => Ok(None),
        Err(error) => Err(unknown(error)),
    }
}

/// What shows that two files are of two times, if something does: what the database file counts by itself isn't what the
/// commits of the log go on from. The files are only read.
pub(crate) fn other_time_of<D: Disk>(
    alloc: Global,
    files: &mut Files<D>,
) -> Result<Option<Loss>, StartFault>
    requires log_usable { IsTrue (D.Disk.is_usable files.old.log) }
    requires db_usable { IsTrue (D.Disk.is_usable files.old.db) }
    ensures shown { IfOk result (λ found. AreClean D.Disk files.new.log files.new.db → IfSome found (ShowsOtherTime (image_of D.Disk files.old))) }
    ensures told { (loss : Lost) → IsOtherTime (image_of D.Disk files.old) loss → AreClean D.Disk files.new.log files.new.db
        → IfOk result (λ found. found ≡ Some loss) }
    ensures due { IfErr result (λ e. AreClean D.Disk files.new.log files.new.db
        → IsUnknown (image_of D.Disk files.old) (faults_of D.Disk files.old) (faults_of D.Disk files.new) e) }
    ensures counts { faults_of D.Disk files.old ≤ faults_of D.Disk files.new }
    ensures log { OnlyReads D.Disk files.old.log files.new.log }
    ensures db { OnlyReads D.Disk files.old.db files.new.db }
{
    let Some(commits) = commits_in(alloc, &mut files.log)? else {
        return Ok(None);
    };
    let Some(file) = count_alone(alloc, &mut files.db)? else {
        return Ok(None);
    };
    let both = count_both(alloc, files)?;
    Ok(told_by(commits, file, both))
}
