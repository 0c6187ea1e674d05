//! What is wrong of files that hold no database of a node.

ghost use Rattle.std.specs.Prelude.{◌≡◌, ◌&&◌, Err, IfErr, IfOk, IsTrue, false, true};
ghost use Rattle.acceptor_store_parts.specs.Wrong.{IsVersions};
ghost use Rattle.sqlite.specs.Effect.{IsDatabase};
ghost use Rattle.sqlite.specs.Files.{faults_of, image_of};
ghost use Rattle.sqlite.specs.Held.{state};
ghost use Rattle.sqlite_wal.specs.Reads.{AreClean};
ghost use Rattle.stored_nodes.specs.Causes.{HasWrongRows, IsCauseIn, IsCauseOf};
ghost use Rattle.stored_nodes.specs.Looks.{AlwaysClean};
ghost use Rattle.stored_nodes.specs.Lost.{IsUnknown, NeverLies};
ghost use Rattle.stored_nodes.specs.States.{StayFiles};

use crate::copies::copy_of;
use crate::looks::opened_copy;
use crate::own_file::files_of;
use crate::start::{FileFault, StartFault};
use acceptor_store::OpenFault;
use acceptor_store_parts::{
    NodeTable, Stop, WrongPart, has_wrong_learned, has_wrong_votes, wrong_part,
};
use sqlite::{Alter, Connection, Files};
use sqlite_disk::Disk;
use std::alloc::{AllocError, Global};

/// Why files hold no database that a node wrote.
#[derive(Clone, Copy, Debug, PartialEq, Eq)]
pub enum ForeignCause {
    /// They hold no database, or a damaged one.
    NoDatabase,
    /// This is the first part of the tables that no node makes.
    Part(WrongPart),
    /// The tables are a node's. No node writes the rows of this one, or those of ballots and facts.
    Rows(Option<NodeTable>),
}

/// Which of the tables of votes and of learned values has rows that no node writes. None where neither has.
fn wrong_rows<S: Alter>(alloc: Global, conn: &mut Connection<S>) -> Result<Option<NodeTable>, Stop>
    ensures { AlwaysClean S.Store → IsVersions (state S.Store conn.old).now.schema → IsDatabase (state S.Store conn.old).now
        → IfOk result (HasWrongRows (state S.Store conn.old).now) }
{
    if has_wrong_votes(alloc, conn)? {
        return Ok(Some(NodeTable::Vote));
    }
    if has_wrong_learned(alloc, conn)? {
        return Ok(Some(NodeTable::Learned));
    }
    Ok(None)
}

/// What is wrong of a database.
fn cause_of<S: Alter>(alloc: Global, conn: &mut Connection<S>) -> Result<ForeignCause, AllocError>
    ensures { AlwaysClean S.Store → IsDatabase (state S.Store conn.old).now → IfOk result (IsCauseOf (state S.Store conn.old).now) }
{
    match wrong_part(alloc, conn.schema())? {
        Some(part) => Ok(ForeignCause::Part(part)),
        None => match wrong_rows(alloc, conn) {
            Ok(which) => Ok(ForeignCause::Rows(which)),
            Err(_) => Err(AllocError),
        },
    }
}

/// What is wrong of a copy. A call of it fails for want of memory alone.
fn cause_in<D: Disk + Drop>(alloc: Global, copy: Files<D>) -> Result<ForeignCause, AllocError>
    requires log { IsTrue (D.Disk.is_usable copy.log) }
    requires db { IsTrue (D.Disk.is_usable copy.db) }
    ensures { NeverLies D.Disk → IfOk result (IsCauseIn (image_of D.Disk copy)) }
{
    match opened_copy(alloc, copy) {
        Ok(mut conn) => cause_of(alloc, &mut conn),
        Err(OpenFault::Refused) => Ok(ForeignCause::NoDatabase),
        Err(_) => Err(AllocError),
    }
}

/// What is wrong of files that hold no database of a node. A copy of them is opened in memory, so that they stay as they
/// are. Where a read failed, they are unusable.
pub fn foreign_cause<D: Disk>(
    alloc: Global,
    files: &mut Files<D>,
) -> Result<ForeignCause, StartFault>
    ensures files { StayFiles D.Disk files.old files.new }
    ensures as_open { AreClean D.Disk files.new.log files.new.db → IfOk result (IsCauseIn (image_of D.Disk files.old)) }
    ensures due { (D.Disk.is_usable files.old.log && D.Disk.is_usable files.old.db) ≡ true → IfErr result (λ e. AreClean D.Disk files.new.log files.new.db
        → IsUnknown (image_of D.Disk files.old) (faults_of D.Disk files.old) (faults_of D.Disk files.new) e) }
    ensures unusable { (D.Disk.is_usable files.old.log && D.Disk.is_usable files.old.db) ≡ false → result ≡ Err (StartFault.Unusable FileFault.Failed) }
{
    if !files.may_be_used() {
        return Err(StartFault::Unusable(FileFault::Failed));
    }
    let copy = copy_of(alloc, files)?;
    match cause_in(alloc, copy) {
        Ok(cause) => Ok(cause),
        Err(_) => Err(StartFault::OutOfMemory),
    }
}

/// The same of the database of a path and its log. Where one of them isn't there, nothing is made in its place.
pub fn foreign_cause_at(rt: &HostRuntime, path: &str) -> Result<ForeignCause, StartFault> {
    let mut files = files_of(rt, path)?;
    foreign_cause(rt.alloc(), &mut files)
}
