//! Whether a node begins over files, found out without a change of them.

ghost use Rattle.std.specs.IoError.{error_kind};
ghost use Rattle.std.specs.Prelude.{◌≡◌, ◌≢◌, ◌<◌, ◌≤◌, ◌&&◌, Err, IfErr, IfOk, IsTrue, false};
ghost use Rattle.std.specs.declared.io.ErrorKind.TheVariants as kind;
ghost use Rattle.acceptor.specs.Content.{Content};
ghost use Rattle.acceptor.specs.Found.{Holds};
ghost use Rattle.acceptor_store.specs.Linked.{IsHonest, MayFind};
ghost use Rattle.ballots.specs.Members.{member_count};
ghost use Rattle.sqlite.specs.Files.{faults_of, image_of, over_files};
ghost use Rattle.sqlite_disk.specs.Disk.{MoreFaults};
ghost use Rattle.sqlite_disk.specs.Memory.{memory_bytes, memory_is_usable};
ghost use Rattle.sqlite_wal.specs.Reads.{AreClean, IsClean, OnlyReads};
ghost use Rattle.stored_nodes.specs.Looks.{image_in};
ghost use Rattle.stored_nodes.specs.States.{StayFiles, StaysFile};

use crate::fresh::begun_with;
use crate::looks::opened_copy;
use crate::owned::{Claim, begins_over};
use crate::start::{FileFault, StartFault};
use acceptor_store::{OpenFault, OwnerFault, SqlRecords};
use ballots::{Members, NodeId};
use sqlite::{FileStore, Files};
use sqlite_disk::{Disk, Memory};
use std::alloc::Global;
use std::io;
use store_anew::OpensAnew;

/// What a file holds, in memory.
pub(crate) fn copied<D: Disk>(alloc: Global, file: &mut D) -> io::Result<Memory>
    requires { IsTrue (D.Disk.is_usable file.old) }
    ensures stays { StaysFile D.Disk file.old file.new }
    ensures usable { IsTrue (D.Disk.is_usable file.new) }
    ensures same { IfOk result (λ copy. IsClean D.Disk file.new → memory_bytes copy ≡ D.Disk.seen file.old) }
    ensures ready { IfOk result (λ copy. IsTrue (memory_is_usable copy)) }
    ensures reads { OnlyReads D.Disk file.old file.new }
    ensures counts { D.Disk.faults file.old ≤ D.Disk.faults file.new }
    ensures failed { IfErr result (λ e. error_kind e ≢ kind.OutOfMemory → IsClean D.Disk file.new
        → MoreFaults (D.Disk.faults file.old) (D.Disk.faults file.new)) }
{
    let length = file.len()?;
    let mut bytes = Vec::new(alloc);
    bytes.resize(length, 0u8)?;
    file.read_at(0, bytes.as_mut_slice())?;
    let mut copy = Memory::new(alloc);
    match copy.write_at(0, bytes.as_slice()) {
        Ok(()) => Ok(copy),
        Err(_) => Err(io::ErrorKind::OutOfMemory.into()),
    }
}

/// What two files hold, in memory.
pub(crate) fn copy_of<D: Disk>(alloc: Global, files: &mut Files<D>) -> io::Result<Files<Memory>>
    requires log { IsTrue (D.Disk.is_usable files.old.log) }
    requires db { IsTrue (D.Disk.is_usable files.old.db) }
    ensures stays { StayFiles D.Disk files.old files.new }
    ensures log_usable { IsTrue (D.Disk.is_usable files.new.log) }
    ensures db_usable { IsTrue (D.Disk.is_usable files.new.db) }
    ensures same { IfOk result (λ copy. AreClean D.Disk files.new.log files.new.db → image_in copy ≡ image_of D.Disk files.old) }
    ensures ready { IfOk result (λ copy. IsTrue (memory_is_usable copy.log) × IsTrue (memory_is_usable copy.db)) }
    ensures log_reads { OnlyReads D.Disk files.old.log files.new.log }
    ensures db_reads { OnlyReads D.Disk files.old.db files.new.db }
    ensures counts { faults_of D.Disk files.old ≤ faults_of D.Disk files.new }
    ensures failed { IfErr result (λ e. error_kind e ≢ kind.OutOfMemory → AreClean D.Disk files.new.log files.new.db
        → MoreFaults (faults_of D.Disk files.old) (faults_of D.Disk files.new)) }
{
    let log = copied(alloc, &mut files.log)?;
    let db = copied(alloc, &mut files.db)?;
    Ok(Files { log, db })
}

/// Whether a node begins so over a copy of the files in memory, or why it doesn't. They stay as they are.
pub(crate) fn begins_by_copy<D: Disk>(
    alloc: Global,
    files: &mut Files<D>,
    id: NodeId,
    members: Members,
    claim: Claim,
) -> Result<(), StartFault>
    requires { id < member_count members }
    ensures files { StayFiles D.Disk files.old files.new }
    ensures unusable { (D.Disk.is_usable files.old.log && D.Disk.is_usable files.old.db) ≡ false → result ≡ Err (StartFault.Unusable FileFault.Failed) }
{
    if !files.may_be_used() {
        return Err(StartFault::Unusable(FileFault::Failed));
    }
    let copy = copy_of(alloc, files)?;
    begins_over(alloc, copy, id, members, claim)
}

/// Whether a node begins over these records, or why it doesn't.
fn begins_with<S: OpensAnew>(
    alloc: Global,
    records: SqlRecords<S>,
    id: NodeId,
    members: Members,
) -> Result<(), StartFault>
    requires member { id < member_count members }
    requires certain { IsHonest S.Store records → (c : Content) × Holds (MayFind S.Store records.owner records.held) c }
{
    match begun_with(alloc, id, members, records) {
        Ok(_node) => Ok(()),
        Err(fault) => Err(fault),
    }
}

/// Records of nobody over a copy, whatever was lost of what it is a copy of.
fn nobodys_records<D: Disk + Drop>(
    alloc: Global,
    copy: Files<D>,
) -> Result<SqlRecords<FileStore<D>>, OpenFault>
    requires log { IsTrue (D.Disk.is_usable copy.log) }
    requires db { IsTrue (D.Disk.is_usable copy.db) }
    ensures { IfOk result (λ r. IsHonest over_files r → (c : Content) × Holds (MayFind over_files r.owner r.held) c) }
{
    let conn = opened_copy(alloc, copy)?;
    match SqlRecords::open(alloc, conn) {
        Ok(records) => Ok(records),
        Err((fault, _store)) => Err(fault),
    }
}

/// Whether a node of nobody's begins over what is left in a copy of files that lost something, or why it doesn't.
pub(crate) fn begins_by_rest<D: Disk>(
    alloc: Global,
    files: &mut Files<D>,
    id: NodeId,
    members: Members,
) -> Result<(), StartFault>
    requires { id < member_count members }
    ensures { StayFiles D.Disk files.old files.new }
{
    if !files.may_be_used() {
        return Err(StartFault::Unusable(FileFault::Failed));
    }
    let copy = copy_of(alloc, files)?;
    match nobodys_records(alloc, copy) {
        Ok(records) => begins_with(alloc, records, id, members),
        Err(fault) => Err(StartFault::Unopened(OwnerFault::Open(fault))),
    }
}
