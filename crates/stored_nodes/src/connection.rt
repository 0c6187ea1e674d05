//! Connections to files that lost nothing, and why there are none.

ghost use Rattle.std.specs.Prelude.{◌≡◌, ◌<◌, ◌≤◌, ◌&&◌, Err, true, false, IfErr, IfOk, IsErrAnd};
ghost use Rattle.log_ties.specs.Ties.{IsUncopied};
ghost use Rattle.log_ties.specs.declared.tie.Loss.{Loss};
ghost use Rattle.sqlite.specs.Files.{file_state, image_of, Finds, IsOpened};
ghost use Rattle.sqlite.specs.State.{HasCleanDisk};
ghost use Rattle.stored_nodes.specs.Lost.{IsLossOf, IsNoLoss, NeverLies, TellsLoss, TellsShown};

use crate::start::{FileFault, StartFault};
use crate::ties::refuse_lost;
use acceptor_store::{OpenFault, OwnerFault};
use log_ties::Tie;
use sqlite::{Connection, Error as SqlError, ErrorCode, FileStore, Files, Options};
use sqlite_disk::{Disk, Tally};
use std::alloc::Global;
use store_anew::open_again;

// The salts of a log need no secret here.
const SEED: u64 = 0x5eed;

pub(crate) fn refused(fault: OpenFault) -> StartFault
    ensures { result ≡ StartFault.Unopened (OwnerFault.Open fault) }
{
    StartFault::Unopened(OwnerFault::Open(fault))
}

pub(crate) fn unopened(error: SqlError) -> StartFault
    ensures memory { error ≡ SqlError.SqliteFailure ErrorCode.OutOfMemory → result ≡ StartFault.Unopened (OwnerFault.Open OpenFault.OutOfMemory) }
    ensures full { error ≡ SqlError.SqliteFailure ErrorCode.DiskFull → result ≡ StartFault.Unusable FileFault.NoRoom }
    ensures failed { error ≡ SqlError.SqliteFailure ErrorCode.SystemIoFailure → result ≡ StartFault.Unusable FileFault.Failed }
    ensures no_loss { IsNoLoss result }
{
    match error {
        SqlError::SqliteFailure(ErrorCode::OutOfMemory) => refused(OpenFault::OutOfMemory),
        SqlError::SqliteFailure(ErrorCode::DiskFull) => StartFault::Unusable(FileFault::NoRoom),
        SqlError::SqliteFailure(ErrorCode::SystemIoFailure) => {
            StartFault::Unusable(FileFault::Failed)
        }
        _ => refused(OpenFault::Refused),
    }
}

/// Why records weren't opened over files of which so many calls had found no room before, and so many have since.
pub(crate) fn told(fault: OwnerFault, before: Tally, since: Tally) -> StartFault
    ensures full { before.refused < since.refused → result ≡ StartFault.Unusable FileFault.NoRoom }
    ensures other { since.refused ≤ before.refused → result ≡ StartFault.Unopened fault }
    ensures no_loss { IsNoLoss result }
{
    if before.refused < since.refused {
        StartFault::Unusable(FileFault::NoRoom)
    } else {
        StartFault::Unopened(fault)
    }
}

/// The connection over files, whatever was left of them.
pub(crate) fn reopened<D: Disk + Drop>(
    alloc: Global,
    files: Files<D>,
) -> Result<Connection<FileStore<D>>, StartFault>
    ensures opened { IfOk result (λ c. HasCleanDisk (file_state c) → IsOpened c) }
    ensures found { IfOk result (λ c. HasCleanDisk (file_state c) → Finds files c) }
    ensures no_loss { IfErr result IsNoLoss }
{
    match open_again(alloc, files, Options::new(SEED)) {
        Ok(conn) => Ok(conn),
        Err((error, _files)) => Err(unopened(error)),
    }
}

/// The connection to files of which nothing shows that one lost anything, and what they tell of each other.
pub(crate) fn connected<D: Disk + Drop>(
    alloc: Global,
    files: Files<D>,
) -> Result<(Connection<FileStore<D>>, Tie), StartFault>
    ensures opened { IfOk result (λ r. HasCleanDisk (file_state r.0) → IsOpened r.0) }
    ensures found { IfOk result (λ r. HasCleanDisk (file_state r.0) → Finds files r.0) }
    ensures copied { IfOk result (λ r. HasCleanDisk (file_state r.0) → r.1 ≡ Tie.Tied → ¬ IsUncopied (image_of D.Disk files).log) }
    ensures lost { (loss : Loss) → IsLossOf (image_of D.Disk files) loss → IfOk result (λ r. HasCleanDisk (file_state r.0) → ⊥) }
    ensures told { NeverLies D.Disk → (D.Disk.is_usable files.log && D.Disk.is_usable files.db) ≡ true → (loss : Loss)
        → IsLossOf (image_of D.Disk files) loss → IsErrAnd result (TellsLoss loss) }
    ensures due { NeverLies D.Disk → IfErr result (TellsShown (image_of D.Disk files)) }
    ensures broken { (D.Disk.is_usable files.log && D.Disk.is_usable files.db) ≡ false
        → result ≡ Err (StartFault.Unopened (OwnerFault.Open OpenFault.Broken)) }
{
    if !files.may_be_used() {
        return Err(refused(OpenFault::Broken));
    }
    let mut files = files;
    let tie = refuse_lost(alloc, &mut files)?;
    match reopened(alloc, files) {
        Ok(conn) => Ok((conn, tie)),
        Err(fault) => Err(fault),
    }
}
