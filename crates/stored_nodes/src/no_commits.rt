//! Whether the log of two files has no commit.

ghost use Rattle.std.specs.Prelude.{◌≡◌, ◌&&◌, ◌↔◌, Err, IfOk, IsTrue, false, true};
ghost use Rattle.log_ties.specs.Ties.{HasCommit};
ghost use Rattle.sqlite.specs.Files.{image_of};
ghost use Rattle.sqlite_wal.specs.Reads.{AreClean};
ghost use Rattle.stored_nodes.specs.States.{StayFiles};

use crate::own_file::files_of;
use crate::start::{FileFault, StartFault};
use crate::ties::unknown;
use log_ties::has_commit;
use sqlite::Files;
use sqlite_disk::Disk;
use std::alloc::Global;

/// Whether recovery takes no commit of the files' log. It may have lost what it had: a log that is cut behind its header
/// is as one that was just begun. They stay as they are.
pub fn lacks_commits<D: Disk>(alloc: Global, files: &mut Files<D>) -> Result<bool, StartFault>
    ensures files { StayFiles D.Disk files.old files.new }
    ensures unusable { (D.Disk.is_usable files.old.log && D.Disk.is_usable files.old.db) ≡ false → result ≡ Err (StartFault.Unusable FileFault.Failed) }
    ensures so { (D.Disk.is_usable files.old.log && D.Disk.is_usable files.old.db) ≡ true → AreClean D.Disk files.new.log files.new.db
        → IfOk result (λ lacks. IsTrue lacks ↔ ¬ HasCommit (image_of D.Disk files.old).log) }
{
    if !files.may_be_used() {
        return Err(StartFault::Unusable(FileFault::Failed));
    }
    match has_commit(alloc, &mut files.log) {
        Ok(has_commit) => Ok(!has_commit),
        Err(error) => Err(unknown(error)),
    }
}

/// The same of the database of a path and its log. Where one of them isn't there, nothing is made in its place.
pub fn lacks_commits_at(rt: &HostRuntime, path: &str) -> Result<bool, StartFault> {
    let mut files = files_of(rt, path)?;
    lacks_commits(rt.alloc(), &mut files)
}
