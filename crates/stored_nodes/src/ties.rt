//! Whether files lost something, found out before they are opened.

ghost use Rattle.std.specs.Prelude.{◌≡◌, ◌≢◌, ◌⊎◌, ◌≤◌, IfErr, IfOk, IfSome, IsErrAnd, IsTrue, None};
ghost use Rattle.std.specs.Prelude.{Some};
ghost use Rattle.log_ties.specs.Ties.{IsLost, IsToldOf};
ghost use Rattle.sqlite.specs.Files.{faults_of, image_of};
ghost use Rattle.sqlite_wal.specs.Reads.{AreClean, OnlyReads};
ghost use Rattle.stored_nodes.specs.Lost.{IsDueBefore, IsDueFor, IsLong, IsLossOf, TellsLoss};
ghost use Rattle.stored_nodes.specs.declared.start.FileFault.{FileFault as Why};
ghost use Rattle.stored_nodes.specs.declared.start.StartFault.TheVariants.{OutOfMemory, Unusable};

use crate::start::{FileFault, StartFault};
use crate::tableless::lost_by_tables;
use log_ties::{Loss, Tie, tie_of};
use sqlite::Files;
use sqlite_disk::Disk;
use sqlite_wal::Error;
use std::alloc::Global;

/// How many bytes a database file and its log have, where they are there.
#[derive(Clone, Copy)]
pub(crate) struct Lengths {
    pub(crate) database: Option<u64>,
    pub(crate) log: Option<u64>,
}

impl Lengths {
    /// What is seen to be lost without a look into the files: a log that isn't there or has no byte, beside a database.
    pub(crate) fn loss(&self) -> Option<Loss>
        ensures missing { IsLong self.now.database → self.now.log ≡ None → result ≡ Some (Loss.NoLog) }
        ensures emptied { IsLong self.now.database → self.now.log ≡ Some 0 → result ≡ Some (Loss.CutAt 0) }
        ensures due { IfSome result (λ _. IsLong self.now.database × ((self.now.log ≡ None) ⊎ (self.now.log ≡ Some 0))) }
    {
        let is_there = match self.database {
            Some(length) => length > 1,
            None => false,
        };
        match self.log {
            None if is_there => Some(Loss::NoLog),
            Some(0) if is_there => Some(Loss::CutAt(0)),
            _ => None,
        }
    }
}

/// Why it isn't known what two files tell of each other.
pub(crate) fn unknown(error: Error) -> StartFault
    ensures either { (result ≡ OutOfMemory) ⊎ ((error ≢ Error.OutOfMemory) × ((why : Why) × (result ≡ Unusable why))) }
    ensures memory { error ≡ Error.OutOfMemory → result ≡ OutOfMemory }
{
    match error {
        Error::OutOfMemory => StartFault::OutOfMemory,
        Error::Io(error) => StartFault::from(error),
        _ => StartFault::Unusable(FileFault::Failed),
    }
}

/// Refuses files of which one lost something that their bytes tell. Else it gives what they tell of each other. They are
/// only read.
fn refuse_untied<D: Disk>(alloc: Global, files: &mut Files<D>) -> Result<Tie, StartFault>
    requires log_usable { IsTrue (D.Disk.is_usable files.old.log) }
    requires db_usable { IsTrue (D.Disk.is_usable files.old.db) }
    ensures told { IfOk result (λ tie. AreClean D.Disk files.new.log files.new.db → IsToldOf (image_of D.Disk files.old) tie) }
    ensures lost { (loss : Loss) → IsLost (image_of D.Disk files.old) loss → AreClean D.Disk files.new.log files.new.db → IsErrAnd result (TellsLoss loss) }
    ensures due { IfErr result (λ e. AreClean D.Disk files.new.log files.new.db
        → IsDueFor (IsLost (image_of D.Disk files.old)) (image_of D.Disk files.old) (faults_of D.Disk files.old) (faults_of D.Disk files.new) e) }
    ensures counts { faults_of D.Disk files.old ≤ faults_of D.Disk files.new }
    ensures log { OnlyReads D.Disk files.old.log files.new.log }
    ensures db { OnlyReads D.Disk files.old.db files.new.db }
{
    match tie_of(alloc, files) {
        Ok(Tie::Lost(loss)) => Err(StartFault::Lost(loss)),
        Ok(tie) => Ok(tie),
        Err(error) => Err(unknown(error)),
    }
}

/// Refuses files of which one lost something, and tells what: so their bytes tell it, or the tables in them. Else it
/// gives what they tell of each other. They are only read.
pub(crate) fn refuse_lost<D: Disk>(alloc: Global, files: &mut Files<D>) -> Result<Tie, StartFault>
    requires log_usable { IsTrue (D.Disk.is_usable files.old.log) }
    requires db_usable { IsTrue (D.Disk.is_usable files.old.db) }
    ensures told { IfOk result (λ tie. AreClean D.Disk files.new.log files.new.db → IsToldOf (image_of D.Disk files.old) tie) }
    ensures lost { (loss : Loss) → IsLossOf (image_of D.Disk files.old) loss → AreClean D.Disk files.new.log files.new.db → IsErrAnd result (TellsLoss loss) }
    ensures due { IfErr result (λ e. AreClean D.Disk files.new.log files.new.db
        → IsDueBefore (image_of D.Disk files.old) (faults_of D.Disk files.old) (faults_of D.Disk files.new) e) }
    ensures counts { faults_of D.Disk files.old ≤ faults_of D.Disk files.new }
    ensures log { OnlyReads D.Disk files.old.log files.new.log }
    ensures db { OnlyReads D.Disk files.old.db files.new.db }
{
    let tie = refuse_untied(alloc, files)?;
    match lost_by_tables(alloc, files) {
        Ok(Some(loss)) => Err(StartFault::Lost(loss)),
        Ok(None) => Ok(tie),
        Err(fault) => Err(fault),
    }
}
