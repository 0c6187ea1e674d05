//! Stores that are opened again from what is left of them.
#![tactic(auto)]

ghost use Rattle.std.specs.Prelude.{IfOk, IsTrue};
ghost use Rattle.sqlite.specs.Files.{file_state, Finds, IsOpened};
ghost use Rattle.sqlite.specs.Held.{AreDatabases, Held, state};
ghost use Rattle.sqlite.specs.State.{HasCleanDisk, IsLive, Opens};
ghost use Rattle.sqlite_trees.specs.View.{IsClean};

use sqlite::{Alter, Connection, Error, ErrorCode, FileStore, Files, Options};
use sqlite_disk::Disk;
use std::alloc::Global;

/// A store that can be given up, and opened again from what is left of it. Where an open fails, what
/// is left comes back.
pub trait OpensAnew: Alter + Drop {
    /// What is left of a store.
    type Left: Drop;

    // A connection that was opened from what is left has what it finds there.
    ghost finds: { Self.Left → Held Self → Type 0 };

    /// Gives the store up. An open of what is left finds what a crash could leave.
    fn given_up(self) -> Self::Left
        ensures clean { (c : Held Self) → finds result c → IsClean (Self.Store.view self) }
        ensures left { (c : Held Self) → finds result c → IsTrue (Self.Store.view self).is_numbered → AreDatabases (Self.Store.recovers self)
            → ∥ Self.Store.recovers self (state Self.Store c).committed.trees ∥₁ };

    /// Opens what is left. Where it fails it comes back, with the cause.
    fn opened_anew(alloc: Global, left: Self::Left) -> Result<Connection<Self>, (Error, Self::Left)>
        ensures opened { IfOk result (λ c. HasCleanDisk (state Self.Store c) → Opens (state Self.Store c) × IsLive (state Self.Store c)) }
        ensures found { IfOk result (λ c. HasCleanDisk (state Self.Store c) → finds left c) };
}

/// Opens the files, whatever was left of them. Where it fails they come back, with the cause.
pub fn open_again<D: Disk + Drop>(
    alloc: Global,
    files: Files<D>,
    options: Options,
) -> Result<Connection<FileStore<D>>, (Error, Files<D>)>
    ensures opened { IfOk result (λ c. HasCleanDisk (file_state c) → IsOpened c) }
    ensures found { IfOk result (λ c. HasCleanDisk (file_state c) → Finds files c) }
{
    if !files.may_be_used() {
        return Err((Error::SqliteFailure(ErrorCode::Closed), files));
    }
    match Connection::open_files(alloc, files, options) {
        Ok(conn) => Ok(conn),
        Err((error, left)) => Err((error, left.into_files())),
    }
}

// The salts of a log need no secret here.
const SEED: u64 = 0x5eed;

impl<D: Disk + Drop> OpensAnew for FileStore<D> {
    type Left = Files<D>;

    ghost finds = { λ files c. Finds files c };

    fn given_up(self) -> Files<D> {
        self.close()
    }

    fn opened_anew(
        alloc: Global,
        left: Files<D>,
    ) -> Result<Connection<FileStore<D>>, (Error, Files<D>)> {
        open_again(alloc, left, Options::new(SEED))
    }
}
