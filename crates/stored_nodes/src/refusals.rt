//! How often the disk of a store found no room.

ghost use Rattle.std.specs.Prelude.{◌≡◌, ℕ};
ghost use Rattle.sqlite_store.specs.FileStore.{tally};

use sqlite::FileStore;
use sqlite_disk::Disk;
use store_anew::OpensAnew;

/// A store that counts the calls of its disk that found no room, since this was opened.
pub trait CountsRefusals: OpensAnew {
    // How many found none.
    ghost refusals: { Self → ℕ };

    /// How many calls found no room. The count stops at 2^64 - 1.
    fn refusals(&self) -> u64
        ensures { result ≡ refusals self.now };
}

impl<D: Disk + Drop> CountsRefusals for FileStore<D> {
    ghost refusals = { λ it. (tally it).refused };

    fn refusals(&self) -> u64 {
        self.tally().refused
    }
}
