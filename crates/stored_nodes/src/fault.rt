//! Why fresh nodes don't start over files.

ghost use Rattle.std.specs.IoError.{error_kind};
ghost use Rattle.std.specs.Prelude.{◌≡◌, ◌≢◌, ◌⊎◌};
ghost use Rattle.sqlite_std_file.specs.declared.pair.OpenError.TheVariants as pair;
ghost use Rattle.stored_nodes.specs.Faults.{stored_open, stored_start};
ghost use Rattle.stored_nodes.specs.declared.fault.StoreFault.TheVariants.{OutOfMemory, Unusable};

use crate::start::StartFault;
use acceptor_store::{OpenFault, OwnerFault};
use node::NodeFault;
use sqlite_std_file::OpenError;
use std::alloc::{AllocError, AllocFailed};
use std::io;
use std::io::ErrorKind;
use thiserror::Error;

/// The cause of the first file that is refused, or of the folder.
#[derive(Clone, Copy, Debug, Error)]
pub enum StoreFault {
    /// The records that are there aren't those of a fresh node.
    #[error("NotFresh")]
    NotFresh,
    /// The folder or a file can't be used.
    #[error("Unusable")]
    Unusable,
    #[error("OutOfMemory")]
    OutOfMemory,
}

impl From<AllocError> for StoreFault {
    ghost from_gives = { λ _ given. given ≡ OutOfMemory };

    fn from(_fault: AllocError) -> StoreFault {
        StoreFault::OutOfMemory
    }
}

impl<T: Drop> From<AllocFailed<T>> for StoreFault {
    ghost from_gives = { λ _ given. given ≡ OutOfMemory };

    fn from(_fault: AllocFailed<T>) -> StoreFault {
        StoreFault::OutOfMemory
    }
}

impl From<io::Error> for StoreFault {
    ghost from_gives = { λ _ given. (given ≡ OutOfMemory) ⊎ (given ≡ Unusable) };

    fn from(error: io::Error) -> StoreFault
        ensures memory { error_kind error ≡ ErrorKind.OutOfMemory → result ≡ OutOfMemory }
        ensures unusable { error_kind error ≢ ErrorKind.OutOfMemory → result ≡ Unusable }
    {
        match error.kind() {
            ErrorKind::OutOfMemory => StoreFault::OutOfMemory,
            _ => StoreFault::Unusable,
        }
    }
}

impl From<OpenError> for StoreFault {
    ghost from_gives = { λ error given. ((given ≡ OutOfMemory) ⊎ (given ≡ Unusable))
        × (error ≡ pair.OutOfMemory → given ≡ OutOfMemory)
        × (error ≡ pair.Busy → given ≡ Unusable) × (error ≡ pair.HotJournal → given ≡ Unusable) };

    fn from(error: OpenError) -> StoreFault
        ensures gives { ⟦<StoreFault as From<OpenError>>⟧.from_gives error result }
        ensures memory { (fault : _) → error ≡ OpenError.Io fault → error_kind fault ≡ ErrorKind.OutOfMemory → result ≡ OutOfMemory }
        ensures unusable { (fault : _) → error ≡ OpenError.Io fault → error_kind fault ≢ ErrorKind.OutOfMemory → result ≡ Unusable }
    {
        match error {
            OpenError::OutOfMemory => StoreFault::OutOfMemory,
            OpenError::Io(error) => StoreFault::from(error),
            _ => StoreFault::Unusable,
        }
    }
}

impl From<OpenFault> for StoreFault {
    ghost from_gives = { λ fault given. given ≡ stored_open fault };

    fn from(fault: OpenFault) -> StoreFault {
        match fault {
            OpenFault::OutOfMemory => StoreFault::OutOfMemory,
            _ => StoreFault::Unusable,
        }
    }
}

impl From<StartFault> for StoreFault {
    ghost from_gives = { λ fault given. given ≡ stored_start fault };

    fn from(fault: StartFault) -> StoreFault {
        match fault {
            StartFault::NotFresh => StoreFault::NotFresh,
            StartFault::OutOfMemory => StoreFault::OutOfMemory,
            StartFault::Unopened(OwnerFault::Open(OpenFault::OutOfMemory)) =>
                StoreFault::OutOfMemory,
            StartFault::Unread(NodeFault::OutOfMemory) => StoreFault::OutOfMemory,
            _ => StoreFault::Unusable,
        }
    }
}
