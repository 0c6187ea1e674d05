//! Why there is no host over a folder, or why a call on it failed.

ghost use Rattle.std.specs.Prelude.{◌≡◌};
ghost use Rattle.stored_hosts.specs.declared.fault.FolderFault.TheVariants.{OutOfMemory, Refused};

use host_states::StateHead;
use std::alloc::{AllocError, AllocFailed};
use std::io;
use thiserror::Error;

/// Why there is no host over a folder, or why a call on it failed.
#[derive(Clone, Copy, Debug, Error)]
pub enum FolderFault {
    /// A state counts, and the database of this epoch isn't there: the first that isn't of that of the state's epoch and
    /// that of the epoch behind it.
    #[error("NoStore")]
    NoStore(u64),
    /// The state that counts is another host's, as this says.
    #[error("OtherNode")]
    OtherNode(StateHead),
    /// The state that counts is this host's as one of other members.
    #[error("OtherMembers")]
    OtherMembers(StateHead),
    /// The state that counts is this host's, of epochs with other places.
    #[error("OtherPlaces")]
    OtherPlaces(StateHead),
    /// There are states, and none of them is whole. This is the greatest epoch of one, by the names.
    #[error("Damaged")]
    Damaged(u64),
    /// The state of this epoch couldn't be read, for this reason.
    #[error("{1}")]
    Unread(u64, io::Error),
    /// The folder refused another call, for this reason.
    #[error("{0}")]
    Refused(io::Error),
    #[error("OutOfMemory")]
    OutOfMemory,
}

impl From<AllocError> for FolderFault {
    ghost from_gives = { λ _ given. given ≡ OutOfMemory };

    fn from(_fault: AllocError) -> FolderFault {
        FolderFault::OutOfMemory
    }
}

impl<T: Drop> From<AllocFailed<T>> for FolderFault {
    ghost from_gives = { λ _ given. given ≡ OutOfMemory };

    fn from(_fault: AllocFailed<T>) -> FolderFault {
        FolderFault::OutOfMemory
    }
}

impl From<io::Error> for FolderFault {
    ghost from_gives = { λ error given. given ≡ Refused error };

    fn from(error: io::Error) -> FolderFault {
        FolderFault::Refused(error)
    }
}
