//! Why a node doesn't start over its files.

ghost use Rattle.std.specs.IoError.{error_kind};
ghost use Rattle.std.specs.declared.io.ErrorKind.TheVariants as kind;
ghost use Rattle.std.specs.Prelude.{◌≡◌, ◌≢◌};
ghost use Rattle.sqlite_std_file.specs.declared.pair.OpenError.TheVariants as pair;
ghost use Rattle.stored_nodes.specs.Faults.{file_fault};
ghost use Rattle.stored_nodes.specs.declared.start.FileFault.TheVariants.{Journal};
ghost use Rattle.stored_nodes.specs.declared.start.StartFault.TheVariants.{InUse, OutOfMemory, Unusable};

use acceptor_store::OwnerFault;
use log_ties::Loss;
use node::NodeFault;
use sqlite_std_file::OpenError;
use std::alloc::{AllocError, AllocFailed};
use std::io;
use std::io::ErrorKind;
use thiserror::Error;

/// Why a file can't be used.
#[derive(Clone, Copy, Debug, PartialEq, Eq, Error)]
pub enum FileFault {
    /// A folder of its path isn't there.
    #[error("no folder")]
    NoFolder,
    /// It is a folder, a link, a device, or has a second name.
    #[error("no regular file")]
    NotRegular,
    #[error("permission denied")]
    Denied,
    /// The disk is full.
    #[error("no room")]
    NoRoom,
    /// SQLite left a rollback journal beside it.
    #[error("rollback journal")]
    Journal,
    /// Another read or write failed.
    #[error("a read or write failed")]
    Failed,
}

/// Why a node doesn't start over its files.
#[derive(Clone, Copy, Debug, Error)]
pub enum StartFault {
    /// There is no file, and the node isn't new.
    #[error("NoFile")]
    NoFile,
    /// A file can't be used.
    #[error(transparent)]
    Unusable(FileFault),
    /// One of the two files lost something, or isn't there.
    #[error("Lost")]
    Lost(Loss),
    /// Another process has the files open.
    #[error("InUse")]
    InUse,
    /// They can't be opened as this node's.
    #[error(transparent)]
    Unopened(OwnerFault),
    /// The node is new, and they hold a ballot, a vote or a learned value.
    #[error("NotFresh")]
    NotFresh,
    /// The node can't read what they hold.
    #[error("Unread")]
    Unread(NodeFault),
    #[error("OutOfMemory")]
    OutOfMemory,
}

impl From<OwnerFault> for StartFault {
    ghost use Rattle.stored_nodes.specs.declared.start.StartFault.TheVariants.{Unopened};

    ghost from_gives = { λ fault given. given ≡ Unopened fault };

    fn from(fault: OwnerFault) -> StartFault {
        StartFault::Unopened(fault)
    }
}

impl From<NodeFault> for StartFault {
    ghost use Rattle.stored_nodes.specs.declared.start.StartFault.TheVariants.{Unread};

    ghost from_gives = { λ fault given. given ≡ Unread fault };

    fn from(fault: NodeFault) -> StartFault {
        StartFault::Unread(fault)
    }
}

impl From<AllocError> for StartFault {
    ghost from_gives = { λ _ given. given ≡ OutOfMemory };

    fn from(_fault: AllocError) -> StartFault {
        StartFault::OutOfMemory
    }
}

impl<T: Drop> From<AllocFailed<T>> for StartFault {
    ghost from_gives = { λ _ given. given ≡ OutOfMemory };

    fn from(_fault: AllocFailed<T>) -> StartFault {
        StartFault::OutOfMemory
    }
}

fn file_fault(error: &io::Error) -> FileFault
    ensures { result ≡ file_fault (error_kind error.now) }
{
    match error.kind() {
        ErrorKind::NotFound | ErrorKind::NotADirectory => FileFault::NoFolder,
        ErrorKind::Unsupported | ErrorKind::IsADirectory => FileFault::NotRegular,
        ErrorKind::PermissionDenied | ErrorKind::ReadOnlyFilesystem => FileFault::Denied,
        ErrorKind::StorageFull | ErrorKind::QuotaExceeded => FileFault::NoRoom,
        _ => FileFault::Failed,
    }
}

impl From<io::Error> for StartFault {
    ghost from_gives = { λ error given. (error_kind error ≡ kind.OutOfMemory → given ≡ OutOfMemory)
        × (error_kind error ≢ kind.OutOfMemory → given ≡ Unusable (file_fault (error_kind error))) };

    fn from(error: io::Error) -> StartFault {
        match error.kind() {
            ErrorKind::OutOfMemory => StartFault::OutOfMemory,
            _ => StartFault::Unusable(file_fault(&error)),
        }
    }
}

impl From<OpenError> for StartFault {
    ghost from_gives = { λ error given. (error ≡ pair.OutOfMemory → given ≡ OutOfMemory)
        × (error ≡ pair.Busy → given ≡ InUse) × (error ≡ pair.HotJournal → given ≡ Unusable Journal)
        × ((fault : _) → error ≡ pair.Io fault → error_kind fault ≡ kind.OutOfMemory → given ≡ OutOfMemory)
        × ((fault : _) → error ≡ pair.Io fault → error_kind fault ≢ kind.OutOfMemory → given ≡ Unusable (file_fault (error_kind fault))) };

    fn from(error: OpenError) -> StartFault {
        match error {
            OpenError::OutOfMemory => StartFault::OutOfMemory,
            OpenError::Busy => StartFault::InUse,
            OpenError::Io(error) => StartFault::from(error),
            OpenError::HotJournal => StartFault::Unusable(FileFault::Journal),
        }
    }
}
