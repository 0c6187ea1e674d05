//! Why bytes spell no tables.

ghost use Rattle.std.specs.Prelude.{◌≡◌};
ghost use Rattle.row_bytes.specs.declared.fault.RowsFault.TheVariants.{OutOfMemory};

use std::alloc::{AllocError, AllocFailed};
use thiserror::Error;

/// The first thing that is wrong with bytes, from left to right; or want of memory.
#[derive(Clone, Copy, Debug, PartialEq, Eq, Error)]
pub enum RowsFault {
    /// They end within a field.
    #[error("Short")]
    Short,
    /// Bytes follow the last field.
    #[error("Trailing")]
    Trailing,
    /// A byte begins no channel, or a channel's values aren't within the limits.
    #[error("NoChannel")]
    NoChannel,
    /// A byte begins no service or no last request, or a service's values aren't within the limits.
    #[error("NoFlow")]
    NoFlow,
    /// A waiting request has no size that one can have.
    #[error("NoRequest")]
    NoRequest,
    /// No commands lead to the table of this channel behind those before it.
    #[error("NotFirm {0}")]
    NotFirm(u8),
    /// A row found no memory.
    #[error("OutOfMemory")]
    OutOfMemory,
}

impl From<AllocError> for RowsFault {
    ghost from_gives = { λ _ e. e ≡ OutOfMemory };

    fn from(_e: AllocError) -> RowsFault {
        RowsFault::OutOfMemory
    }
}

impl<T: Drop> From<AllocFailed<T>> for RowsFault {
    ghost from_gives = { λ _ e. e ≡ OutOfMemory };

    fn from(_e: AllocFailed<T>) -> RowsFault {
        RowsFault::OutOfMemory
    }
}

impl RowsFault {
    ghost use Rattle.row_bytes.specs.Faults.{fault_number};

    /// The fault's number, from 1 on.
    pub fn number(self) -> u8
        ensures { result ≡ fault_number self }
    {
        match self {
            RowsFault::Short => 1,
            RowsFault::Trailing => 2,
            RowsFault::NoChannel => 3,
            RowsFault::NoFlow => 4,
            RowsFault::NoRequest => 5,
            RowsFault::NotFirm(_) => 6,
            RowsFault::OutOfMemory => 7,
        }
    }
}
