//! Why bytes are no letter.

ghost use Rattle.std.specs.Prelude.{◌≡◌};
ghost use Rattle.letter_bytes.specs.declared.fault.LetterFault.TheVariants.{OutOfMemory};

use std::alloc::{AllocError, AllocFailed};
use thiserror::Error;

/// The first thing that is wrong with bytes, from left to right; or want of memory.
#[derive(Clone, Copy, Debug, PartialEq, Eq, Error)]
pub enum LetterFault {
    /// They end within a field.
    #[error("Short")]
    Short,
    /// The first byte is that of no kind of note.
    #[error("NoNote")]
    NoNote,
    /// A node's number is above 4.
    #[error("NoNode")]
    NoNode,
    /// A number that has to be a ballot is none.
    #[error("NoBallot")]
    NoBallot,
    /// Bytes follow the last field.
    #[error("Trailing")]
    Trailing,
    /// A value or a vote found no memory.
    #[error("OutOfMemory")]
    OutOfMemory,
}

impl From<AllocError> for LetterFault {
    ghost from_gives = { λ _ e. e ≡ OutOfMemory };

    fn from(_e: AllocError) -> LetterFault {
        LetterFault::OutOfMemory
    }
}

impl<T: Drop> From<AllocFailed<T>> for LetterFault {
    ghost from_gives = { λ _ e. e ≡ OutOfMemory };

    fn from(_e: AllocFailed<T>) -> LetterFault {
        LetterFault::OutOfMemory
    }
}
