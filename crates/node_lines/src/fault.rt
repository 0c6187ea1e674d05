ghost use Rattle.std.specs.Prelude.{◌≡◌};
ghost use Rattle.node_lines.specs.Lines.{fault_number};

use letter_bytes::LetterFault;
use thiserror::Error;

/// Why a line asks nothing; or want of memory.
#[derive(Clone, Copy, Debug, PartialEq, Eq, Error)]
pub enum LineFault {
    /// It is none of the lines that a node reads.
    #[error("NoLine")]
    NoLine,
    /// What has to be an even number of hexadecimal digits isn't.
    #[error("NoHex")]
    NoHex,
    /// What follows `release` is no number below 2^64.
    #[error("NoNumber")]
    NoNumber,
    /// What follows `command` is no table that spells a command.
    #[error("NoCommand")]
    NoCommand,
    /// The bytes of a letter spell none.
    #[error("NoLetter {0}")]
    NoLetter(LetterFault),
    /// A letter with values, a command, or the line itself found no memory.
    #[error("OutOfMemory")]
    OutOfMemory,
    /// It has more bytes than any letter needs; or it has a command, and more than one may have.
    #[error("TooLong")]
    TooLong,
}

impl LineFault {
    /// Its number, by which users know it.
    pub fn number(self) -> u8
        ensures { result ≡ fault_number self }
    {
        match self {
            LineFault::NoLine => 1,
            LineFault::NoHex => 2,
            LineFault::NoNumber => 3,
            LineFault::NoCommand => 4,
            LineFault::NoLetter(_) => 5,
            LineFault::OutOfMemory => 6,
            LineFault::TooLong => 7,
        }
    }
}
