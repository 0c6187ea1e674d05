//! The types of a modem's interface.

ghost use Rattle.std.specs.Prelude.{◌≡◌};
ghost use Rattle.modem.specs.Wants.{number_of_fault};

use thiserror::Error;

/// The answer to an output that is heard: it is taken; it is for another modem; it is a MAP of a channel
/// that isn't known or of another UCD Count, one that has ended, or one that can't be read near that time.
#[derive(Clone, Copy, Debug, PartialEq, Eq)]
pub enum Heard {
    Taken,
    NotMine,
    OtherUcd,
    Past,
    Unreadable,
}

/// Why a want is refused. The tests come in the order NotMine, BadSize, Waiting, OutOfMemory.
#[derive(Clone, Copy, Debug, PartialEq, Eq, Error)]
pub enum WantFault {
    /// The SID isn't the modem's.
    #[error("NotMine")]
    NotMine,
    /// A want of the SID is there.
    #[error("Waiting")]
    Waiting,
    /// It isn't 1 to 255 minislots.
    #[error("BadSize")]
    BadSize,
    #[error("OutOfMemory")]
    OutOfMemory,
}

impl WantFault {
    /// The number of the fault, from 1.
    pub fn number(self) -> u8
        ensures { result ≡ number_of_fault self }
    {
        match self {
            WantFault::NotMine => 1,
            WantFault::Waiting => 2,
            WantFault::BadSize => 3,
            WantFault::OutOfMemory => 4,
        }
    }
}

/// What is sent at a minislot.
#[derive(Clone, Copy, Debug, PartialEq, Eq)]
pub enum Sending {
    /// A grant is used.
    Unicast(u16),
    /// A request at a poll.
    Polled(u16, u16),
    /// A request in a minislot that is open to all.
    Request(u16, u16),
    /// A ranging opportunity, an interval of Station Maintenance, is used.
    Ranging(u16),
}

/// A tick before the channel's clock.
#[derive(Clone, Copy, Debug, PartialEq, Eq, Error)]
#[error("TimeBack")]
pub struct TimeBack;
