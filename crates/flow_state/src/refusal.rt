ghost use Rattle.std.specs.Prelude.{◌≡◌};
ghost use Rattle.flow_state.specs.Refusals.{refusal_number};

use std::alloc::{AllocError, AllocFailed};
use thiserror::Error;

/// Why a call on the rows is refused.
#[derive(Clone, Copy, Debug, PartialEq, Eq, Error)]
pub enum Refusal {
    /// The channel isn't set.
    #[error("NoChannel")]
    NoChannel,
    /// The channel is set already.
    #[error("ChannelThere")]
    ChannelThere,
    /// No flow has the SID, or it was dropped.
    #[error("NoFlow")]
    NoFlow,
    /// Every unicast SID of the channel is leased.
    #[error("SidsSpent")]
    SidsSpent,
    /// A request of the SID waits, or no more may wait on the channel.
    #[error("Busy")]
    Busy,
    /// A request was sent before its lease, or no later than the last accepted one of it.
    #[error("OldRequest")]
    OldRequest,
    /// A value is outside its limits or behind the lease, or the flow takes no requests.
    #[error("BadValue")]
    BadValue,
    /// No memory was found for what had to grow.
    #[error("OutOfMemory")]
    OutOfMemory,
}

impl Refusal {
    /// The number that stands for the refusal in outputs.
    pub fn number(self) -> u8
        ensures { result ≡ refusal_number self }
    {
        match self {
            Refusal::NoChannel => 1,
            Refusal::ChannelThere => 2,
            Refusal::NoFlow => 3,
            Refusal::SidsSpent => 4,
            Refusal::Busy => 5,
            Refusal::OldRequest => 6,
            Refusal::BadValue => 7,
            Refusal::OutOfMemory => 8,
        }
    }
}

impl From<AllocError> for Refusal {
    ghost use Rattle.flow_state.specs.declared.refusal.Refusal.TheVariants.{OutOfMemory};

    ghost from_gives = { λ _ e. e ≡ OutOfMemory };

    fn from(_fault: AllocError) -> Refusal {
        Refusal::OutOfMemory
    }
}

impl<T: Drop> From<AllocFailed<T>> for Refusal {
    ghost use Rattle.flow_state.specs.declared.refusal.Refusal.TheVariants.{OutOfMemory};

    ghost from_gives = { λ _ e. e ≡ OutOfMemory };

    fn from(_fault: AllocFailed<T>) -> Refusal {
        Refusal::OutOfMemory
    }
}
