//! Why a node didn't do what it was asked.

ghost use Rattle.std.specs.Prelude.{◌≡◌};
ghost use Rattle.proposer.specs.Faults.{node_fault_number};

use acceptor::RecordsFault;
use std::alloc::{AllocError, AllocFailed};
use thiserror::Error;

/// After each but the last nothing changed.
#[derive(Debug, Drop, Clone, Copy, PartialEq, Eq, Error)]
pub enum NodeFault {
    /// A value was offered to a node that doesn't lead.
    #[error("NotLeading")]
    NotLeading,
    /// Each of the log's places has a value, or was proposed one.
    #[error("LogFull")]
    LogFull,
    /// The node has no ballot above those that it tried, promised or heard of.
    #[error("RoundsSpent")]
    RoundsSpent,
    /// The value has more than 64 bytes.
    #[error("ValueTooLong")]
    ValueTooLong,
    #[error("OutOfMemory")]
    OutOfMemory,
    /// The store failed, and nothing changed.
    #[error("StoreRefused")]
    StoreRefused,
    /// The store is broken: the one write of the call is there or not, and the node waits for a restart.
    #[error("Down")]
    Down,
}

impl NodeFault {
    /// The number that stands for the fault in reports.
    pub fn number(self) -> u8
        ensures { result ≡ node_fault_number self }
    {
        match self {
            NodeFault::NotLeading => 1,
            NodeFault::LogFull => 2,
            NodeFault::RoundsSpent => 3,
            NodeFault::ValueTooLong => 4,
            NodeFault::OutOfMemory => 5,
            NodeFault::StoreRefused => 6,
            NodeFault::Down => 7,
        }
    }
}

impl From<AllocError> for NodeFault {
    ghost use Rattle.proposer.specs.declared.fault.NodeFault.TheVariants.{OutOfMemory};

    ghost from_gives = { λ _ e. e ≡ OutOfMemory };

    fn from(_fault: AllocError) -> NodeFault {
        NodeFault::OutOfMemory
    }
}

impl<T: Drop> From<AllocFailed<T>> for NodeFault {
    ghost use Rattle.proposer.specs.declared.fault.NodeFault.TheVariants.{OutOfMemory};

    ghost from_gives = { λ _ e. e ≡ OutOfMemory };

    fn from(_fault: AllocFailed<T>) -> NodeFault {
        NodeFault::OutOfMemory
    }
}

impl From<RecordsFault> for NodeFault {
    ghost use Rattle.proposer.specs.Faults.{told};

    ghost from_gives = { λ fault e. e ≡ told fault };

    fn from(fault: RecordsFault) -> NodeFault {
        match fault {
            RecordsFault::Refused => NodeFault::StoreRefused,
            RecordsFault::Broken => NodeFault::Down,
            RecordsFault::OutOfMemory => NodeFault::OutOfMemory,
        }
    }
}
