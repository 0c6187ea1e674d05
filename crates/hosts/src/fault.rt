//! Why there is no host.

ghost use Rattle.std.specs.Prelude.{◌≡◌};
ghost use Rattle.hosts.specs.Unread.{unread};

use node::NodeFault;
use row_bytes::RowsFault;
use thiserror::Error;

/// Why there is no host.
#[derive(Clone, Copy, Debug, Drop, PartialEq, Eq, Error)]
pub enum HostFault {
    /// An epoch has 1 to 999,000 places that count, and these aren't.
    #[error("Places")]
    Places,
    /// A node of it couldn't be opened.
    #[error("{0}")]
    Node(NodeFault),
}

/// Why a host doesn't go to the start of another epoch.
#[derive(Clone, Copy, Debug, Drop, PartialEq, Eq, Error)]
pub enum JoinFault {
    /// The bytes are no state of as many members and places, of an epoch above the host's own one.
    #[error("NoState")]
    NoState,
    /// A node couldn't be opened, or there was no memory.
    #[error("{0}")]
    Node(NodeFault),
}

impl From<NodeFault> for JoinFault {
    ghost use Rattle.std.specs.Prelude.{◌≡◌};
    ghost use Rattle.hosts.specs.declared.fault.JoinFault.TheVariants.{Node};

    ghost from_gives = { λ fault e. e ≡ Node fault };

    fn from(fault: NodeFault) -> JoinFault {
        JoinFault::Node(fault)
    }
}

/// Why bytes whose tables can't be read are no state to join.
pub(crate) fn unread(why: RowsFault) -> JoinFault
    ensures { result ≡ unread why }
{
    match why {
        RowsFault::OutOfMemory => JoinFault::Node(NodeFault::OutOfMemory),
        _ => JoinFault::NoState,
    }
}
