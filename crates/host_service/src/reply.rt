//! What a host replies.

ghost use Rattle.std.specs.Prelude.{◌≡◌};
ghost use Rattle.host_service.specs.Replying.{again_reply, fault_reply, is_left_below, join_reply, may_tell, reply_of};
ghost use Rattle.host_service.specs.Replying.{state_reply, unkept_reply};
ghost use Rattle.host_service.specs.Waiting.{no_start_reply};

use crate::number::EpochNumber;
use ballots::{Bytes, Members, NodeId};
use grant_machine::Output;
use hosts::{Given, HostActed, JoinFault};
use node::NodeFault;
use node_service::Reply;
use seats::Acted;
use std::alloc::AllocError;

/// The most bytes of a state that is told: a line that joins by it is no longer than a line of a node may be.
pub const LONGEST_STATE: usize = 88_000_000;

/// How a host over files begins.
#[derive(Drop)]
pub enum Beginning {
    /// It begins anew.
    Fresh,
    /// It goes on at the start of this epoch, by the state with this digest: the bytes of the state's sum.
    Restarted(u64, Bytes),
    /// It waits for a state to begin by.
    Waits,
}

/// What is told at one time: the reply to a line, or before the first one who replies.
#[derive(Drop)]
pub enum HostReply {
    /// This host of so many is there, with so many places in an epoch.
    There(NodeId, Members, u64),
    /// The same of one over files, and how it begins.
    Begins(NodeId, Members, u64, Beginning),
    /// What came of what the node of an epoch was asked, under the number that the line had.
    InEpoch(EpochNumber, HostActed),
    /// The outputs of a release, as a node tells them; the host's own epoch, and the first place of it that it lacks.
    Released(Reply, EpochNumber, u64),
    /// The state at the start of the host's own epoch.
    State(Bytes),
    /// That state has more than `LONGEST_STATE` bytes, and isn't told.
    StateTooLong,
    /// The host went to the start of this epoch, which is its own one now.
    Joined(u64),
    /// The bytes are no state to which it goes. Nothing changed.
    NoState,
    /// What modems need that begin anew.
    Again(Vec<Output>),
    /// What a node tells as well: why the line asked nothing, or the fault of what it asked.
    AsNode(Reply),
}

/// The reply that tells a fault.
fn fault_reply(fault: NodeFault) -> HostReply
    ensures { result ≡ fault_reply fault }
{
    HostReply::AsNode(Reply::Acted(Acted::Fault(fault)))
}

/// The reply that tells of a commit of an epoch's node that it failed.
pub(crate) fn unkept_reply(epoch: u64, places: u64, fault: NodeFault) -> HostReply
    ensures { result ≡ unkept_reply (record { epoch = epoch; places = places }) fault }
{
    HostReply::InEpoch(
        EpochNumber { epoch, places },
        HostActed::Of(Acted::Fault(fault)),
    )
}

/// Whether a reply may be told where the commit of this epoch failed: it is of an epoch below, or its line asked nothing.
fn is_left_below(failed: u64, reply: &HostReply) -> bool
    ensures { result ≡ is_left_below failed reply.now }
{
    match reply {
        HostReply::InEpoch(number, _) => number.epoch < failed,
        HostReply::AsNode(Reply::Refused(_)) => true,
        _ => false,
    }
}

/// The same by what is told of that commit.
pub(crate) fn may_tell(told: &HostReply, reply: &HostReply) -> bool
    ensures { result ≡ may_tell told.now reply.now }
{
    match told {
        HostReply::InEpoch(number, _) => is_left_below(number.epoch, reply),
        _ => false,
    }
}

/// The reply to a release of a host with so many places in an epoch.
pub(crate) fn reply_of(places: u64, given: Given) -> HostReply
    ensures { result ≡ reply_of places given }
{
    match given {
        Given::Outputs {
            outputs,
            epoch,
            place,
        } => HostReply::Released(
            Reply::Acted(Acted::Released(outputs)),
            EpochNumber { epoch, places },
            place,
        ),
        Given::Failed(fault) => fault_reply(fault),
    }
}

/// The reply of a host that was asked for its state.
pub(crate) fn state_reply(state: Result<Vec<u8>, AllocError>) -> HostReply
    ensures { result ≡ state_reply state }
{
    match state {
        Ok(bytes) => {
            if bytes.len() <= LONGEST_STATE {
                HostReply::State(Bytes::new(bytes))
            } else {
                HostReply::StateTooLong
            }
        }
        Err(_) => fault_reply(NodeFault::OutOfMemory),
    }
}

/// The reply of a host that was given a state, and whose own epoch is this one then.
pub(crate) fn join_reply(epoch: u64, joined: Result<(), JoinFault>) -> HostReply
    ensures { result ≡ join_reply epoch joined }
{
    match joined {
        Ok(()) => HostReply::Joined(epoch),
        Err(JoinFault::NoState) => HostReply::NoState,
        Err(JoinFault::Node(fault)) => fault_reply(fault),
    }
}

/// The reply of a host that waits to a state that is no start.
pub(crate) fn no_start_reply(why: JoinFault) -> HostReply
    ensures { result ≡ no_start_reply why }
{
    match why {
        JoinFault::NoState => HostReply::NoState,
        JoinFault::Node(fault) => fault_reply(fault),
    }
}

/// The reply of a host that was asked what it tells again.
pub(crate) fn again_reply(outputs: Result<Vec<Output>, AllocError>) -> HostReply
    ensures { result ≡ again_reply outputs }
{
    match outputs {
        Ok(outputs) => HostReply::Again(outputs),
        Err(_) => fault_reply(NodeFault::OutOfMemory),
    }
}
