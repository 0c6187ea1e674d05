//! A host that waits for a state to begin by.

ghost use Rattle.std.specs.Prelude.{◌≡◌, ℕ, IfErr, IfOk, false, true};
ghost use Rattle.node_service.specs.Batched.{EndsBatchedBy};
ghost use Rattle.host_service.specs.Replying.{host_of};
ghost use Rattle.host_service.specs.Texts.{host_text};
ghost use Rattle.host_service.specs.Waiting.{HasWaited, HeedsLine, HeedsState, IsWaiting, WaitsTo, is_waiting};
ghost use Rattle.host_service.specs.Waiting.{waiting_keeper};

use crate::asked::{HostRequest, asked_of_host};
use crate::reply::{HostReply, no_start_reply};
use crate::service::HostServer;
use ballots::Bytes;
use hosts::{Host, Opens};
use node_lines::{Ahead, LineFault};
use node_service::{BatchedEnd, Keeper, Lines, Outbox, Reply, serve_batched};
use std::alloc::Global;

/// A host that has no epoch until it is given a state. It heeds nothing else.
#[derive(Drop)]
pub struct WaitingHost<O: Opens> {
    alloc: Global,
    places: u64,
    /// What opens its nodes, while it waits.
    opens: Option<O>,
    /// The host, once it has an epoch.
    host: Option<Host<O>>,
}

/// It is given a state, and goes to the start of its epoch, or waits on.
fn heed_state<O: Opens>(waiting: &mut WaitingHost<O>, state: &[u8]) -> HostReply
    requires { is_waiting waiting.old ≡ true }
    ensures { HeedsState waiting.old state.now result waiting.new }
{
    let Some(opens) = waiting.opens.take() else {
        return HostReply::NoState;
    };
    match Host::joined(waiting.alloc, opens, waiting.places, state) {
        Ok(host) => {
            let epoch = host.number();
            waiting.host = Some(host);
            HostReply::Joined(epoch)
        }
        Err((why, left)) => {
            waiting.opens = Some(left);
            no_start_reply(why)
        }
    }
}

/// The reply to a line.
fn heed_line<O: Opens>(alloc: Global, waiting: &mut WaitingHost<O>, line: Vec<u8>) -> HostReply
    requires { is_waiting waiting.old ≡ true }
    ensures { HeedsLine waiting.old line.items result waiting.new }
{
    match asked_of_host(alloc, line) {
        Ok(HostRequest::Join(state)) => heed_state(waiting, state.as_slice()),
        _ => HostReply::NoState,
    }
}

impl<O: Opens> WaitingHost<O> {
    /// A host of so many places in an epoch, which waits.
    pub fn new(alloc: Global, opens: O, places: u64) -> WaitingHost<O>
        ensures { IsWaiting result opens places }
    {
        WaitingHost {
            alloc,
            places,
            opens: Some(opens),
            host: None,
        }
    }
}

impl<O: Opens> Keeper for WaitingHost<O> {
    type Reply = HostReply;

    ghost up = { λ waiting. is_waiting waiting };

    ghost replies = { λ old came replied new. WaitsTo old came replied new };

    ghost has_noted = { λ waiting. Unit {0} };

    ghost is_apart = { λ line. false };

    ghost has_room = { λ waiting. Unit {0} };

    ghost has_kept = { λ waiting. Unit {0} };

    ghost commits = { λ old new. new ≡ old };

    ghost fails = { λ old told new. ⊥ };

    ghost may_tell = { λ told replied. false };

    ghost leaves = { λ waiting replied. ⊥ };

    fn can_act(&self) -> bool {
        self.opens.is_some()
    }

    fn is_apart(&self, line: &Bytes) -> bool {
        false
    }

    fn reply_to(&mut self, alloc: Global, line: Result<Bytes, LineFault>) -> HostReply {
        match line {
            Ok(line) => heed_line(alloc, self, line.into_vec()),
            Err(why) => HostReply::AsNode(Reply::Refused(why)),
        }
    }

    fn waits(&self) -> bool {
        false
    }

    fn is_full(&self) -> bool {
        false
    }

    fn may_tell(told: &HostReply, reply: &HostReply) -> bool {
        false
    }

    fn commit(&mut self) -> Result<(), HostReply> {
        Ok(())
    }
}

/// A host waits for a state to begin by, and replies to each line that comes. It gives the host, once it told where
/// that is, or how the lines ended before.
pub fn wait_for_state<P: Opens, I: Lines + Ahead, O: Outbox>(
    alloc: Global,
    waiting: &mut WaitingHost<P>,
    input: &mut I,
    output: &mut O,
) -> Result<HostServer<P>, BatchedEnd>
    ensures ends { IfErr result (λ end. EndsBatchedBy waiting_keeper host_text I.Lines O.Outbox end waiting.old input.old output.old
        waiting.new input.new output.new) }
    ensures joins { (opens : P) (places : ℕ) → IsWaiting waiting.old opens places
        → IfOk result (λ server. HasWaited I.Lines O.Outbox opens places (host_of server) input.old output.old input.new output.new) }
{
    match serve_batched(alloc, waiting, input, output) {
        BatchedEnd::Crashed => match waiting.host.take() {
            Some(host) => Ok(HostServer::new(host)),
            None => Err(BatchedEnd::Crashed),
        },
        end => Err(end),
    }
}
