//! A host over lines.

ghost use Rattle.std.specs.Prelude.{◌≡◌, Ok, true, vec_len};
ghost use Rattle.hosts.specs.Hosts.{AreMembers, StandsAs, are_up};
ghost use Rattle.hosts.specs.Keeping.{HaveKept};
ghost use Rattle.hosts.specs.Views.{HostView};
ghost use Rattle.node_service.specs.Batched.{EndsBatchedBy};
ghost use Rattle.node_service.specs.Seated.{asked_of};
ghost use Rattle.host_service.specs.Asking.{is_apart};
ghost use Rattle.host_service.specs.Replying.{ActsSo, CommitsSo, DoesAsked, DoesJoin, DoesRelease, FailsSo, Leaves};
ghost use Rattle.host_service.specs.Replying.{RepliesAlone, RepliesIn, RepliesTo, host_keeper, host_of, may_tell};
ghost use Rattle.host_service.specs.Serving.{IfAllTold, NeverLies, ServesFrom};
ghost use Rattle.host_service.specs.Texts.{host_text};

use crate::asked::{HostRequest, asked_of_host, asked_of_node, is_apart, rest_of};
use crate::number::{EpochNumber, number_before};
use crate::reply::{
    HostReply, again_reply, join_reply, may_tell, reply_of, state_reply, unkept_reply,
};
use ballots::Bytes;
use hosts::{Host, HostActed, Opens};
use node_lines::{Ahead, LineFault, Request};
use node_service::{BatchedEnd, Keeper, Lines, Outbox, Reply, serve_batched};
use seats::Asked;
use std::alloc::Global;

/// A host that replies to lines, and keeps what its nodes did by commits.
#[derive(Drop)]
pub struct HostServer<O: Opens> {
    host: Host<O>,
}

/// The node of an epoch is asked what a line behind a number asks.
fn act_in<O: Opens>(host: &mut Host<O>, number: EpochNumber, asked: &Request) -> HostActed
    ensures { ActsSo host.old number.epoch number.places (asked_of asked.now) result host.new }
{
    let (epoch, places) = (number.epoch, number.places);
    match asked {
        Request::Lead => host.act(epoch, places, Asked::Lead),
        Request::Offer(value) => host.act(epoch, places, Asked::Offer(value.as_slice())),
        Request::Release(now) => host.act(epoch, places, Asked::Release(*now)),
        Request::Letter(letter) => host.act(epoch, places, Asked::Receive(letter)),
        Request::Tell(to, place) => host.act(epoch, places, Asked::Tell(to, *place)),
    }
}

/// The reply to what is behind a number. What the number refuses isn't read.
fn reply_in_epoch<O: Opens>(
    alloc: Global,
    host: &mut Host<O>,
    number: EpochNumber,
    rest: Vec<u8>,
) -> HostReply
    ensures { RepliesIn host.old number rest.items result host.new }
{
    if let Some(refused) = host.refusal(number.epoch, number.places) {
        return HostReply::InEpoch(number, refused);
    }
    match asked_of_node(alloc, rest) {
        Ok(asked) => HostReply::InEpoch(number, act_in(host, number, &asked)),
        Err(why) => HostReply::AsNode(Reply::Refused(why)),
    }
}

/// The reply to a time at which it is asked to release.
fn reply_to_release<O: Opens>(host: &mut Host<O>, now: u64) -> HostReply
    ensures { DoesRelease host.old now result host.new }
{
    let places = host.places();
    reply_of(places, host.release(now))
}

/// The reply to a state that it is given.
fn reply_to_join<O: Opens>(host: &mut Host<O>, state: &[u8]) -> HostReply
    ensures { DoesJoin host.old state.now result host.new }
{
    let joined = host.join(state);
    join_reply(host.number(), joined)
}

/// The reply to what a line without a number asks.
fn reply_of_host<O: Opens>(host: &mut Host<O>, asked: HostRequest) -> HostReply
    ensures { DoesAsked host.old asked result host.new }
{
    match asked {
        HostRequest::Release(now) => reply_to_release(host, now),
        HostRequest::State => state_reply(host.state()),
        HostRequest::Join(state) => reply_to_join(host, state.as_slice()),
        HostRequest::Again => again_reply(host.again()),
    }
}

/// The reply to a line without a number.
fn reply_alone<O: Opens>(alloc: Global, host: &mut Host<O>, line: Vec<u8>) -> HostReply
    requires { is_apart line.items ≡ true → HaveKept host.old }
    ensures { RepliesAlone host.old line.items result host.new }
{
    match asked_of_host(alloc, line) {
        Ok(asked) => reply_of_host(host, asked),
        Err(why) => HostReply::AsNode(Reply::Refused(why)),
    }
}

fn reply_to_line<O: Opens>(alloc: Global, host: &mut Host<O>, line: Vec<u8>) -> HostReply
    requires { is_apart line.items ≡ true → HaveKept host.old }
    ensures { RepliesTo host.old (Ok line.items) result host.new }
{
    match number_before(&line) {
        Some((number, place)) => reply_in_epoch(alloc, host, number, rest_of(line, place)),
        None => reply_alone(alloc, host, line),
    }
}

impl<O: Opens> HostServer<O> {
    pub fn new(host: Host<O>) -> HostServer<O>
        ensures { host_of result ≡ host }
    {
        HostServer { host }
    }

    /// The host.
    pub fn host(&self) -> &Host<O>
        ensures { result.now ≡ host_of self.now }
    {
        &self.host
    }

    /// The host, where it replies no more.
    pub fn into_host(self) -> Host<O>
        ensures { result ≡ host_of self }
    {
        let HostServer { host } = self;
        host
    }
}

impl<O: Opens> Keeper for HostServer<O> {
    type Reply = HostReply;

    ghost up = { λ server. are_up (host_of server) };

    ghost replies = { λ old came replied new. RepliesTo (host_of old) came replied (host_of new) };

    ghost has_noted = { λ server. Unit {0} };

    ghost is_apart = { is_apart };

    ghost has_room = { λ server. Unit {0} };

    ghost has_kept = { λ server. HaveKept (host_of server) };

    ghost commits = { λ old new. CommitsSo (host_of old) (host_of new) };

    ghost fails = { λ old told new. FailsSo (host_of old) told (host_of new) };

    ghost may_tell = { may_tell };

    ghost leaves = { λ server replied. Leaves (host_of server) replied };

    fn can_act(&self) -> bool {
        self.host.is_up()
    }

    fn is_apart(&self, line: &Bytes) -> bool {
        is_apart(line.as_slice())
    }

    fn reply_to(&mut self, alloc: Global, line: Result<Bytes, LineFault>) -> HostReply {
        match line {
            Ok(line) => reply_to_line(alloc, &mut self.host, line.into_vec()),
            Err(why) => HostReply::AsNode(Reply::Refused(why)),
        }
    }

    fn waits(&self) -> bool {
        self.host.waits()
    }

    fn is_full(&self) -> bool {
        self.host.is_full()
    }

    fn may_tell(told: &HostReply, reply: &HostReply) -> bool {
        may_tell(told, reply)
    }

    fn commit(&mut self) -> Result<(), HostReply> {
        match self.host.keep() {
            Ok(()) => Ok(()),
            Err((epoch, fault)) => Err(unkept_reply(epoch, self.host.places(), fault)),
        }
    }
}

/// A host replies to each line that comes, until there are no more or one of its nodes is down. What lines that have
/// come together did is kept together, and only then the replies go out. What is asked of the host itself is done once
/// all before it is kept and replied to.
pub fn serve_host<P: Opens, I: Lines + Ahead, O: Outbox>(
    alloc: Global,
    server: &mut HostServer<P>,
    input: &mut I,
    output: &mut O,
) -> BatchedEnd
    requires { HaveKept (host_of server.old) }
    ensures ends { EndsBatchedBy host_keeper host_text I.Lines O.Outbox result server.old input.old output.old server.new input.new output.new }
    ensures kept { IfAllTold result (HaveKept (host_of server.new)) }
    ensures views { NeverLies (host_of server.old) → AreMembers (host_of server.old) → (v : HostView) → StandsAs (host_of server.old) v
        → ServesFrom I.Lines O.Outbox (host_of server.old) v result input.old output.old input.new output.new }
{
    serve_batched(alloc, server, input, output)
}
