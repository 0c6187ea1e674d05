//! A host tells how it begins, and serves over lines.

ghost use Rattle.std.specs.Prelude.{◌≡◌, ℕ, Err, IfErr, IfOk, OnOk};
ghost use Rattle.std.specs.Io.KnownBytes.{Appends};
ghost use Rattle.host_service.specs.Replying.{host_of};
ghost use Rattle.host_service.specs.Serving.{NeverLie};
ghost use Rattle.host_service.specs.Texts.{begins_text};
ghost use Rattle.host_service.specs.Waiting.{IsWaiting};
ghost use Rattle.host_service.specs.declared.reply.Beginning.TheVariants.{Waits};
ghost use Rattle.hosts.specs.Hosts.{are_up};
ghost use Rattle.node_service.specs.Batched.{FailsToTell};
ghost use Rattle.upsched_node.specs.Ends.{write_fault};
ghost use Rattle.upsched_node.specs.First.{TellsFirst};
ghost use Rattle.upsched_stored_host.specs.Ends.{IsEndOf};
ghost use Rattle.upsched_stored_host.specs.Serving.{CanServe, HasServed, TellsAndServes, TellsOf, WaitsAndServes};
ghost use Rattle.upsched_stored_host.specs.declared.stopped.Stopped.TheVariants.{Ended};

use crate::stopped::{Stopped, ended, not_written, unjoined};
use ballots::Bytes;
use host_service::{Beginning, HostReply, HostServer, WaitingHost, serve_host, wait_for_state};
use hosts::{Host, Opens};
use node_lines::{Ahead, Unwritten};
use node_service::{BatchedEnd, Lines, Outbox, tell};
use std::alloc::{AllocError, Global};
use upsched_host::Who;

/// How many bytes the sum of a state has.
const SUM_LENGTH: usize = 8;

/// Tells who a host is and how it begins.
fn tell_first<O: Outbox>(
    alloc: Global,
    who: Who,
    begins: Beginning,
    output: &mut O,
) -> Result<(), Unwritten>
    ensures written { OnOk result (Appends (O.bytes_held output.old) (O.bytes_held output.new) (begins_text who.0 who.1 who.2 begins)) }
    ensures fails { IfErr result (λ why. FailsToTell O.Outbox (begins_text who.0 who.1 who.2 begins) why output.old output.new) }
{
    let (id, members, places) = who;
    tell(
        alloc,
        &HostReply::Begins(id, members, places, begins),
        output,
    )
}

/// A host replies to each line that comes. It gives how the lines ended.
fn serve<P: Opens, I: Lines + Ahead, O: Outbox>(
    alloc: Global,
    server: &mut HostServer<P>,
    input: &mut I,
    output: &mut O,
) -> BatchedEnd
    requires { CanServe (host_of server.old) }
    ensures served { HasServed I.Lines O.Outbox server.old result server.new input.old output.old input.new output.new }
    ensures ended { IsEndOf result (are_up (host_of server.new)) }
{
    serve_host(alloc, server, input, output)
}

/// It tells how it begins, and then replies to each line that comes.
pub(crate) fn serve_from<P: Opens, I: Lines + Ahead, O: Outbox>(
    alloc: Global,
    server: &mut HostServer<P>,
    who: Who,
    begins: Beginning,
    input: &mut I,
    output: &mut O,
) -> BatchedEnd
    requires { CanServe (host_of server.old) }
    ensures served { TellsFirst O.Outbox (begins_text who.0 who.1 who.2 begins) (λ why. result ≡ BatchedEnd.Unwritten why)
        input.old output.old input.new output.new (λ sent. HasServed I.Lines O.Outbox server.old result server.new input.old sent input.new output.new) }
    ensures ended { IsEndOf result (are_up (host_of server.new)) }
{
    match tell_first(alloc, who, begins, output) {
        Ok(()) => serve(alloc, server, input, output),
        Err(why) => BatchedEnd::Unwritten(why),
    }
}

/// What a host that goes on tells of its state: the epoch, and the sum, with which the state's bytes end.
pub(crate) fn restarted<P: Opens>(alloc: Global, host: &Host<P>) -> Result<Beginning, AllocError>
    ensures { IfOk result (TellsOf host.now) }
{
    let state = host.state()?;
    let behind = state.len().saturating_sub(SUM_LENGTH);
    let sum = Vec::from_slice(alloc, &state[behind..])?;
    Ok(Beginning::Restarted(host.number(), Bytes::new(sum)))
}

/// A host that goes on tells the digest of its state, and then replies to each line that comes. Want of memory for the
/// digest is told as that for the line.
pub(crate) fn serve_on<P: Opens, I: Lines + Ahead, O: Outbox>(
    alloc: Global,
    server: &mut HostServer<P>,
    who: Who,
    input: &mut I,
    output: &mut O,
) -> BatchedEnd
    requires { CanServe (host_of server.old) }
    ensures served { TellsAndServes I.Lines O.Outbox who.0 who.1 who.2 server.old result server.new input.old output.old input.new output.new }
    ensures ended { IsEndOf result (are_up (host_of server.new)) }
{
    match restarted(alloc, server.host()) {
        Ok(begins) => serve_from(alloc, server, who, begins, input, output),
        Err(_) => BatchedEnd::Unwritten(Unwritten::OutOfMemory),
    }
}

/// It waits for a state, and goes on behind that.
fn serve_behind_state<'a, P: Opens, I: Lines + Ahead, O: Outbox>(
    alloc: Global,
    waiting: &mut WaitingHost<P>,
    input: &mut I,
    output: &mut O,
) -> Result<(), Stopped<'a, P::Node>>
    requires waits { (opens : P) × (places : ℕ) × IsWaiting waiting.old opens places }
    requires never { NeverLie P.Node.Node }
    ensures { (opens : P) (places : ℕ) → IsWaiting waiting.old opens places
        → WaitsAndServes P.Opens P.Node.Node I.Lines O.Outbox opens places result input.old output.old input.new output.new }
{
    match wait_for_state(alloc, waiting, input, output) {
        Ok(mut server) => {
            let end = serve(alloc, &mut server, input, output);
            ended(end, server)
        }
        Err(end) => unjoined(end),
    }
}

/// It tells that it waits for a state, and does, and goes on behind that.
pub(crate) fn serve_once_joined<'a, P: Opens, I: Lines + Ahead, O: Outbox>(
    alloc: Global,
    opens: P,
    who: Who,
    input: &mut I,
    output: &mut O,
) -> Result<(), Stopped<'a, P::Node>>
    requires { NeverLie P.Node.Node }
    ensures { TellsFirst O.Outbox (begins_text who.0 who.1 who.2 Waits) (λ why. result ≡ Err (Ended (write_fault why)))
        input.old output.old input.new output.new
        (λ sent. WaitsAndServes P.Opens P.Node.Node I.Lines O.Outbox opens who.2 result input.old sent input.new output.new) }
{
    let mut waiting = WaitingHost::new(alloc, opens, who.2);
    match tell_first(alloc, who, Beginning::Waits, output) {
        Ok(()) => serve_behind_state(alloc, &mut waiting, input, output),
        Err(why) => Err(not_written(why)),
    }
}
