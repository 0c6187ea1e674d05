//! From the words to how the program ends.

ghost use Rattle.std.specs.Prelude.{◌≡◌, ◌⊎◌, ◌↔◌, Err, IsErrAnd, IsOk, MatchResult};
ghost use Rattle.node_service.specs.declared.batches.BatchedEnd.TheVariants as ends;
ghost use Rattle.upsched_ends.specs.declared.status.Status.TheVariants.{Done, Faulted, NotUnderstood};
ghost use Rattle.upsched_host.specs.Named.{IsNewServer, NameHost, Who as Named};
ghost use Rattle.upsched_host.specs.Serving.{RunsHost};
ghost use Rattle.upsched_node.specs.Ends.{IsOfInput};

use crate::named::{HostWords, Who, named_host};
use host_service::{HostReply, HostServer, serve_host};
use hosts::PlainOpens;
use node_lines::{Ahead, Unwritten};
use node_service::{BatchedEnd, Lines, Outbox, tell};
use std::alloc::Global;
use std::io::Write;
use std::mem;
use upsched_ends::{Fault, Status};
use upsched_node::{unread, unwritten};

/// What is told of how the lines ended: nothing where there are no more. In memory no commit fails.
fn ended<'a>(end: BatchedEnd) -> Result<(), Fault<'a>>
    ensures done { IsOk result ↔ (end ≡ ends.Input) }
    ensures crashed { (result ≡ Err Fault.Crashed) ↔ ((end ≡ ends.Crashed) ⊎ (end ≡ ends.Uncommitted)) }
    ensures memory { end ≡ ends.Unwritten Unwritten.OutOfMemory → result ≡ Err Fault.Memory }
    ensures output { end ≡ ends.Unwritten Unwritten.Output → result ≡ Err Fault.Output }
    ensures unread { (end ≡ ends.Unreadable) ⊎ (end ≡ ends.Spent) → IsErrAnd result IsOfInput }
{
    match end {
        BatchedEnd::Input => Ok(()),
        BatchedEnd::Crashed | BatchedEnd::Uncommitted => Err(Fault::Crashed),
        BatchedEnd::Unreadable | BatchedEnd::Spent => Err(unread()),
        BatchedEnd::Unwritten(why) => Err(unwritten(why)),
    }
}

/// A new host tells who it is, and then replies to each line that comes.
fn serve_new<'a, I: Lines + Ahead, O: Outbox>(
    alloc: Global,
    who: Who,
    server: &mut HostServer<PlainOpens>,
    input: &mut I,
    output: &mut O,
) -> Result<(), Fault<'a>>
    requires { IsNewServer server.old who }
    ensures { MatchResult result (λ done. RunsHost I.Lines O.Outbox who Done input.old output.old input.new output.new)
        (λ fault. RunsHost I.Lines O.Outbox who Faulted input.old output.old input.new output.new) }
{
    let (id, members, places) = who;
    if let Err(why) = tell(alloc, &HostReply::There(id, members, places), output) {
        return Err(unwritten(why));
    }
    ended(serve_host(alloc, server, input, output))
}

/// The same, where a fault is told in one line.
fn run_new<I: Lines + Ahead, O: Outbox, E: Write>(
    alloc: Global,
    who: Who,
    server: &mut HostServer<PlainOpens>,
    input: &mut I,
    output: &mut O,
    errors: &mut E,
) -> Status
    requires { IsNewServer server.old who }
    ensures runs { RunsHost I.Lines O.Outbox who result input.old output.old input.new output.new }
    ensures quiet { result ≡ Done → errors.new ≡ errors.old }
{
    match serve_new(alloc, who, server, input, output) {
        Ok(()) => Status::Done,
        Err(fault) => fault.told(errors),
    }
}

/// Serves as the host that the words name, with records in memory. Where they name none, one line tells why. A fault is
/// told in one line.
pub fn host<I: Lines + Ahead, O: Outbox, E: Write>(
    alloc: Global,
    words: &HostWords<'_>,
    input: &mut I,
    output: &mut O,
    errors: &mut E,
) -> Status
    ensures named { (who : Named) → NameHost words.now who → RunsHost I.Lines O.Outbox who result input.old output.old input.new output.new }
    ensures unnamed { ((who : Named) → ¬ NameHost words.now who) → (result ≡ NotUnderstood) × (input.new ≡ input.old) × (output.new ≡ output.old) }
    ensures quiet { result ≡ Done → errors.new ≡ errors.old }
{
    match named_host(alloc, words) {
        Ok((who, mut server)) => {
            let status = run_new(alloc, who, &mut server, input, output, errors);
            mem::drop(server);
            status
        }
        Err(why) => {
            let _ = writeln!(errors, "{}", why.line());
            Status::NotUnderstood
        }
    }
}
