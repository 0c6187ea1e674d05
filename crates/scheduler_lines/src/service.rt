//! One scheduler over lines.

ghost use Rattle.std.specs.Prelude.{◌≡◌, IfErr, MatchOption, OnOk};
ghost use Rattle.std.specs.Io.KnownBytes.{Keeps};
ghost use Rattle.scheduler_lines.specs.declared.incoming.Incoming.TheVariants as incoming;
ghost use Rattle.scheduler_lines.specs.Replying.{Answers, Applies};
ghost use Rattle.scheduler_lines.specs.Serving.{SchedulerEndsBy};

use crate::form::ReplyForm;
use crate::incoming::{Incoming, Input};
use crate::outgoing::{Output, Reply};
use grant_machine::{Command, Machine};
use node_lines::{LineFault, Unwritten};
use std::alloc::Global;

/// Why no more lines are replied to.
#[derive(Clone, Copy, Debug, PartialEq, Eq)]
pub enum End {
    /// No whole line is left.
    Input,
    /// The input failed.
    Unreadable,
    /// A write failed, or there was no memory for the text of a reply.
    Unwritten(Unwritten),
    /// So many lines were replied to as a run may have, 2^64 - 1.
    Spent,
}

/// Applies a command once.
fn applied(machine: &mut Machine, command: &Command) -> Reply
    ensures { Applies machine.old command.now result machine.new }
{
    match machine.apply(command) {
        Ok(output) => Reply::Applied(output),
        Err(_) => Reply::Refused(LineFault::OutOfMemory),
    }
}

/// The reply to what came. None where no line is left.
fn reply_to(machine: &mut Machine, what: Incoming) -> Option<Reply>
    ensures { MatchOption result ((what ≡ incoming.End) × (machine.new ≡ machine.old)) (λ reply. Answers machine.old what reply machine.new) }
{
    match what {
        Incoming::Asks(command) => Some(applied(machine, &command)),
        Incoming::Refused(why) => Some(Reply::Refused(why)),
        Incoming::End => None,
    }
}

/// Sends the replies out where the next line may have to be waited for.
#[tactic(auto, using(crate::proofs::Kept::kept_same))]
fn send_before_wait<I: Input, O: Output>(input: &I, output: &mut O) -> Result<(), Unwritten>
    ensures kept { OnOk result (Keeps (O.bytes_held output.old) (O.bytes_held output.new)) }
    ensures fails { IfErr result (λ why. O.fails output.old why output.new) }
{
    if input.has_line() {
        return Ok(());
    }
    output.send()
}

/// Replies to each line that comes, until there are no more: the first one is applied where no channel is set. Replies
/// are sent out before each read that may wait. What follows the last line's end is no line.
pub fn serve<I: Input, O: Output>(
    alloc: Global,
    form: ReplyForm,
    input: &mut I,
    output: &mut O,
) -> End
    ensures { SchedulerEndsBy I.Input O.Output form result input.old output.old input.new output.new }
{
    let mut machine = Machine::new(alloc);
    for count in 0..usize::MAX {
        if let Err(why) = send_before_wait(input, output) {
            return End::Unwritten(why);
        }
        let Ok(what) = input.next_command(alloc) else {
            return End::Unreadable;
        };
        let Some(reply) = reply_to(&mut machine, what) else {
            return End::Input;
        };
        if let Err(why) = output.write_reply(alloc, form, count + 1, &reply) {
            return End::Unwritten(why);
        }
    }
    End::Spent
}
