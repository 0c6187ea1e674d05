//! `upsched scheduler`: replies to the lines of standard input.

ghost use Rattle.std.specs.Prelude.{◌≡◌, ◌↔◌, Err, IsOk, MatchResult};
ghost use Rattle.upsched_ends.specs.declared.status.Status.TheVariants.{Done, Faulted};
ghost use Rattle.scheduler_lines.specs.declared.service.End.TheVariants as ends;
ghost use Rattle.upsched_scheduler.specs.Running.{RunsScheduler};

use node_lines::Unwritten;
use scheduler_lines::{End, Input, Output, ReplyForm, serve};
use std::alloc::Global;
use std::io::Write;
use upsched_ends::{Fault, Status};

/// Where lines come from, in what is told of a fault.
const INPUT_NAME: &str = "standard input";

/// What is told of how the lines ended: nothing where there are no more.
fn ended<'a>(end: End) -> Result<(), Fault<'a>>
    ensures done { IsOk result ↔ (end ≡ ends.Input) }
    ensures memory { end ≡ ends.Unwritten Unwritten.OutOfMemory → result ≡ Err Fault.Memory }
    ensures output { end ≡ ends.Unwritten Unwritten.Output → result ≡ Err Fault.Output }
{
    match end {
        End::Input => Ok(()),
        End::Unreadable | End::Spent => Err(Fault::Unreadable(INPUT_NAME)),
        End::Unwritten(Unwritten::OutOfMemory) => Err(Fault::Memory),
        End::Unwritten(Unwritten::Output) => Err(Fault::Output),
    }
}

fn serve_lines<'a, I: Input, O: Output>(
    alloc: Global,
    form: ReplyForm,
    input: &mut I,
    output: &mut O,
) -> Result<(), Fault<'a>>
    ensures { MatchResult result (λ done. RunsScheduler I.Input O.Output form Done input.old output.old input.new output.new)
        (λ fault. RunsScheduler I.Input O.Output form Faulted input.old output.old input.new output.new) }
{
    ended(serve(alloc, form, input, output))
}

/// Is one scheduler, which replies to each line that comes, and says how the program ends. A fault is told in one line.
pub fn scheduler<I: Input, O: Output, E: Write>(
    alloc: Global,
    form: ReplyForm,
    input: &mut I,
    output: &mut O,
    errors: &mut E,
) -> Status
    ensures runs { RunsScheduler I.Input O.Output form result input.old output.old input.new output.new }
    ensures quiet { result ≡ Done → errors.new ≡ errors.old }
{
    match serve_lines(alloc, form, input, output) {
        Ok(()) => Status::Done,
        Err(fault) => fault.told(errors),
    }
}
