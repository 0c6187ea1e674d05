//! `upsched capture PLAN`: the MAPs of a plan as frames in a capture file.

ghost use Rattle.std.specs.Prelude.{◌≡◌, ◌≢◌, ◌≤◌, ◌+◌, ◌%◌, ◌^◌, IfErr, IfOk, IfSome, OnOk, length};
ghost use Rattle.std.specs.Io.KnownBytes.{Appends};
ghost use Rattle.map_frames.specs.Captures.{records_from, capture_of};
ghost use Rattle.grant_machine.specs.Steps.{step};
ghost use Rattle.grant_machine.specs.Runs.{outputs_of, IsReached};
ghost use Rattle.plan_account.specs.Deeds.{IsDeedOf};
ghost use Rattle.plan_account.specs.declared.deed.Deed.{Deed};
ghost use Rattle.upsched_ends.specs.Faults.{StopsPrint};
ghost use Rattle.upsched_ends.specs.declared.fault.Fault.TheVariants.{Memory};
ghost use Rattle.upsched_ends.specs.declared.status.Status.TheVariants.{Done, NotUnderstood};
ghost use Rattle.script_text.specs.Plan.{IsPlan, NoPlan};
ghost use Rattle.upsched_check.specs.Plans.{IsScriptAlone, bodies_in, bodies_of, FitsFrame, CapturesPlan};
ghost use Rattle.upsched_check.specs.Plans.{IsKnownScript};

use crate::plan_words::{CaptureWords, Refusal, commands_of};
use grant_machine::{Command, Machine, Output, maps_are_bodies_from};
use map_frames::{file_head, record};
use plan_account::outputs_have_deeds;
use std::alloc::Global;
use std::io::{Read, Write};
use upsched_ends::{Fault, Status};

pub(crate) fn write_bytes<'a, O: Write>(bytes: &[u8], output: &mut O) -> Result<(), Fault<'a>>
    ensures written { OnOk result (Appends (O.contents output.old) (O.contents output.new) bytes.now) }
    ensures fault { IfErr result StopsPrint }
{
    match output.write_all(bytes) {
        Ok(()) => Ok(()),
        Err(_) => Err(Fault::Output),
    }
}

/// The output of a command.
pub(crate) fn answer_of<'a>(machine: &mut Machine, command: &Command) -> Result<Output, Fault<'a>>
    requires { IsReached machine.old }
    ensures output { IfOk result (λ output. output ≡ (step machine.old command.now).output) }
    ensures rows { OnOk result (machine.new ≡ (step machine.old command.now).rows) }
    ensures reached { IsReached machine.new }
    ensures fits { IfOk result (λ output. FitsFrame output) }
    ensures deed { IfOk result (λ output. (deed : Deed) × IsDeedOf command.now output deed) }
    ensures fault { IfErr result (λ fault. fault ≡ Memory) }
{
    maps_are_bodies_from();
    outputs_have_deeds();
    match machine.apply(command) {
        Ok(output) => Ok(output),
        Err(_) => Err(Fault::Memory),
    }
}

/// Writes the MAP of an output, if it has one, behind so many others, and gives how many it wrote.
fn write_map<'a, O: Write>(
    alloc: Global,
    before: usize,
    answer: &Output,
    output: &mut O,
) -> Result<usize, Fault<'a>>
    requires { FitsFrame answer.now }
    ensures count { IfOk result (λ count. count ≡ length (bodies_in answer.now)) }
    ensures few { IfOk result (λ count. count ≤ 1) }
    ensures written { OnOk result (Appends (O.contents output.old) (O.contents output.new) (records_from before (bodies_in answer.now))) }
{
    let Output::Map { bytes, .. } = answer else {
        return Ok(0);
    };
    let seconds = (before % (1 << 32)) as u32;
    let Ok(framed) = record(alloc, seconds, bytes.as_slice()) else {
        return Err(Fault::Memory);
    };
    write_bytes(&framed, output)?;
    Ok(1)
}

/// Writes the MAPs of commands behind the head of a capture file.
fn write_maps<'a, O: Write>(
    alloc: Global,
    commands: &[Command],
    output: &mut O,
) -> Result<(), Refusal<'a>>
    ensures { OnOk result (Appends (O.contents output.old) (O.contents output.new) (capture_of (bodies_of (outputs_of commands.now)))) }
{
    write_bytes(&file_head(), output)?;
    let mut machine = Machine::new(alloc);
    let mut count = 0;
    for command in commands {
        let answer = answer_of(&mut machine, command)?;
        count += write_map(alloc, count, &answer, output)?;
    }
    match output.flush() {
        Ok(()) => Ok(()),
        Err(_) => Err(Refusal::Fault(Fault::Output)),
    }
}

fn write_capture<'a, R: Read, O: Write>(
    alloc: Global,
    plan: &mut R,
    path: &'a str,
    output: &mut O,
) -> Result<(), Refusal<'a>>
    ensures written { OnOk result (CapturesPlan (R.remaining plan.old) (O.contents output.old) (O.contents output.new)) }
    ensures no_plan { NoPlan (R.remaining plan.old) → output.new ≡ output.old }
    ensures script { IsKnownScript (R.remaining plan.old) → output.new ≡ output.old }
{
    let commands = commands_of(alloc, plan, path)?;
    write_maps(alloc, commands.as_slice(), output)
}

/// Applies a plan's commands to one scheduler and writes a capture file of its MAPs, each in a frame whose time is the
/// MAP's number in seconds, from 0 on. A fault of the plan, and a script without commands, are told in one line before
/// anything is written.
pub fn capture<R: Read, O: Write, E: Write>(
    alloc: Global,
    plan: &mut R,
    words: &CaptureWords<'_>,
    output: &mut O,
    errors: &mut E,
) -> Status
    ensures written { result ≡ Done → CapturesPlan (R.remaining plan.old) (O.contents output.old) (O.contents output.new) }
    ensures quiet { result ≡ Done → errors.new ≡ errors.old }
    ensures no_plan { NoPlan (R.remaining plan.old) → output.new ≡ output.old }
    ensures script { IsKnownScript (R.remaining plan.old) → output.new ≡ output.old }
    ensures understood { result ≢ NotUnderstood }
{
    match write_capture(alloc, plan, words.plan, output) {
        Ok(()) => Status::Done,
        Err(refusal) => refusal.told("run", errors),
    }
}
