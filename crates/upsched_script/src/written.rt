//! `upsched script`: a script is made, tried and printed.

ghost use Rattle.std.specs.Prelude.{◌≡◌, Err, IfErr, IfOk, OnOk, string_bytes};
ghost use Rattle.std.specs.Io.KnownBytes.{Appends, Keeps};
ghost use Rattle.upsched_ends.specs.declared.status.Status.TheVariants.{Done, NotUnderstood};
ghost use Rattle.script_text.specs.Plan.{NoPlan};
ghost use Rattle.upsched_script.specs.Scripts.{AreNotUnderstood, Deserves, IsAsAsked, IsAskedFor, IsOfWords};
ghost use Rattle.upsched_script.specs.Scripts.{NamesNone, PrintsAsked};
ghost use Rattle.upsched_script.specs.declared.refusal.Refusal.TheVariants as refused;

use crate::asked::ids_of;
use crate::refusal::Refusal;
use crate::trial::is_as_asked;
use grant_machine::Command;
use made_scripts::{Wishes, made_script};
use printed_scripts::script_text;
use std::alloc::Global;
use std::io::{Read, Write};
use upsched_ends::{Fault, ScriptWords, Status, members_of, plan_of};

/// The text of a script of these wishes that offers these commands.
fn made_text<'a>(
    alloc: Global,
    commands: &[Command],
    wishes: &Wishes<'_>,
) -> Result<String, Refusal<'a>>
    ensures asked { IfOk result (λ text. IsAsAsked commands.now wishes.now.members wishes.now.modems.now wishes.now.crashes wishes.now.takeovers
        (string_bytes text)) }
    ensures understood { IfErr result (λ refusal. ¬ IsOfWords refusal) }
{
    let Ok(script) = made_script(alloc, commands, wishes) else {
        return Err(Refusal::Fault(Fault::Memory));
    };
    let Ok(text) = script_text(alloc, &script) else {
        return Err(Refusal::Fault(Fault::Memory));
    };
    if is_as_asked(alloc, commands, wishes, text.as_str())? {
        Ok(text)
    } else {
        Err(Refusal::OtherThanAsked)
    }
}

/// The text that the words and the plan ask for.
fn asked_text<'a, R: Read>(
    alloc: Global,
    plan: &mut R,
    words: &ScriptWords<'a>,
) -> Result<String, Refusal<'a>>
    ensures asked { IfOk result (λ text. IsAskedFor (R.remaining plan.old) words.now (string_bytes text)) }
    ensures deserved { IfErr result (Deserves (R.remaining plan.old) words.now) }
    ensures members { NamesNone words.now.members.now → result ≡ Err refused.Members }
{
    let Some(members) = members_of(words.members) else {
        return Err(Refusal::Members);
    };
    let ids = ids_of(alloc, words)?;
    let commands = plan_of(alloc, plan, words.plan.unwrap_or(""))?;
    if words.takeovers > 0 && words.takeovers as usize >= commands.len() {
        return Err(Refusal::Takeovers {
            wished: words.takeovers,
            commands: commands.len(),
        });
    }
    let wishes = Wishes {
        members,
        modems: ids.as_slice(),
        seed: words.seed,
        lose: words.lose,
        repeat: words.repeat,
        crashes: words.crashes,
        takeovers: words.takeovers,
    };
    made_text(alloc, commands.as_slice(), &wishes)
}

fn write_bytes<'a, O: Write>(bytes: &[u8], output: &mut O) -> Result<(), Fault<'a>>
    ensures { OnOk result (Appends (O.contents output.old) (O.contents output.new) bytes.now) }
{
    match output.write_all(bytes) {
        Ok(()) => Ok(()),
        Err(_) => Err(Fault::Output),
    }
}

fn flush<'a, O: Write>(output: &mut O) -> Result<(), Fault<'a>>
    ensures { OnOk result (Keeps (O.contents output.old) (O.contents output.new)) }
{
    match output.flush() {
        Ok(()) => Ok(()),
        Err(_) => Err(Fault::Output),
    }
}

fn write_text<'a, O: Write>(text: &str, output: &mut O) -> Result<(), Fault<'a>>
    ensures { OnOk result (Appends (O.contents output.old) (O.contents output.new) text.now) }
{
    write_bytes(text.as_bytes(), output)?;
    flush(output)
}

fn print_asked<'a, R: Read, O: Write>(
    alloc: Global,
    plan: &mut R,
    words: &ScriptWords<'a>,
    output: &mut O,
) -> Result<(), Refusal<'a>>
    ensures printed { OnOk result (PrintsAsked (R.remaining plan.old) words.now (O.contents output.old) (O.contents output.new)) }
    ensures no_plan { NoPlan (R.remaining plan.old) → output.new ≡ output.old }
    ensures words { IfErr result (λ refusal. IsOfWords refusal → output.new ≡ output.old) }
    ensures deserved { IfErr result (Deserves (R.remaining plan.old) words.now) }
    ensures members { NamesNone words.now.members.now → result ≡ Err refused.Members }
{
    let text = asked_text(alloc, plan, words)?;
    write_text(text.as_str(), output)?;
    Ok(())
}

/// Makes a script that offers the plan's commands in order, and prints it. Before anything is printed, its text is read
/// back as a script and run, and the run has the crashes and the takeovers that are asked for, and all commands are
/// offered. Else a fault is told in one line. The same words and plan print the same text.
pub fn script<R: Read, O: Write, E: Write>(
    alloc: Global,
    plan: &mut R,
    words: &ScriptWords<'_>,
    output: &mut O,
    errors: &mut E,
) -> Status
    ensures printed { result ≡ Done → PrintsAsked (R.remaining plan.old) words.now (O.contents output.old) (O.contents output.new) }
    ensures quiet { result ≡ Done → errors.new ≡ errors.old }
    ensures no_plan { NoPlan (R.remaining plan.old) → output.new ≡ output.old }
    ensures understood { result ≡ NotUnderstood → output.new ≡ output.old }
    ensures deserved { result ≡ NotUnderstood → AreNotUnderstood (R.remaining plan.old) words.now }
    ensures members { NamesNone words.now.members.now → result ≡ NotUnderstood }
{
    match print_asked(alloc, plan, words, output) {
        Ok(()) => Status::Done,
        Err(refusal) => refusal.told(errors),
    }
}
