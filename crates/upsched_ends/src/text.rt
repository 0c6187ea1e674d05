//! What a file says: its text, and the plan or the script that this is.

ghost use Rattle.std.specs.Prelude.{◌≡◌, ◌⊎◌, IfErr, IfOk, IfSome, string_bytes};
ghost use Rattle.script_text.specs.Plan.{IsPlan};
ghost use Rattle.script_text.specs.StepScript.{IsStepScript};
ghost use Rattle.upsched_ends.specs.declared.fault.Fault.TheVariants.{Memory, Unreadable};
ghost use Rattle.upsched_ends.specs.Faults.{TellsPlanFault, TellsStepFault};

use crate::fault::Fault;
use grant_machine::Command;
use script_text::{StepScript, read_plan, read_steps};
use std::alloc::Global;
use std::io::Read;

/// The whole text of the file of this path.
pub fn text_of<'a, R: Read>(alloc: Global, file: &mut R, path: &'a str) -> Result<String, Fault<'a>>
    ensures text { IfOk result (λ text. IfSome (R.remaining file.old) (λ bytes. string_bytes text ≡ bytes)) }
    ensures fault { IfErr result (λ fault. (fault ≡ Memory) ⊎ (fault ≡ Unreadable path.entry)) }
{
    let mut text = String::new(alloc);
    match file.read_to_string(&mut text) {
        Ok(_) => Ok(text),
        Err(error) => Err(Fault::of_reading(&error, path)),
    }
}

/// The commands of the plan that a text is.
pub fn plan_of<'a, R: Read>(
    alloc: Global,
    plan: &mut R,
    path: &'a str,
) -> Result<Vec<Command>, Fault<'a>>
    ensures plan { IfOk result (λ commands. IfSome (R.remaining plan.old) (λ bytes. IsPlan bytes commands.items)) }
    ensures fault { IfErr result (λ fault. (fault ≡ Memory) ⊎ (fault ≡ Unreadable path.entry) ⊎ TellsPlanFault (R.remaining plan.old) fault) }
{
    let text = text_of(alloc, plan, path)?;
    match read_plan(alloc, text.as_str()) {
        Ok(commands) => Ok(commands),
        Err(fault) => Err(Fault::Plan(fault)),
    }
}

/// The script that a text is, whose deliveries may name their letters.
pub fn steps_of<'a, R: Read>(
    alloc: Global,
    script: &mut R,
    path: &'a str,
) -> Result<StepScript, Fault<'a>>
    ensures script { IfOk result (λ read. IfSome (R.remaining script.old) (λ bytes. IsStepScript bytes read.members read.modems.items read.steps.items)) }
    ensures fault { IfErr result (λ fault. (fault ≡ Memory) ⊎ (fault ≡ Unreadable path.entry) ⊎ TellsStepFault (R.remaining script.old) fault) }
{
    let text = text_of(alloc, script, path)?;
    match read_steps(alloc, text.as_str()) {
        Ok(script) => Ok(script),
        Err(fault) => Err(Fault::Script(fault)),
    }
}
