//! A plan's commands behind those that a scheduler had.

ghost use Rattle.std.specs.Prelude.{◌≡◌, ◌⊎◌, IfErr, OnOk};
ghost use Rattle.script_text.specs.Plan.{NoPlan};
ghost use Rattle.upsched_ends.specs.declared.fault.Fault.TheVariants.{Unreadable};
ghost use Rattle.upsched_ends.specs.Faults.{StopsPrint, TellsPlanFault};
ghost use Rattle.upsched_resume.specs.Resuming.{ResumesPlan};

use grant_machine::Machine;
use std::alloc::Global;
use std::io::{Read, Write};
use upsched_ends::{Fault, plan_of};
use upsched_maps::print_outputs;

/// What `resume` is told.
#[derive(Clone, Copy, Debug)]
pub struct ResumeWords<'a> {
    /// The path of the plan.
    pub plan: &'a str,
    /// The path of the file of tables at which the scheduler begins, if it has some.
    pub from: Option<&'a str>,
    /// The path of the file in which the tables are left, if they are.
    pub to: Option<&'a str>,
}

/// Applies a plan's commands to a scheduler, as it stands, and prints for each its number, from 1 on, and its output. A
/// fault of the plan is found before anything is applied or printed.
pub fn resume<'a, R: Read, O: Write>(
    alloc: Global,
    machine: &mut Machine,
    plan: &mut R,
    path: &'a str,
    output: &mut O,
) -> Result<(), Fault<'a>>
    ensures resumed { OnOk result (ResumesPlan (R.remaining plan.old) machine.old machine.new (O.contents output.old) (O.contents output.new)) }
    ensures no_plan { NoPlan (R.remaining plan.old) → (machine.new ≡ machine.old) × (output.new ≡ output.old) }
    ensures fault { IfErr result (λ fault. StopsPrint fault ⊎ (fault ≡ Unreadable path.entry) ⊎ TellsPlanFault (R.remaining plan.old) fault) }
{
    let commands = plan_of(alloc, plan, path)?;
    print_outputs(alloc, machine, commands.as_slice(), output)
}
