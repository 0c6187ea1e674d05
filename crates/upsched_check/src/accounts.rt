//! The account of commands: what one scheduler does by them.

ghost use Rattle.std.specs.Prelude.{◌≡◌, ◌∷◌, ◌++◌, [], List, IfErr, IfOk, OnOk};
ghost use Rattle.grant_machine.specs.Steps.{step};
ghost use Rattle.grant_machine.specs.Runs.{outputs_of, IsReached};
ghost use Rattle.plan_account.specs.declared.deed.Deed.{Deed};
ghost use Rattle.plan_account.specs.Accounts.{IsAccount};
ghost use Rattle.plan_account.specs.Deeds.{AreDeeds, IsDeedOf};
ghost use Rattle.plan_account.specs.FlowsHeld.{HoldsFlows};
ghost use Rattle.upsched_ends.specs.declared.fault.Fault.TheVariants.{Memory};

use crate::captures::answer_of;
use grant_machine::{Command, Machine};
use map_body::MapFault;
use plan_account::{Account, Deed, Flows, deed_of};
use std::alloc::Global;
use upsched_ends::Fault;

/// What is told of a MAP that isn't read. Bytes that are no body come from no scheduler.
fn not_read<'a>(fault: MapFault) -> Fault<'a>
    ensures { fault ≡ MapFault.OutOfMemory → result ≡ Memory }
{
    match fault {
        MapFault::OutOfMemory => Fault::Memory,
        other => Fault::Body {
            number: other.number(),
            fault: other,
        },
    }
}

/// Applies a command: what it did.
pub(crate) fn deed_done<'a>(
    alloc: Global,
    machine: &mut Machine,
    command: &Command,
) -> Result<Deed, Fault<'a>>
    requires { IsReached machine.old }
    ensures deed { IfOk result (IsDeedOf command.now (step machine.old command.now).output) }
    ensures rows { OnOk result (machine.new ≡ (step machine.old command.now).rows) }
    ensures reached { IsReached machine.new }
    ensures fault { IfErr result (λ fault. fault ≡ Memory) }
{
    let answer = answer_of(machine, command)?;
    match deed_of(alloc, command, &answer) {
        Ok(deed) => Ok(deed),
        Err(fault) => Err(not_read(fault)),
    }
}

/// Adds a deed to what has happened to flows.
pub(crate) fn add_deed<'a>(alloc: Global, flows: &mut Flows, deed: &Deed) -> Result<(), Fault<'a>>
    ensures flows { OnOk result ((ds : List Deed) → HoldsFlows ds flows.old → HoldsFlows (ds ++ deed.now ∷ []) flows.new) }
    ensures fault { IfErr result (λ fault. fault ≡ Memory) }
{
    match flows.add(alloc, deed) {
        Ok(()) => Ok(()),
        Err(_) => Err(Fault::Memory),
    }
}

/// What commands did, and what happened to flows.
fn done_by<'a>(alloc: Global, commands: &[Command]) -> Result<(Vec<Deed>, Flows), Fault<'a>>
    ensures deeds { IfOk result (λ done. AreDeeds commands.now (outputs_of commands.now) done.0.items) }
    ensures flows { IfOk result (λ done. HoldsFlows done.0.items done.1) }
    ensures fault { IfErr result (λ fault. fault ≡ Memory) }
{
    let mut machine = Machine::new(alloc);
    let mut deeds = Vec::new(alloc);
    let mut flows = Flows::new(alloc);
    for command in commands {
        let deed = deed_done(alloc, &mut machine, command)?;
        add_deed(alloc, &mut flows, &deed)?;
        let Ok(()) = deeds.push(deed) else {
            return Err(Fault::Memory);
        };
    }
    Ok((deeds, flows))
}

/// The account of commands.
pub(crate) fn account_of<'a>(alloc: Global, commands: &[Command]) -> Result<Account, Fault<'a>>
    ensures account { IfOk result (IsAccount commands.now (outputs_of commands.now)) }
    ensures fault { IfErr result (λ fault. fault ≡ Memory) }
{
    let (deeds, flows) = done_by(alloc, commands)?;
    match Account::new(alloc, deeds, &flows) {
        Ok(account) => Ok(account),
        Err(_) => Err(Fault::Memory),
    }
}
