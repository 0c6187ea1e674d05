//! What the words that look into a plan are told, and the plan that they look into.

ghost use Rattle.std.specs.Prelude.{◌≡◌, ◌↔◌, ◌≢◌, IfErr, IfOk, IfSome, true};
ghost use Rattle.upsched_ends.specs.declared.fault.Fault.TheVariants.{Memory};
ghost use Rattle.upsched_ends.specs.declared.status.Status.TheVariants.{Faulted};
ghost use Rattle.script_text.specs.Plan.{IsPlan};
ghost use Rattle.toml.specs.View.{view};
ghost use Rattle.upsched_check.specs.Plans.{is_plan, IsPlanText, IsScriptText, IsScriptAlone};

use crate::form::is_script;
use grant_machine::Command;
use script_text::read_plan;
use std::alloc::Global;
use std::io::{Read, Write};
use toml::Value;
use upsched_ends::{Fault, Status, text_of};

/// What `capture` is told.
#[derive(Clone, Copy, Debug)]
pub struct CaptureWords<'a> {
    /// The path of the plan.
    pub plan: &'a str,
}

/// What `stats` is told.
#[derive(Clone, Copy, Debug)]
pub struct StatsWords<'a> {
    /// The path of the plan.
    pub plan: &'a str,
}

/// Why a plan isn't looked into.
#[derive(Debug, Drop)]
pub(crate) enum Refusal<'a> {
    /// The text of this path is a script without commands.
    Script(&'a str),
    Fault(Fault<'a>),
}

impl<'a> From<Fault<'a>> for Refusal<'a> {
    ghost use Rattle.upsched_check.specs.declared.plan_words.Refusal.TheVariants.{Fault};

    ghost from_gives = { λ fault given. given ≡ Fault fault };

    fn from(fault: Fault<'a>) -> Refusal<'a> {
        Refusal::Fault(fault)
    }
}

impl<'a> Refusal<'a> {
    /// Writes its line, which says of a script what takes it, and gives the status that goes with it.
    pub fn told<E: Write>(&self, taker: &str, errors: &mut E) -> Status
        ensures { result ≡ Faulted }
    {
        match self {
            Refusal::Fault(fault) => fault.told(errors),
            Refusal::Script(path) => {
                let _ = writeln!(
                    errors,
                    "upsched: {path} is a script: upsched {taker} takes it"
                );
                Status::Faulted
            }
        }
    }
}

/// Whether the key of a plan's commands is there, and none of a script's.
fn is_plan(whole: &Value) -> bool
    ensures { result ≡ is_plan (view whole.now) }
{
    whole.get("command").is_some() && !is_script(whole)
}

/// Whether a text is that of a plan, and of no script.
pub fn is_plan_text<'a>(alloc: Global, text: &str) -> Result<bool, Fault<'a>>
    ensures plan { IfOk result (λ is. (is ≡ true) ↔ IsPlanText text.now) }
    ensures fault { IfErr result (λ fault. fault ≡ Memory) }
{
    match toml::table_from_str(alloc, text) {
        Ok(found) => Ok(is_plan(&Value::Table(found))),
        Err(error) if error.is_memory() => Err(Fault::Memory),
        Err(_) => Ok(false),
    }
}

/// Tells that a plan is where a script is due, and what takes it.
pub fn tell_plan<E: Write>(path: &str, errors: &mut E) -> Status
    ensures { result ≡ Faulted }
{
    let _ = writeln!(
        errors,
        "upsched: {path} is a plan: upsched draw --plan takes it"
    );
    Status::Faulted
}

/// Whether a text has a key of a script.
fn is_script_text<'a>(alloc: Global, text: &str) -> Result<bool, Fault<'a>>
    ensures script { IfOk result (λ is. (is ≡ true) ↔ IsScriptText text.now) }
    ensures fault { IfErr result (λ fault. fault ≡ Memory) }
{
    match toml::table_from_str(alloc, text) {
        Ok(found) => Ok(is_script(&Value::Table(found))),
        Err(error) if error.is_memory() => Err(Fault::Memory),
        Err(_) => Ok(false),
    }
}

/// Whether a text that is read as a plan of these commands is a script without commands.
fn is_script_alone<'a>(alloc: Global, text: &str, commands: &[Command]) -> Result<bool, Fault<'a>>
    requires { IsPlan text.now commands.now }
    ensures alone { IfOk result (λ is. (is ≡ true) ↔ IsScriptAlone text.now) }
    ensures fault { IfErr result (λ fault. fault ≡ Memory) }
{
    if commands.is_empty() {
        is_script_text(alloc, text)
    } else {
        Ok(false)
    }
}

fn read_commands<'a>(alloc: Global, text: &str, path: &'a str) -> Result<Vec<Command>, Refusal<'a>>
    ensures plan { IfOk result (λ commands. IsPlan text.now commands.items) }
    ensures script { IfOk result (λ commands. ¬ IsScriptAlone text.now) }
{
    let commands = match read_plan(alloc, text) {
        Ok(commands) => commands,
        Err(fault) => return Err(Refusal::Fault(Fault::Plan(fault))),
    };
    if is_script_alone(alloc, text, commands.as_slice())? {
        return Err(Refusal::Script(path));
    }
    Ok(commands)
}

/// The commands of the plan that a text is. A script without commands is none.
pub(crate) fn commands_of<'a, R: Read>(
    alloc: Global,
    plan: &mut R,
    path: &'a str,
) -> Result<Vec<Command>, Refusal<'a>>
    ensures plan { IfOk result (λ commands. IfSome (R.remaining plan.old) (λ bytes. IsPlan bytes commands.items)) }
    ensures script { IfOk result (λ commands. IfSome (R.remaining plan.old) (λ bytes. ¬ IsScriptAlone bytes)) }
{
    let text = text_of(alloc, plan, path)?;
    let commands = read_commands(alloc, text.as_str(), path)?;
    Ok(commands)
}
