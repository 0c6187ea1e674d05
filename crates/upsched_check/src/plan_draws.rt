//! `upsched draw PLAN --plan`: the MAPs of a plan as a picture, or with `--text` for a terminal. Commands that are at
//! hand, as those of a run, are drawn likewise.

ghost use Rattle.std.specs.Prelude.{◌≡◌, ◌≢◌, ◌++◌, ◌∷◌, [], ℕ, List, flat_map, IfErr, IfOk, OnOk};
ghost use Rattle.std.specs.Io.KnownBytes.{Appends};
ghost use Rattle.map_text.specs.Texts.{channel_text, plan_text};
ghost use Rattle.upsched_ends.specs.Faults.{StopsPrint};
ghost use Rattle.upsched_ends.specs.declared.status.Status.TheVariants.{Done, NotUnderstood};
ghost use Rattle.script_text.specs.Plan.{NoPlan};
ghost use Rattle.upsched_check.specs.Plans.{IsKnownScript};
ghost use Rattle.map_picture.specs.Pictures.{IsPictureOf};
ghost use Rattle.upsched_check.specs.Draws.{DrawsCommands, DrawsMaps, TellsCommands, TellsMaps};

use crate::accounts::account_of;
use crate::captures::write_bytes;
use crate::plan_words::{Refusal, commands_of};
use grant_machine::Command;
use map_picture::{Sent, picture};
use map_text::channel_text;
use plan_account::{Account, channels_of};
use std::alloc::Global;
use std::io::{Read, Write};
use upsched_ends::{Fault, Status};

/// As many commands as a picture may have: more would not fit into memory.
const MANY: usize = 10_000_000;

/// The words that draw a script's MAPs.
const MAPS_OF_A_SCRIPT: &str = "draw --maps";

fn print_channel<'a, O: Write>(
    alloc: Global,
    account: &Account,
    ch: u8,
    output: &mut O,
) -> Result<(), Fault<'a>>
    ensures printed { OnOk result (Appends (O.contents output.old) (O.contents output.new) (channel_text account.now ch)) }
    ensures fault { IfErr result StopsPrint }
{
    let Ok(text) = channel_text(alloc, account, ch) else {
        return Err(Fault::Memory);
    };
    write_bytes(&text, output)
}

fn print_channels<'a, O: Write>(
    alloc: Global,
    account: &Account,
    channels: &[u8],
    output: &mut O,
) -> Result<(), Fault<'a>>
    ensures printed { OnOk result (Appends (O.contents output.old) (O.contents output.new) (flat_map (channel_text account.now) channels.now)) }
    ensures fault { IfErr result StopsPrint }
{
    for ch in channels {
        print_channel(alloc, account, *ch, output)?;
    }
    Ok(())
}

fn print_account<'a, O: Write>(
    alloc: Global,
    account: &Account,
    output: &mut O,
) -> Result<(), Fault<'a>>
    ensures printed { OnOk result (Appends (O.contents output.old) (O.contents output.new) (plan_text account.now)) }
    ensures fault { IfErr result StopsPrint }
{
    let Ok(channels) = channels_of(alloc, account.deeds()) else {
        return Err(Fault::Memory);
    };
    print_channels(alloc, account, channels.as_slice(), output)?;
    match output.flush() {
        Ok(()) => Ok(()),
        Err(_) => Err(Fault::Output),
    }
}

/// Applies commands to one scheduler and prints its MAPs for a terminal of 100 columns.
pub fn tell_commands<'a, O: Write>(
    alloc: Global,
    commands: &[Command],
    output: &mut O,
) -> Result<(), Fault<'a>>
    ensures told { OnOk result (TellsCommands commands.now (O.contents output.old) (O.contents output.new)) }
    ensures fault { IfErr result StopsPrint }
{
    let account = account_of(alloc, commands)?;
    print_account(alloc, &account, output)
}

fn print_plan<'a, R: Read, O: Write>(
    alloc: Global,
    plan: &mut R,
    path: &'a str,
    output: &mut O,
) -> Result<(), Refusal<'a>>
    ensures told { OnOk result (TellsMaps (R.remaining plan.old) (O.contents output.old) (O.contents output.new)) }
    ensures no_plan { NoPlan (R.remaining plan.old) → output.new ≡ output.old }
    ensures script { IsKnownScript (R.remaining plan.old) → output.new ≡ output.old }
{
    let commands = commands_of(alloc, plan, path)?;
    tell_commands(alloc, commands.as_slice(), output)?;
    Ok(())
}

/// Applies a plan's commands to one scheduler and prints its MAPs for a terminal of 100 columns, and what became of
/// each request. A fault of the plan, and a script without commands, are told in one line before anything is printed.
pub fn draw_text<R: Read, O: Write, E: Write>(
    alloc: Global,
    plan: &mut R,
    path: &str,
    output: &mut O,
    errors: &mut E,
) -> Status
    ensures told { result ≡ Done → TellsMaps (R.remaining plan.old) (O.contents output.old) (O.contents output.new) }
    ensures quiet { result ≡ Done → errors.new ≡ errors.old }
    ensures no_plan { NoPlan (R.remaining plan.old) → output.new ≡ output.old }
    ensures script { IsKnownScript (R.remaining plan.old) → output.new ≡ output.old }
    ensures understood { result ≢ NotUnderstood }
{
    match print_plan(alloc, plan, path, output) {
        Ok(()) => Status::Done,
        Err(refusal) => refusal.told(MAPS_OF_A_SCRIPT, errors),
    }
}

/// The picture of what commands did, and of what modems transmitted, is printed.
fn print_picture<'a, O: Write>(
    alloc: Global,
    account: &Account,
    sent: &[Sent],
    output: &mut O,
) -> Result<(), Fault<'a>>
    ensures printed { OnOk result ((text : List ℕ) × IsPictureOf account.now sent.now text
        × Appends (O.contents output.old) (O.contents output.new) (text ++ 10 ∷ [])) }
    ensures fault { IfErr result StopsPrint }
{
    let (deeds, requests) = (account.deeds().len(), account.requests().len());
    if deeds > MANY || requests > MANY || account.leases().len() > MANY {
        return Err(Fault::Memory);
    }
    let Ok(text) = picture(alloc, account, sent) else {
        return Err(Fault::Memory);
    };
    if writeln!(output, "{text}").is_err() {
        return Err(Fault::Output);
    }
    match output.flush() {
        Ok(()) => Ok(()),
        Err(_) => Err(Fault::Output),
    }
}

/// Applies commands to one scheduler and prints a picture of its MAPs, and of what modems transmitted in them, as an
/// SVG document.
pub fn draw_commands<'a, O: Write>(
    alloc: Global,
    commands: &[Command],
    sent: &[Sent],
    output: &mut O,
) -> Result<(), Fault<'a>>
    ensures drawn { OnOk result (DrawsCommands commands.now sent.now (O.contents output.old) (O.contents output.new)) }
    ensures fault { IfErr result StopsPrint }
{
    let account = account_of(alloc, commands)?;
    print_picture(alloc, &account, sent, output)
}

fn print_drawn<'a, R: Read, O: Write>(
    alloc: Global,
    plan: &mut R,
    path: &'a str,
    output: &mut O,
) -> Result<(), Refusal<'a>>
    ensures told { OnOk result (DrawsMaps (R.remaining plan.old) (O.contents output.old) (O.contents output.new)) }
    ensures no_plan { NoPlan (R.remaining plan.old) → output.new ≡ output.old }
    ensures script { IsKnownScript (R.remaining plan.old) → output.new ≡ output.old }
{
    let commands = commands_of(alloc, plan, path)?;
    draw_commands(alloc, commands.as_slice(), &[], output)?;
    Ok(())
}

/// Applies a plan's commands to one scheduler and prints a picture of its MAPs as an SVG document. A fault of the plan,
/// and a script without commands, are told in one line before anything is printed.
pub fn draw_plan<R: Read, O: Write, E: Write>(
    alloc: Global,
    plan: &mut R,
    path: &str,
    output: &mut O,
    errors: &mut E,
) -> Status
    ensures told { result ≡ Done → DrawsMaps (R.remaining plan.old) (O.contents output.old) (O.contents output.new) }
    ensures quiet { result ≡ Done → errors.new ≡ errors.old }
    ensures no_plan { NoPlan (R.remaining plan.old) → output.new ≡ output.old }
    ensures script { IsKnownScript (R.remaining plan.old) → output.new ≡ output.old }
    ensures understood { result ≢ NotUnderstood }
{
    match print_drawn(alloc, plan, path, output) {
        Ok(()) => Status::Done,
        Err(refusal) => refusal.told(MAPS_OF_A_SCRIPT, errors),
    }
}
