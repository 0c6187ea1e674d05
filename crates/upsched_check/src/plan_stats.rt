//! `upsched stats PLAN`: what the MAPs of a plan give, by channel, use and SID, and how long its requests waited.

ghost use Rattle.std.specs.Prelude.{◌≡◌, ◌≢◌, ◌∷◌, ◌++◌, [], List, IfOk, OnOk, flat_map};
ghost use Rattle.std.specs.Io.KnownBytes.{Appends};
ghost use Rattle.std.specs.Ordering.{nat_cmp};
ghost use Rattle.std.specs.BTreeMap.{IsOrdered};
ghost use Rattle.plan_account.specs.declared.deed.Deed.{Deed};
ghost use Rattle.plan_account.specs.FlowsHeld.{HoldsFlows};
ghost use Rattle.map_stats.specs.FlowTexts.{flow_lines};
ghost use Rattle.map_stats.specs.Held.{Holds};
ghost use Rattle.upsched_ends.specs.declared.status.Status.TheVariants.{Done, NotUnderstood};
ghost use Rattle.script_text.specs.Plan.{NoPlan};
ghost use Rattle.upsched_check.specs.Plans.{IsKnownScript};
ghost use Rattle.upsched_check.specs.Stats.{map_line, use_line, sid_line, whole_of, stats_lines, HoldsBoth, TellsFlows};
ghost use Rattle.upsched_check.specs.Stats.{TellsStats};

use crate::accounts::{add_deed, deed_done};
use crate::plan_words::{Refusal, StatsWords, commands_of};
use grant_machine::{Command, Machine};
use map_stats::{
    FlowRow, SidTallies, Stats, Tallies, Tally, flow_rows, flow_text, map_text, sid_text, use_text,
};
use plan_account::{Deed, Flows, lease_rows, request_rows};
use std::alloc::Global;
use std::io::{Read, Write};
use upsched_ends::{Fault, Status};

/// Adds a deed to the tallies of MAPs, and to what has happened to flows.
fn add_to<'a>(
    alloc: Global,
    stats: &mut Stats,
    flows: &mut Flows,
    deed: &Deed,
) -> Result<(), Fault<'a>>
    ensures stats { OnOk result ((ds : List Deed) → Holds ds stats.old → HoldsFlows ds flows.old → Holds (ds ++ deed.now ∷ []) stats.new) }
    ensures flows { OnOk result ((ds : List Deed) → HoldsFlows ds flows.old → HoldsFlows (ds ++ deed.now ∷ []) flows.new) }
{
    if stats.add(flows, deed).is_err() {
        return Err(Fault::Memory);
    }
    add_deed(alloc, flows, deed)
}

/// The tallies of the MAPs of commands, and what has happened to flows.
pub(crate) fn stats_of<'a>(alloc: Global, commands: &[Command]) -> Result<(Stats, Flows), Fault<'a>>
    ensures { IfOk result (λ told. HoldsBoth commands.now told.0 told.1) }
{
    let mut machine = Machine::new(alloc);
    let mut stats = Stats::new(alloc);
    let mut flows = Flows::new(alloc);
    for command in commands {
        let deed = deed_done(alloc, &mut machine, command)?;
        add_to(alloc, &mut stats, &mut flows, &deed)?;
    }
    Ok((stats, flows))
}

/// What is told of each lease.
pub(crate) fn rows_of<'a>(alloc: Global, flows: &Flows) -> Result<Vec<FlowRow>, Fault<'a>>
    ensures { IfOk result (λ rows. (ds : List Deed) → HoldsFlows ds flows.now → TellsFlows ds rows.items) }
{
    let Ok(requests) = request_rows(alloc, flows) else {
        return Err(Fault::Memory);
    };
    let Ok(leases) = lease_rows(alloc, flows) else {
        return Err(Fault::Memory);
    };
    match flow_rows(alloc, &requests, &leases) {
        Ok(rows) => Ok(rows),
        Err(_) => Err(Fault::Memory),
    }
}

fn print_map<'a, O: Write>(
    alloc: Global,
    key: u32,
    tally: &Tally,
    output: &mut O,
) -> Result<(), Fault<'a>>
    ensures { OnOk result (Appends (O.contents output.old) (O.contents output.new) (map_line (key, tally.now))) }
{
    let text = map_text(alloc, key, tally)?;
    writeln!(output, "{text}")?;
    Ok(())
}

fn print_maps<'a, O: Write>(alloc: Global, maps: &Tallies, output: &mut O) -> Result<(), Fault<'a>>
    ensures { OnOk result (Appends (O.contents output.old) (O.contents output.new) (flat_map map_line maps.now.entries)) }
{
    for (key, tally) in maps {
        print_map(alloc, *key, tally, output)?;
    }
    Ok(())
}

/// How many minislots the MAPs of a channel have.
pub(crate) fn whole_of(maps: &Tallies, channel: u32) -> u64
    ensures { result ≡ whole_of maps.now.entries channel }
{
    match maps.get(&channel) {
        Some(tally) => tally.minislots,
        None => 0,
    }
}

fn print_use<'a, O: Write>(
    alloc: Global,
    maps: &Tallies,
    key: u32,
    tally: &Tally,
    output: &mut O,
) -> Result<(), Fault<'a>>
    ensures { OnOk result (Appends (O.contents output.old) (O.contents output.new) (use_line maps.now.entries (key, tally.now))) }
{
    let text = use_text(alloc, key, tally, whole_of(maps, key / 16))?;
    writeln!(output, "{text}")?;
    Ok(())
}

fn print_uses<'a, O: Write>(
    alloc: Global,
    maps: &Tallies,
    uses: &Tallies,
    output: &mut O,
) -> Result<(), Fault<'a>>
    ensures { OnOk result (Appends (O.contents output.old) (O.contents output.new) (flat_map (use_line maps.now.entries) uses.now.entries)) }
{
    for (key, tally) in uses {
        print_use(alloc, maps, *key, tally, output)?;
    }
    Ok(())
}

fn print_sid<'a, O: Write>(
    alloc: Global,
    key: u128,
    tally: &Tally,
    output: &mut O,
) -> Result<(), Fault<'a>>
    ensures { OnOk result (Appends (O.contents output.old) (O.contents output.new) (sid_line (key, tally.now))) }
{
    let text = sid_text(alloc, key, tally)?;
    writeln!(output, "{text}")?;
    Ok(())
}

fn print_sids<'a, O: Write>(
    alloc: Global,
    sids: &SidTallies,
    output: &mut O,
) -> Result<(), Fault<'a>>
    ensures { OnOk result (Appends (O.contents output.old) (O.contents output.new) (flat_map sid_line sids.now.entries)) }
{
    for (key, tally) in sids {
        print_sid(alloc, *key, tally, output)?;
    }
    Ok(())
}

fn print_flow<'a, O: Write>(alloc: Global, row: &FlowRow, output: &mut O) -> Result<(), Fault<'a>>
    ensures { OnOk result (Appends (O.contents output.old) (O.contents output.new) (flow_lines row.now)) }
{
    let text = flow_text(alloc, row)?;
    write!(output, "{text}")?;
    Ok(())
}

fn print_flows<'a, O: Write>(
    alloc: Global,
    rows: &[FlowRow],
    output: &mut O,
) -> Result<(), Fault<'a>>
    ensures { OnOk result (Appends (O.contents output.old) (O.contents output.new) (flat_map flow_lines rows.now)) }
{
    for row in rows {
        print_flow(alloc, row, output)?;
    }
    Ok(())
}

/// The keys of a table ascend.
pub(crate) fn in_order(tallies: &Tallies)
    ensures { IsOrdered nat_cmp tallies.now }
{
    let _count = tallies.len();
}

/// The same of one of SIDs.
pub(crate) fn sids_in_order(tallies: &SidTallies)
    ensures { IsOrdered nat_cmp tallies.now }
{
    let _count = tallies.len();
}

fn print_tallies<'a, O: Write>(
    alloc: Global,
    stats: &Stats,
    rows: &[FlowRow],
    output: &mut O,
) -> Result<(), Refusal<'a>>
    ensures printed { OnOk result (Appends (O.contents output.old) (O.contents output.new)
        (stats_lines stats.now.maps.entries stats.now.uses.entries stats.now.sids.entries rows.now)) }
    ensures in_order { IsOrdered nat_cmp stats.now.maps × IsOrdered nat_cmp stats.now.uses × IsOrdered nat_cmp stats.now.sids }
{
    in_order(&stats.maps);
    in_order(&stats.uses);
    sids_in_order(&stats.sids);
    print_maps(alloc, &stats.maps, output)?;
    print_uses(alloc, &stats.maps, &stats.uses, output)?;
    print_sids(alloc, &stats.sids, output)?;
    print_flows(alloc, rows, output)?;
    match output.flush() {
        Ok(()) => Ok(()),
        Err(_) => Err(Refusal::Fault(Fault::Output)),
    }
}

fn print_stats<'a, R: Read, O: Write>(
    alloc: Global,
    plan: &mut R,
    path: &'a str,
    output: &mut O,
) -> Result<(), Refusal<'a>>
    ensures told { OnOk result (TellsStats (R.remaining plan.old) (O.contents output.old) (O.contents output.new)) }
    ensures no_plan { NoPlan (R.remaining plan.old) → output.new ≡ output.old }
    ensures script { IsKnownScript (R.remaining plan.old) → output.new ≡ output.old }
{
    let commands = commands_of(alloc, plan, path)?;
    let told = stats_of(alloc, commands.as_slice())?;
    let rows = rows_of(alloc, &told.1)?;
    print_tallies(alloc, &told.0, rows.as_slice(), output)
}

/// Applies a plan's commands to one scheduler and prints what its MAPs give: by channel, by use on each channel, by
/// SID, its lease and use, and then what is told of each lease. A fault of the plan, and a script without commands, are
/// told in one line before anything is printed.
pub fn stats<R: Read, O: Write, E: Write>(
    alloc: Global,
    plan: &mut R,
    words: &StatsWords<'_>,
    output: &mut O,
    errors: &mut E,
) -> Status
    ensures told { result ≡ Done → TellsStats (R.remaining plan.old) (O.contents output.old) (O.contents output.new) }
    ensures quiet { result ≡ Done → errors.new ≡ errors.old }
    ensures no_plan { NoPlan (R.remaining plan.old) → output.new ≡ output.old }
    ensures script { IsKnownScript (R.remaining plan.old) → output.new ≡ output.old }
    ensures understood { result ≢ NotUnderstood }
{
    match print_stats(alloc, plan, words.plan, output) {
        Ok(()) => Status::Done,
        Err(refusal) => refusal.told("run", errors),
    }
}
