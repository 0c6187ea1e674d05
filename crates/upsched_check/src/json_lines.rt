//! `upsched stats PLAN --json`: the rows of `stats` as JSON, an object a line.

ghost use Rattle.std.specs.Prelude.{◌≡◌, ◌≢◌, map, string_bytes, OnOk};
ghost use Rattle.std.specs.Io.KnownBytes.{Appends};
ghost use Rattle.std.specs.List.{flat_map};
ghost use Rattle.std.specs.Ordering.{nat_cmp};
ghost use Rattle.std.specs.BTreeMap.{IsOrdered};
ghost use Rattle.json_stats.specs.Flows.{flow_data};
ghost use Rattle.upsched_ends.specs.declared.status.Status.TheVariants.{Done, NotUnderstood};
ghost use Rattle.script_text.specs.Plan.{NoPlan};
ghost use Rattle.upsched_json.specs.Lines.{PrintsValue};
ghost use Rattle.upsched_json.specs.Plans.{text_lines};
ghost use Rattle.upsched_check.specs.Plans.{IsKnownScript};
ghost use Rattle.upsched_check.specs.StatsAsJson.{map_value, use_value, sid_value, stats_data, PrintsValues};
ghost use Rattle.upsched_check.specs.StatsAsJson.{TellsStatsAsJson};

use crate::plan_stats::{in_order, rows_of, sids_in_order, stats_of, whole_of};
use crate::plan_words::{Refusal, StatsWords, commands_of};
use json_stats::{flow_texts, map_text, sid_text, use_text};
use map_stats::{FlowRow, SidTallies, Stats, Tallies, Tally};
use std::alloc::Global;
use std::io::{Read, Write};
use upsched_ends::{Fault, Status};
use upsched_json::print_line;

fn print_map<'a, O: Write>(
    alloc: Global,
    key: u32,
    tally: &Tally,
    output: &mut O,
) -> Result<(), Fault<'a>>
    ensures { OnOk result (PrintsValue (map_value (key, tally.now)) (O.contents output.old) (O.contents output.new)) }
{
    let text = map_text(alloc, key, tally)?;
    print_line(text.as_str(), output)
}

fn print_maps<'a, O: Write>(alloc: Global, maps: &Tallies, output: &mut O) -> Result<(), Fault<'a>>
    ensures { OnOk result (PrintsValues (map map_value maps.now.entries) (O.contents output.old) (O.contents output.new)) }
{
    for (key, tally) in maps {
        print_map(alloc, *key, tally, output)?;
    }
    Ok(())
}

fn print_use<'a, O: Write>(
    alloc: Global,
    maps: &Tallies,
    key: u32,
    tally: &Tally,
    output: &mut O,
) -> Result<(), Fault<'a>>
    ensures { OnOk result (PrintsValue (use_value maps.now.entries (key, tally.now)) (O.contents output.old) (O.contents output.new)) }
{
    let text = use_text(alloc, key, tally, whole_of(maps, key / 16))?;
    print_line(text.as_str(), output)
}

fn print_uses<'a, O: Write>(
    alloc: Global,
    maps: &Tallies,
    uses: &Tallies,
    output: &mut O,
) -> Result<(), Fault<'a>>
    ensures { OnOk result (PrintsValues (map (use_value maps.now.entries) uses.now.entries) (O.contents output.old) (O.contents output.new)) }
{
    for (key, tally) in uses {
        print_use(alloc, maps, *key, tally, output)?;
    }
    Ok(())
}

fn print_sid<'a, O: Write>(
    alloc: Global,
    key: u128,
    tally: &Tally,
    output: &mut O,
) -> Result<(), Fault<'a>>
    ensures { OnOk result (PrintsValue (sid_value (key, tally.now)) (O.contents output.old) (O.contents output.new)) }
{
    let text = sid_text(alloc, key, tally)?;
    print_line(text.as_str(), output)
}

fn print_sids<'a, O: Write>(
    alloc: Global,
    sids: &SidTallies,
    output: &mut O,
) -> Result<(), Fault<'a>>
    ensures { OnOk result (PrintsValues (map sid_value sids.now.entries) (O.contents output.old) (O.contents output.new)) }
{
    for (key, tally) in sids {
        print_sid(alloc, *key, tally, output)?;
    }
    Ok(())
}

fn print_texts<'a, O: Write>(texts: &[String], output: &mut O) -> Result<(), Fault<'a>>
    ensures { OnOk result (Appends (O.contents output.old) (O.contents output.new) (text_lines (map string_bytes texts.now))) }
{
    for text in texts {
        print_line(text.as_str(), output)?;
    }
    Ok(())
}

fn print_flow<'a, O: Write>(alloc: Global, row: &FlowRow, output: &mut O) -> Result<(), Fault<'a>>
    ensures { OnOk result (PrintsValues (flow_data row.now) (O.contents output.old) (O.contents output.new)) }
{
    let texts = flow_texts(alloc, row)?;
    print_texts(texts.as_slice(), output)
}

fn print_flows<'a, O: Write>(
    alloc: Global,
    rows: &[FlowRow],
    output: &mut O,
) -> Result<(), Fault<'a>>
    ensures { OnOk result (PrintsValues (flat_map flow_data rows.now) (O.contents output.old) (O.contents output.new)) }
{
    for row in rows {
        print_flow(alloc, row, output)?;
    }
    Ok(())
}

fn print_rows<'a, O: Write>(
    alloc: Global,
    stats: &Stats,
    rows: &[FlowRow],
    output: &mut O,
) -> Result<(), Fault<'a>>
    ensures printed { OnOk result (PrintsValues (stats_data stats.now.maps.entries stats.now.uses.entries stats.now.sids.entries rows.now)
        (O.contents output.old) (O.contents output.new)) }
    ensures in_order { IsOrdered nat_cmp stats.now.maps × IsOrdered nat_cmp stats.now.uses × IsOrdered nat_cmp stats.now.sids }
{
    in_order(&stats.maps);
    in_order(&stats.uses);
    sids_in_order(&stats.sids);
    print_maps(alloc, &stats.maps, output)?;
    print_uses(alloc, &stats.maps, &stats.uses, output)?;
    print_sids(alloc, &stats.sids, output)?;
    print_flows(alloc, rows, output)?;
    output.flush()?;
    Ok(())
}

fn print_stats<'a, R: Read, O: Write>(
    alloc: Global,
    plan: &mut R,
    path: &'a str,
    output: &mut O,
) -> Result<(), Refusal<'a>>
    ensures told { OnOk result (TellsStatsAsJson (R.remaining plan.old) (O.contents output.old) (O.contents output.new)) }
    ensures no_plan { NoPlan (R.remaining plan.old) → output.new ≡ output.old }
    ensures script { IsKnownScript (R.remaining plan.old) → output.new ≡ output.old }
{
    let commands = commands_of(alloc, plan, path)?;
    let told = stats_of(alloc, commands.as_slice())?;
    let rows = rows_of(alloc, &told.1)?;
    print_rows(alloc, &told.0, rows.as_slice(), output)?;
    Ok(())
}

/// Prints what `stats` prints of a plan as JSON: an object for each of its lines, in the same order. Faults are those of
/// `stats`, and told in the same line.
pub fn stats_as_json<R: Read, O: Write, E: Write>(
    alloc: Global,
    plan: &mut R,
    words: &StatsWords<'_>,
    output: &mut O,
    errors: &mut E,
) -> Status
    ensures told { result ≡ Done → TellsStatsAsJson (R.remaining plan.old) (O.contents output.old) (O.contents output.new) }
    ensures quiet { result ≡ Done → errors.new ≡ errors.old }
    ensures no_plan { NoPlan (R.remaining plan.old) → output.new ≡ output.old }
    ensures script { IsKnownScript (R.remaining plan.old) → output.new ≡ output.old }
    ensures understood { result ≢ NotUnderstood }
{
    match print_stats(alloc, plan, words.plan, output) {
        Ok(()) => Status::Done,
        Err(refusal) => refusal.told("run", errors),
    }
}
