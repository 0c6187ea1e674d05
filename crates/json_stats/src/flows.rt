//! What is told of a lease as objects, each without its line's end.

ghost use Rattle.std.specs.Prelude.{◌≡◌, ◌≢◌, IfOk, OnOk, map, string_bytes};
ghost use Rattle.std.specs.List.{AllZip};
ghost use Rattle.serde_json.specs.View.{view, members_view};
ghost use Rattle.json_outputs.specs.Texts.{IsTextOf};
ghost use Rattle.json_stats.specs.Flows.{flow_members, requests_data, delays_data, waits_data, windows_data};
ghost use Rattle.json_stats.specs.Flows.{requests_row, delays_row, waits_row, windows_row, flow_data, AddsTexts};

use crate::tallies::put_first;
use json_outputs::{put_number, put_text, put_time, text_of};
use map_stats::{Delays, FlowRow, Summary, Waits, fraction};
use plan_account::why_name;
use serde_json::{Map, Value};
use std::alloc::{AllocError, Global};

/// What each object of a lease begins with: what it tells, and whose it is.
fn flow_map(alloc: Global, lease: u128, row: &str) -> Result<Map<String, Value>, AllocError>
    ensures { IfOk result (λ map. members_view map.entries ≡ flow_members row.now lease) }
{
    let mut map = Map::new(alloc);
    put_text(&mut map, alloc, "row", row)?;
    put_number(&mut map, alloc, "channel", (lease / (1 << 80)) as u64)?;
    put_number(
        &mut map,
        alloc,
        "sid",
        (lease / (1 << 64) % (1 << 16)) as u64,
    )?;
    put_first(&mut map, alloc, (lease % (1 << 64)) as u64)?;
    Ok(map)
}

fn requests_value(alloc: Global, lease: u128, summary: &Summary) -> Result<Value, AllocError>
    ensures { IfOk result (λ value. view value ≡ requests_data lease summary.now) }
{
    let mut map = flow_map(alloc, lease, "requests")?;
    put_number(&mut map, alloc, "requests", summary.asked)?;
    put_number(&mut map, alloc, "granted", summary.delays.count)?;
    put_number(&mut map, alloc, "waiting", summary.waiting())?;
    put_number(&mut map, alloc, "gone", summary.gone())?;
    Ok(Value::Object(map))
}

fn requests_text(alloc: Global, lease: u128, summary: &Summary) -> Result<String, AllocError>
    ensures { IfOk result (λ text. IsTextOf (requests_data lease summary.now) (string_bytes text)) }
{
    let value = requests_value(alloc, lease, summary)?;
    text_of(alloc, &value)
}

fn delays_value(alloc: Global, lease: u128, delays: &Delays) -> Result<Value, AllocError>
    requires { delays.now.count ≢ 0 }
    ensures { IfOk result (λ value. view value ≡ delays_data lease delays.now) }
{
    let mean = fraction(alloc, delays.sum, delays.count)?;
    let mut map = flow_map(alloc, lease, "delay")?;
    put_text(&mut map, alloc, "mean", mean.as_str())?;
    put_time(&mut map, alloc, "p99", delays.most)?;
    put_time(&mut map, alloc, "longest", delays.longest)?;
    Ok(Value::Object(map))
}

fn delays_text(alloc: Global, lease: u128, delays: &Delays) -> Result<String, AllocError>
    requires { delays.now.count ≢ 0 }
    ensures { IfOk result (λ text. IsTextOf (delays_data lease delays.now) (string_bytes text)) }
{
    let value = delays_value(alloc, lease, delays)?;
    text_of(alloc, &value)
}

fn waits_value(alloc: Global, lease: u128, waits: Waits) -> Result<Value, AllocError>
    ensures { IfOk result (λ value. view value ≡ waits_data lease waits) }
{
    let mut map = flow_map(alloc, lease, "waits")?;
    put_number(&mut map, alloc, "minislots", u64::from(waits.n))?;
    put_time(&mut map, alloc, "sent", waits.sent)?;
    put_text(&mut map, alloc, "why", why_name(waits.why))?;
    Ok(Value::Object(map))
}

fn waits_text(alloc: Global, lease: u128, waits: Waits) -> Result<String, AllocError>
    ensures { IfOk result (λ text. IsTextOf (waits_data lease waits) (string_bytes text)) }
{
    let value = waits_value(alloc, lease, waits)?;
    text_of(alloc, &value)
}

fn windows_value(alloc: Global, lease: u128, summary: &Summary) -> Result<Value, AllocError>
    ensures { IfOk result (λ value. view value ≡ windows_data lease summary.now) }
{
    let mut map = flow_map(alloc, lease, "windows")?;
    put_number(&mut map, alloc, "windows", summary.windows)?;
    put_number(&mut map, alloc, "missed", summary.missed)?;
    Ok(Value::Object(map))
}

fn windows_text(alloc: Global, lease: u128, summary: &Summary) -> Result<String, AllocError>
    ensures { IfOk result (λ text. IsTextOf (windows_data lease summary.now) (string_bytes text)) }
{
    let value = windows_value(alloc, lease, summary)?;
    text_of(alloc, &value)
}

/// Adds what is told of the requests, where there were some.
fn add_requests(
    alloc: Global,
    texts: &mut Vec<String>,
    lease: u128,
    summary: &Summary,
) -> Result<(), AllocError>
    ensures { OnOk result (AddsTexts (requests_row lease summary.now) texts.old.items texts.new.items) }
{
    if summary.asked == 0 {
        return Ok(());
    }
    texts.push(requests_text(alloc, lease, summary)?)?;
    Ok(())
}

/// Adds what is told of the delays, where there were some.
fn add_delays(
    alloc: Global,
    texts: &mut Vec<String>,
    lease: u128,
    delays: &Delays,
) -> Result<(), AllocError>
    ensures { OnOk result (AddsTexts (delays_row lease delays.now) texts.old.items texts.new.items) }
{
    if delays.count == 0 {
        return Ok(());
    }
    texts.push(delays_text(alloc, lease, delays)?)?;
    Ok(())
}

/// Adds what is told of the request that waits, if one does.
fn add_waits(
    alloc: Global,
    texts: &mut Vec<String>,
    lease: u128,
    waits: Option<Waits>,
) -> Result<(), AllocError>
    ensures { OnOk result (AddsTexts (waits_row lease waits) texts.old.items texts.new.items) }
{
    let Some(waits) = waits else {
        return Ok(());
    };
    texts.push(waits_text(alloc, lease, waits)?)?;
    Ok(())
}

/// Adds what is told of the windows, where some have passed.
fn add_windows(
    alloc: Global,
    texts: &mut Vec<String>,
    lease: u128,
    summary: &Summary,
) -> Result<(), AllocError>
    ensures { OnOk result (AddsTexts (windows_row lease summary.now) texts.old.items texts.new.items) }
{
    if summary.windows == 0 {
        return Ok(());
    }
    texts.push(windows_text(alloc, lease, summary)?)?;
    Ok(())
}

/// The objects of a lease: its requests, their delays, the one that waits, its windows; each where there is one.
pub fn flow_texts(alloc: Global, row: &FlowRow) -> Result<Vec<String>, AllocError>
    ensures { IfOk result (λ texts. AllZip IsTextOf (flow_data row.now) (map string_bytes texts.items)) }
{
    let FlowRow { lease, summary } = *row;
    let mut texts = Vec::new(alloc);
    add_requests(alloc, &mut texts, lease, &summary)?;
    add_delays(alloc, &mut texts, lease, &summary.delays)?;
    add_waits(alloc, &mut texts, lease, summary.waits)?;
    add_windows(alloc, &mut texts, lease, &summary)?;
    Ok(texts)
}
