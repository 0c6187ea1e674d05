//! What is told of a lease as lines, each with its line's end.

ghost use Rattle.std.specs.Prelude.{◌≡◌, ◌≢◌, IfOk, string_bytes};
ghost use Rattle.map_stats.specs.FlowTexts.{flow_head, requests_line, fraction, delays_line, waits_line, windows_line};
ghost use Rattle.map_stats.specs.FlowTexts.{flow_lines};

use crate::rows::FlowRow;
use crate::summary::{Delays, Summary, Waits};
use crate::texts::first_words;
use plan_account::why_name;
use std::alloc::{AllocError, Global};

fn head(alloc: Global, lease: u128) -> Result<String, AllocError>
    ensures { IfOk result (λ text. string_bytes text ≡ flow_head lease) }
{
    let channel = lease / (1 << 80);
    let sid = lease / (1 << 64) % (1 << 16);
    let first = first_words(alloc, lease % (1 << 64))?;
    format!(in alloc; "channel {channel} sid {sid}{first}")
}

fn requests_line(alloc: Global, lease: u128, summary: &Summary) -> Result<String, AllocError>
    ensures { IfOk result (λ text. string_bytes text ≡ requests_line lease summary.now) }
{
    let asked = summary.asked;
    if asked == 0 {
        return Ok(String::new(alloc));
    }
    let head = head(alloc, lease)?;
    let granted = summary.delays.count;
    let waiting = summary.waiting();
    let gone = summary.gone();
    format!(in alloc; "{head} requests {asked} granted {granted} waiting {waiting} gone {gone}\n")
}

/// A fraction in decimal, rounded down to hundredths, as `3.50`. The count isn't 0.
pub fn fraction(alloc: Global, whole: u64, count: u64) -> Result<String, AllocError>
    requires { count ≢ 0 }
    ensures { IfOk result (λ text. string_bytes text ≡ fraction whole count) }
{
    let units = whole / count;
    let left = u128::from(whole % count);
    let tenths = left * 10 / u128::from(count);
    let hundredths = left * 100 / u128::from(count) % 10;
    format!(in alloc; "{units}.{tenths}{hundredths}")
}

fn delays_line(alloc: Global, lease: u128, delays: &Delays) -> Result<String, AllocError>
    ensures { IfOk result (λ text. string_bytes text ≡ delays_line lease delays.now) }
{
    let Delays {
        count,
        sum,
        most,
        longest,
    } = *delays;
    if count == 0 {
        return Ok(String::new(alloc));
    }
    let head = head(alloc, lease)?;
    let mean = fraction(alloc, sum, count)?;
    format!(in alloc; "{head} delay mean {mean} p99 {most} longest {longest}\n")
}

fn waits_line(alloc: Global, lease: u128, waits: Option<Waits>) -> Result<String, AllocError>
    ensures { IfOk result (λ text. string_bytes text ≡ waits_line lease waits) }
{
    let Some(Waits { n, sent, why }) = waits else {
        return Ok(String::new(alloc));
    };
    let head = head(alloc, lease)?;
    let why = why_name(why);
    format!(in alloc; "{head} waits {n} sent {sent} {why}\n")
}

fn windows_line(alloc: Global, lease: u128, summary: &Summary) -> Result<String, AllocError>
    ensures { IfOk result (λ text. string_bytes text ≡ windows_line lease summary.now) }
{
    let windows = summary.windows;
    if windows == 0 {
        return Ok(String::new(alloc));
    }
    let head = head(alloc, lease)?;
    let missed = summary.missed;
    format!(in alloc; "{head} windows {windows} missed {missed}\n")
}

/// The lines of a lease: its requests, their delays, the one that waits, its windows.
pub fn flow_text(alloc: Global, row: &FlowRow) -> Result<String, AllocError>
    ensures { IfOk result (λ text. string_bytes text ≡ flow_lines row.now) }
{
    let FlowRow { lease, summary } = *row;
    let requests = requests_line(alloc, lease, &summary)?;
    let delays = delays_line(alloc, lease, &summary.delays)?;
    let waits = waits_line(alloc, lease, summary.waits)?;
    let windows = windows_line(alloc, lease, &summary)?;
    let asked = format!(in alloc; "{requests}{delays}")?;
    let later = format!(in alloc; "{waits}{windows}")?;
    format!(in alloc; "{asked}{later}")
}
