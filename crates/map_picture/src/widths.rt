//! How wide a picture is. No promise speaks of it.

ghost use Rattle.std.specs.Prelude.{◌<◌, ◌^◌, IfOk};

use crate::asked::ended_words;
use crate::axis::{right, span_of};
use crate::columns::{columns_of, longer};
use crate::owners::flow_words;
use crate::picked::{leases_on, maps_on, requests_on};
use crate::rows::strip_text;
use plan_account::{Account, Deed, LeaseRow, RequestRow};
use std::alloc::{AllocError, Global};

/// What each picture has room for: its legend, and words of some length on the right.
const LEAST: u64 = 1082;

/// The most characters that words have on the right of leases.
fn longest_flow(alloc: Global, rows: &[LeaseRow]) -> Result<u32, AllocError>
    ensures { IfOk result (λ n. n < 2 ^ 20) }
{
    let mut longest: u32 = 0;
    for row in rows {
        let words = flow_words(alloc, row)?;
        longest = longer(longest, words.as_str())?;
    }
    Ok(longest)
}

/// The same of requests.
fn longest_ended(alloc: Global, rows: &[RequestRow]) -> Result<u32, AllocError>
    ensures { IfOk result (λ n. n < 2 ^ 20) }
{
    let mut longest: u32 = 0;
    for row in rows {
        let words = ended_words(alloc, row)?;
        longest = longer(longest, words.as_str())?;
    }
    Ok(longest)
}

/// The same of the MAP that deed `i` is, if it is one.
fn longer_map(alloc: Global, longest: u32, deeds: &[Deed], i: usize) -> Result<u32, AllocError>
    requires { longest < 2 ^ 20 }
    ensures { IfOk result (λ n. n < 2 ^ 20) }
{
    if i >= 1 << 62 {
        return Err(AllocError);
    }
    let Some(Deed::Map { start, len, .. }) = deeds.get(i) else {
        return Ok(longest);
    };
    let words = strip_text(alloc, i, start.get(), *len)?;
    longer(longest, words.as_str())
}

/// The same of MAPs.
fn longest_map(alloc: Global, deeds: &[Deed], maps: &[usize]) -> Result<u32, AllocError>
    ensures { IfOk result (λ n. n < 2 ^ 20) }
{
    let mut longest: u32 = 0;
    for i in maps {
        longest = longer_map(alloc, longest, deeds, *i)?;
    }
    Ok(longest)
}

/// How far a channel goes to the right.
fn channel_width(alloc: Global, account: &Account, ch: u8) -> Result<u64, AllocError> {
    let deeds = account.deeds();
    let owners = leases_on(alloc, ch, account.leases())?;
    let requests = requests_on(alloc, ch, account.requests())?;
    let maps = maps_on(alloc, ch, deeds)?;
    let columns = columns_of(alloc, span_of(deeds, ch), &owners, &requests)?;
    let flows = longest_flow(alloc, &owners)?;
    let ended = longest_ended(alloc, &requests)?;
    let strips = longest_map(alloc, deeds, &maps)?;
    let longest = flows.max(ended).max(strips);
    Ok(right(columns) + 6 * u64::from(longest) + 16)
}

/// How wide the picture of an account is: as wide as its longest words need it.
pub(crate) fn width_of(
    alloc: Global,
    account: &Account,
    channels: &[u8],
) -> Result<u64, AllocError> {
    let mut width = LEAST;
    for ch in channels {
        width = width.max(channel_width(alloc, account, *ch)?);
    }
    Ok(width)
}
