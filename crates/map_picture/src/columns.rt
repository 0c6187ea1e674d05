//! Where the columns of a channel are, and how wide a picture is.

ghost use Rattle.std.specs.Prelude.{◌≡◌, ◌<◌, ◌^◌, max, length, IfOk};
ghost use Rattle.map_picture.specs.Columns.{columns_by, columns_of, gutter, longest_asked, longest_before};
ghost use Rattle.map_picture.specs.Columns.{longest_owner, names_end, OwnersFit};

use crate::asked::{asked_words, before_words};
use crate::axis::{Columns, Span};
use crate::owners::owner_words;
use plan_account::{LeaseRow, RequestRow};
use std::alloc::{AllocError, Global};

/// The more of so many characters and those of words. Words as long as no name is are answered as want of memory.
pub(crate) fn longer(longest: u32, words: &str) -> Result<u32, AllocError>
    requires { longest < 2 ^ 20 }
    ensures value { IfOk result (λ n. n ≡ max longest (length words.now)) }
    ensures small { IfOk result (λ n. n < 2 ^ 20) }
{
    if words.len() >= 1 << 20 {
        return Err(AllocError);
    }
    Ok(longest.max(words.len() as u32))
}

/// The most characters that names of leases have.
fn longest_owner(alloc: Global, rows: &[LeaseRow]) -> Result<u32, AllocError>
    ensures value { IfOk result (λ n. n ≡ longest_owner 0 rows.now) }
    ensures small { IfOk result (λ n. n < 2 ^ 20) }
{
    let mut longest: u32 = 0;
    for row in rows {
        let words = owner_words(alloc, row)?;
        longest = longer(longest, words.as_str())?;
    }
    Ok(longest)
}

/// The most characters that names of requests have, or so many.
fn longest_asked(alloc: Global, least: u32, rows: &[RequestRow]) -> Result<u32, AllocError>
    requires { least < 2 ^ 20 }
    ensures value { IfOk result (λ n. n ≡ longest_asked least rows.now) }
    ensures small { IfOk result (λ n. n < 2 ^ 20) }
{
    let mut longest: u32 = least;
    for row in rows {
        let words = asked_words(alloc, row)?;
        longest = longer(longest, words.as_str())?;
    }
    Ok(longest)
}

/// The most characters of how long before the axis requests were sent.
fn longest_before(alloc: Global, span: Span, rows: &[RequestRow]) -> Result<u32, AllocError>
    ensures value { IfOk result (λ n. n ≡ longest_before span 0 rows.now) }
    ensures small { IfOk result (λ n. n < 2 ^ 20) }
{
    let mut longest: u32 = 0;
    for row in rows {
        let words = before_words(alloc, span, row)?;
        longest = longer(longest, words.as_str())?;
    }
    Ok(longest)
}

fn names_end(longest: u32) -> u32
    requires { longest < 2 ^ 20 }
    ensures { result ≡ names_end longest }
{
    (6 * longest + 6).max(98)
}

fn gutter(longest: u32) -> u32
    requires { longest < 2 ^ 20 }
    ensures { result ≡ gutter longest }
{
    if longest == 0 { 0 } else { 6 * longest + 30 }
}

fn columns_by(names: u32, before: u32) -> Columns
    requires names { names < 2 ^ 20 }
    requires before { before < 2 ^ 20 }
    ensures { result ≡ columns_by names before }
{
    let names = names_end(names);
    let left = names + 6 + gutter(before);
    Columns { names, left }
}

/// The columns of a channel with these leases and requests.
pub(crate) fn columns_of(
    alloc: Global,
    span: Span,
    leases: &[LeaseRow],
    requests: &[RequestRow],
) -> Result<Columns, AllocError>
    ensures { IfOk result (λ columns. columns ≡ columns_of span leases.now requests.now) }
{
    let owners = longest_owner(alloc, leases)?;
    let names = longest_asked(alloc, owners, requests)?;
    let before = longest_before(alloc, span, requests)?;
    Ok(columns_by(names, before))
}

/// No name of a lease begins left of the sheet.
pub fn owners_fit()
    ensures { OwnersFit }
{}
