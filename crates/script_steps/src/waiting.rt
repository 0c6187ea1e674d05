//! The numbers of letters that wait, one after another.

ghost use Rattle.std.specs.Prelude.{◌≡◌, ◌-◌, ◌++◌, filter, find, not, slice_get, IfOk, OnOk, OnErr};
ghost use Rattle.std.specs.List.{range_with_len};
ghost use Rattle.script_steps.specs.Kept.{is_waiting};
ghost use Rattle.script_steps.specs.Names.{fits_at};
ghost use Rattle.script_steps.specs.Plain.{fits_any};

use crate::kept::{Sent, fits_at};
use crate::name::Name;
use ballots::Letter;
use std::alloc::{AllocError, Global};

/// The numbers from one on and below another.
fn numbers(alloc: Global, from: usize, to: usize) -> Result<Vec<usize>, AllocError>
    ensures { IfOk result (λ numbers. numbers.items ≡ range_with_len from (to - from)) }
{
    let mut numbers = Vec::new(alloc);
    for i in from..to {
        numbers.push(i)?;
    }
    Ok(numbers)
}

/// Adds the numbers from one on and below another, all of them or none.
pub(crate) fn add_numbers(
    alloc: Global,
    waiting: &mut Vec<usize>,
    from: usize,
    to: usize,
) -> Result<(), AllocError>
    ensures ok { OnOk result (waiting.new.items ≡ waiting.old.items ++ range_with_len from (to - from)) }
    ensures err { OnErr result (waiting.new.items ≡ waiting.old.items) }
{
    let mut more = numbers(alloc, from, to)?;
    waiting.append(&mut more)
}

/// Whether the letter of this number was sent and hasn't come.
pub(crate) fn is_waiting(sent: &[Sent], i: usize) -> bool
    ensures { result ≡ is_waiting (slice_get sent.now i) }
{
    match sent.get(i) {
        Some(letter) => !letter.came,
        None => false,
    }
}

/// Takes the numbers of letters out that don't wait.
pub(crate) fn take_out(waiting: &mut Vec<usize>, sent: &[Sent])
    ensures { waiting.new.items ≡ filter (λ i. is_waiting (slice_get sent.now i)) waiting.old.items }
{
    waiting.retain(|i| is_waiting(sent, *i));
}

/// The first of these letters that has all that is named.
pub(crate) fn first_listed(numbers: &[usize], name: &Name, letters: &[Letter]) -> Option<usize>
    ensures { result ≡ find (fits_at name.now letters.now) numbers.now }
{
    numbers
        .iter()
        .find(|i| fits_at(name, letters, **i))
        .copied()
}

/// Whether the letter of this number, if it was sent, has all that one of these names.
fn fits_any(except: &[Name], letters: &[Letter], i: usize) -> bool
    ensures { result ≡ fits_any except.now letters.now i }
{
    except.iter().any(|name| fits_at(name, letters, i))
}

/// Those of these letters that have all of none of these names.
pub(crate) fn without(
    alloc: Global,
    numbers: &[usize],
    except: &[Name],
    letters: &[Letter],
) -> Result<Vec<usize>, AllocError>
    ensures { IfOk result (λ left. left.items ≡ filter (λ i. not (fits_any except.now letters.now i)) numbers.now) }
{
    let mut left = numbers.to_vec(alloc)?;
    left.retain(|i| !fits_any(except, letters, *i));
    Ok(left)
}
