//! What is kept of letters, so that those that wait are found soon.

ghost use Rattle.std.specs.Prelude.{◌≡◌, ◌<◌, ◌-◌, ◌++◌, ◌∷◌, [], All, IfOk, IfSome, OnOk, OnErr, drop, find, get_or};
ghost use Rattle.std.specs.Prelude.{length, map, false};
ghost use Rattle.std.specs.List.{range_with_len};
ghost use Rattle.script_steps.specs.Kept.{IsPassed, waits_at};
ghost use Rattle.script_steps.specs.Names.{about_of, fits_at};

use crate::name::{About, Name, Parts, about_of};
use ballots::Letter;
use std::alloc::{AllocError, Global};

/// A letter that was sent, and whether it came.
#[derive(Clone, Copy, Drop)]
pub(crate) struct Sent {
    pub about: About,
    pub came: bool,
}

/// Of the letters below a number none waits that has these parts.
#[derive(Clone, Copy, Drop)]
pub(crate) struct Passed {
    pub parts: Parts,
    pub below: usize,
}

/// Whether the letter of this number, if it was sent, has all that is named.
pub(crate) fn fits_at(name: &Name, letters: &[Letter], i: usize) -> bool
    ensures { result ≡ fits_at name.now letters.now i }
{
    if i >= letters.len() {
        return false;
    }
    name.fits(&letters[i])
}

/// The letters behind so many first ones.
fn behind(letters: &[Letter], first: usize) -> &[Letter]
    ensures { result.now ≡ drop first letters.now }
{
    let first = first.min(letters.len());
    &letters[first..]
}

/// Letters that were just sent.
fn just_sent(alloc: Global, letters: &[Letter]) -> Result<Vec<Sent>, AllocError>
    ensures { IfOk result (λ sent. sent.items ≡ map (λ l. record { about = about_of l; came = false }) letters.now) }
{
    let mut sent = Vec::new(alloc);
    for letter in letters {
        sent.push(Sent {
            about: about_of(letter),
            came: false,
        })?;
    }
    Ok(sent)
}

/// Adds those of these letters that aren't there yet, all of them or none.
pub(crate) fn add_sent(
    alloc: Global,
    sent: &mut Vec<Sent>,
    letters: &[Letter],
) -> Result<(), AllocError>
    ensures ok { OnOk result (sent.new.items
        ≡ sent.old.items ++ map (λ l. record { about = about_of l; came = false }) (drop (length sent.old.items) letters.now)) }
    ensures err { OnErr result (sent.new.items ≡ sent.old.items) }
{
    let mut more = just_sent(alloc, behind(letters, sent.len()))?;
    sent.append(&mut more)
}

/// Whether the letter of this number, if it was sent, hasn't come and has these parts.
fn waits_at(parts: &Parts, sent: &[Sent], i: usize) -> bool
    ensures { result ≡ waits_at parts.now sent.now i }
{
    if i >= sent.len() {
        return false;
    }
    !sent[i].came && parts.has(&sent[i].about)
}

/// The first letter that waits and has these parts, from a number on.
fn first_waiting(sent: &[Sent], parts: &Parts, from: usize) -> Option<usize>
    ensures { result ≡ find (waits_at parts.now sent.now) (range_with_len from (length sent.now - from)) }
{
    (from..sent.len()).find(|i| waits_at(parts, sent, *i))
}

/// Where what was passed over for these parts is kept.
fn kept_at(passed: &[Passed], parts: &Parts) -> Option<usize>
    ensures within { IfSome result (λ k. k < length passed.now) }
    ensures parts { IfSome result (λ k. (p : Passed) → (get_or passed.now k p).parts ≡ parts.now) }
{
    passed.iter().position(|p| p.parts.are(parts))
}

/// Passes over what doesn't wait, or hasn't these parts, from where that was done before.
fn further(sent: &[Sent], before: Passed) -> Passed
    requires { IsPassed sent.now before }
    ensures parts { result.parts ≡ before.parts }
    ensures passed { IsPassed sent.now result }
{
    let first = first_waiting(sent, &before.parts, before.below);
    Passed {
        parts: before.parts,
        below: first.unwrap_or(sent.len()),
    }
}

/// Passes over what doesn't wait, or hasn't these parts. Below the number that is given none is left.
pub(crate) fn pass_over(
    passed: &mut Vec<Passed>,
    sent: &[Sent],
    parts: Parts,
) -> Result<usize, AllocError>
    requires { All (IsPassed sent.now) passed.old.items }
    ensures kept { All (IsPassed sent.now) passed.new.items }
    ensures passed { IfOk result (λ below. IsPassed sent.now (record { parts = parts; below = below })) }
{
    match kept_at(passed.as_slice(), &parts) {
        Some(k) => {
            let before = passed[k];
            let now = further(sent, before);
            let below = now.below;
            passed[k] = now;
            Ok(below)
        }
        None => {
            let now = further(sent, Passed { parts, below: 0 });
            let below = now.below;
            passed.push(now)?;
            Ok(below)
        }
    }
}
