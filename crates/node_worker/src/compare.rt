//! Copies and comparisons of lists of what nodes send and release.

ghost use Rattle.std.specs.Prelude.{◌≡◌, IfOk, IsTrue, ◌↔◌};

use ballots::Letter;
use map_release::Numbered;
use std::alloc::{AllocError, Global};

/// The same letters again.
pub fn copy_letters(alloc: Global, letters: &[Letter]) -> Result<Vec<Letter>, AllocError>
    ensures { IfOk result (λ copies. copies.items ≡ letters.now) }
{
    let mut copies = Vec::new(alloc);
    for letter in letters {
        copies.push(letter.copy(alloc)?)?;
    }
    Ok(copies)
}

/// The same outputs again.
pub fn copy_outputs(alloc: Global, outputs: &[Numbered]) -> Result<Vec<Numbered>, AllocError>
    ensures { IfOk result (λ copies. copies.items ≡ outputs.now) }
{
    let mut copies = Vec::new(alloc);
    for numbered in outputs {
        copies.push(numbered.copy()?)?;
    }
    Ok(copies)
}

/// Whether two lists of letters are the same.
pub fn are_same_letters(a: &[Letter], b: &[Letter]) -> bool
    ensures { IsTrue result ↔ (a.now ≡ b.now) }
{
    if a.len() != b.len() {
        return false;
    }
    for i in 0..a.len() {
        if !a[i].is_same(&b[i]) {
            return false;
        }
    }
    true
}

/// Whether two lists of outputs are the same.
pub fn are_same_outputs(a: &[Numbered], b: &[Numbered]) -> bool
    ensures { IsTrue result ↔ (a.now ≡ b.now) }
{
    if a.len() != b.len() {
        return false;
    }
    for i in 0..a.len() {
        if !a[i].is_same(&b[i]) {
            return false;
        }
    }
    true
}
