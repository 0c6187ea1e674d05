//! What the words name.

ghost use Rattle.std.specs.Prelude.{◌≡◌, ◌≢◌, ◌⊎◌, ◌++◌, ℕ, List, None, Err, option_map, flat_map, string_bytes};
ghost use Rattle.std.specs.Prelude.{IfErr, IfOk, IsOk, IsSomeAnd, MatchOption, OnOk};
ghost use Rattle.upsched_ends.specs.declared.fault.Fault.TheVariants.{Memory};
ghost use Rattle.upsched_script.specs.Scripts.{AreIds, NamesIds, next_number, numbers_text};
ghost use Rattle.upsched_script.specs.declared.refusal.Refusal.TheVariants as refused;

use crate::refusal::Refusal;
use std::alloc::{AllocError, Global};
use upsched_ends::{Fault, ScriptWords};

/// Adds the numbers behind the first one.
fn add_numbers(alloc: Global, text: &mut String, numbers: &[u32]) -> Result<(), AllocError>
    ensures { OnOk result (string_bytes text.new ≡ string_bytes text.old ++ flat_map next_number numbers.now) }
{
    for number in numbers {
        let next = format!(in alloc; ",{number}")?;
        text.push_str(next.as_str())?;
    }
    Ok(())
}

/// Numbers between commas.
fn numbers_text(alloc: Global, numbers: &[u32]) -> Result<String, AllocError>
    ensures { IfOk result (λ text. string_bytes text ≡ numbers_text numbers.now) }
{
    let Some((first, rest)) = numbers.split_first() else {
        return String::from_str(alloc, "");
    };
    let mut text = format!(in alloc; "{first}")?;
    add_numbers(alloc, &mut text, rest)?;
    Ok(text)
}

/// The numbers between the commas of a word, nothing where something else is there.
fn numbers_in(alloc: Global, word: &str) -> Result<Option<Vec<u32>>, AllocError>
    ensures { IfOk result (λ found. (ids : List ℕ) → AreIds ids → word.now ≡ numbers_text ids
        → IsSomeAnd found (λ numbers. numbers.items ≡ ids)) }
{
    let mut numbers = Vec::new(alloc);
    for part in word.split(',') {
        let Ok(number) = part.parse::<u32>() else {
            return Ok(None);
        };
        numbers.push(number)?;
    }
    Ok(Some(numbers))
}

/// The ids that a word names. A word that writes numbers in another way, as with a plus, is refused.
fn ids_in<'a>(alloc: Global, word: &str) -> Result<Vec<u32>, Refusal<'a>>
    ensures ids { IfOk result (λ ids. word.now ≡ numbers_text ids.items) }
    ensures modems { result ≡ Err refused.Modems → (ids : List ℕ) → AreIds ids → word.now ≢ numbers_text ids }
    ensures refusal { IfErr result (λ refusal. (refusal ≡ refused.Modems) ⊎ (refusal ≡ refused.Fault Memory)) }
{
    let ids = match numbers_in(alloc, word) {
        Ok(Some(ids)) => ids,
        Ok(None) => return Err(Refusal::Modems),
        Err(_) => return Err(Refusal::Fault(Fault::Memory)),
    };
    match numbers_text(alloc, ids.as_slice()) {
        Ok(text) if text.as_str() == word => Ok(ids),
        Ok(_) => Err(Refusal::Modems),
        Err(_) => Err(Refusal::Fault(Fault::Memory)),
    }
}

/// The ids of the modems that the words name, none without them.
pub fn ids_of<'a>(alloc: Global, words: &ScriptWords<'_>) -> Result<Vec<u32>, Refusal<'a>>
    ensures ids { IfOk result (λ ids. NamesIds (option_map (λ word. word.now) words.now.modems) ids.items) }
    ensures none { words.now.modems ≡ None → IsOk result }
    ensures modems { result ≡ Err refused.Modems → (ids : List ℕ) → AreIds ids → ¬ NamesIds (option_map (λ word. word.now) words.now.modems) ids }
    ensures refusal { IfErr result (λ refusal. (refusal ≡ refused.Modems) ⊎ (refusal ≡ refused.Fault Memory)) }
{
    match words.modems {
        Some(word) => ids_in(alloc, word),
        None => Ok(Vec::new(alloc)),
    }
}
