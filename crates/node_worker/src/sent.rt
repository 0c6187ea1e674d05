//! Where the letters stand that the records sent.

ghost use Rattle.std.specs.Prelude.{◌↔◌, ◌<◌, Contains, IfSome, IsSome, IsTrue, length};
ghost use Rattle.node_worker.specs.Legal.{letters_of};

use crate::entry::Record;
use ballots::Letter;

/// A letter's place: the number of its record, and its own among the letters of that record.
#[derive(Clone, Copy, Debug, Drop)]
pub struct LetterPlace {
    pub record: usize,
    pub letter: usize,
}

// The number of the first of the letters that is this one.
fn first_place(letters: &[Letter], letter: &Letter) -> Option<usize>
    ensures among { IsSome result ↔ Contains letters.now letter.now }
    ensures within { IfSome result (λ i. i < length letters.now) }
{
    for i in 0..letters.len() {
        if letters[i].is_same(letter) {
            return Some(i);
        }
    }
    None
}

// The number of a letter that is this one. The search begins at a letter and goes round.
fn place_among(letters: &[Letter], letter: &Letter, begin: usize) -> Option<usize>
    ensures among { IsSome result ↔ Contains letters.now letter.now }
    ensures within { IfSome result (λ i. i < length letters.now) }
{
    let middle = begin.min(letters.len());
    let (before, behind) = letters.split_at(middle);
    match first_place(behind, letter) {
        Some(i) => Some(middle + i),
        None => first_place(before, letter),
    }
}

// Where the first of the records that sent the letter has it. Among the first record's letters the search begins at one
// of them.
fn first_sent(records: &[Record], letter: &Letter, begin: usize) -> Option<LetterPlace>
    ensures sent { IsSome result ↔ Contains (letters_of records.now) letter.now }
    ensures within { IfSome result (λ p. p.record < length records.now) }
{
    let mut next = begin;
    for i in 0..records.len() {
        match place_among(records[i].entry.letters(), letter, next) {
            Some(j) => {
                return Some(LetterPlace {
                    record: i,
                    letter: j,
                });
            }
            None => next = 0,
        }
    }
    None
}

// Where a record that sent the letter has it. The search begins at a place and goes round.
fn sent_at(records: &[Record], letter: &Letter, begin: LetterPlace) -> Option<LetterPlace>
    ensures sent { IsSome result ↔ Contains (letters_of records.now) letter.now }
    ensures within { IfSome result (λ p. p.record < length records.now) }
{
    let middle = begin.record.min(records.len());
    let (before, behind) = records.split_at(middle);
    match first_sent(behind, letter, begin.letter) {
        Some(found) => Some(LetterPlace {
            record: middle + found.record,
            letter: found.letter,
        }),
        None => first_sent(before, letter, 0),
    }
}

/// Whether a record sent the letter. The search begins at a place and goes round, and leaves the place where it found
/// the letter: so letters that are looked for in the order in which they were sent are each found at once.
pub fn was_sent(records: &[Record], letter: &Letter, place: &mut LetterPlace) -> bool
    ensures { IsTrue result ↔ Contains (letters_of records.now) letter.now }
{
    match sent_at(records, letter, *place) {
        Some(found) => {
            *place = found;
            true
        }
        None => false,
    }
}
