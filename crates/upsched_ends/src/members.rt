//! How many members a word names.

ghost use Rattle.std.specs.Prelude.{◌≡◌, ◌≢◌, ◌<◌, ℕ, MatchOption};
ghost use Rattle.ballots.specs.declared.members.Members.{Members};
ghost use Rattle.upsched_ends.specs.Members.{NamesMembers, digit};

use ballots::Members;

/// The number that one decimal digit is.
pub fn digit_of(word: &str) -> Option<u8>
    ensures { MatchOption result ((n : ℕ) → n < 10 → word.now ≢ digit n) (λ n. (n < 10) × (word.now ≡ digit n)) }
{
    let bytes = word.as_bytes();
    if bytes.len() != 1 {
        return None;
    }
    match bytes[0] {
        code @ b'0'..=b'9' => Some(code - b'0'),
        _ => None,
    }
}

/// How many members a word names, 3 or 5.
pub fn members_of(word: &str) -> Option<Members>
    ensures { MatchOption result ((members : Members) → ¬ NamesMembers word.now members) (NamesMembers word.now) }
{
    Members::of(digit_of(word)?)
}
