//! What holds of every letter and of any bytes.

ghost use Rattle.std.specs.Prelude.{◌≡◌, ◌≤◌, ℕ, List, Ok, MatchResult, length};
ghost use Rattle.ballots.specs.declared.letters.Letter.{Letter};
ghost use Rattle.letter_bytes.specs.Longest.{IsWithinLimits, ReportsAll, longest_letter};
ghost use Rattle.letter_bytes.specs.Reading.{AreBytes, letter_of};
ghost use Rattle.letter_bytes.specs.Spelling.{FitsLetter, Spells, SpellsNone, spelling};

use ballots::{LONGEST_VALUE, MOST_PLACES};

/// The most bytes of a letter within the log's limits: 88,000,027.
pub const LONGEST_LETTER: usize = 3 + 3 * 8 + MOST_PLACES as usize * (3 * 8 + LONGEST_VALUE);

/// Each letter is read from its spelling, and any bytes are the spelling of the letter that they are read as, or of
/// none where they are read as none.
pub fn one_spelling()
    ensures spelled { (l : Letter) → FitsLetter l → letter_of (spelling l) ≡ Ok l }
    ensures any { (bytes : List ℕ) → AreBytes bytes → MatchResult (letter_of bytes) (Spells bytes) (λ _. SpellsNone bytes) }
{}

/// No letter within the log's limits is longer than `LONGEST_LETTER`, and a promise that reports a vote at each place,
/// for a value of 64 bytes, is as long.
pub fn no_letter_is_longer()
    ensures constant { LONGEST_LETTER ≡ longest_letter }
    ensures most { (l : Letter) → IsWithinLimits l → length (spelling l) ≤ longest_letter }
    ensures met { (l : Letter) → ReportsAll l → length (spelling l) ≡ longest_letter }
{}

/// The longest letter in digits.
pub fn limits()
    ensures { longest_letter ≡ 88000027 }
{}
