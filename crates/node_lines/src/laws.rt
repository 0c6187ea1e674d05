//! What holds of every line.

ghost use Rattle.std.specs.Prelude.{◌≡◌, ◌≤◌, ◌++◌, ℕ, List, length};
ghost use Rattle.hex.specs.Hex.{encode_lower};
ghost use Rattle.ballots.specs.declared.letters.Letter.{Letter};
ghost use Rattle.letter_bytes.specs.Longest.{IsWithinLimits, ReportsAll};
ghost use Rattle.letter_bytes.specs.Spelling.{spelling};
ghost use Rattle.node_lines.specs.declared.request.Request.{Request};
ghost use Rattle.node_lines.specs.Lines.{Asks, letter_word, longest_line};

use crate::input::LONGEST_LINE;

/// A line asks one thing at most.
pub fn one_meaning()
    ensures { (line : List ℕ) (r s : Request) → Asks line r → Asks line s → r ≡ s }
{}

/// No letter within the log's limits needs a longer line than `LONGEST_LINE`. A promise that reports a vote at each
/// place, for a value of 64 bytes, needs as long a one.
pub fn no_line_is_longer()
    ensures constant { LONGEST_LINE ≡ longest_line }
    ensures most { (l : Letter) → IsWithinLimits l → length (letter_word ++ encode_lower (spelling l)) ≤ longest_line }
    ensures met { (l : Letter) → ReportsAll l → length (letter_word ++ encode_lower (spelling l)) ≡ longest_line }
{}
