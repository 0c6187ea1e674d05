//! What holds of every line.

ghost use Rattle.std.specs.Prelude.{◌≡◌, ◌<◌, ◌≤◌, ◌++◌, ◌^◌, ℕ, List, false, length, true};
ghost use Rattle.hex.specs.Hex.{encode_lower};
ghost use Rattle.ballots.specs.declared.letters.Letter.{Letter};
ghost use Rattle.letter_bytes.specs.Spelling.{spelling};
ghost use Rattle.node_lines.specs.Lines.{letter_word, longest_line};
ghost use Rattle.host_service.specs.Asking.{AsksHost, is_apart, join_word};
ghost use Rattle.host_service.specs.Longest.{IsPromiseWithin};
ghost use Rattle.host_service.specs.Numbers.{IsNumbered, number_text};
ghost use Rattle.host_service.specs.declared.asked.HostRequest.{HostRequest};
ghost use Rattle.host_service.specs.declared.number.EpochNumber.{EpochNumber as Number};

use crate::reply::LONGEST_STATE;
use hosts::MOST_EPOCH_PLACES;

/// A line has one number before it at most, and one rest behind that.
pub fn one_number()
    ensures { (line : List ℕ) (n m : Number) (rest more : List ℕ) → IsNumbered line n rest → IsNumbered line m more → (n ≡ m) × (rest ≡ more) }
{}

/// A line that asks a host is done apart, and one with a number isn't.
pub fn hosts_are_asked_apart()
    ensures asked { (line : List ℕ) (asked : HostRequest) → AsksHost line asked → is_apart line ≡ true }
    ensures numbered { (line : List ℕ) (n : Number) (rest : List ℕ) → IsNumbered line n rest → is_apart line ≡ false }
{}

/// No promise within an epoch needs a longer line behind its number than `node_lines::LONGEST_LINE`.
pub fn no_promise_is_longer()
    ensures { (n : Number) (l : Letter) → n.epoch < 2 ^ 64 → n.places ≤ MOST_EPOCH_PLACES → IsPromiseWithin n.places l
        → length (number_text n ++ (letter_word ++ encode_lower (spelling l))) ≤ longest_line }
{}

/// No state that is told needs a longer line to join by it than `node_lines::LONGEST_LINE`.
pub fn no_state_is_longer()
    ensures { (bytes : List ℕ) → length bytes ≤ LONGEST_STATE → length (join_word ++ encode_lower bytes) ≤ longest_line }
{}
