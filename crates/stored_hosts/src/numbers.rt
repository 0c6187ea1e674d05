//! The numbers in names.

ghost use Rattle.std.specs.Prelude.{◌≡◌, ◌≢◌, ◌<◌, ◌^◌, ℕ, MatchOption, decimal};

use itoa::Buffer;
use std::str;

/// The number of 64 bits that these digits are, without a sign or a zero too many.
pub(crate) fn number_in(digits: &[u8]) -> Option<u64>
    ensures { MatchOption result ((n : ℕ) → n < 2 ^ 64 → digits.now ≢ decimal n) (λ n. (n < 2 ^ 64) × (digits.now ≡ decimal n)) }
{
    let Ok(text) = str::from_utf8(digits) else {
        return None;
    };
    let Ok(number) = text.parse::<u64>() else {
        return None;
    };
    let mut buffer = Buffer::new();
    if buffer.format(number).as_bytes() == digits {
        Some(number)
    } else {
        None
    }
}
