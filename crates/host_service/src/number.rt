//! The number before a line: an epoch, and how many of its places count.

ghost use Rattle.std.specs.Prelude.{◌≡◌, ◌≢◌, ◌≤◌, ◌<◌, ◌++◌, ◌∷◌, ◌^◌, ℕ, List, MatchOption, decimal, drop, length};
ghost use Rattle.host_service.specs.Numbers.{BeginsWithDigits, HasNoNumber, IsNumbered};

use itoa::Buffer;
use memchr::memchr;
use std::str;

/// The number before a line.
#[derive(Clone, Copy, Debug, PartialEq, Eq)]
pub struct EpochNumber {
    pub epoch: u64,
    /// The places of an epoch that count, for who writes it.
    pub places: u64,
}

/// The number of 64 bits that these digits are, without a sign or a zero too many.
pub fn number_in(digits: &[u8]) -> Option<u64>
    ensures { MatchOption result ((n : ℕ) → n < 2 ^ 64 → digits.now ≢ decimal n) (λ n. (n < 2 ^ 64) × (digits.now ≡ decimal n)) }
{
    let Ok(text) = str::from_utf8(digits) else {
        return None;
    };
    let Ok(number) = text.parse::<u64>() else {
        return None;
    };
    let mut buffer = Buffer::new();
    if buffer.format(number).as_bytes() == digits {
        Some(number)
    } else {
        None
    }
}

/// The number whose digits a line begins with, where this byte is behind them, and where the rest begins.
fn digits_before(line: &[u8], end: u8) -> Option<(u64, usize)>
    requires { end < 48 }
    ensures { MatchOption result ((n : ℕ) (rest : List ℕ) → n < 2 ^ 64 → line.now ≢ decimal n ++ end ∷ rest)
        (λ found. BeginsWithDigits line.now end found.0 found.1) }
{
    let Some(place) = memchr(end, line) else {
        return None;
    };
    let (digits, _) = line.split_at(place);
    let Some(number) = number_in(digits) else {
        return None;
    };
    Some((number, place + 1))
}

/// The number before a line, and where the rest begins.
pub(crate) fn number_before(line: &[u8]) -> Option<(EpochNumber, usize)>
    ensures { MatchOption result (HasNoNumber line.now)
        (λ found. IsNumbered line.now found.0 (drop found.1 line.now) × (found.1 ≤ length line.now)) }
{
    let Some((epoch, behind)) = digits_before(line, b'/') else {
        return None;
    };
    let Some((places, more)) = digits_before(&line[behind..], b' ') else {
        return None;
    };
    Some((EpochNumber { epoch, places }, behind + more))
}
