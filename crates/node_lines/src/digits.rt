//! Hexadecimal digits, decoded in the memory that they are in.

ghost use Rattle.std.specs.Prelude.{◌≡◌, ◌<◌, ◌≤◌, ℕ, Ok, IfNone, IfSome, IsErr, MatchOption, drop, length, take};
ghost use Rattle.hex.specs.Hex.{decode_of, hex_digit_value, pair_value};

fn digit_value(digit: u8) -> Option<u8>
    ensures value { result ≡ hex_digit_value digit }
    ensures below { IfSome result (λ value. value < 16) }
{
    match digit {
        b'0'..=b'9' => Some(digit - b'0'),
        b'a'..=b'f' => Some(digit - b'a' + 10),
        b'A'..=b'F' => Some(digit - b'A' + 10),
        _ => None,
    }
}

fn byte_of(high: u8, low: u8) -> Option<u8>
    ensures { MatchOption result ((i : ℕ) → IsErr (pair_value high low i)) (λ byte. (i : ℕ) → pair_value high low i ≡ Ok byte) }
{
    let high = digit_value(high)?;
    let low = digit_value(low)?;
    Some(high * 16 + low)
}

/// Decodes the digits from a place of the text on. The bytes go to the front of the text, so that it takes no memory;
/// the answer is how many they are, and none where the digits are an odd number, or one of them is no digit.
pub fn decode_in_place(text: &mut [u8], start: usize) -> Option<usize>
    requires { start ≤ length text.old }
    ensures some { IfSome result (λ n. decode_of (drop start text.old) ≡ Ok (take n text.new)) }
    ensures none { IfNone result (IsErr (decode_of (drop start text.old))) }
{
    let len = text.len() - start;
    if len % 2 == 1 {
        return None;
    }
    let count = len / 2;
    for i in 0..count {
        let place = start + 2 * i;
        text[i] = byte_of(text[place], text[place + 1])?;
    }
    Some(count)
}
