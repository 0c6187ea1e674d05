//! The two check sequences of a frame.

ghost use Rattle.std.specs.Prelude.{◌≡◌, ℕ, ◌<◌, ◌^◌, Bool};
ghost use Rattle.map_frames.specs.Polynomials.{sum_of, bits, is_odd, fed_one, fed, byte_bits, all_bits};
ghost use Rattle.map_frames.specs.Checks.{header_check, frame_check};

/// The coefficients below x^16 of the generator of a header's check, the highest in the lowest bit.
const HEADER_GENERATOR: u32 = 0x8408;

/// The coefficients below x^32 of the generator of a frame's check.
const FRAME_GENERATOR: u32 = 0xEDB8_8320;

fn is_odd(number: u32) -> bool
    ensures { result ≡ is_odd number }
{
    number % 2 == 1
}

/// The sum of two coefficients.
fn sum_of(a: bool, b: bool) -> bool
    ensures { result ≡ sum_of a b }
{
    match (a, b) {
        (false, _) => b,
        (true, false) => true,
        (true, true) => false,
    }
}

/// What is left by one step of a division, as one more bit of the dividend comes.
fn fed_one(generator: u32, left: u32, bit: bool) -> u32
    ensures fits { (n : ℕ) → generator < 2 ^ n → left < 2 ^ n → result < 2 ^ n }
    ensures bits { (n : ℕ) → generator < 2 ^ n → left < 2 ^ n → bits n result ≡ fed_one (bits n generator) (bits n left) bit }
{
    if sum_of(is_odd(left), bit) {
        (left / 2) ^ generator
    } else {
        left / 2
    }
}

/// The same for the bits of a byte, from the lowest on.
fn fed_byte(generator: u32, start: u32, byte: u8) -> u32
    ensures fits { (n : ℕ) → generator < 2 ^ n → start < 2 ^ n → result < 2 ^ n }
    ensures bits { (n : ℕ) → generator < 2 ^ n → start < 2 ^ n → bits n result ≡ fed (bits n generator) (bits n start) (byte_bits byte) }
{
    let mut left = start;
    let mut rest = u32::from(byte);
    for _i in 0..8u32 {
        left = fed_one(generator, left, is_odd(rest));
        rest /= 2;
    }
    left
}

/// The same for bytes in order.
fn fed(generator: u32, start: u32, bytes: &[u8]) -> u32
    ensures fits { (n : ℕ) → generator < 2 ^ n → start < 2 ^ n → result < 2 ^ n }
    ensures bits { (n : ℕ) → generator < 2 ^ n → start < 2 ^ n → bits n result ≡ fed (bits n generator) (bits n start) (all_bits bytes.now) }
{
    let mut left = start;
    for byte in bytes {
        left = fed_byte(generator, left, *byte);
    }
    left
}

/// The header check sequence (HCS) of these bytes, as a number whose low byte is sent first.
pub fn header_check(bytes: &[u8]) -> u16
    ensures { result ≡ header_check bytes.now }
{
    0xFFFF - fed(HEADER_GENERATOR, 0xFFFF, bytes) as u16
}

/// The check sequence (CRC) of these bytes of a frame, as a number whose low byte is sent first.
pub fn frame_check(bytes: &[u8]) -> u32
    ensures { result ≡ frame_check bytes.now }
{
    0xFFFF_FFFF - fed(FRAME_GENERATOR, 0xFFFF_FFFF, bytes)
}
