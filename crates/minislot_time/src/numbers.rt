//! The limits of times, as numbers.

ghost use Rattle.std.specs.Prelude.{◌≡◌, ℕ, ◌+◌, ◌%◌, ◌^◌, ◌<◌, ◌≤◌, ◌↔◌};
ghost use Rattle.minislot_time.specs.Wire.{IsNear};
ghost use Rattle.minislot_time.specs.Extent.{Extent, IsExtent};

/// Times are below 2^63 minislots, and a stretch ends there at the latest. A MAP carries 32 bits of a time, which are
/// extended from 2^31 minislots before a reference to less than 2^31 after it.
pub fn limits()
    ensures times { (bits near t : ℕ) → IsNear bits near t ↔ (t % 2 ^ 32 ≡ bits) × (near ≤ t + 2 ^ 31) × (t < near + 2 ^ 31) × (t < 2 ^ 63) }
    ensures stretches { (e : Extent) → IsExtent e ↔ (0 < e.len) × (e.start + e.len ≤ 2 ^ 63) }
{}
