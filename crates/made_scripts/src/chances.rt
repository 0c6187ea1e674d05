//! What a seed decides.

ghost use Rattle.std.specs.Prelude.{◌<◌};

use rand_core::{Rng, SeedableRng};
use rand_xoshiro::SplitMix64;

/// Numbers that a seed decides.
#[derive(Drop)]
pub struct Chances {
    numbers: SplitMix64,
}

impl Chances {
    pub fn new(seed: u64) -> Chances {
        Chances {
            numbers: SplitMix64::seed_from_u64(seed),
        }
    }

    /// A number of 63 bits.
    pub fn number(&mut self) -> u64 {
        self.numbers.next_u64() >> 1
    }

    /// A number below `count`, and 0 where that is 0.
    pub fn below(&mut self, count: usize) -> usize
        ensures fewer { 0 < count → result < count }
    {
        let number = self.number() as usize;
        if count == 0 { 0 } else { number % count }
    }

    /// Whether one happens of so many in a hundred.
    pub fn percent(&mut self, percent: u8) -> bool {
        self.below(100) < usize::from(percent)
    }
}
