ghost use Rattle.std.specs.Prelude.{◌≡◌, ◌^◌, ◌<◌, ◌≤◌, IfSome, IfNone};

use std::marker::Model;

/// How many minislots after the start of a MAP an interval begins, of 14 bits.
#[derive(Clone, Copy, Debug, PartialEq, Eq, PartialOrd, Ord)]
pub struct Offset {
    number: u16,
}

impl Model for Offset {
    ghost use Rattle.std.specs.Prelude.{ℕ, ◌<◌, ◌^◌};

    ghost Value = { ℕ };

    ghost view = { λ a. a.number };

    ghost invariant = { λ a. a.number < 2 ^ 14 };

    ghost inverse = { λ n. record { number = n } };
}

impl Offset {
    /// The offset, unless it is 2^14 or more.
    pub fn new(number: u16) -> Option<Offset>
        ensures found { IfSome result (λ offset. (offset ≡ number) × (number < 2 ^ 14)) }
        ensures none { IfNone result (2 ^ 14 ≤ number) }
    {
        if number < 1 << 14 {
            Some(Offset { number })
        } else {
            None
        }
    }

    /// The offset as a number.
    pub fn get(self) -> u16
        ensures same { result ≡ self }
        ensures below { result < 2 ^ 14 }
    {
        self.number
    }
}
