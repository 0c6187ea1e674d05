ghost use Rattle.std.specs.Prelude.{◌≡◌, ◌^◌, ◌<◌, ◌≤◌, IfSome, IfNone};

use std::marker::Model;

/// A service identifier (SID), of 14 bits (CM-SP-MULPIv3.1, MAP message).
#[derive(Clone, Copy, Debug, PartialEq, Eq, PartialOrd, Ord)]
pub struct Sid {
    number: u16,
}

impl Model for Sid {
    ghost use Rattle.std.specs.Prelude.{ℕ, ◌<◌, ◌^◌};

    ghost Value = { ℕ };

    ghost view = { λ a. a.number };

    ghost invariant = { λ a. a.number < 2 ^ 14 };

    ghost inverse = { λ n. record { number = n } };
}

impl Sid {
    /// Addresses no modem.
    pub const NOBODY: Sid = Sid { number: 0 };
    /// Addresses every modem.
    pub const EVERYBODY: Sid = Sid { number: 0x3FFF };

    /// The identifier, unless it is 2^14 or more.
    pub fn new(number: u16) -> Option<Sid>
        ensures found { IfSome result (λ sid. (sid ≡ number) × (number < 2 ^ 14)) }
        ensures none { IfNone result (2 ^ 14 ≤ number) }
    {
        if number < 1 << 14 {
            Some(Sid { number })
        } else {
            None
        }
    }

    /// The identifier as a number.
    pub fn get(self) -> u16
        ensures same { result ≡ self }
        ensures below { result < 2 ^ 14 }
    {
        self.number
    }
}
