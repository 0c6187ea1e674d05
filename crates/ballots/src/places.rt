//! The places of the log.

ghost use Rattle.std.specs.Prelude.{◌≡◌, ◌↔◌, OnSome, IsSome, Some};
ghost use Rattle.ballots.specs.Limits.{IsPlace};

use std::marker::Model;

/// The last place of the log.
pub const MOST_PLACES: u64 = 1_000_000;

/// A place of the log, 1 to 1,000,000.
#[derive(Debug, Drop, Clone, Copy, PartialEq, Eq)]
pub struct Place {
    number: u64,
}

impl Model for Place {
    ghost use Rattle.std.specs.Prelude.{ℕ};
    ghost use Rattle.ballots.specs.Limits.{IsPlace};

    ghost Value = { ℕ };

    ghost view = { λ p. p.number };

    ghost invariant = { λ p. IsPlace p.number };

    ghost inverse = { λ n. record { number = n } };
}

impl Place {
    /// The place of this number, and none where it is 0 or above 1,000,000.
    pub fn new(number: u64) -> Option<Place>
        ensures some { OnSome result (result ≡ Some number) }
        ensures fits { IsSome result ↔ IsPlace number }
    {
        if 0 < number && number <= MOST_PLACES {
            Some(Place { number })
        } else {
            None
        }
    }

    /// Its number, 1 to 1,000,000.
    pub fn number(self) -> u64
        ensures same { result ≡ self }
        ensures fits { IsPlace result }
    {
        self.number
    }
}
