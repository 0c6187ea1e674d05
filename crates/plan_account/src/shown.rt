//! A MAP that was read.

use map_body::{Element, Interval};
use std::alloc::Global;
use std::marker::Model;

/// What a MAP shows: its Ack Time, its intervals by offset, and the elements behind its Null, which tell of requests
/// that wait.
#[derive(Drop)]
pub struct ShownMap {
    pub(crate) ack: u32,
    pub(crate) intervals: Vec<Interval>,
    pub(crate) waiting: Vec<Element>,
}

impl Model for ShownMap {
    ghost use Rattle.plan_account.specs.Shown.{Shown};

    ghost Value = { Shown };

    ghost view = { λ m. record { ack = m.ack; intervals = m.intervals.items; waiting = m.waiting.items } };
}

impl ShownMap {
    ghost use Rattle.std.specs.Prelude.{◌≡◌};

    /// Its Ack Time, in minislots modulo 2^32.
    pub fn ack(&self) -> u32
        ensures { result ≡ self.now.ack }
    {
        self.ack
    }

    /// Its intervals, by offset.
    pub fn intervals(&self) -> &[Interval]
        ensures { result.now ≡ self.now.intervals }
    {
        self.intervals.as_slice()
    }

    /// The elements behind its Null.
    pub fn waiting(&self) -> &[Element]
        ensures { result.now ≡ self.now.waiting }
    {
        self.waiting.as_slice()
    }
}
