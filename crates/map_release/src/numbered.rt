ghost use Rattle.std.specs.Prelude.{◌≡◌, ◌↔◌, IfOk, IsTrue};

use grant_machine::{Output, again};
use std::alloc::AllocError;

/// An output with its place in the log.
#[derive(Debug, Drop)]
pub struct Numbered {
    pub place: u64,
    pub output: Output,
}

impl Numbered {
    /// The same output at the same place again.
    pub fn copy(&self) -> Result<Numbered, AllocError>
        ensures { IfOk result (λ copy. copy ≡ self.now) }
    {
        Ok(Numbered {
            place: self.place,
            output: again(&self.output)?,
        })
    }

    /// Whether it is the same output at the same place.
    pub fn is_same(&self, other: &Numbered) -> bool
        ensures { IsTrue result ↔ (self.now ≡ other.now) }
    {
        self.place == other.place && self.output.is_same(&other.output)
    }
}
