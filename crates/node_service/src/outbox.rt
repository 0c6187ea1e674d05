//! What is told, and where it goes.

ghost use Rattle.std.specs.Prelude.{ℕ, List, Option, IfErr, OnOk};
ghost use Rattle.std.specs.Io.KnownBytes.{Appends, Keeps};
ghost use Rattle.node_lines.specs.declared.writing.Unwritten.{Unwritten as Why};

use node_lines::Unwritten;
use std::alloc::Global;
use std::io::Write;

/// What is told as a text.
pub trait Told: Drop {
    ghost text: { Self → List ℕ };

    /// Writes the text, all of it.
    fn write_to<W: Write>(&self, alloc: Global, output: &mut W) -> Result<(), Unwritten>
        ensures { OnOk result (Appends (W.contents output.old) (W.contents output.new) (text self.now)) };
}

/// Where texts go, which may wait there until they are sent out.
pub trait Outbox {
    // The bytes that it holds, where they are known.
    ghost bytes_held: { Self → Option (List ℕ) };

    // From the first on it failed so at a text, and it was the second then.
    ghost fails: { Self → List ℕ → Why → Self → Type 0 };

    // From the first on it failed so where it was to send out all that it holds, and it was the second then.
    ghost fails_to_send: { Self → Why → Self → Type 0 };

    /// Takes a text, all of it.
    fn put<T: Told>(&mut self, alloc: Global, told: &T) -> Result<(), Unwritten>
        ensures written { OnOk result (Appends (bytes_held self.old) (bytes_held self.new) (T.text told.now)) }
        ensures fails { IfErr result (λ why. fails self.old (T.text told.now) why self.new) };

    /// Sends out all that it holds.
    fn send_out(&mut self) -> Result<(), Unwritten>
        ensures same { OnOk result (Keeps (bytes_held self.old) (bytes_held self.new)) }
        ensures fails { IfErr result (λ why. fails_to_send self.old why self.new) };
}

/// Any writer. Nothing is said of when it fails.
impl<W: Write> Outbox for W {
    ghost bytes_held = { W.contents };

    ghost fails = { λ old text why new. Unit {0} };

    ghost fails_to_send = { λ old why new. Unit {0} };

    fn put<T: Told>(&mut self, alloc: Global, told: &T) -> Result<(), Unwritten> {
        told.write_to(alloc, self)
    }

    fn send_out(&mut self) -> Result<(), Unwritten> {
        match self.flush() {
            Ok(()) => Ok(()),
            Err(_) => Err(Unwritten::Output),
        }
    }
}
