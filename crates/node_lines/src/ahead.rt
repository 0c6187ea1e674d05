//! What an input has read ahead.

ghost use Rattle.std.specs.Prelude.{◌↔◌, ℕ, IsTrue, List};
ghost use Rattle.std.specs.List.{Contains};
ghost use Rattle.std.specs.Io.Buffered.{reader_buffer};

use std::io::{BufReader, Read};

/// An input that tells what it has read ahead.
pub trait Ahead {
    // The bytes that it has read ahead.
    ghost ahead: { Self → List ℕ };

    /// Whether a line's end is among them, so that the next line comes without waiting for anybody.
    fn has_line(&self) -> bool
        ensures { IsTrue result ↔ Contains (ahead self.now) 10 };
}

/// What is in its buffer.
impl<R: Read> Ahead for BufReader<R> {
    ghost ahead = { λ reader. reader_buffer reader };

    fn has_line(&self) -> bool {
        self.buffer().contains(&b'\n')
    }
}
