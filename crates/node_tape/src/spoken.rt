//! An output that is written into a journal.

ghost use Rattle.std.specs.Prelude.{◌≡◌, ◌-◌, false, true, IfOk, OnOk, length};
ghost use Rattle.std.specs.Io.{WritesAtMost};
ghost use Rattle.std.specs.Io.KnownBytes.{Appends, Keeps, WriteAppends};
ghost use Rattle.node_tape.specs.Spoken.{bytes_to_note};

use std::io;
use std::io::{ErrorKind, Write};

/// A writer of which all is written into a journal before it goes out, behind an empty line. What was not taken at one
/// call has to be given again at the next one, as `write_all` and a `BufWriter` do. Once the journal failed, nothing
/// more goes out.
#[derive(Drop)]
pub struct Spoken<W, J> {
    output: W,
    journal: J,
    // How much of what comes next is written already.
    ahead: usize,
    has_begun: bool,
    has_failed: bool,
}

impl<W: Write, J: Write> Spoken<W, J> {
    /// Nothing went out yet.
    pub fn new(output: W, journal: J) -> Spoken<W, J>
        ensures output { result.output ≡ output }
        ensures journal { result.journal ≡ journal }
        ensures nothing { (result.ahead ≡ 0) × (result.has_begun ≡ false) }
    {
        Spoken {
            output,
            journal,
            ahead: 0,
            has_begun: false,
            has_failed: false,
        }
    }

    /// Writes into the journal what isn't there yet of what comes.
    fn note(&mut self, bytes: &[u8]) -> io::Result<()>
        ensures output { self.new.output ≡ self.old.output }
        ensures noted { OnOk result (Appends (J.contents self.old.journal) (J.contents self.new.journal)
            (bytes_to_note self.old.has_begun self.old.ahead bytes.now)) }
        ensures begun { OnOk result (self.new.has_begun ≡ true) }
    {
        if !self.has_begun {
            self.journal.write_all(b"\n")?;
            self.has_begun = true;
        }
        let written = self.ahead.min(bytes.len());
        self.journal.write_all(&bytes[written..])?;
        self.ahead = bytes.len();
        self.journal.flush()
    }

    /// The same, where the journal never failed.
    fn note_once(&mut self, bytes: &[u8]) -> io::Result<()>
        ensures output { self.new.output ≡ self.old.output }
        ensures noted { OnOk result (Appends (J.contents self.old.journal) (J.contents self.new.journal)
            (bytes_to_note self.old.has_begun self.old.ahead bytes.now)) }
        ensures begun { OnOk result (self.new.has_begun ≡ true) }
    {
        if self.has_failed {
            return Err(io::Error::from(ErrorKind::Other));
        }
        let noted = self.note(bytes);
        self.has_failed = noted.is_err();
        noted
    }
}

impl<W: Write, J: Write> Write for Spoken<W, J> {
    ghost contents = { λ spoken. W.contents spoken.output };

    /// All that is given is in the journal then, and it is known how much of what comes next is there already.
    fn write(&mut self, bytes: &[u8]) -> io::Result<usize>
        ensures bound { WritesAtMost result bytes.now }
        ensures bytes { WriteAppends (W.contents self.old.output) (W.contents self.new.output) result bytes.now }
        ensures noted { OnOk result (Appends (J.contents self.old.journal) (J.contents self.new.journal)
            (bytes_to_note self.old.has_begun self.old.ahead bytes.now)) }
        ensures begun { OnOk result (self.new.has_begun ≡ true) }
        ensures ahead { IfOk result (λ n. self.new.ahead ≡ length bytes.now - n) }
    {
        self.note_once(bytes)?;
        let count = self.output.write(bytes)?;
        self.ahead = bytes.len() - count;
        Ok(count)
    }

    fn flush(&mut self) -> io::Result<()>
        ensures bytes { Keeps (W.contents self.old.output) (W.contents self.new.output) }
        ensures journal { self.new.journal ≡ self.old.journal }
        ensures same { (self.new.has_begun ≡ self.old.has_begun) × (self.new.ahead ≡ self.old.ahead) }
    {
        self.output.flush()
    }
}
