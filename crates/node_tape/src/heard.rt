//! An input whose lines are written into a journal.

ghost use Rattle.std.specs.Prelude.{◌≡◌, ◌∷◌, [], None, IfOk, OnErr, OnOk, slice_index, take};
ghost use Rattle.std.specs.Io.{ReadsAtMost};
ghost use Rattle.std.specs.Io.KnownBytes.{Appends, Keeps, ReadConsumes};
ghost use Rattle.node_tape.specs.Heard.{IsAhead, bytes_left, bytes_noted};

use std::alloc::Global;
use std::io;
use std::io::{ErrorKind, Read, Write};

/// The most bytes of a line that wait for its end before they are written.
const MOST_WAITING: usize = 65536;

/// A reader of which each line is written into a journal before its end is given. A line without an end is written only
/// where it is long. Once the journal failed, nothing more is given.
#[derive(Drop)]
pub struct Heard<R, J> {
    input: R,
    journal: J,
    // What isn't written yet of the line.
    line: Vec<u8>,
    // What was read, and isn't given yet.
    ahead: Option<u8>,
    has_failed: bool,
}

impl<R: Read, J: Write> Heard<R, J> {
    /// Nothing was read yet.
    pub fn new(alloc: Global, input: R, journal: J) -> Heard<R, J>
        ensures input { result.input ≡ input }
        ensures nothing { result.ahead ≡ None }
        ensures journal { result.journal ≡ journal }
        ensures no_line { result.line.items ≡ [] }
    {
        Heard {
            input,
            journal,
            line: Vec::new(alloc),
            ahead: None,
            has_failed: false,
        }
    }

    /// Writes what waits.
    fn write_line(&mut self) -> io::Result<()>
        ensures input { self.new.input ≡ self.old.input }
        ensures ahead { self.new.ahead ≡ self.old.ahead }
        ensures written { OnOk result (Appends (J.contents self.old.journal) (J.contents self.new.journal) self.old.line.items) }
        ensures no_line { OnOk result (self.new.line.items ≡ []) }
    {
        self.journal.write_all(&self.line)?;
        self.line.clear();
        self.journal.flush()
    }

    /// The next byte, which stays ahead. None at the end of the input.
    fn next_ahead(&mut self) -> io::Result<Option<u8>>
        ensures ok { IfOk result (λ next. IsAhead (bytes_left self.old.ahead (R.remaining self.old.input)) next self.new.ahead (R.remaining self.new.input)) }
        ensures err { OnErr result (Keeps (bytes_left self.old.ahead (R.remaining self.old.input)) (bytes_left self.new.ahead (R.remaining self.new.input))) }
        ensures journal { self.new.journal ≡ self.old.journal }
        ensures line { self.new.line ≡ self.old.line }
    {
        if self.ahead.is_some() {
            return Ok(self.ahead);
        }
        let mut one = [0u8];
        if self.input.read(&mut one)? == 0 {
            return Ok(None);
        }
        self.ahead = Some(one[0]);
        Ok(self.ahead)
    }

    /// A byte of the line was read.
    fn note(&mut self, byte: u8) -> io::Result<()>
        ensures input { self.new.input ≡ self.old.input }
        ensures ahead { self.new.ahead ≡ self.old.ahead }
        ensures noted { OnOk result (Appends (bytes_noted (J.contents self.old.journal) self.old.line.items)
            (bytes_noted (J.contents self.new.journal) self.new.line.items) (byte ∷ [])) }
        ensures ended { OnOk result (byte ≡ 10 → self.new.line.items ≡ []) }
    {
        self.line.push(byte)?;
        if byte == b'\n' || self.line.len() >= MOST_WAITING {
            self.write_line()?;
        }
        Ok(())
    }
}

impl<R: Read, J: Write> Heard<R, J> {
    /// The same, where the journal never failed.
    fn note_once(&mut self, byte: u8) -> io::Result<()>
        ensures input { self.new.input ≡ self.old.input }
        ensures ahead { self.new.ahead ≡ self.old.ahead }
        ensures noted { OnOk result (Appends (bytes_noted (J.contents self.old.journal) self.old.line.items)
            (bytes_noted (J.contents self.new.journal) self.new.line.items) (byte ∷ [])) }
        ensures ended { OnOk result (byte ≡ 10 → self.new.line.items ≡ []) }
    {
        if self.has_failed {
            return Err(io::Error::from(ErrorKind::Other));
        }
        if self.note(byte).is_err() {
            self.has_failed = true;
            return Err(io::Error::from(ErrorKind::Other));
        }
        Ok(())
    }
}

impl<R: Read, J: Write> Read for Heard<R, J> {
    ghost use Rattle.node_tape.specs.Heard.{bytes_left};

    ghost remaining = { λ heard. bytes_left heard.ahead (R.remaining heard.input) };

    /// What is noted grows by what is given, and no byte waits behind a line's end.
    fn read(&mut self, buf: &mut [u8]) -> io::Result<usize>
        ensures bound { ReadsAtMost result buf.new }
        ensures bytes { ReadConsumes (bytes_left self.old.ahead (R.remaining self.old.input)) (bytes_left self.new.ahead (R.remaining self.new.input))
            result buf.new }
        ensures noted { IfOk result (λ n. Appends (bytes_noted (J.contents self.old.journal) self.old.line.items)
            (bytes_noted (J.contents self.new.journal) self.new.line.items) (take n buf.new)) }
        ensures ended { IfOk result (λ n. n ≡ 1 → slice_index buf.new 0 ≡ 10 → self.new.line.items ≡ []) }
    {
        if buf.is_empty() {
            return Ok(0);
        }
        let Some(byte) = self.next_ahead()? else {
            return Ok(0);
        };
        self.note_once(byte)?;
        self.ahead = None;
        buf[0] = byte;
        Ok(1)
    }
}
