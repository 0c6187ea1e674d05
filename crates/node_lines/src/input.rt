//! Lines as they come.

ghost use Rattle.std.specs.Prelude.{IfOk};
ghost use Rattle.node_lines.specs.Input.{ByteComes, LineComes, LineComesWithin, RefusedComes, RestComes};

use crate::fault::LineFault;
use ballots::Bytes;
use letter_bytes::LONGEST_LETTER;
use std::alloc::Global;
use std::io;
use std::io::{ErrorKind, Read};

/// The most bytes of a line, without its end: those of the longest letter within the log's limits, 176,000,061.
pub const LONGEST_LINE: usize = 7 + 2 * LONGEST_LETTER;

/// What comes next of an input.
#[derive(Drop)]
pub enum Next {
    /// A line, without its end.
    Line(Bytes),
    /// A line that was read up to its end and let go: it is TooLong, or there is no memory for it.
    Refused(LineFault),
    /// No whole line: what follows the last line's end was read and let go.
    End,
}

/// More tries than can be made: nothing was read in any of them.
fn too_many_tries() -> io::Error {
    io::Error::from(ErrorKind::Interrupted)
}

/// The next byte, and none where the input is at its end.
fn next_byte<R: Read>(input: &mut R) -> io::Result<Option<u8>>
    ensures { IfOk result (ByteComes (R.remaining input.old) (R.remaining input.new)) }
{
    let mut byte = [0u8];
    for _ in 0..u64::MAX {
        match input.read(&mut byte) {
            Ok(0) => return Ok(None),
            Ok(_) => return Ok(Some(byte[0])),
            Err(e) => {
                if e.kind() != ErrorKind::Interrupted {
                    return Err(e);
                }
            }
        }
    }
    Err(too_many_tries())
}

/// Reads what is left of a line, and lets it go. True where the line's end comes, and false where it has none.
fn skip_rest<R: Read>(input: &mut R) -> io::Result<bool>
    ensures { IfOk result (RestComes (R.remaining input.old) (R.remaining input.new)) }
{
    for _ in 0..u64::MAX {
        match next_byte(input)? {
            Some(b'\n') => return Ok(true),
            Some(_) => {}
            None => return Ok(false),
        }
    }
    Err(too_many_tries())
}

/// Lets the rest of a line go that is refused.
fn refuse<R: Read>(input: &mut R, why: LineFault) -> io::Result<Next>
    ensures { IfOk result (RefusedComes (R.remaining input.old) (R.remaining input.new) why) }
{
    if skip_rest(input)? {
        Ok(Next::Refused(why))
    } else {
        Ok(Next::End)
    }
}

/// What comes next of the input, which is best a buffered one: it is read byte by byte. Of a line no more than `most`
/// bytes are kept; a longer one is refused as TooLong.
pub fn next_line_within<R: Read>(alloc: Global, input: &mut R, most: usize) -> io::Result<Next>
    ensures { IfOk result (LineComesWithin most (R.remaining input.old) (R.remaining input.new)) }
{
    let mut line = Vec::new(alloc);
    for _ in 0..most {
        match next_byte(input)? {
            Some(b'\n') => return Ok(Next::Line(Bytes::new(line))),
            Some(byte) => {
                if line.push(byte).is_err() {
                    return refuse(input, LineFault::OutOfMemory);
                }
            }
            None => return Ok(Next::End),
        }
    }
    match next_byte(input)? {
        Some(b'\n') => Ok(Next::Line(Bytes::new(line))),
        Some(_) => refuse(input, LineFault::TooLong),
        None => Ok(Next::End),
    }
}

/// What comes next of a node's lines, of which none needs more than `LONGEST_LINE` bytes.
pub fn next_line<R: Read>(alloc: Global, input: &mut R) -> io::Result<Next>
    ensures { IfOk result (LineComes (R.remaining input.old) (R.remaining input.new)) }
{
    next_line_within(alloc, input, LONGEST_LINE)
}
