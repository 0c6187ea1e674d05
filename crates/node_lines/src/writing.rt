//! The lines by which letters go out.

ghost use Rattle.std.specs.Prelude.{◌≡◌, ◌++◌, OnOk, codes, decimal};
ghost use Rattle.std.specs.Io.KnownBytes.{Appends};
ghost use Rattle.std.specs.List.{flat_map};
ghost use Rattle.hex.specs.Hex.{encode_lower};
ghost use Rattle.letter_bytes.specs.Spelling.{front_spelling};
ghost use Rattle.node_lines.specs.Lines.{letter_line, letter_lines, letter_word, vote_digits};
ghost use Rattle.node_lines.specs.declared.writing.Unwritten.TheVariants.{Output};

use ballots::{Cast, Letter};
use letter_bytes::{reported_votes, write_front, write_vote};
use std::alloc::Global;
use std::io;
use std::io::Write;

/// Why no more is written.
#[derive(Clone, Copy, Debug, PartialEq, Eq)]
pub enum Unwritten {
    OutOfMemory,
    /// The writer failed.
    Output,
}

impl From<io::Error> for Unwritten {
    ghost from_gives = { λ _ why. why ≡ Output };

    fn from(_e: io::Error) -> Unwritten {
        Unwritten::Output
    }
}

fn write_digits<W: Write>(alloc: Global, bytes: &[u8], output: &mut W) -> Result<(), Unwritten>
    ensures { OnOk result (Appends (W.contents output.old) (W.contents output.new) (encode_lower bytes.now)) }
{
    let Ok(digits) = hex::encode(alloc, bytes) else {
        return Err(Unwritten::OutOfMemory);
    };
    output.write_all(digits.as_bytes())?;
    Ok(())
}

fn write_front_digits<W: Write>(
    alloc: Global,
    letter: &Letter,
    output: &mut W,
) -> Result<(), Unwritten>
    ensures { OnOk result (Appends (W.contents output.old) (W.contents output.new) (encode_lower (front_spelling letter.now))) }
{
    let mut front = Vec::new(alloc);
    match write_front(letter, &mut front) {
        Ok(()) => write_digits(alloc, &front, output),
        Err(_) => Err(Unwritten::OutOfMemory),
    }
}

fn write_vote_digits<W: Write>(
    alloc: Global,
    row: &(u64, Cast),
    output: &mut W,
) -> Result<(), Unwritten>
    ensures { OnOk result (Appends (W.contents output.old) (W.contents output.new) (vote_digits row.now)) }
{
    let mut vote = Vec::new(alloc);
    match write_vote(row, &mut vote) {
        Ok(()) => write_digits(alloc, &vote, output),
        Err(_) => Err(Unwritten::OutOfMemory),
    }
}

fn write_votes_digits<W: Write>(
    alloc: Global,
    rows: &[(u64, Cast)],
    output: &mut W,
) -> Result<(), Unwritten>
    ensures { OnOk result (Appends (W.contents output.old) (W.contents output.new) (flat_map vote_digits rows.now)) }
{
    for row in rows {
        write_vote_digits(alloc, row, output)?;
    }
    Ok(())
}

fn write_receiver<W: Write>(to: u8, output: &mut W) -> Result<(), Unwritten>
    ensures { OnOk result (Appends (W.contents output.old) (W.contents output.new) (letter_word ++ (decimal to ++ codes " "))) }
{
    write!(output, "letter {to} ")?;
    Ok(())
}

/// Writes a letter's line in pieces: to whom it goes, the front of the letter, and each vote that it reports.
fn write_line<W: Write>(alloc: Global, letter: &Letter, output: &mut W) -> Result<(), Unwritten>
    ensures { OnOk result (Appends (W.contents output.old) (W.contents output.new) (letter_line letter.now)) }
{
    write_receiver(letter.to.number(), output)?;
    write_front_digits(alloc, letter, output)?;
    write_votes_digits(alloc, reported_votes(letter), output)?;
    output.write_all(b"\n")?;
    Ok(())
}

/// Writes a line for each letter: to whom it goes, and its bytes. It takes memory for a letter's front or one of its
/// votes at a time.
pub fn write_letters<W: Write>(
    alloc: Global,
    letters: &[Letter],
    output: &mut W,
) -> Result<(), Unwritten>
    ensures { OnOk result (Appends (W.contents output.old) (W.contents output.new) (letter_lines letters.now)) }
{
    for letter in letters {
        write_line(alloc, letter, output)?;
    }
    Ok(())
}
