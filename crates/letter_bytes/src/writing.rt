//! Writing a letter, a field at a time. It takes no memory but the writer's.

ghost use Rattle.std.specs.Prelude.{◌≡◌, All, OnOk};
ghost use Rattle.std.specs.Io.KnownBytes.{Appends};
ghost use Rattle.std.specs.List.{flat_map};
ghost use Rattle.letter_bytes.specs.Spelling.{FitsFields, FitsFront, FitsLetter, FitsVote, IsCounted, votes_reported};
ghost use Rattle.letter_bytes.specs.Spelling.{fields_spelling, front_spelling, number, spelling, value_spelling};
ghost use Rattle.letter_bytes.specs.Spelling.{vote_spelling};

use crate::kind::Kind;
use ballots::{Bytes, Cast, Letter, Note};
use std::io;
use std::io::Write;

#[tactic(auto, unfolding(crate::specs::Spelling::number))]
fn write_number<W: Write>(n: u64, output: &mut W) -> io::Result<()>
    ensures { OnOk result (Appends (W.contents output.old) (W.contents output.new) (number n)) }
{
    output.write_all(&n.to_be_bytes())
}

fn write_value<W: Write>(value: &Bytes, output: &mut W) -> io::Result<()>
    ensures bytes { OnOk result (Appends (W.contents output.old) (W.contents output.new) (value_spelling value.now)) }
    ensures fits { OnOk result (IsCounted value.now) }
{
    let bytes = value.as_slice();
    write_number(bytes.len() as u64, output)?;
    output.write_all(bytes)
}

/// Writes a vote and its place, as they follow the front of a letter that reports votes.
pub fn write_vote<W: Write>(row: &(u64, Cast), output: &mut W) -> io::Result<()>
    ensures bytes { OnOk result (Appends (W.contents output.old) (W.contents output.new) (vote_spelling row.now)) }
    ensures fits { OnOk result (FitsVote row.now) }
{
    write_number(row.0, output)?;
    write_number(row.1.ballot.number(), output)?;
    write_value(&row.1.value, output)
}

/// The votes that a letter reports, with their places: those of a promise.
pub fn reported_votes(letter: &Letter) -> &[(u64, Cast)]
    ensures { result.now ≡ votes_reported letter.now.note }
{
    match &letter.note {
        Note::Promise { votes, .. } => votes.rows(),
        _ => &[],
    }
}

fn write_fields<W: Write>(note: &Note, output: &mut W) -> io::Result<()>
    ensures bytes { OnOk result (Appends (W.contents output.old) (W.contents output.new) (fields_spelling note.now)) }
    ensures fits { OnOk result (FitsFields note.now) }
{
    match note {
        Note::Prepare { ballot, place } => {
            write_number(ballot.number(), output)?;
            write_number(*place, output)
        }
        Note::Promise {
            ballot,
            place,
            votes,
        } => {
            write_number(ballot.number(), output)?;
            write_number(*place, output)?;
            write_number(votes.rows().len() as u64, output)
        }
        Note::Accept {
            ballot,
            place,
            value,
        }
        | Note::Voted {
            ballot,
            place,
            value,
        } => {
            write_number(ballot.number(), output)?;
            write_number(*place, output)?;
            write_value(value, output)
        }
        Note::Higher { ballot } => write_number(ballot.number(), output),
        Note::Known { place, value } => {
            write_number(*place, output)?;
            write_value(value, output)
        }
    }
}

/// Writes all of a letter but the votes that it reports: the kind of note, the sender, the receiver and the note's
/// fields, up to how many votes there are.
pub fn write_front<W: Write>(letter: &Letter, output: &mut W) -> io::Result<()>
    ensures bytes { OnOk result (Appends (W.contents output.old) (W.contents output.new) (front_spelling letter.now)) }
    ensures fits { OnOk result (FitsFront letter.now) }
{
    let kind = Kind::of(&letter.note);
    output.write_all(&[kind.byte(), letter.from.number(), letter.to.number()])?;
    write_fields(&letter.note, output)
}

fn write_votes<W: Write>(rows: &[(u64, Cast)], output: &mut W) -> io::Result<()>
    ensures bytes { OnOk result (Appends (W.contents output.old) (W.contents output.new) (flat_map vote_spelling rows.now)) }
    ensures fits { OnOk result (All FitsVote rows.now) }
{
    for row in rows {
        write_vote(row, output)?;
    }
    Ok(())
}

/// Writes a letter: its front, and then each vote that it reports.
pub fn write_letter<W: Write>(letter: &Letter, output: &mut W) -> io::Result<()>
    ensures bytes { OnOk result (Appends (W.contents output.old) (W.contents output.new) (spelling letter.now)) }
    ensures fits { OnOk result (FitsLetter letter.now) }
{
    write_front(letter, output)?;
    write_votes(reported_votes(letter), output)?;
    Ok(())
}
