//! The one write of a call, as its answer tells of it.

ghost use Rattle.std.specs.Prelude.{◌-◌, length, slice_get, MatchOption, None};
ghost use Rattle.told_writes.specs.Telling.{TellsWrite};
ghost use Rattle.node_writes.specs.Writes.{SpellsOf};
ghost use Rattle.ballots.specs.declared.letters.Note.TheVariants.{Voted};

use ballots::{Ballot, Bytes, LONGEST_VALUE, Letter, NodeId, Note, Place};
use node_writes::{WriteBytes, no_write, promised, tried, vote};

fn vote_told(node: NodeId, ballot: Ballot, place: u64, value: &Bytes) -> WriteBytes
    ensures { TellsWrite node (Voted ballot place value.now) result }
{
    let bytes = value.as_slice();
    match Place::new(place) {
        Some(place) if bytes.len() <= LONGEST_VALUE => vote(node, place, ballot, bytes),
        _ => no_write(node),
    }
}

fn write_of(node: NodeId, note: &Note) -> WriteBytes
    ensures { TellsWrite node note.now result }
{
    match note {
        Note::Prepare { ballot, .. } => tried(node, *ballot),
        Note::Promise { ballot, .. } => promised(node, *ballot),
        Note::Voted {
            ballot,
            place,
            value,
        } => vote_told(node, *ballot, *place, value),
        _ => no_write(node),
    }
}

/// The write that the last letter of an answer tells of.
pub fn write_told(node: NodeId, letters: &[Letter]) -> WriteBytes
    ensures { MatchOption (slice_get letters.now (length letters.now - 1)) (SpellsOf node result None) (λ letter. TellsWrite node letter.note result) }
{
    match letters.last() {
        Some(letter) => write_of(node, &letter.note),
        None => no_write(node),
    }
}
