//! The write of a letter's call.

ghost use Rattle.told_writes.specs.Telling.{IsOpen, WritesAfter};

use crate::telling::write_told;
use ballots::{LONGEST_VALUE, Letter, Note, Place};
use node::Node;
use node_writes::{WriteBytes, learned, no_write};

/// The place of which a letter may teach a value, where none is learned yet.
pub fn place_open<N: Node>(node: &N, note: &Note) -> Option<Place>
    ensures { IsOpen (N.values node.now) note.now result }
{
    let place = match note {
        Note::Voted { place, .. } | Note::Known { place, .. } => Place::new(*place)?,
        _ => return None,
    };
    if node.learned(place.number()).is_some() {
        return None;
    }
    Some(place)
}

/// The write of a call, once it is done: the value that is learned now, where its letter's place was open, or what the
/// last letter of its answer tells of.
pub fn write_after<N: Node>(node: &N, place: Option<Place>, letters: &[Letter]) -> WriteBytes
    ensures { WritesAfter (N.who node.now).id (N.values node.now) letters.now place result }
{
    let Some(place) = place else {
        return write_told(node.id(), letters);
    };
    match node.learned(place.number()) {
        Some(value) if value.as_slice().len() <= LONGEST_VALUE => {
            learned(node.id(), place, value.as_slice())
        }
        _ => no_write(node.id()),
    }
}
