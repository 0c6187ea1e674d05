//! What follows from what is told.

ghost use Rattle.told_writes.specs.Told.{ToldIsWritten, ToldLeadsOn};

/// What is told of a whole call of a member is its one write, so that it leads from the content before the call to that
/// after it. A vote that is told again may be told once more, which changes nothing.
pub fn told_is_written()
    ensures written { ToldIsWritten }
    ensures leads { ToldLeadsOn }
{}
