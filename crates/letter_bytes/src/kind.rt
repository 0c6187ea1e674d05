//! The kinds of notes, each with the byte that a letter begins with.

ghost use Rattle.std.specs.Prelude.{◌≡◌};
ghost use Rattle.letter_bytes.specs.Spelling.{kind_byte, kind_of};

use ballots::Note;

/// Which of the notes a letter carries.
#[derive(Clone, Copy, Debug, PartialEq, Eq)]
pub enum Kind {
    Prepare,
    Promise,
    Accept,
    Voted,
    Higher,
    Known,
}

impl Kind {
    /// The kind of a note.
    pub fn of(note: &Note) -> Kind
        ensures { result ≡ kind_of note.now }
    {
        match note {
            Note::Prepare { .. } => Kind::Prepare,
            Note::Promise { .. } => Kind::Promise,
            Note::Accept { .. } => Kind::Accept,
            Note::Voted { .. } => Kind::Voted,
            Note::Higher { .. } => Kind::Higher,
            Note::Known { .. } => Kind::Known,
        }
    }

    /// The first byte of a letter with such a note.
    pub fn byte(self) -> u8
        ensures { result ≡ kind_byte self }
    {
        match self {
            Kind::Prepare => 1,
            Kind::Promise => 2,
            Kind::Accept => 3,
            Kind::Voted => 4,
            Kind::Higher => 5,
            Kind::Known => 6,
        }
    }
}
