//! Letters as bytes and as lines of a node, both ways, and lines that ask nothing.

use ballots::{Ballot, Bytes, Cast, Letter, NodeId, Note, Votes};
use letter_bytes::LetterFault;
use node_lines::{LONGEST_COMMAND, LineFault, Next, Request, next_line, read_line, write_letters};
use std::alloc::Global;
use std::test::Fail;

/// The kind of a letter's note, its sender, its receiver, its ballot, its place, and how many votes or bytes it has.
type Fields = (char, u8, u8, u64, u64, usize);

/// A letter of each kind, by its digits.
static SAMPLES: [(&str, Fields); 6] = [
    (
        "01010200000000000000090000000000000001",
        ('p', 1, 2, 9, 1, 0),
    ),
    (
        "02000100000000000000090000000000000001000000000000000100000000000000010000000000000008000000000000000100",
        ('P', 0, 1, 9, 1, 1),
    ),
    (
        "03000200000000000000080000000000000001000000000000000100",
        ('a', 0, 2, 8, 1, 1),
    ),
    (
        "04020000000000000000080000000000000001000000000000000100",
        ('v', 2, 0, 8, 1, 1),
    ),
    ("0502000000000000000009", ('h', 2, 0, 9, 0, 0)),
    (
        "0600010000000000000001000000000000000100",
        ('k', 0, 1, 0, 1, 1),
    ),
];

/// What a line asks: a letter of what, and a value's length, a time, or ten times a place and a node's number. Else why
/// it asks nothing.
type Asked = Result<(char, u64), LineFault>;

static LINES: [(&str, Asked); 31] = [
    ("", Err(LineFault::NoLine)),
    ("lead ", Err(LineFault::NoLine)),
    ("offer 0", Err(LineFault::NoHex)),
    ("letter 0g", Err(LineFault::NoHex)),
    ("release 18446744073709551616", Err(LineFault::NoNumber)),
    ("tell", Err(LineFault::NoLine)),
    ("tell 5 1", Err(LineFault::NoNumber)),
    ("tell 01 1", Err(LineFault::NoNumber)),
    ("tell 1", Err(LineFault::NoNumber)),
    ("tell 1 ", Err(LineFault::NoNumber)),
    ("command", Err(LineFault::NoLine)),
    ("command={kind=\"noop\"}", Err(LineFault::NoLine)),
    ("command ", Err(LineFault::NoCommand)),
    ("command = \"noop\"", Err(LineFault::NoCommand)),
    ("command = {kind = \"noop\"", Err(LineFault::NoCommand)),
    ("command = {kind = \"noon\"}", Err(LineFault::NoCommand)),
    (
        "command = {kind = \"drop\", ch = 1}",
        Err(LineFault::NoCommand),
    ),
    ("letter 05", Err(LineFault::NoLetter(LetterFault::Short))),
    ("letter 0705", Err(LineFault::NoLetter(LetterFault::NoNote))),
    ("letter 0505", Err(LineFault::NoLetter(LetterFault::NoNode))),
    (
        "letter 0502000000000000000001",
        Err(LineFault::NoLetter(LetterFault::NoBallot)),
    ),
    (
        "letter 050200000000000000000900",
        Err(LineFault::NoLetter(LetterFault::Trailing)),
    ),
    ("lead", Ok(('l', 0))),
    ("offer ", Ok(('o', 0))),
    ("offer 00fF", Ok(('o', 2))),
    ("command = {kind = \"noop\"}", Ok(('o', 1))),
    (
        "command = {kind = \"drop\", ch = 1, sid = 2} # gone",
        Ok(('o', 4)),
    ),
    ("release +7", Ok(('r', 7))),
    ("tell 0 17", Ok(('k', 170))),
    ("tell 4 1", Ok(('k', 14))),
    ("release 18446744073709551615", Ok(('r', u64::MAX))),
];

fn fields(letter: &Letter) -> Fields {
    let (from, to) = (letter.from.number(), letter.to.number());
    match &letter.note {
        Note::Prepare { ballot, place } => ('p', from, to, ballot.number(), *place, 0),
        Note::Promise {
            ballot,
            place,
            votes,
        } => ('P', from, to, ballot.number(), *place, votes.rows().len()),
        Note::Accept {
            ballot,
            place,
            value,
        } => (
            'a',
            from,
            to,
            ballot.number(),
            *place,
            value.as_slice().len(),
        ),
        Note::Voted {
            ballot,
            place,
            value,
        } => (
            'v',
            from,
            to,
            ballot.number(),
            *place,
            value.as_slice().len(),
        ),
        Note::Higher { ballot } => ('h', from, to, ballot.number(), 0, 0),
        Note::Known { place, value } => ('k', from, to, 0, *place, value.as_slice().len()),
    }
}

/// The letter of an input's next line.
fn letter_in(alloc: Global, mut input: &[u8]) -> Result<Letter, Fail> {
    let Next::Line(line) = next_line(alloc, &mut input)? else {
        return Err("a line".into());
    };
    match read_line(alloc, line) {
        Ok(Request::Letter(letter)) => Ok(letter),
        _ => Err("a letter".into()),
    }
}

/// A letter's line as it goes out, without the receiver: as the receiver reads it.
fn line_for_receiver(alloc: Global, letter: Letter) -> Result<Vec<u8>, Fail> {
    let mut sent = Vec::new(alloc);
    write_letters(alloc, &[letter], &mut sent)?;
    let mut line = Vec::from_slice(alloc, b"letter ")?;
    line.extend_from_slice(sent.get(9..).ok_or("a line")?)?;
    Ok(line)
}

fn longest_value(alloc: Global) -> Result<Bytes, Fail> {
    Ok(Bytes::new(Vec::from_elem(alloc, 7, 64)?))
}

/// So many votes of a ballot for longest values, from the first place on.
fn long_votes(alloc: Global, ballot: Ballot, count: u64) -> Result<Votes, Fail> {
    let mut rows = Vec::new(alloc);
    for place in 1..=count {
        let value = longest_value(alloc)?;
        rows.push((place, Cast { ballot, value }))?;
    }
    Ok(Votes::new(rows))
}

/// An `Accept` of the longest value where it has no votes, and else a promise that reports so many
/// of such values.
fn long_note(alloc: Global, ballot: Ballot, votes: u64) -> Result<Note, Fail> {
    if votes == 0 {
        return Ok(Note::Accept {
            ballot,
            place: 1,
            value: longest_value(alloc)?,
        });
    }
    Ok(Note::Promise {
        ballot,
        place: 1,
        votes: long_votes(alloc, ballot, votes)?,
    })
}

/// A letter with such a note.
fn long_letter(alloc: Global, votes: u64) -> Result<Letter, Fail> {
    let ballot = Ballot::new(8).ok_or("ballot")?;
    Ok(Letter {
        from: NodeId::new(0).ok_or("node")?,
        to: NodeId::new(1).ok_or("node")?,
        note: long_note(alloc, ballot, votes)?,
    })
}

fn asked(request: Request) -> (char, u64) {
    match request {
        Request::Lead => ('l', 0),
        Request::Offer(value) => ('o', value.as_slice().len() as u64),
        Request::Release(now) => ('r', now),
        Request::Letter(_) => ('t', 0),
        Request::Tell(to, place) => (
            'k',
            place.wrapping_mul(10).wrapping_add(u64::from(to.number())),
        ),
    }
}

fn asked_on(alloc: Global, line: Bytes) -> Asked {
    Ok(asked(read_line(alloc, line)?))
}

fn asked_in(alloc: Global, text: &str) -> Result<Asked, Fail> {
    let line = Vec::from_slice(alloc, text.as_bytes())?;
    Ok(asked_on(alloc, Bytes::new(line)))
}

/// How long each line of an input is, up to its end or a line that is refused.
fn lengths(alloc: Global, mut input: &[u8]) -> Result<Vec<usize>, Fail> {
    let mut lengths = Vec::new(alloc);
    for _ in 0..input.len() {
        match next_line(alloc, &mut input)? {
            Next::Line(line) => lengths.push(line.as_slice().len())?,
            _ => break,
        }
    }
    Ok(lengths)
}

/// What a letter's line says, and whether the letter goes out as that line.
fn read_and_sent(alloc: Global, line: &[u8]) -> Result<(Fields, bool), Fail> {
    let letter = letter_in(alloc, line)?;
    let fields = fields(&letter);
    let sent = line_for_receiver(alloc, letter)?;
    Ok((fields, sent.as_slice() == line))
}

/// The same of a letter by its digits.
fn sample_read_and_sent(alloc: Global, digits: &str) -> Result<(Fields, bool), Fail> {
    let line = format!(in alloc; "letter {digits}\n")?;
    read_and_sent(alloc, line.as_bytes())
}

#[test]
fn a_letter_of_each_kind(rt: HostRuntime) -> Result<(), Fail> {
    for (digits, want) in &SAMPLES {
        assert_eq!(rt; sample_read_and_sent(rt.alloc(), digits)?, (*want, true));
    }
    Ok(())
}

#[test]
fn what_lines_ask(rt: HostRuntime) -> Result<(), Fail> {
    for (text, want) in &LINES {
        assert_eq!(rt; asked_in(rt.alloc(), text)?, *want, "{text}");
    }
    Ok(())
}

/// A line of so many bytes, with a command.
fn command_line(alloc: Global, len: usize) -> Result<Bytes, Fail> {
    let mut line = Vec::from_slice(alloc, b"command = {kind = \"noop\"} #")?;
    for _ in line.len()..len {
        line.push(b'.')?;
    }
    Ok(Bytes::new(line))
}

#[test]
fn commands_as_long_as_they_may_be(rt: HostRuntime) -> Result<(), Fail> {
    let alloc = rt.alloc();
    let longest = command_line(alloc, LONGEST_COMMAND)?;
    assert_eq!(rt; asked_on(alloc, longest), Ok(('o', 1)));
    let longer = command_line(alloc, LONGEST_COMMAND + 1)?;
    assert_eq!(rt; asked_on(alloc, longer), Err(LineFault::TooLong));
    Ok(())
}

#[test]
fn half_a_line_is_none(rt: HostRuntime) -> Result<(), Fail> {
    assert_eq!(rt;
        lengths(rt.alloc(), b"lead\n\nrelease 0\nof")?.as_slice(),
        [4, 0, 9].as_slice()
    );
    Ok(())
}

/// How long the line of a letter is for its receiver, and whether it is read as that letter.
fn sent_and_read(alloc: Global, letter: &Letter) -> Result<(usize, bool), Fail> {
    let line = line_for_receiver(alloc, letter.copy(alloc)?)?;
    let read = letter_in(alloc, &line)?;
    Ok((line.len(), read.is_same(letter)))
}

/// The same of a letter with so many long votes.
fn long_sent_and_read(alloc: Global, votes: u64) -> Result<(usize, bool), Fail> {
    sent_and_read(alloc, &long_letter(alloc, votes)?)
}

#[test]
fn long_letters(rt: HostRuntime) -> Result<(), Fail> {
    for (votes, len) in [(0, 190), (1_000, 176_062)] {
        assert_eq!(rt; long_sent_and_read(rt.alloc(), votes)?, (len, true));
    }
    Ok(())
}
