use acceptor::{Accepted, Acceptor, PlainRecords, Prepared, Records};
use ballots::{Ballot, Bytes, Place, Value, Votes};
use std::alloc::{AllocError, Global};
use std::test::Fail;

fn value(alloc: Global, byte: u8) -> Result<Value, Fail> {
    let bytes = Vec::from_slice(alloc, &[byte])?;
    Ok(Value::new(Bytes::new(bytes)).ok_or("a value")?)
}

fn ballot(number: u64) -> Result<Ballot, Fail> {
    Ok(Ballot::new(number).ok_or("a ballot")?)
}

fn place(number: u64) -> Result<Place, Fail> {
    Ok(Place::new(number).ok_or("a place")?)
}

fn promised_text(alloc: Global, votes: &Votes) -> Result<String, AllocError> {
    match votes.rows() {
        [] => format!(in alloc; "promised"),
        [(place, cast), ..] => format!(in alloc;
            "promised {place} {} {:?}",
            cast.ballot.number(),
            cast.value.as_slice()
        ),
    }
}

fn prepared_text(alloc: Global, answer: &Prepared) -> Result<String, AllocError> {
    match answer {
        Prepared::Higher(other) => format!(in alloc; "higher {}", other.number()),
        Prepared::Promised(votes) => promised_text(alloc, votes),
    }
}

/// What an acceptor answers to a ballot.
fn prepare<R: Records>(
    acceptor: &mut Acceptor<R>,
    alloc: Global,
    number: u64,
) -> Result<String, Fail> {
    let answer = acceptor.prepare(ballot(number)?, place(1)?)?;
    Ok(prepared_text(alloc, &answer)?)
}

fn accepted_text(alloc: Global, answer: &Accepted) -> Result<String, AllocError> {
    match answer {
        Accepted::Higher(other) => format!(in alloc; "higher {}", other.number()),
        Accepted::Voted(bytes) => format!(in alloc; "voted {:?}", bytes.as_slice()),
    }
}

/// What it answers to a value.
fn accept<R: Records>(
    acceptor: &mut Acceptor<R>,
    alloc: Global,
    number: u64,
    byte: u8,
) -> Result<String, Fail> {
    let value = value(alloc, byte)?;
    let answer = acceptor.accept(ballot(number)?, place(1)?, value)?;
    Ok(accepted_text(alloc, &answer)?)
}

/// What it answers to a ballot, or to a value where there is one.
fn answer<R: Records>(
    acceptor: &mut Acceptor<R>,
    alloc: Global,
    number: u64,
    byte: Option<u8>,
) -> Result<String, Fail> {
    match byte {
        None => prepare(acceptor, alloc, number),
        Some(byte) => accept(acceptor, alloc, number, byte),
    }
}

/// Ballot, the byte of a value, and the answer.
static ASKED: [(u64, Option<u8>, &str); 10] = [
    (9, None, "promised"),
    (9, None, "higher 9"),
    (8, Some(b'A'), "higher 9"),
    (17, Some(b'A'), "voted [65]"),
    (16, None, "higher 17"),
    (18, None, "promised 1 17 [65]"),
    (17, Some(b'B'), "higher 18"),
    (18, Some(b'B'), "voted [66]"),
    (18, Some(b'C'), "voted [66]"),
    (24, None, "promised 1 18 [66]"),
];

/// How many rows an acceptor answers so, up to the first that it doesn't.
fn rows_answered<R: Records>(acceptor: &mut Acceptor<R>, alloc: Global) -> Result<usize, Fail> {
    let mut count: usize = 0;
    for (number, byte, want) in &ASKED {
        if answer(acceptor, alloc, *number, *byte)?.as_str() != *want {
            return Ok(count);
        }
        count = count.saturating_add(1);
    }
    Ok(count)
}

/// The same of an acceptor over fresh records.
fn rows_answered_anew(alloc: Global) -> Result<usize, Fail> {
    rows_answered(&mut Acceptor::new(PlainRecords::new(alloc)), alloc)
}

#[test]
fn promises_and_votes(rt: HostRuntime) -> Result<(), Fail> {
    assert_eq!(rt; rows_answered_anew(rt.alloc())?, ASKED.len());
    Ok(())
}

fn learn<R: Records>(records: &mut R, alloc: Global, number: u64, byte: u8) -> Result<(), Fail> {
    Ok(records.put_learned(place(number)?, &value(alloc, byte)?)?)
}

/// The first byte that was learned of a place, 0 where nothing was.
fn learned<R: Records>(records: &mut R, number: u64) -> Result<u8, Fail> {
    match records.learned_row(place(number)?)? {
        Some(value) => Ok(value.as_slice().first().copied().unwrap_or(0)),
        None => Ok(0),
    }
}

/// Writes a value as vote and as learned value of a place.
fn keep<R: Records>(records: &mut R, place: Place, value: &Value) -> Result<(), Fail> {
    records.put_vote(place, ballot(8)?, value)?;
    Ok(records.put_learned(place, value)?)
}

/// How many bytes the vote of a place has.
fn vote_length<R: Records>(records: &mut R, place: Place) -> Result<usize, Fail> {
    match records.vote(place)? {
        Some(vote) => Ok(vote.value.as_slice().len()),
        None => Err("a vote".into()),
    }
}

/// How many bytes the learned value of a place has.
fn learned_length<R: Records>(records: &mut R, place: Place) -> Result<usize, Fail> {
    match records.learned_row(place)? {
        Some(value) => Ok(value.as_slice().len()),
        None => Err("a value".into()),
    }
}

/// How many bytes are kept, as vote and as learned value of a place, of a value that is written.
fn kept_lengths<R: Records>(
    records: &mut R,
    place: Place,
    value: &Value,
) -> Result<(usize, usize), Fail> {
    keep(records, place, value)?;
    Ok((
        vote_length(records, place)?,
        learned_length(records, place)?,
    ))
}

/// The same of so many bytes in fresh records.
fn lengths(alloc: Global, number: u64, len: usize) -> Result<(usize, usize), Fail> {
    let place = place(number)?;
    let bytes = Bytes::new(Vec::from_elem(alloc, 7, len)?);
    let value = Value::new(bytes).ok_or("a value")?;
    kept_lengths(&mut PlainRecords::new(alloc), place, &value)
}

#[test]
fn the_longest_value_at_the_last_place(rt: HostRuntime) -> Result<(), Fail> {
    for (number, len) in [(1, 0), (1, 64), (1_000_000, 64)] {
        assert_eq!(rt;
            lengths(rt.alloc(), number, len)?,
            (len, len),
            "place {number}"
        );
    }
    Ok(())
}

/// What is learned of places 1 to 3 after values of place 3, of place 2 and of place 3 again.
fn learned_in_turn<R: Records>(records: &mut R, alloc: Global) -> Result<[u8; 3], Fail> {
    for (number, byte) in [(3, b'C'), (2, b'B'), (3, b'D')] {
        learn(records, alloc, number, byte)?;
    }
    Ok([
        learned(records, 1)?,
        learned(records, 2)?,
        learned(records, 3)?,
    ])
}

/// The same in fresh records.
fn learned_anew(alloc: Global) -> Result<[u8; 3], Fail> {
    learned_in_turn(&mut PlainRecords::new(alloc), alloc)
}

#[test]
fn learned_rows(rt: HostRuntime) -> Result<(), Fail> {
    assert_eq!(rt; learned_anew(rt.alloc())?, [0, b'B', b'D']);
    Ok(())
}
