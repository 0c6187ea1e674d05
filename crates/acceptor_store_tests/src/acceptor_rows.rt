use crate::files::{Stopped, stopping};
use crate::uses::{OwnedUse, ballot, number, owned_in, place, put_vote, value};
use acceptor::{Accepted, Prepared, Records, RecordsFault, accept, prepare};
use ballots::{Place, Votes};
use std::alloc::{AllocError, Global};
use std::test::Fail;

fn promised_text(alloc: Global, votes: &Votes) -> Result<String, AllocError> {
    match votes.rows() {
        [] => format!(in alloc; "promised"),
        [(place, cast), ..] => format!(in alloc;
            "promised {place} {} {:?}",
            cast.ballot.number(),
            cast.value.as_slice()
        ),
    }
}

fn prepared_text(alloc: Global, answer: &Prepared) -> Result<String, AllocError> {
    match answer {
        Prepared::Higher(other) => format!(in alloc; "higher {}", other.number()),
        Prepared::Promised(votes) => promised_text(alloc, votes),
    }
}

/// What an acceptor over the records answers to a ballot.
fn prepared<R: Records>(alloc: Global, records: &mut R, number: u64) -> Result<String, Fail> {
    let answer = prepare(records, ballot(number)?, place(1)?)?;
    Ok(prepared_text(alloc, &answer)?)
}

fn accepted_text(alloc: Global, answer: &Accepted) -> Result<String, AllocError> {
    match answer {
        Accepted::Higher(other) => format!(in alloc; "higher {}", other.number()),
        Accepted::Voted(bytes) => format!(in alloc; "voted {:?}", bytes.as_slice()),
    }
}

/// What it answers to a value.
fn accepted<R: Records>(
    alloc: Global,
    records: &mut R,
    number: u64,
    byte: u8,
) -> Result<String, Fail> {
    let ballot = ballot(number)?;
    let first = place(1)?;
    let answer = accept(records, ballot, first, value(alloc, &[byte])?)?;
    Ok(accepted_text(alloc, &answer)?)
}

fn is_answered<R: Records>(
    alloc: Global,
    records: &mut R,
    case: (u64, Option<u8>, &str),
) -> Result<bool, Fail> {
    let answer = match case.1 {
        None => prepared(alloc, records, case.0)?,
        Some(byte) => accepted(alloc, records, case.0, byte)?,
    };
    Ok(answer.as_str() == case.2)
}

/// Ballot, the byte of a value, and the answer.
static CASES: [(u64, Option<u8>, &str); 9] = [
    (9, None, "promised"),
    (9, None, "higher 9"),
    (8, Some(b'A'), "higher 9"),
    (17, Some(b'A'), "voted [65]"),
    (16, None, "higher 17"),
    (18, None, "promised 1 17 [65]"),
    (17, Some(b'B'), "higher 18"),
    (18, Some(b'B'), "voted [66]"),
    (18, Some(b'C'), "voted [66]"),
];

/// Whether each case is answered as it says.
fn are_answered<R: Records>(alloc: Global, records: &mut R) -> Result<bool, Fail> {
    for case in &CASES {
        if !is_answered(alloc, records, *case)? {
            return Ok(false);
        }
    }
    Ok(true)
}

fn write<R: Records>(alloc: Global, records: &mut R) -> Result<(), Fail> {
    records.put_tried(ballot(16)?)?;
    put_vote(alloc, records, (2, 9, b'D'))?;
    put_vote(alloc, records, (1, 17, b'D'))?;
    Ok(records.put_promised(ballot(8)?)?)
}

/// The tried and the promised ballot.
fn numbers<R: Records>(records: &mut R) -> Result<(u64, u64), RecordsFault> {
    let tried = records.tried()?;
    let promised = records.promised()?;
    Ok((number(tried), number(promised)))
}

/// The ballot of the vote at a place.
fn vote_at<R: Records>(records: &mut R, place: Place) -> Result<u64, RecordsFault> {
    match records.vote(place)? {
        Some(cast) => Ok(cast.ballot.number()),
        None => Ok(0),
    }
}

/// How many votes there are from a place on.
fn votes_from<R: Records>(records: &mut R, place: Place) -> Result<usize, RecordsFault> {
    Ok(records.votes_from(place)?.rows().len())
}

/// Whether these are the tried and the promised ballot, the ballot of the vote at place 2, and how
/// many votes there are.
fn holds<R: Records>(records: &mut R, want: (u64, u64, u64, usize)) -> Result<bool, Fail> {
    let (tried, promised) = numbers(records)?;
    let second = vote_at(records, place(2)?)?;
    let count = votes_from(records, place(1)?)?;
    Ok((tried, promised, second, count) == want)
}

/// The same once they are reopened.
fn keeps<R: Records>(records: &mut R, want: (u64, u64, u64, usize)) -> Result<bool, Fail> {
    records.reopen()?;
    holds(records, want)
}

/// The same writes, and one of another vote at place 2.
fn write_over<R: Records>(alloc: Global, records: &mut R) -> Result<(), Fail> {
    write(alloc, records)?;
    put_vote(alloc, records, (2, 24, b'E'))
}

/// Whether each case is answered as it says, with no failure.
fn has_answers<R: Records>(alloc: Global, records: &mut R) -> Result<bool, Fail> {
    let are = are_answered(alloc, records)?;
    Ok(are && records.failures() == 0)
}

/// Whether there is no row, and whether the rows that are written are found, also over a reopen.
fn has_rows<R: Records>(alloc: Global, records: &mut R) -> Result<bool, Fail> {
    if !holds(records, (0, 0, 0, 0))? {
        return Ok(false);
    }
    write(alloc, records)?;
    if !holds(records, (16, 17, 9, 2))? {
        return Ok(false);
    }
    keeps(records, (16, 17, 9, 2))
}

/// Whether a vote over another is found, and the rest as before, with no failure.
fn has_other<R: Records>(alloc: Global, records: &mut R) -> Result<bool, Fail> {
    write_over(alloc, records)?;
    let is_kept = keeps(records, (16, 24, 24, 2))?;
    Ok(is_kept && records.failures() == 0)
}

/// What is tried on fresh records.
#[derive(Clone, Copy)]
enum Trial {
    Answers,
    Rows,
    Other,
}

impl OwnedUse for Trial {
    type Answer = bool;

    fn use_owned<R: Records + Drop>(self, alloc: Global, mut records: R) -> Result<bool, Fail> {
        match self {
            Trial::Answers => has_answers(alloc, &mut records),
            Trial::Rows => has_rows(alloc, &mut records),
            Trial::Other => has_other(alloc, &mut records),
        }
    }
}

/// Whether fresh records pass.
fn passes_afresh(alloc: Global, trial: Trial) -> Result<bool, Fail> {
    let files = stopping(alloc, (&[], &[]), Stopped::Log, u64::MAX)?;
    owned_in(alloc, files, trial)
}

/// What an acceptor answers; each row is kept over a reopen; a vote takes the place of the one at its place, and of no
/// other.
#[test]
fn promises_votes_and_rows(rt: HostRuntime) -> Result<(), Fail> {
    for trial in [Trial::Answers, Trial::Rows, Trial::Other] {
        assert!(rt; passes_afresh(rt.alloc(), trial)?);
    }
    Ok(())
}
