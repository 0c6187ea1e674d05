//! A vote whose write fails as the records are refused or break, and which is asked for again.

use acceptor::{Records, accept};
use ballots::{Ballot, Bytes, Place, Value};
use faulty_records::{Failure, FaultyRecords, Trouble};
use std::alloc::Global;
use std::test::Fail;

/// Whether an acceptor over the records tells no vote of ballot 9 at place 1, for the byte 0A.
fn fails<R: Records>(records: &mut R, alloc: Global) -> Result<bool, Fail> {
    let ballot = Ballot::new(9).ok_or("ballot")?;
    let place = Place::new(1).ok_or("place")?;
    let bytes = Bytes::new(Vec::from_slice(alloc, &[0x0A])?);
    let value = Value::new(bytes).ok_or("value")?;
    Ok(accept(records, ballot, place, value).is_err())
}

/// Whether the vote isn't told at first, and is once the records were opened again.
fn is_told_at_last<R: Records>(records: &mut R, alloc: Global) -> Result<bool, Fail> {
    if !fails(records, alloc)? {
        return Ok(false);
    }
    records.reopen()?;
    Ok(!fails(records, alloc)?)
}

/// How many calls came on the records until the vote was told, after its write, their third call, failed and they
/// were opened again.
fn calls_until_told(alloc: Global, failure: Failure) -> Result<u64, Fail> {
    let trouble = Trouble {
        failure,
        first: 3,
        last: 3,
    };
    let mut records = FaultyRecords::new(alloc, trouble);
    if !is_told_at_last(&mut records, alloc)? {
        return Ok(0);
    }
    Ok(records.faults.calls)
}

#[test]
fn a_vote_that_was_kept_is_told_without_a_write(rt: HostRuntime) -> Result<(), Fail> {
    for (failure, want) in [
        (Failure::BrokenWritten, 6),
        (Failure::BrokenUnwritten, 7),
        (Failure::Refused, 7),
    ] {
        assert_eq!(rt; calls_until_told(rt.alloc(), failure)?, want, "{failure:?}");
    }
    Ok(())
}
