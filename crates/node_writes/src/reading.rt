//! Writes that are taken back.

ghost use Rattle.std.specs.Prelude.{◌≡◌, ◌≤◌, ℕ, true, false, IfOk, IfSome, IfNone, MatchOption, OnOk};
ghost use Rattle.acceptor.specs.Content.{after_write, no_content};
ghost use Rattle.acceptor.specs.Content.Write.{Tries, Promises, Votes, Learns};
ghost use Rattle.ballots.specs.Limits.{longest_value};
ghost use Rattle.node_writes.specs.Rows.{row_write};
ghost use Rattle.node_writes.specs.Writes.{HasBallot, HasPlace, HasStrange, IsStrange, LeadTo, SpellsOf, value_in};

use crate::write_bytes::WriteBytes;
use acceptor::{PlainRecords, Records};
use ballots::{Ballot, Bytes, LONGEST_VALUE, NodeId, Place, Value};
use std::alloc::{AllocError, Global};

/// What a write changes, but for its value.
#[derive(Clone, Copy)]
pub enum Row {
    /// Nothing: there is no write.
    Nothing,
    /// The last ballot tried.
    Tried(Ballot),
    /// The promised ballot.
    Promised(Ballot),
    /// The vote at its place, for the value.
    Vote(Place, Ballot),
    /// The value learned at its place.
    Learned(Place),
}

fn ballot_of(bytes: &WriteBytes) -> Option<Ballot>
    ensures some { IfSome result (λ b. HasBallot bytes.now b) }
    ensures none { IfNone result ((b : ℕ) → ¬ HasBallot bytes.now b) }
{
    Ballot::new(u64::from_be_bytes(bytes.ballot))
}

fn place_of(bytes: &WriteBytes) -> Option<Place>
    ensures some { IfSome result (λ p. HasPlace bytes.now p) }
    ensures none { IfNone result ((p : ℕ) → ¬ HasPlace bytes.now p) }
{
    Place::new(u64::from_be_bytes(bytes.place))
}

/// What these bytes of a node change, and none where they spell no write of it.
pub fn row_of(bytes: &WriteBytes, id: NodeId) -> Option<Row>
    ensures some { IfSome result (λ row. SpellsOf id bytes.now (row_write row (value_in bytes.now))) }
    ensures none { IfNone result (IsStrange id bytes.now) }
{
    if bytes.node != id.number() || usize::from(bytes.value_len) > LONGEST_VALUE {
        return None;
    }
    match bytes.kind {
        0 => Some(Row::Nothing),
        1 => Some(Row::Tried(ballot_of(bytes)?)),
        2 => Some(Row::Promised(ballot_of(bytes)?)),
        3 => Some(Row::Vote(place_of(bytes)?, ballot_of(bytes)?)),
        4 => Some(Row::Learned(place_of(bytes)?)),
        _ => None,
    }
}

fn value_of(alloc: Global, bytes: &WriteBytes) -> Result<Value, AllocError>
    requires { bytes.now.value_len ≤ longest_value }
    ensures { IfOk result (λ v. v ≡ value_in bytes.now) }
{
    let value = Vec::from_slice(alloc, &bytes.value[..usize::from(bytes.value_len)])?;
    Ok(Value::new(Bytes::new(value)).unwrap())
}

fn put_tried(records: &mut PlainRecords, ballot: Ballot) -> Result<(), AllocError>
    ensures { OnOk result (records.new ≡ after_write records.old (Some (Tries ballot))) }
{
    match records.put_tried(ballot) {
        Ok(()) => Ok(()),
        Err(_) => Err(AllocError),
    }
}

fn put_promised(records: &mut PlainRecords, ballot: Ballot) -> Result<(), AllocError>
    ensures { OnOk result (records.new ≡ after_write records.old (Some (Promises ballot))) }
{
    match records.put_promised(ballot) {
        Ok(()) => Ok(()),
        Err(_) => Err(AllocError),
    }
}

fn put_vote(
    records: &mut PlainRecords,
    place: Place,
    ballot: Ballot,
    value: &Value,
) -> Result<(), AllocError>
    ensures { OnOk result (records.new ≡ after_write records.old (Some (Votes place record { ballot = ballot; value = value.now }))) }
{
    match records.put_vote(place, ballot, value) {
        Ok(()) => Ok(()),
        Err(_) => Err(AllocError),
    }
}

fn put_learned(records: &mut PlainRecords, place: Place, value: &Value) -> Result<(), AllocError>
    ensures { OnOk result (records.new ≡ after_write records.old (Some (Learns place value.now))) }
{
    match records.put_learned(place, value) {
        Ok(()) => Ok(()),
        Err(_) => Err(AllocError),
    }
}

/// Writes a row once more.
fn put(
    alloc: Global,
    records: &mut PlainRecords,
    bytes: &WriteBytes,
    row: Row,
) -> Result<(), AllocError>
    requires { bytes.now.value_len ≤ longest_value }
    ensures { OnOk result (records.new ≡ after_write records.old (row_write row (value_in bytes.now))) }
{
    match row {
        Row::Nothing => Ok(()),
        Row::Tried(ballot) => put_tried(records, ballot),
        Row::Promised(ballot) => put_promised(records, ballot),
        Row::Vote(place, ballot) => {
            let value = value_of(alloc, bytes)?;
            put_vote(records, place, ballot, &value)
        }
        Row::Learned(place) => {
            let value = value_of(alloc, bytes)?;
            put_learned(records, place, &value)
        }
    }
}

/// Whether each of these is a write of the node, or none.
pub fn are_whole(writes: &[WriteBytes], id: NodeId) -> bool
    ensures whole { result ≡ true → ¬ HasStrange id writes.now }
    ensures strange { result ≡ false → HasStrange id writes.now }
{
    for bytes in writes {
        let Some(_row) = row_of(bytes, id) else {
            return false;
        };
    }
    true
}

/// Records with the content after these writes of a node, and none where one is no write of it.
pub fn taken_back(
    alloc: Global,
    writes: &[WriteBytes],
    id: NodeId,
) -> Result<Option<PlainRecords>, AllocError>
    ensures { IfOk result (λ found. MatchOption found (HasStrange id writes.now) (LeadTo id writes.now no_content)) }
{
    let mut records = PlainRecords::new(alloc);
    for bytes in writes {
        let Some(row) = row_of(bytes, id) else {
            return Ok(None);
        };
        put(alloc, &mut records, bytes, row)?;
    }
    Ok(Some(records))
}
