//! The one write of a node's call, as bytes to be stored.

ghost use Rattle.std.specs.Prelude.{◌≡◌, ◌≤◌, length, None, Some};
ghost use Rattle.acceptor.specs.Content.Write.{Tries, Promises, Votes, Learns};
ghost use Rattle.ballots.specs.Limits.{longest_value};
ghost use Rattle.node_writes.specs.Writes.{HasBallot, HasPlace, HasValue, SpellsOf};

use ballots::{Ballot, NodeId, Place};

/// A write as bytes, numbers most significant byte first: 0 no write, 1 a ballot that is tried, 2 one that is promised,
/// 3 a vote, 4 a learned value; the node; and the fields that it has, of which the others are 0.
#[repr(C)]
#[derive(Clone, Copy)]
pub struct WriteBytes {
    pub kind: u8,
    pub node: u8,
    pub value_len: u8,
    pub ballot: [u8; 8],
    pub place: [u8; 8],
    pub value: [u8; 64],
}

/// No write.
pub fn no_write(node: NodeId) -> WriteBytes
    ensures spells { SpellsOf node result None }
    ensures empty { result.value_len ≡ 0 }
{
    WriteBytes {
        kind: 0,
        node: node.number(),
        value_len: 0,
        ballot: [0; 8],
        place: [0; 8],
        value: [0; 64],
    }
}

fn of_ballot(node: NodeId, kind: u8, ballot: Ballot) -> WriteBytes
    ensures kind { result.kind ≡ kind }
    ensures node { result.node ≡ node }
    ensures value { result.value_len ≡ 0 }
    ensures ballot { HasBallot result ballot }
{
    WriteBytes {
        kind,
        ballot: ballot.number().to_be_bytes(),
        ..no_write(node)
    }
}

/// A ballot that is tried.
pub fn tried(node: NodeId, ballot: Ballot) -> WriteBytes
    ensures { SpellsOf node result (Some (Tries ballot)) }
{
    of_ballot(node, 1, ballot)
}

/// A ballot that is promised.
pub fn promised(node: NodeId, ballot: Ballot) -> WriteBytes
    ensures { SpellsOf node result (Some (Promises ballot)) }
{
    of_ballot(node, 2, ballot)
}

fn with_row(bytes: WriteBytes, kind: u8, place: Place, value: &[u8]) -> WriteBytes
    requires { length value.now ≤ longest_value }
    ensures kind { result.kind ≡ kind }
    ensures node { result.node ≡ bytes.node }
    ensures ballot { result.ballot ≡ bytes.ballot }
    ensures place { HasPlace result place }
    ensures fits { result.value_len ≤ longest_value }
    ensures value { HasValue result value.now }
{
    let mut room = [0; 64];
    room[..value.len()].copy_from_slice(value);
    WriteBytes {
        kind,
        value_len: value.len() as u8,
        place: place.number().to_be_bytes(),
        value: room,
        ..bytes
    }
}

/// A vote at a place, for a value of at most 64 bytes.
pub fn vote(node: NodeId, place: Place, ballot: Ballot, value: &[u8]) -> WriteBytes
    requires { length value.now ≤ longest_value }
    ensures { SpellsOf node result (Some (Votes place record { ballot = ballot; value = value.now })) }
{
    with_row(of_ballot(node, 3, ballot), 3, place, value)
}

/// A value of at most 64 bytes that is learned at a place.
pub fn learned(node: NodeId, place: Place, value: &[u8]) -> WriteBytes
    requires { length value.now ≤ longest_value }
    ensures { SpellsOf node result (Some (Learns place value.now)) }
{
    with_row(no_write(node), 4, place, value)
}
