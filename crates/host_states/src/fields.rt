//! What a state is made of: the line with which it begins, numbers, and its sum.

ghost use Rattle.std.specs.Prelude.{◌≡◌, ◌≢◌, ◌++◌, ◌∷◌, ◌+◌, ◌<◌, ◌≤◌, List, ℕ, MatchOption, OnOk, drop, length};
ghost use Rattle.row_bytes.specs.Spelling.{number_8};
ghost use Rattle.host_states.specs.States.{FitsHead, first_line, head_spelling, sum_of};

use crate::head::StateHead;
use byteorder::{BigEndian, ByteOrder};
use sha2::{Digest, Sha256};
use std::alloc::AllocError;

/// The line with which a state begins.
const FIRST_LINE: &[u8] = b"upsched state 1\n";

/// How many bytes come before the tables, behind that line.
const HEAD_BYTES: usize = 26;

/// How many bytes the sum has.
pub(crate) const SUM_BYTES: usize = 8;

/// Writes that line.
#[tactic(auto, unfolding(crate::specs::States::first_line))]
pub(crate) fn put_line(out: &mut Vec<u8>) -> Result<(), AllocError>
    ensures { OnOk result (out.new.items ≡ out.old.items ++ first_line) }
{
    out.extend_from_slice(FIRST_LINE)?;
    Ok(())
}

/// The sum of bytes: the first of their SHA-256.
pub(crate) fn sum_of(bytes: &[u8]) -> [u8; 8]
    ensures { result ≡ sum_of bytes.now }
{
    let digest = Sha256::digest(bytes);
    let mut sum = [0; SUM_BYTES];
    sum.copy_from_slice(&digest[..SUM_BYTES]);
    sum
}

#[tactic(auto, unfolding(row_bytes::specs::Spelling::number_8))]
fn put_u64(out: &mut Vec<u8>, n: u64) -> Result<(), AllocError>
    ensures { OnOk result (out.new.items ≡ out.old.items ++ number_8 n) }
{
    out.extend_from_slice(&n.to_be_bytes())?;
    Ok(())
}

/// Writes what a state tells beside tables.
pub(crate) fn put_head(out: &mut Vec<u8>, head: &StateHead) -> Result<(), AllocError>
    ensures fits { OnOk result (FitsHead head.now) }
    ensures spelled { OnOk result (out.new.items ≡ out.old.items ++ head_spelling head.now) }
{
    put_u64(out, head.epoch)?;
    put_u64(out, head.places)?;
    put_u64(out, head.before)?;
    out.extend_from_slice(&[head.id, head.members])?;
    Ok(())
}

/// What follows the line with which a state begins.
#[tactic(auto, unfolding(crate::specs::States::first_line))]
pub(crate) fn behind_line(bytes: &[u8]) -> Option<&[u8]>
    ensures { MatchOption result ((rest : List ℕ) → bytes.now ≢ first_line ++ rest) (λ rest. bytes.now ≡ first_line ++ rest.now) }
{
    bytes.strip_prefix(FIRST_LINE)
}

/// The number that the first eight bytes spell.
fn first_u64(bytes: &[u8]) -> u64
    requires { 8 ≤ length bytes.now }
    ensures { bytes.now ≡ number_8 result ++ drop 8 bytes.now }
{
    BigEndian::read_u64(bytes)
}

/// Takes a number of eight bytes off the front.
fn take_u64(rest: &mut &[u8]) -> u64
    requires { 8 ≤ length rest.old.now }
    ensures number { rest.old.now ≡ number_8 result ++ rest.new.now }
    ensures left { length rest.old.now ≡ length rest.new.now + 8 }
{
    let number = first_u64(rest);
    let (_, behind) = rest.split_at(8);
    *rest = behind;
    number
}

/// Takes what a state tells beside tables off the front, where there are as many bytes.
pub(crate) fn take_head(rest: &mut &[u8]) -> Option<StateHead>
    ensures { MatchOption result (length rest.old.now < 26) (λ head. (rest.old.now ≡ head_spelling head ++ rest.new.now) × FitsHead head) }
{
    if rest.len() < HEAD_BYTES {
        return None;
    }
    let epoch = take_u64(rest);
    let places = take_u64(rest);
    let before = take_u64(rest);
    let (last, behind) = rest.split_at(2);
    *rest = behind;
    Some(StateHead {
        epoch,
        places,
        before,
        id: last[0],
        members: last[1],
    })
}
