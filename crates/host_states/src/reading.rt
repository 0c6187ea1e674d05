//! Reading a state.

ghost use Rattle.std.specs.Prelude.{◌≡◌, ◌≢◌, ◌↔◌, ◌++◌, ℕ, List, IfErr, IfOk, IsTrue, MatchOption};
ghost use Rattle.host_states.specs.States.{IsFramed, IsState, IsStateFault, sum_of};
ghost use Rattle.host_states.specs.declared.head.StateHead.{StateHead as Head};

use crate::fault::StateFault;
use crate::fields::{SUM_BYTES, behind_line, sum_of, take_head};
use crate::head::StateHead;
use grant_machine::Machine;
use row_bytes::read_rows;
use std::alloc::Global;

fn are_same(one: &[u8], other: &[u8]) -> bool
    ensures { IsTrue result ↔ (one.now ≡ other.now) }
{
    one == other
}

/// The bytes before the sum, where the sum is theirs.
fn before_sum(bytes: &[u8]) -> Option<&[u8]>
    ensures { MatchOption result ((told : List ℕ) → bytes.now ≢ told ++ sum_of told) (λ told. bytes.now ≡ told.now ++ sum_of told.now) }
{
    if bytes.len() < SUM_BYTES {
        return None;
    }
    let (told, sum) = bytes.split_at(bytes.len() - SUM_BYTES);
    let wanted = sum_of(told);
    if are_same(sum, wanted.as_slice()) {
        Some(told)
    } else {
        None
    }
}

/// The head of a state and the spelling of its tables, where its bytes are whole. It takes no memory.
pub fn framed(bytes: &[u8]) -> Option<(StateHead, &[u8])>
    ensures { MatchOption result ((head : Head) → (spelling : List ℕ) → ¬ IsFramed bytes.now head spelling) (λ f. IsFramed bytes.now f.0 f.1.now) }
{
    let Some(told) = before_sum(bytes) else {
        return None;
    };
    let Some(behind) = behind_line(told) else {
        return None;
    };
    let mut rest = behind;
    match take_head(&mut rest) {
        Some(head) => Some((head, rest)),
        None => None,
    }
}

/// The state that bytes are, all of the bytes, with a scheduler that stands at its tables. The numbers of its head are
/// as they stand: whether they are of a host's is for who reads them. Memory is taken for no more tables than are
/// spelled.
pub fn read_state(alloc: Global, bytes: &[u8]) -> Result<(StateHead, Machine), StateFault>
    ensures state { IfOk result (λ state. IsState bytes.now state.0 state.1) }
    ensures fault { IfErr result (IsStateFault bytes.now) }
{
    let Some(_) = behind_line(bytes) else {
        return Err(StateFault::NoState);
    };
    let Some((head, spelling)) = framed(bytes) else {
        return Err(StateFault::NotWhole);
    };
    match read_rows(alloc, spelling) {
        Ok(rows) => Ok((head, Machine::opened(alloc, rows))),
        Err(fault) => Err(StateFault::Rows(fault)),
    }
}
