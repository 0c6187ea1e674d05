//! Writing a state.

ghost use Rattle.std.specs.Prelude.{◌≡◌, IfOk};
ghost use Rattle.host_states.specs.States.{IsState, state_bytes};

use crate::fields::{put_head, put_line, sum_of};
use crate::head::StateHead;
use grant_machine::Machine;
use row_bytes::write_rows;
use std::alloc::{AllocError, Global};

/// The bytes of the state of a scheduler at the start of an epoch. Only want of memory stops it.
pub fn state_bytes(
    alloc: Global,
    head: &StateHead,
    machine: &Machine,
) -> Result<Vec<u8>, AllocError>
    ensures bytes { IfOk result (λ bytes. bytes.items ≡ state_bytes head.now machine.now) }
    ensures state { IfOk result (λ bytes. IsState bytes.items head.now machine.now) }
{
    let mut bytes = Vec::new(alloc);
    put_line(&mut bytes)?;
    put_head(&mut bytes, head)?;
    write_rows(machine.flows(), &mut bytes)?;
    let sum = sum_of(bytes.as_slice());
    bytes.extend_from_slice(&sum)?;
    Ok(bytes)
}
