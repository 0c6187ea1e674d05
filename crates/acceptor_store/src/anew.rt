//! The store of records opened anew, and its tables tested.

ghost use Rattle.std.specs.Prelude.{◌≡◌, ◌↔◌, false, not, Err, IfOk, IfSome};
ghost use Rattle.acceptor.specs.Faults.{BreaksByReopen, CountsFaults};
ghost use Rattle.acceptor.specs.declared.records.RecordsFault.TheVariants.{OutOfMemory};
ghost use Rattle.sqlite.specs.State.{HasCleanDisk, Opens};
ghost use Rattle.sqlite.specs.Held.{state};
ghost use Rattle.acceptor_store.specs.Linked.{Leaves, Reopens};

use crate::known::Numbers;
use crate::{risen, tested};
use acceptor::RecordsFault;
use acceptor_store_parts::Owner;
use sqlite::{Connection, Error, ErrorCode};
use std::alloc::Global;
use store_anew::OpensAnew;

/// Opens the store of the connection anew.
fn opened_again<S: OpensAnew>(alloc: Global, conn: Connection<S>) -> Result<Connection<S>, Error>
    ensures opened { IfOk result (λ c. HasCleanDisk (state S.Store c) → Opens (state S.Store c)) }
    ensures found { IfOk result (λ c. HasCleanDisk (state S.Store c)
        → HasCleanDisk (state S.Store conn) × ∥ (state S.Store conn).may_leave (state S.Store c).committed.trees ∥₁) }
{
    match S::opened_anew(alloc, conn.into_store().given_up()) {
        Ok(fresh) => Ok(fresh),
        Err((error, _left)) => Err(error),
    }
}

/// The same with the tables tested again, which may fail.
pub fn opened_anew<S: OpensAnew>(
    alloc: Global,
    conn: Connection<S>,
    owner: Option<Owner>,
) -> Result<(Connection<S>, Option<Numbers>), Error>
    ensures leaves { IfOk result (λ r. HasCleanDisk (state S.Store r.0) → Leaves S.Store owner conn r.0) }
    ensures reopens { IfOk result (λ r. HasCleanDisk (state S.Store r.0) → IfSome r.1 (Reopens S.Store owner conn r.0)) }
{
    let mut fresh = opened_again(alloc, conn)?;
    let numbers = tested(alloc, &mut fresh, &owner);
    Ok((fresh, numbers))
}

/// Notes that the store couldn't be opened. The answer is OutOfMemory where that was the cause, but of
/// records that were up, which are broken then.
pub fn end_unopened(is_up: &mut bool, failures: &mut u64, error: Error) -> RecordsFault
    ensures down { is_up.new ≡ false }
    ensures memory { (result ≡ OutOfMemory) ↔ ((error ≡ Error.SqliteFailure ErrorCode.OutOfMemory) × (is_up.old ≡ false)) }
    ensures count { CountsFaults {T = Owner} (Err result) failures.old failures.new }
    ensures broken { BreaksByReopen {T = Owner} (Err result) (not is_up.old) (not is_up.new) }
{
    if !*is_up && error == Error::SqliteFailure(ErrorCode::OutOfMemory) {
        return RecordsFault::OutOfMemory;
    }
    *is_up = false;
    *failures = risen(*failures);
    RecordsFault::Broken
}
