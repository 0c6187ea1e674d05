//! The tables of a node's records, by one statement a call.
#![tactic(auto)]

mod batch;
mod counting;
mod declared;
mod facts;
mod foreign;
mod learned;
mod making;
mod opening;
mod owner;
mod reads;
mod rereading;
mod writing;
mod wrong;

ghost use Rattle.std.specs.Prelude.{◌≡◌, ℕ, pos, true, false, IfOk, IfErr, Ok, OnOk, OnErr, Some};
ghost use Rattle.sqlite.specs.State.{CommitsBy, Executes, HasCleanDisk, Survives, IsUnchanged};
ghost use Rattle.sqlite.specs.Values.{bound};
ghost use Rattle.sqlite.specs.Held.{state};
ghost use Rattle.ballots.specs.Limits.{IsPlace};
ghost use Rattle.ballots.specs.Ballots.{number_of};
ghost use Rattle.acceptor_store_parts.specs.Serves.{StillServes};
ghost use Rattle.acceptor_store_parts.specs.Stops.{LeavesOpen};
ghost use Rattle.acceptor_store_parts.specs.Tests.{IsShutBy, IsTold, tells_open, told_as};
ghost use Rattle.acceptor_store_parts.specs.Stored.{IsNumber};

use ballots::{Ballot, Place, Value};
pub use batch::put_rows;
pub use counting::{FIRST_COUNT, bytes_of_count, count_of, read_count, read_facts};
pub use declared::is_column;
pub use facts::{query_facts, read_owner};
pub use foreign::{has_facts, is_broken, is_foreign, is_unowned};
pub use learned::{are_rising, query_all_learned, read_learned};
pub use making::{Making, is_blank, make};
pub use opening::{both_numbers, read_numbers, version_of};
pub use owner::{Owner, bytes_of, owner_of, version_of_owner};
pub use reads::{Answer, find, query_all_votes, query_numbers, read_votes};
pub use rereading::{are_in_order, reread};
use sqlite::types::ValueRef;
use sqlite::{Alter, Connection, Error, ErrorCode};
use std::alloc::{AllocError, AllocFailed};
pub use writing::{Put, put_row};
pub use wrong::{NodeTable, WrongPart, has_wrong_learned, has_wrong_votes, wrong_part};

/// What tables there are: those of ballots and votes alone in the first version, that of learned
/// values beside them in the second, and in the third that of facts, which tells the owner. In the
/// fourth it has the count of transactions too.
#[derive(Clone, Copy, Debug, PartialEq, Eq)]
pub enum Version {
    First,
    Second,
    Third,
    Fourth,
}

fn signed(ballot: Ballot) -> i64
    ensures { result ≡ pos ballot }
{
    ballot.number() as i64
}

fn signed_place(place: Place) -> i64
    ensures value { result ≡ pos place }
    ensures fits { IsPlace place }
{
    place.number() as i64
}

/// What an error in a text without a statement tells: whether the connection is open.
fn tells_open(error: Error) -> Option<bool>
    ensures { result ≡ tells_open error }
{
    match error {
        Error::SqliteFailure(ErrorCode::OutOfMemory) => None,
        Error::SqliteFailure(ErrorCode::Closed) => Some(false),
        Error::SqliteFailure(ErrorCode::SystemIoFailure) => Some(false),
        Error::SqliteFailure(ErrorCode::DatabaseCorrupt) => Some(false),
        Error::SqliteFailure(ErrorCode::DiskFull) => Some(false),
        _ => Some(true),
    }
}

/// Whether the connection is open, and none where no memory was there to tell. It runs no statement,
/// and what it needs memory for is kept for the next time.
fn is_up<S: Alter>(conn: &mut Connection<S>) -> Option<bool>
    ensures up { HasCleanDisk (state S.Store conn.new) → result ≡ Some true → IsUnchanged (state S.Store conn.old) (state S.Store conn.new) }
    ensures shut { HasCleanDisk (state S.Store conn.new) → result ≡ Some false → IsShutBy (state S.Store conn.old) (state S.Store conn.new) }
    ensures survives { Survives (state S.Store conn.old) (state S.Store conn.new) (λ _. ⊥) }
{
    let Err(error) = conn.prepare("") else {
        return Some(true);
    };
    tells_open(error)
}

/// How a call ended that failed.
#[derive(Clone, Copy, Debug)]
pub enum Stop {
    /// Memory was refused, and the connection serves what it did.
    Memory,
    /// The store failed, and the connection serves what it did.
    Refused,
    /// The connection is shut, or has a row that no node wrote.
    Down,
}

impl From<AllocError> for Stop {
    ghost use Rattle.acceptor_store_parts.specs.declared.Stop.TheVariants.{Memory};

    ghost from_gives = { λ _ e. e ≡ Memory };

    fn from(_fault: AllocError) -> Stop {
        Stop::Memory
    }
}

impl<T: Drop> From<AllocFailed<T>> for Stop {
    ghost use Rattle.acceptor_store_parts.specs.declared.Stop.TheVariants.{Memory};

    ghost from_gives = { λ _ e. e ≡ Memory };

    fn from(_fault: AllocFailed<T>) -> Stop {
        Stop::Memory
    }
}

/// How an error is told: in Down where the connection isn't known to be open.
fn told_as(is_open: Option<bool>, error: Error) -> Stop
    ensures told { result ≡ told_as is_open error }
    ensures open { LeavesOpen result → is_open ≡ Some true }
{
    let Some(true) = is_open else {
        return Stop::Down;
    };
    match error {
        Error::SqliteFailure(ErrorCode::OutOfMemory) => Stop::Memory,
        _ => Stop::Refused,
    }
}

/// How the call ended that gave this error.
pub fn stop_for<S: Alter>(conn: &mut Connection<S>, error: Error) -> Stop
    ensures told { HasCleanDisk (state S.Store conn.new) → IsTold (state S.Store conn.old) (state S.Store conn.new) error result }
    ensures up { HasCleanDisk (state S.Store conn.new) → LeavesOpen result → IsUnchanged (state S.Store conn.old) (state S.Store conn.new) }
    ensures survives { Survives (state S.Store conn.old) (state S.Store conn.new) (λ _. ⊥) }
{
    let is_open = is_up(conn);
    told_as(is_open, error)
}

/// Runs a statement that shows no rows.
fn run<S: Alter>(conn: &mut Connection<S>, sql: &str, params: &[ValueRef<'_>]) -> Result<(), Stop>
    ensures ran { HasCleanDisk (state S.Store conn.new) → OnOk result ((count : ℕ)
        × Executes sql.now (bound params.now) (state S.Store conn.old) (state S.Store conn.new) (Ok count)) }
    ensures err { HasCleanDisk (state S.Store conn.new) → IfErr result (λ e. LeavesOpen e → StillServes (state S.Store conn.old) (state S.Store conn.new)) }
    ensures survives { Survives (state S.Store conn.old) (state S.Store conn.new) (CommitsBy sql.now (bound params.now) (state S.Store conn.old)) }
{
    match conn.execute(sql, params) {
        Ok(_) => Ok(()),
        Err(error) => Err(stop_for(conn, error)),
    }
}

/// The ballot of a number of the table, where 0 stands for none.
pub fn ballot_of(number: i64) -> Result<Option<Ballot>, Stop>
    ensures value { IfOk result (λ b. number ≡ pos (number_of b)) }
    ensures fits { IfOk result (λ b. IsNumber (number_of b)) }
    ensures err { IfErr result (λ e. e ≡ Stop.Down) }
    ensures none { OnErr result ((n : ℕ) → IsNumber n → number ≡ pos n → ⊥) }
{
    if number == 0 {
        return Ok(None);
    }
    if number < 0 {
        return Err(Stop::Down);
    }
    match Ballot::new(number as u64) {
        Some(ballot) => Ok(Some(ballot)),
        None => Err(Stop::Down),
    }
}
