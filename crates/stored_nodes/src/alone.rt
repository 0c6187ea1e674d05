//! Records over files whose database holds the node's tables by itself, without its log.

ghost use Rattle.std.specs.Prelude.{◌≡◌, ◌≢◌, IfErr, IfOk, IsTrue, OnOk, Some};
ghost use Rattle.acceptor.specs.Content.{Content, no_content};
ghost use Rattle.acceptor.specs.Found.{Holds};
ghost use Rattle.acceptor_store.specs.Linked.{IsHonest, MayFind, is_clean_in};
ghost use Rattle.acceptor_store_parts.specs.Serves.{ServesFor};
ghost use Rattle.acceptor_store_parts.specs.Tables.{blank_schema};
ghost use Rattle.sqlite.specs.Files.{file_state, over_files};
ghost use Rattle.sqlite.specs.State.{HasCleanDisk};
ghost use Rattle.stored_nodes.specs.Alone.{IsAlone, ReadsCopy};
ghost use Rattle.stored_nodes.specs.Kept.{IsOwnedAs};
ghost use Rattle.stored_nodes.specs.Lost.{IsNoLoss};

use crate::connection::{reopened, told};
use crate::start::StartFault;
use acceptor_store::{OpenFault, OwnerFault, SqlRecords};
use acceptor_store_parts::{Making, Owner, Stop};
use log_ties::Tie;
use sqlite::{Connection, Error as SqlError, ErrorCode, FileStore};
use sqlite_disk::{Disk, Tally};
use std::alloc::Global;

/// Why tables weren't made, where no schema refuses them.
fn unmade(stop: Stop) -> OwnerFault
    ensures memory { stop ≡ Stop.Memory → result ≡ OwnerFault.Open OpenFault.OutOfMemory }
    ensures broken { stop ≢ Stop.Memory → result ≡ OwnerFault.Open OpenFault.Broken }
{
    match stop {
        Stop::Memory => OwnerFault::Open(OpenFault::OutOfMemory),
        _ => OwnerFault::Open(OpenFault::Broken),
    }
}

/// Why a log wasn't copied.
fn uncopied(error: SqlError) -> OwnerFault
    ensures memory { error ≡ SqlError.SqliteFailure ErrorCode.OutOfMemory → result ≡ OwnerFault.Open OpenFault.OutOfMemory }
    ensures broken { error ≢ SqlError.SqliteFailure ErrorCode.OutOfMemory → result ≡ OwnerFault.Open OpenFault.Broken }
{
    match error {
        SqlError::SqliteFailure(ErrorCode::OutOfMemory) => OwnerFault::Open(OpenFault::OutOfMemory),
        _ => OwnerFault::Open(OpenFault::Broken),
    }
}

/// A connection, opened again over its files with all of the log copied into the database file.
fn copied<D: Disk + Drop>(
    alloc: Global,
    conn: Connection<FileStore<D>>,
    before: Tally,
) -> Result<Connection<FileStore<D>>, StartFault>
    ensures copied { IfOk result (λ c. HasCleanDisk (file_state c) → ReadsCopy conn c) }
    ensures no_loss { IfErr result IsNoLoss }
{
    match conn.close_files() {
        Ok(files) => reopened(alloc, files),
        Err((error, store)) => Err(told(uncopied(error), before, store.close().tally())),
    }
}

/// The connection with this owner's tables made in a database without any.
fn made<D: Disk + Drop>(
    conn: Connection<FileStore<D>>,
    owner: Owner,
    before: Tally,
) -> Result<Connection<FileStore<D>>, StartFault>
    ensures clean { IfOk result (λ c. HasCleanDisk (file_state c) → HasCleanDisk (file_state conn)) }
    ensures made { IfOk result (λ c. HasCleanDisk (file_state c) → (file_state conn).now.schema ≡ blank_schema
        → ServesFor (Some owner) (file_state c) no_content) }
    ensures no_loss { IfErr result IsNoLoss }
{
    match acceptor_store_parts::make(conn, Making::OwnedTables(owner)) {
        Ok(made) => Ok(made),
        Err((stop, store)) => Err(told(unmade(stop), before, store.close().tally())),
    }
}

/// A connection whose database file holds by itself what is committed, where no checkpoint was made yet.
fn settled<D: Disk + Drop>(
    alloc: Global,
    conn: Connection<FileStore<D>>,
    tie: Tie,
    before: Tally,
) -> Result<Connection<FileStore<D>>, StartFault>
    ensures same { tie ≡ Tie.Tied → IfOk result (λ c. c ≡ conn) }
    ensures copied { tie ≢ Tie.Tied → IfOk result (λ c. HasCleanDisk (file_state c) → ReadsCopy conn c) }
    ensures no_loss { IfErr result IsNoLoss }
{
    if tie == Tie::Tied {
        Ok(conn)
    } else {
        copied(alloc, conn, before)
    }
}

/// The records of this owner, in tables that are there.
fn opened_as<D: Disk + Drop>(
    alloc: Global,
    conn: Connection<FileStore<D>>,
    owner: Owner,
    before: Tally,
) -> Result<SqlRecords<FileStore<D>>, StartFault>
    ensures holds { IfOk result (λ r. IsHonest over_files r → (c : Content) × IsOwnedAs owner (file_state conn).committed.trees c
        × Holds (MayFind over_files r.owner r.held) c) }
    ensures owner { IfOk result (λ r. r.owner ≡ Some owner) }
    ensures clean { IfOk result (λ r. IsHonest over_files r → HasCleanDisk (file_state conn)) }
    ensures sure { IfOk result (λ r. IsTrue (is_clean_in over_files r.held) → IsHonest over_files r) }
    ensures no_loss { IfErr result IsNoLoss }
{
    match SqlRecords::open_as(alloc, conn, owner.node, owner.members, false) {
        Ok(records) => Ok(records),
        Err((fault, store)) => Err(told(fault, before, store.close().tally())),
    }
}

/// Why no new records are made where there are tables: they are this owner's, or they can't be opened as such.
fn taken<D: Disk + Drop>(
    alloc: Global,
    conn: Connection<FileStore<D>>,
    owner: Owner,
    before: Tally,
) -> StartFault
    ensures { IsNoLoss result }
{
    match opened_as(alloc, conn, owner, before) {
        Ok(_records) => StartFault::NotFresh,
        Err(fault) => fault,
    }
}

/// Records of this owner in tables that are made where there are none. The database file gets them by itself, and only
/// then they are opened.
fn made_records<D: Disk + Drop>(
    alloc: Global,
    conn: Connection<FileStore<D>>,
    owner: &Owner,
    before: Tally,
) -> Result<SqlRecords<FileStore<D>>, StartFault>
    ensures holds { (file_state conn).now.schema ≡ blank_schema
        → IfOk result (λ r. IsHonest over_files r → Holds (MayFind over_files r.owner r.held) no_content × IsAlone D.Disk owner.now no_content) }
    ensures owner { IfOk result (λ r. r.owner ≡ Some owner.now) }
    ensures clean { IfOk result (λ r. IsHonest over_files r → HasCleanDisk (file_state conn)) }
    ensures sure { IfOk result (λ r. IsTrue (is_clean_in over_files r.held) → IsHonest over_files r) }
    ensures no_loss { IfErr result IsNoLoss }
{
    let filled = made(conn, *owner, before)?;
    let again = copied(alloc, filled, before)?;
    opened_as(alloc, again, *owner, before)
}

/// New records of this owner, where the connection has no tables. Where it has some, why there are none.
pub(crate) fn new_records<D: Disk + Drop>(
    alloc: Global,
    conn: Connection<FileStore<D>>,
    owner: Owner,
    before: Tally,
) -> Result<SqlRecords<FileStore<D>>, StartFault>
    ensures holds { IfOk result (λ r. IsHonest over_files r
        → Holds (MayFind over_files r.owner r.held) no_content × IsAlone D.Disk owner no_content) }
    ensures blank { OnOk result ((file_state conn).now.schema ≡ blank_schema) }
    ensures owner { IfOk result (λ r. r.owner ≡ Some owner) }
    ensures clean { IfOk result (λ r. IsHonest over_files r → HasCleanDisk (file_state conn)) }
    ensures sure { IfOk result (λ r. IsTrue (is_clean_in over_files r.held) → IsHonest over_files r) }
    ensures no_loss { IfErr result IsNoLoss }
{
    if acceptor_store_parts::is_blank(conn.schema()) {
        made_records(alloc, conn, &owner, before)
    } else {
        Err(taken(alloc, conn, owner, before))
    }
}

/// The records of this owner that the connection has. Where all of them may be in the log alone, the database file gets
/// them by itself before they are opened.
pub(crate) fn old_records<D: Disk + Drop>(
    alloc: Global,
    conn: Connection<FileStore<D>>,
    tie: Tie,
    owner: Owner,
    before: Tally,
) -> Result<SqlRecords<FileStore<D>>, StartFault>
    ensures holds { IfOk result (λ r. IsHonest over_files r → (c : Content) × IsOwnedAs owner (file_state conn).committed.trees c
        × Holds (MayFind over_files r.owner r.held) c × (tie ≢ Tie.Tied → IsAlone D.Disk owner c)) }
    ensures owner { IfOk result (λ r. r.owner ≡ Some owner) }
    ensures clean { IfOk result (λ r. IsHonest over_files r → HasCleanDisk (file_state conn)) }
    ensures sure { IfOk result (λ r. IsTrue (is_clean_in over_files r.held) → IsHonest over_files r) }
    ensures no_loss { IfErr result IsNoLoss }
{
    if acceptor_store_parts::is_blank(conn.schema()) {
        return Err(StartFault::Unopened(OwnerFault::Blank));
    }
    let again = settled(alloc, conn, tie, before)?;
    opened_as(alloc, again, owner, before)
}
