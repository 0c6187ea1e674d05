//! What an open of a copy of a node's files in memory tells of them.

ghost use Rattle.std.specs.Prelude.{◌≡◌, ◌≢◌, ◌⊎◌, ◌<◌, IfErr, IfOk, IsTrue, false, true};
ghost use Rattle.acceptor.specs.Content.{Content, no_content};
ghost use Rattle.acceptor.specs.Found.{Holds};
ghost use Rattle.acceptor_store.specs.Linked.{IsHonest, MayFind};
ghost use Rattle.acceptor_store_parts.specs.Foreign.{IsUnowned};
ghost use Rattle.ballots.specs.Members.{member_count};
ghost use Rattle.sqlite.specs.Files.{file_state, image_of, IsOpened};
ghost use Rattle.sqlite.specs.Held.{state};
ghost use Rattle.sqlite.specs.State.{Opens};
ghost use Rattle.stored_nodes.specs.Looks.{AlwaysClean, IsNoDatabase, IsOtherSchema, IsRead, IsToldIn, IsToldOf};
ghost use Rattle.stored_nodes.specs.Lost.{NeverLies};
ghost use Rattle.stored_nodes.specs.States.{IsTold};

use crate::fresh::begun_with;
use crate::start::StartFault;
use crate::states::{Told, told_owned, told_refused, told_unowned};
use acceptor_store::{OpenFault, OwnerFault, SqlRecords};
use ballots::{Members, NodeId};
use sqlite::{Connection, Error as SqlError, ErrorCode, FileStore, Files, Options};
use sqlite_disk::{Disk, Tally};
use sqlite_schema::schema::Schema;
use std::alloc::{AllocError, Global};
use store_anew::OpensAnew;

// The salts of a log need no secret here.
const SEED: u64 = 0x5eed;

/// Why a copy in memory couldn't be opened: for what it is, or for want of memory. A call of it fails for that alone.
fn unread(error: SqlError, before: Tally, since: Tally) -> OpenFault
    ensures { (result ≡ OpenFault.OutOfMemory) ⊎ ((result ≡ OpenFault.Refused) × ((error ≡ SqlError.SqliteFailure ErrorCode.NotADatabase)
        ⊎ ((error ≡ SqlError.SqliteFailure ErrorCode.DatabaseCorrupt) × (since.caught ≡ before.caught)))) }
{
    match error {
        SqlError::SqliteFailure(ErrorCode::NotADatabase) => OpenFault::Refused,
        SqlError::SqliteFailure(ErrorCode::DatabaseCorrupt) => {
            if since.caught == before.caught {
                OpenFault::Refused
            } else {
                OpenFault::OutOfMemory
            }
        }
        _ => OpenFault::OutOfMemory,
    }
}

/// The connection over a copy.
pub(crate) fn opened_copy<D: Disk + Drop>(
    alloc: Global,
    files: Files<D>,
) -> Result<Connection<FileStore<D>>, OpenFault>
    requires log { IsTrue (D.Disk.is_usable files.log) }
    requires db { IsTrue (D.Disk.is_usable files.db) }
    ensures opened { NeverLies D.Disk → IfOk result IsOpened }
    ensures read { NeverLies D.Disk → IfOk result (λ conn. IsRead (image_of D.Disk files) (file_state conn).now) }
    ensures unread { NeverLies D.Disk
        → IfErr result (λ e. (e ≡ OpenFault.OutOfMemory) ⊎ ((e ≡ OpenFault.Refused) × IsNoDatabase (image_of D.Disk files))) }
{
    let before = files.tally();
    match Connection::open_files(alloc, files, Options::new(SEED)) {
        Ok(conn) => Ok(conn),
        Err((error, left)) => Err(unread(error, before, left.into_files().tally())),
    }
}

/// Whether the tables are those of a version, or none.
fn is_known(alloc: Global, schema: &Schema) -> Result<bool, AllocError>
    ensures { IfOk result (λ known. known ≡ false → IsOtherSchema schema.now) }
{
    if acceptor_store_parts::is_blank(schema) {
        return Ok(true);
    }
    let version = acceptor_store_parts::version_of(alloc, schema)?;
    Ok(version.is_some())
}

/// Whether the records of a copy hold nothing. They can't be read for want of memory alone.
fn hold_nothing<S: OpensAnew>(
    alloc: Global,
    records: SqlRecords<S>,
    id: NodeId,
    members: Members,
) -> Result<bool, StartFault>
    requires member { id < member_count members }
    requires certain { IsHonest S.Store records → (c : Content) × Holds (MayFind S.Store records.owner records.held) c }
    ensures nothing { AlwaysClean S.Store → IfOk result (λ is. (c : Content) → Holds (MayFind S.Store records.owner records.held) c
        → (is ≡ true → c ≡ no_content) × (is ≡ false → c ≢ no_content)) }
    ensures memory { IfErr result (λ e. e ≡ StartFault.OutOfMemory) }
{
    match begun_with(alloc, id, members, records) {
        Ok(_node) => Ok(true),
        Err(StartFault::NotFresh) => Ok(false),
        Err(_) => Err(StartFault::OutOfMemory),
    }
}

/// What an open for this node as one of these members tells, of a connection to a copy.
fn told_as_owned<S: OpensAnew>(
    alloc: Global,
    conn: Connection<S>,
    id: NodeId,
    members: Members,
) -> Told
    requires { id < member_count members }
    ensures { AlwaysClean S.Store → Opens (state S.Store conn) → (IsUnowned (state S.Store conn).now.schema → ⊥)
        → IsTold (IsToldOf (record { node = id; members = members }) (state S.Store conn).now) result }
{
    let Ok(is_known) = is_known(alloc, conn.schema()) else {
        return Told::Memory;
    };
    match SqlRecords::open_as(alloc, conn, id, members, false) {
        Ok(records) => told_owned(hold_nothing(alloc, records, id, members)),
        Err((fault, _store)) => told_refused(fault, is_known),
    }
}

/// What an open for nobody tells, of a connection to a copy with tables that have no owner.
fn told_as_unowned<S: OpensAnew>(
    alloc: Global,
    conn: Connection<S>,
    id: NodeId,
    members: Members,
) -> Told
    requires { id < member_count members }
    ensures { AlwaysClean S.Store → Opens (state S.Store conn) → IsUnowned (state S.Store conn).now.schema
        → IsTold (IsToldOf (record { node = id; members = members }) (state S.Store conn).now) result }
{
    let Ok(is_known) = is_known(alloc, conn.schema()) else {
        return Told::Memory;
    };
    match SqlRecords::open(alloc, conn) {
        Ok(records) => told_unowned(hold_nothing(alloc, records, id, members)),
        Err((fault, _store)) => told_refused(OwnerFault::Open(fault), is_known),
    }
}

/// What an open tells of a connection to a copy: for nobody where its tables have no owner, and else for this node as
/// one of these members.
fn told_over<S: OpensAnew>(alloc: Global, conn: Connection<S>, id: NodeId, members: Members) -> Told
    requires { id < member_count members }
    ensures { AlwaysClean S.Store → Opens (state S.Store conn)
        → IsTold (IsToldOf (record { node = id; members = members }) (state S.Store conn).now) result }
{
    if acceptor_store_parts::is_unowned(conn.schema()) {
        told_as_unowned(alloc, conn, id, members)
    } else {
        told_as_owned(alloc, conn, id, members)
    }
}

/// What an open of a copy tells of it, for this node as one of these members.
pub(crate) fn told_copy<D: Disk + Drop>(
    alloc: Global,
    files: Files<D>,
    id: NodeId,
    members: Members,
) -> Told
    requires member { id < member_count members }
    requires log { IsTrue (D.Disk.is_usable files.log) }
    requires db { IsTrue (D.Disk.is_usable files.db) }
    ensures { NeverLies D.Disk → IsTold (IsToldIn (image_of D.Disk files) (record { node = id; members = members })) result }
{
    match opened_copy(alloc, files) {
        Ok(conn) => told_over(alloc, conn, id, members),
        Err(fault) => told_refused(OwnerFault::Open(fault), false),
    }
}
