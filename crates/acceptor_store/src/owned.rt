//! Records that have an owner: whose file it is stands in the file.

ghost use Rattle.std.specs.Prelude.{◌≡◌, ◌≢◌, ◌≤◌, ◌⊎◌, ℕ, Bool, Err, None, Option, false, IfErr, IfNone, IfOk, IfSome, IsErrAnd, OnOk};
ghost use Rattle.std.specs.Prelude.{IsTrue, Some};
ghost use Rattle.acceptor.specs.Content.{Content};
ghost use Rattle.acceptor.specs.Found.{Holds};
ghost use Rattle.sqlite.specs.State.{HasCleanDisk, IsUnchanged, Survives};
ghost use Rattle.sqlite.specs.Tree.{Trees};
ghost use Rattle.sqlite.specs.Held.{state};
ghost use Rattle.sqlite_trees.specs.View.{IsClean, doubt};
ghost use Rattle.acceptor_store_parts.specs.Foreign.{HoldsNoneOwned, IsBroken, IsUnowned};
ghost use Rattle.acceptor_store_parts.specs.Owned.{AreTablesFor, IsOwner, NamesOwner};
ghost use Rattle.acceptor_store_parts.specs.Rowids.{AreByRowid, IsReread};
ghost use Rattle.acceptor_store_parts.specs.Tables.{blank_schema, schema_of};
ghost use Rattle.acceptor_store.specs.Linked.{FailsAnew, HasStopped, IsHonest, MayFind, is_clean_in};
ghost use Rattle.acceptor_store.specs.Owning.{AdoptsFor, Claims, CountsFor, ExaminesFor, FindsFor, HadAs, HadBefore};
ghost use Rattle.acceptor_store.specs.Owning.{HadFor, HasFurtherAs, IsDue, IsDueBefore, IsLeftAs, IsLeftBefore};
ghost use Rattle.acceptor_store.specs.Owning.{IsOthers, IsRefusedBefore, IsRefusedFor, IsToCount, IsToldOther, NamesAt};
ghost use Rattle.acceptor_store.specs.Owning.{IsCountRead, NamesNone, PreparesFor, ShowsAt, TellsOther, version_read};

use crate::known::Numbers;
use crate::opening::{examined, is_of, prepared, stopped};
use crate::{OpenFault, SqlRecords};
use acceptor_store_parts::{FIRST_COUNT, Making, Owner, Version};
use ballots::{Members, NodeId};
use sqlite::{Alter, Connection, Row};
use sqlite_schema::schema::Schema;
use std::alloc::Global;
use store_anew::OpensAnew;
use thiserror::Error;

/// Why records weren't opened for their owner.
#[derive(Clone, Copy, Debug, PartialEq, Eq, Error)]
pub enum OwnerFault {
    /// As `SqlRecords::open` says it. Foreign are tables of versions 3 and 4 too that no owner wrote.
    #[error(transparent)]
    Open(OpenFault),
    /// There are no tables, and the database may not be new.
    #[error("Blank")]
    Blank,
    /// The tables have no owner. `SqlRecords::adopt` gives them one.
    #[error("Unowned")]
    Unowned,
    /// Another node is the owner: this one.
    #[error("OtherNode")]
    OtherNode(Owner),
    /// The node is the owner, as one of other members: of these.
    #[error("OtherMembers")]
    OtherMembers(Owner),
}

impl From<OpenFault> for OwnerFault {
    ghost use Rattle.acceptor_store.specs.declared.owned.OwnerFault.TheVariants.{Open};

    ghost from_gives = { λ fault given. given ≡ Open fault };

    fn from(fault: OpenFault) -> OwnerFault {
        OwnerFault::Open(fault)
    }
}

/// What is wrong with the owner that was found, where it isn't the one that is wanted.
fn differs(found: Owner, wanted: Owner) -> Option<OwnerFault>
    ensures same { IfNone result (found ≡ wanted) }
    ensures other { IfSome result (IsToldOther wanted found) }
{
    if found.node != wanted.node {
        return Some(OwnerFault::OtherNode(found));
    }
    if found.members != wanted.members {
        return Some(OwnerFault::OtherMembers(found));
    }
    None
}

/// Refuses any schema but that of versions 3 and 4.
fn judged(alloc: Global, schema: &Schema) -> Result<(), OwnerFault>
    ensures broken { IsBroken schema.now → result ≡ Err (OwnerFault.Open OpenFault.Foreign) }
    ensures unowned { IsUnowned schema.now → result ≡ Err OwnerFault.Unowned }
    ensures further { (IsBroken schema.now → ⊥) → (IsUnowned schema.now → ⊥) → schema.now ≢ schema_of Version.Third
        → IsErrAnd result (λ e. (e ≡ OwnerFault.Open OpenFault.Refused) ⊎ (e ≡ OwnerFault.Open OpenFault.OutOfMemory)) }
    ensures own { OnOk result (schema.now ≡ schema_of Version.Third) }
    ensures due { IfErr result (λ e. ((e ≡ OwnerFault.Open OpenFault.Foreign) × IsBroken schema.now) ⊎ (((e ≡ OwnerFault.Unowned) × IsUnowned schema.now)
        ⊎ ((e ≡ OwnerFault.Open OpenFault.Refused) ⊎ (e ≡ OwnerFault.Open OpenFault.OutOfMemory)))) }
    ensures refused { result ≡ Err (OwnerFault.Open OpenFault.Refused) → (IsBroken schema.now → ⊥) × (IsUnowned schema.now → ⊥)
        × (schema.now ≢ schema_of Version.Third) }
{
    if acceptor_store_parts::is_broken(schema) {
        return Err(OwnerFault::Open(OpenFault::Foreign));
    }
    if acceptor_store_parts::is_unowned(schema) {
        return Err(OwnerFault::Unowned);
    }
    if is_of(alloc, schema, Version::Third)? {
        Ok(())
    } else {
        Err(OwnerFault::Open(OpenFault::Refused))
    }
}

/// The owner and the count that the rows of facts show, or the owner alone as in version 3.
fn named(rows: &[Row]) -> Option<(Owner, Option<u64>)>
    ensures some { IfSome result (λ r. ShowsAt rows.now r.0 r.1) }
    ensures fits { IfSome result (λ r. IsOwner r.0 × IsCountRead r.1) }
    ensures none { IfNone result ((owner : Owner) (count : Option ℕ) → IsOwner owner → ShowsAt rows.now owner count → ⊥) }
{
    if let Some((owner, count)) = acceptor_store_parts::read_facts(rows) {
        return Some((owner, Some(count)));
    }
    let owner = acceptor_store_parts::read_owner(rows)?;
    Some((owner, None))
}

/// The owner and the count, where the table of facts has what an owner writes.
fn owner_in<S: Alter>(conn: &mut Connection<S>) -> Result<(Owner, Option<u64>), OpenFault>
    ensures held { HasCleanDisk (state S.Store conn.new) → IfOk result (λ r. AreByRowid Version.Third (state S.Store conn.old)
        → NamesAt r.0 r.1 (state S.Store conn.old).now.trees) }
    ensures only { HasCleanDisk (state S.Store conn.new) → (state S.Store conn.old).now.schema ≡ schema_of Version.Third
        → IfOk result (λ r. NamesNone r.1 (state S.Store conn.old).now.trees) }
    ensures fits { IfOk result (λ r. IsOwner r.0) }
    ensures same { HasCleanDisk (state S.Store conn.new) → (state S.Store conn.old).now.schema ≡ schema_of Version.Third
        → OnOk result (IsUnchanged (state S.Store conn.old) (state S.Store conn.new)) }
    ensures foreign { HasCleanDisk (state S.Store conn.new) → result ≡ Err OpenFault.Foreign → (state S.Store conn.old).now.schema ≡ schema_of Version.Third
        → (owner : Owner) → IsOwner owner → NamesOwner owner (state S.Store conn.old).now.trees → ⊥ }
    ensures refused { HasCleanDisk (state S.Store conn.new) → (state S.Store conn.old).now.schema ≡ schema_of Version.Third → result ≡ Err OpenFault.Refused
        → HasStopped (state S.Store conn.old) (state S.Store conn.new) }
    ensures survives { Survives (state S.Store conn.old) (state S.Store conn.new) (λ _. (state S.Store conn.old).now.schema ≡ schema_of Version.Third → ⊥) }
{
    let shown = match acceptor_store_parts::query_facts(conn) {
        Ok(shown) => shown,
        Err(error) => return Err(stopped(acceptor_store_parts::stop_for(conn, error))),
    };
    match named(shown.as_slice()) {
        Some(found) => Ok(found),
        None => Err(OpenFault::Foreign),
    }
}

/// The version of tables with such a count: without one it is 3.
fn version_read(count: Option<u64>) -> Version
    ensures { result ≡ version_read count }
{
    match count {
        None => Version::Third,
        Some(_) => Version::Fourth,
    }
}

/// Tests the rows of version 3 or 4, and gives the owner and their numbers.
fn examined_owned<S: Alter>(
    alloc: Global,
    conn: &mut Connection<S>,
) -> Result<(Owner, Numbers), OpenFault>
    ensures tables { HasCleanDisk (state S.Store conn.new) → (state S.Store conn.old).now.schema ≡ schema_of Version.Third
        → IfOk result (λ r. ExaminesFor S.Store r.0 conn.old conn.new r.1) }
    ensures foreign { HasCleanDisk (state S.Store conn.new) → (state S.Store conn.old).now.schema ≡ schema_of Version.Third → result ≡ Err OpenFault.Foreign
        → IsReread Version.Third (state S.Store conn.old) → HoldsNoneOwned (state S.Store conn.old).now.trees }
    ensures refused { HasCleanDisk (state S.Store conn.new) → (state S.Store conn.old).now.schema ≡ schema_of Version.Third → result ≡ Err OpenFault.Refused
        → HasStopped (state S.Store conn.old) (state S.Store conn.new) }
    ensures survives { Survives (state S.Store conn.old) (state S.Store conn.new) (λ _. (state S.Store conn.old).now.schema ≡ schema_of Version.Third → ⊥) }
{
    let (owner, count) = match owner_in(conn) {
        Ok(found) => found,
        Err(fault) => return Err(fault),
    };
    match examined(alloc, conn, version_read(count)) {
        Ok(numbers) => Ok((owner, numbers.at(count))),
        Err(fault) => Err(fault),
    }
}

/// The connection over its own store, with the rows of version 3 or 4 tested, the owner and their
/// numbers.
fn reread_owned<S: Alter + Drop>(
    alloc: Global,
    conn: Connection<S>,
) -> Result<(Connection<S>, Owner, Numbers), (OpenFault, S)>
    ensures tables { IfOk result (λ r. HasCleanDisk (state S.Store r.0) → (state S.Store conn).now.schema ≡ schema_of Version.Third
        → FindsFor S.Store r.1 conn r.0 r.2) }
    ensures clean { IfOk result (λ r. doubt (state S.Store conn).is_clean ≤ doubt (state S.Store r.0).is_clean) }
    ensures leaves { IfOk result (λ r. HasCleanDisk (state S.Store r.0) → (db : Trees) → (state S.Store r.0).may_leave db → (state S.Store conn).may_leave db) }
    ensures left { IfErr result (λ e. IsClean (S.Store.view e.1) → (db : Trees) → S.Store.recovers e.1 db → (state S.Store conn).may_leave db) }
    ensures foreign { IfErr result (λ e. e.0 ≡ OpenFault.Foreign → IsClean (S.Store.view e.1) → HoldsNoneOwned (state S.Store conn).committed.trees) }
    ensures refused { IfErr result (λ e. e.0 ≡ OpenFault.Refused → IsClean (S.Store.view e.1) → FailsAnew S.Store Version.Third conn e.1) }
{
    // Over the store the rows stand by rowid, which no other call tells.
    let mut again = match acceptor_store_parts::reread(alloc, Version::Third, conn) {
        Ok(again) => again,
        Err((stop, store)) => return Err((stopped(stop), store)),
    };
    match is_of(alloc, again.schema(), Version::Third) {
        Ok(true) => {}
        Ok(false) => return Err((OpenFault::Broken, again.into_store())),
        Err(fault) => return Err((fault, again.into_store())),
    }
    match examined_owned(alloc, &mut again) {
        Ok((owner, numbers)) => Ok((again, owner, numbers)),
        Err(fault) => Err((fault, again.into_store())),
    }
}

/// The connection over the tables that were read, and their numbers, where they are this owner's.
fn claimed<S: Alter + Drop>(
    read: Result<(Connection<S>, Owner, Numbers), (OpenFault, S)>,
    owner: Owner,
) -> Result<(Connection<S>, Numbers), (OwnerFault, S)>
    ensures { Claims S.Store owner read result }
{
    let (again, found, numbers) = match read {
        Ok(found) => found,
        Err((fault, store)) => return Err((OwnerFault::Open(fault), store)),
    };
    match differs(found, owner) {
        None => Ok((again, numbers)),
        Some(fault) => Err((fault, again.into_store())),
    }
}

/// The connection over this owner's tables of version 4, made of those of version 3 where they have no count, and their
/// numbers.
fn counted<S: Alter + Drop>(
    read: (Connection<S>, Numbers),
    owner: Owner,
) -> Result<(Connection<S>, Numbers), (OwnerFault, S)>
    ensures tables { IfOk result (λ r. HasCleanDisk (state S.Store r.0) → HasCleanDisk (state S.Store read.0)
        × ((conn : _) → FindsFor S.Store owner conn read.0 read.1 → CountsFor S.Store owner conn r.0 r.1)) }
    ensures clean { IfOk result (λ r. doubt (state S.Store read.0).is_clean ≤ doubt (state S.Store r.0).is_clean) }
    ensures left { IfErr result (λ e. IsClean (S.Store.view e.1) → HasCleanDisk (state S.Store read.0)
        × ((conn : _) → FindsFor S.Store owner conn read.0 read.1 → (db : Trees) → S.Store.recovers e.1 db
        → (state S.Store read.0).may_leave db ⊎ ((c : Content) × HadFor S.Store owner conn c × AreTablesFor (Some owner) db c))) }
    ensures due { IfErr result (λ e. (conn : _) (is_new : Bool) → IsDue S.Store owner is_new conn e.0) }
    ensures refused { IfErr result (λ e. IsClean (S.Store.view e.1) → HasCleanDisk (state S.Store read.0)
        × ((conn : _) → FindsFor S.Store owner conn read.0 read.1 → IsToCount S.Store owner conn)) }
{
    match read.1.count {
        Some(_) => Ok(read),
        None => match acceptor_store_parts::make(read.0, Making::Counted(owner)) {
            Ok(made) => Ok((made, read.1.at(Some(FIRST_COUNT)))),
            Err((stop, store)) => Err((OwnerFault::Open(stopped(stop)), store)),
        },
    }
}

/// The connection over this owner's tables that are there, and their numbers.
fn taken_for<S: Alter + Drop>(
    alloc: Global,
    conn: Connection<S>,
    owner: &Owner,
) -> Result<(Connection<S>, Numbers), (OwnerFault, S)>
    requires { (state S.Store conn).now.schema ≡ schema_of Version.Third }
    ensures tables { IfOk result (λ r. HasCleanDisk (state S.Store r.0) → CountsFor S.Store owner.now conn r.0 r.1) }
    ensures clean { IfOk result (λ r. doubt (state S.Store conn).is_clean ≤ doubt (state S.Store r.0).is_clean) }
    ensures whole { IfErr result (λ e. IsClean (S.Store.view e.1) → (db : Trees) → S.Store.recovers e.1 db
        → (state S.Store conn).may_leave db ⊎ ((c : Content) × HadFor S.Store owner.now conn c × AreTablesFor (Some owner.now) db c)) }
    ensures due { IfErr result (λ e. IsClean (S.Store.view e.1) → (is_new : Bool) → IsDue S.Store owner.now is_new conn e.0) }
    ensures refused { IfErr result (λ e. e.0 ≡ OwnerFault.Open OpenFault.Refused → IsClean (S.Store.view e.1)
        → IsToCount S.Store owner.now conn ⊎ FailsAnew S.Store Version.Third conn e.1) }
{
    match claimed(reread_owned(alloc, conn), *owner) {
        Ok(read) => counted(read, *owner),
        Err(refused) => Err(refused),
    }
}

/// The connection with this owner's tables tested or made, and their numbers.
fn prepared_for<S: Alter + Drop>(
    alloc: Global,
    conn: Connection<S>,
    owner: &Owner,
    is_new: bool,
) -> Result<(Connection<S>, Numbers), (OwnerFault, S)>
    ensures tables { IfOk result (λ r. HasCleanDisk (state S.Store r.0) → PreparesFor S.Store owner.now is_new conn r.0 r.1) }
    ensures clean { IfOk result (λ r. doubt (state S.Store conn).is_clean ≤ doubt (state S.Store r.0).is_clean) }
    ensures whole { IfErr result (λ e. IsClean (S.Store.view e.1) → (db : Trees) → S.Store.recovers e.1 db → IsLeftAs S.Store owner.now is_new conn db) }
    ensures due { IfErr result (λ e. IsClean (S.Store.view e.1) → IsDue S.Store owner.now is_new conn e.0) }
    ensures refused { IfErr result (λ e. e.0 ≡ OwnerFault.Open OpenFault.Refused → IsClean (S.Store.view e.1) → IsRefusedFor S.Store owner.now conn e.1) }
    ensures used { IsTrue (state S.Store conn).in_transaction → IsErrAnd result (λ e. e.0 ≡ OwnerFault.Open OpenFault.Refused) }
    ensures blank { (state S.Store conn).in_transaction ≡ false → (state S.Store conn).now.schema ≡ blank_schema → is_new ≡ false
        → IsErrAnd result (λ e. e.0 ≡ OwnerFault.Blank) }
    ensures broken { (state S.Store conn).in_transaction ≡ false → IsBroken (state S.Store conn).now.schema
        → IsErrAnd result (λ e. e.0 ≡ OwnerFault.Open OpenFault.Foreign) }
    ensures unowned { (state S.Store conn).in_transaction ≡ false → IsUnowned (state S.Store conn).now.schema
        → IsErrAnd result (λ e. e.0 ≡ OwnerFault.Unowned) }
    ensures further { (state S.Store conn).in_transaction ≡ false → HasFurtherAs (state S.Store conn).now.schema
        → IsErrAnd result (λ e. (e.0 ≡ OwnerFault.Open OpenFault.Refused) ⊎ (e.0 ≡ OwnerFault.Open OpenFault.OutOfMemory)) }
{
    if !conn.is_autocommit() {
        return Err((OwnerFault::Open(OpenFault::Refused), conn.into_store()));
    }
    if acceptor_store_parts::is_blank(conn.schema()) {
        if !is_new {
            return Err((OwnerFault::Blank, conn.into_store()));
        }
        return match acceptor_store_parts::make(conn, Making::OwnedTables(*owner)) {
            Ok(made) => Ok((made, Numbers::none(Some(FIRST_COUNT)))),
            Err((stop, store)) => Err((OwnerFault::Open(stopped(stop)), store)),
        };
    }
    match judged(alloc, conn.schema()) {
        Ok(()) => taken_for(alloc, conn, owner),
        Err(fault) => Err((fault, conn.into_store())),
    }
}

/// The connection over this owner's tables, where it had those of an older version or this owner's,
/// and their numbers.
fn adopted<S: Alter + Drop>(
    alloc: Global,
    conn: Connection<S>,
    owner: &Owner,
) -> Result<(Connection<S>, Numbers), (OwnerFault, S)>
    ensures tables { IfOk result (λ r. HasCleanDisk (state S.Store r.0) → AdoptsFor S.Store owner.now conn r.0 r.1) }
    ensures clean { IfOk result (λ r. doubt (state S.Store conn).is_clean ≤ doubt (state S.Store r.0).is_clean) }
    ensures whole { IfErr result (λ e. IsClean (S.Store.view e.1) → (db : Trees) → S.Store.recovers e.1 db → IsLeftBefore S.Store owner.now conn db) }
    ensures due { IfErr result (λ e. IsClean (S.Store.view e.1) → IsDueBefore S.Store owner.now conn e.0) }
    ensures refused { IfErr result (λ e. e.0 ≡ OwnerFault.Open OpenFault.Refused → IsClean (S.Store.view e.1) → IsRefusedBefore S.Store owner.now conn e.1) }
    ensures used { IsTrue (state S.Store conn).in_transaction → IsErrAnd result (λ e. e.0 ≡ OwnerFault.Open OpenFault.Refused) }
    ensures blank { (state S.Store conn).in_transaction ≡ false → (state S.Store conn).now.schema ≡ blank_schema
        → IsErrAnd result (λ e. e.0 ≡ OwnerFault.Blank) }
{
    if !conn.is_autocommit() {
        return Err((OwnerFault::Open(OpenFault::Refused), conn.into_store()));
    }
    if acceptor_store_parts::is_blank(conn.schema()) {
        return Err((OwnerFault::Blank, conn.into_store()));
    }
    if acceptor_store_parts::has_facts(conn.schema()) {
        return prepared_for(alloc, conn, owner, false);
    }
    let found = match prepared(alloc, conn) {
        Ok(found) => found,
        Err((fault, store)) => return Err((OwnerFault::Open(fault), store)),
    };
    match acceptor_store_parts::make(found.0, Making::Owned(*owner)) {
        Ok(owned) => Ok((owned, found.1.at(Some(FIRST_COUNT)))),
        Err((stop, store)) => Err((OwnerFault::Open(stopped(stop)), store)),
    }
}

impl<S: OpensAnew> SqlRecords<S> {
    /// The records of a node that is one of these members, over the connection, in tables of version
    /// 4. In a database without tables they are made, in one transaction, where it may be new. This
    /// owner's tables of version 3 are made into them with equal content, in one transaction, and
    /// get the first count.
    ///
    /// A connection in a transaction is Refused, before anything else is looked at. Then a database
    /// without tables that may not be new is Blank. A schema that has a part of the tables, or one
    /// that lacks a column, is Foreign, one of version 1 or 2 is Unowned, and any other than that of
    /// versions 3 and 4 is Refused. Last, rows that no owner wrote are Foreign, those of another node
    /// OtherNode, and those of the node as one of other members OtherMembers; nothing was changed
    /// then.
    ///
    /// Want of memory and faults of the store come where they are met. Where it fails the store
    /// comes back, and holds what it held, or this owner's tables of version 4 with what it held.
    pub fn open_as(
        alloc: Global,
        conn: Connection<S>,
        node: NodeId,
        members: Members,
        is_new: bool,
    ) -> Result<SqlRecords<S>, (OwnerFault, S)>
        ensures holds { IfOk result (λ r. IsHonest S.Store r → (c : Content) × HadAs S.Store (record { node = node; members = members }) is_new conn c
            × Holds (MayFind S.Store r.owner r.held) c) }
        ensures owner { IfOk result (λ r. r.owner ≡ Some (record { node = node; members = members })) }
        ensures clean { IfOk result (λ r. IsHonest S.Store r → HasCleanDisk (state S.Store conn)) }
        ensures sure { IfOk result (λ r. IsTrue (is_clean_in S.Store r.held) → IsHonest S.Store r) }
        ensures whole { IfErr result (λ e. IsClean (S.Store.view e.1) → (db : Trees) → S.Store.recovers e.1 db
            → IsLeftAs S.Store (record { node = node; members = members }) is_new conn db) }
        ensures due { IfErr result (λ e. IsClean (S.Store.view e.1) → IsDue S.Store (record { node = node; members = members }) is_new conn e.0) }
        ensures refused { IfErr result (λ e. e.0 ≡ OwnerFault.Open OpenFault.Refused → IsClean (S.Store.view e.1)
            → IsRefusedFor S.Store (record { node = node; members = members }) conn e.1) }
        ensures used { IsTrue (state S.Store conn).in_transaction → IsErrAnd result (λ e. e.0 ≡ OwnerFault.Open OpenFault.Refused) }
        ensures other { (other : Owner) → IsOthers S.Store (record { node = node; members = members }) conn other
            → TellsOther S.Store (record { node = node; members = members }) conn other result }
        ensures blank { (state S.Store conn).in_transaction ≡ false → (state S.Store conn).now.schema ≡ blank_schema → is_new ≡ false
            → IsErrAnd result (λ e. e.0 ≡ OwnerFault.Blank) }
        ensures broken { (state S.Store conn).in_transaction ≡ false → IsBroken (state S.Store conn).now.schema
            → IsErrAnd result (λ e. e.0 ≡ OwnerFault.Open OpenFault.Foreign) }
        ensures unowned { (state S.Store conn).in_transaction ≡ false → IsUnowned (state S.Store conn).now.schema
            → IsErrAnd result (λ e. e.0 ≡ OwnerFault.Unowned) }
        ensures further { (state S.Store conn).in_transaction ≡ false → HasFurtherAs (state S.Store conn).now.schema
            → IsErrAnd result (λ e. (e.0 ≡ OwnerFault.Open OpenFault.Refused) ⊎ (e.0 ≡ OwnerFault.Open OpenFault.OutOfMemory)) }
    {
        let owner = Owner { node, members };
        let found = match prepared_for(alloc, conn, &owner, is_new) {
            Ok(found) => found,
            Err(refused) => return Err(refused),
        };
        Ok(SqlRecords::over(alloc, found, Some(owner)))
    }

    /// The same over a database of an older version, which nobody owns: its tables are made into
    /// this owner's, with equal content, after they were made into those of version 2 where they
    /// are of version 1, each in one transaction. A database that is this owner's is opened, and
    /// that of another is refused, as by `open_as`.
    ///
    /// A connection in a transaction is Refused, and then a database without tables is Blank. What
    /// `SqlRecords::open` refuses is refused as there. Where it fails the store comes back, and
    /// holds what it held, or that in version 2, or in this owner's tables.
    pub fn adopt(
        alloc: Global,
        conn: Connection<S>,
        node: NodeId,
        members: Members,
    ) -> Result<SqlRecords<S>, (OwnerFault, S)>
        ensures holds { IfOk result (λ r. IsHonest S.Store r → (c : Content) × HadBefore S.Store (record { node = node; members = members }) conn c
            × Holds (MayFind S.Store r.owner r.held) c) }
        ensures owner { IfOk result (λ r. r.owner ≡ Some (record { node = node; members = members })) }
        ensures clean { IfOk result (λ r. IsHonest S.Store r → HasCleanDisk (state S.Store conn)) }
        ensures sure { IfOk result (λ r. IsTrue (is_clean_in S.Store r.held) → IsHonest S.Store r) }
        ensures whole { IfErr result (λ e. IsClean (S.Store.view e.1) → (db : Trees) → S.Store.recovers e.1 db
            → IsLeftBefore S.Store (record { node = node; members = members }) conn db) }
        ensures due { IfErr result (λ e. IsClean (S.Store.view e.1) → IsDueBefore S.Store (record { node = node; members = members }) conn e.0) }
        ensures refused { IfErr result (λ e. e.0 ≡ OwnerFault.Open OpenFault.Refused → IsClean (S.Store.view e.1)
            → IsRefusedBefore S.Store (record { node = node; members = members }) conn e.1) }
        ensures used { IsTrue (state S.Store conn).in_transaction → IsErrAnd result (λ e. e.0 ≡ OwnerFault.Open OpenFault.Refused) }
        ensures other { (other : Owner) → IsOthers S.Store (record { node = node; members = members }) conn other
            → TellsOther S.Store (record { node = node; members = members }) conn other result }
        ensures blank { (state S.Store conn).in_transaction ≡ false → (state S.Store conn).now.schema ≡ blank_schema
            → IsErrAnd result (λ e. e.0 ≡ OwnerFault.Blank) }
    {
        let owner = Owner { node, members };
        let found = match adopted(alloc, conn, &owner) {
            Ok(found) => found,
            Err(refused) => return Err(refused),
        };
        Ok(SqlRecords::over(alloc, found, Some(owner)))
    }
}
