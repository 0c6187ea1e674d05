//! What a node's records are opened from, whatever they are then.

ghost use Rattle.std.specs.Prelude.{◌≡◌, ◌&&◌, Bool, Err, true, false, IfErr, IfOk, IsErrAnd, IsTrue, None, Some};
ghost use Rattle.acceptor.specs.Content.{Content};
ghost use Rattle.acceptor.specs.Found.{Holds};
ghost use Rattle.acceptor_store.specs.Linked.{IsHonest, MayFind, is_clean_in};
ghost use Rattle.acceptor_store_parts.specs.declared.owner.Owner.{Owner as Named};
ghost use Rattle.log_ties.specs.declared.tie.Loss.{Loss};
ghost use Rattle.sqlite.specs.Files.{image_of, over_files};
ghost use Rattle.stored_nodes.specs.Alone.{IsBegunIn};
ghost use Rattle.stored_nodes.specs.Kept.{IsFoundIn};
ghost use Rattle.stored_nodes.specs.Lost.{IsLossOf, NeverLies, TellsLoss, TellsShown};

use crate::alone::{new_records, old_records};
use crate::connection::{connected, told};
use crate::refusals::CountsRefusals;
use crate::start::StartFault;
use acceptor_store::{OpenFault, OwnerFault, SqlRecords};
use acceptor_store_parts::Owner;
use ballots::{Members, NodeId};
use sqlite::{FileStore, Files};
use sqlite_disk::Disk;
use std::alloc::Global;

/// What records are opened from. Functions over any such are proved sooner than those that know files and a database.
pub(crate) trait OpensRecords: Drop {
    /// What the records stand in.
    type Base: CountsRefusals;

    // This owner, which is new or goes on, begins over this content there.
    ghost begins: { Self → Named → Bool → Content → Type 0 };

    // It lost this.
    ghost lost: { Self → Loss → Type 0 };

    /// The records of this node, as one of these members, from what is new or not, and lost nothing.
    fn opened_for(
        self,
        alloc: Global,
        node: NodeId,
        members: Members,
        is_new: bool,
    ) -> Result<SqlRecords<Self::Base>, StartFault>
        ensures found { IfOk result (λ r. IsHonest Self.Base.Store r → (c : Content) × Holds (MayFind Self.Base.Store r.owner r.held) c
            × begins self (record { node = node; members = members }) is_new c) }
        ensures lost { (loss : Loss) → lost self loss → IfOk result (λ r. IsHonest Self.Base.Store r → ⊥) };

    /// The records of nobody, from what lost nothing.
    fn opened(self, alloc: Global) -> Result<SqlRecords<Self::Base>, StartFault>
        ensures found { IfOk result (λ r. IsHonest Self.Base.Store r → (c : Content) × Holds (MayFind Self.Base.Store r.owner r.held) c) }
        ensures lost { (loss : Loss) → lost self loss → IfOk result (λ r. IsHonest Self.Base.Store r → ⊥) };
}

/// Records over the files, which are this node's as one of these members. They hold what the files hold. Where the node
/// is new, its tables are made in files without any, the log is copied into the database file, and that is opened again.
/// Files with this node's tables are NotFresh then, whatever these hold. Where it isn't new, files without tables are
/// Blank, and a log of which nothing was copied yet is copied first. Files of which a sync has failed are Broken. Files
/// of which one lost something are refused before anything else is looked at, new or not.
pub fn records_for<D: Disk + Drop>(
    alloc: Global,
    files: Files<D>,
    node: NodeId,
    members: Members,
    is_new: bool,
) -> Result<SqlRecords<FileStore<D>>, StartFault>
    ensures holds { IfOk result (λ r. IsHonest over_files r → (c : Content) × Holds (MayFind over_files r.owner r.held) c
        × IsBegunIn D.Disk files (record { node = node; members = members }) is_new c) }
    ensures owner { IfOk result (λ r. r.owner ≡ Some (record { node = node; members = members })) }
    ensures sure { IfOk result (λ r. IsTrue (is_clean_in over_files r.held) → IsHonest over_files r) }
    ensures lost { (loss : Loss) → IsLossOf (image_of D.Disk files) loss → IfOk result (λ r. IsHonest over_files r → ⊥) }
    ensures told { NeverLies D.Disk → (D.Disk.is_usable files.log && D.Disk.is_usable files.db) ≡ true → (loss : Loss)
        → IsLossOf (image_of D.Disk files) loss → IsErrAnd result (TellsLoss loss) }
    ensures due { NeverLies D.Disk → IfErr result (TellsShown (image_of D.Disk files)) }
    ensures broken { (D.Disk.is_usable files.log && D.Disk.is_usable files.db) ≡ false
        → result ≡ Err (StartFault.Unopened (OwnerFault.Open OpenFault.Broken)) }
{
    let owner = Owner { node, members };
    let before = files.tally();
    let (conn, tie) = connected(alloc, files)?;
    if is_new {
        new_records(alloc, conn, owner, before)
    } else {
        old_records(alloc, conn, tie, owner, before)
    }
}

/// Records of nobody over the files, whatever was left of them by a crash. They hold what the files hold: one of the
/// contents that the store of the records before might have left. Files of which a sync has failed are Broken. Files of
/// which one lost something are refused before anything else is looked at.
pub fn open_files<D: Disk + Drop>(
    alloc: Global,
    files: Files<D>,
) -> Result<SqlRecords<FileStore<D>>, StartFault>
    ensures holds { IfOk result (λ r. IsHonest over_files r → (c : Content) × Holds (MayFind over_files r.owner r.held) c × IsFoundIn D.Disk files c) }
    ensures owner { IfOk result (λ r. r.owner ≡ None) }
    ensures sure { IfOk result (λ r. IsTrue (is_clean_in over_files r.held) → IsHonest over_files r) }
    ensures lost { (loss : Loss) → IsLossOf (image_of D.Disk files) loss → IfOk result (λ r. IsHonest over_files r → ⊥) }
    ensures told { NeverLies D.Disk → (D.Disk.is_usable files.log && D.Disk.is_usable files.db) ≡ true → (loss : Loss)
        → IsLossOf (image_of D.Disk files) loss → IsErrAnd result (TellsLoss loss) }
    ensures due { NeverLies D.Disk → IfErr result (TellsShown (image_of D.Disk files)) }
    ensures broken { (D.Disk.is_usable files.log && D.Disk.is_usable files.db) ≡ false
        → result ≡ Err (StartFault.Unopened (OwnerFault.Open OpenFault.Broken)) }
{
    let before = files.tally();
    let (conn, _tie) = connected(alloc, files)?;
    match SqlRecords::open(alloc, conn) {
        Ok(records) => Ok(records),
        Err((fault, store)) => Err(told(OwnerFault::Open(fault), before, store.close().tally())),
    }
}

impl<D: Disk + Drop> OpensRecords for Files<D> {
    type Base = FileStore<D>;

    ghost begins = { λ files owner is_new c. IsBegunIn D.Disk files owner is_new c };

    ghost lost = { λ files loss. IsLossOf (image_of D.Disk files) loss };

    fn opened_for(
        self,
        alloc: Global,
        node: NodeId,
        members: Members,
        is_new: bool,
    ) -> Result<SqlRecords<FileStore<D>>, StartFault> {
        records_for(alloc, self, node, members, is_new)
    }

    fn opened(self, alloc: Global) -> Result<SqlRecords<FileStore<D>>, StartFault> {
        open_files(alloc, self)
    }
}
