//! Where the nodes of a host's epochs come from, where it has a folder.

ghost use Rattle.std.specs.Prelude.{◌≡◌, ◌<◌, Bool, true, None, Some, IfOk, IsTrue, OnOk};
ghost use Rattle.std.specs.Result.{result_err};
ghost use Rattle.folder_hosts.specs.Databases.{IsBegun, KeepsDatabases, OpensAnew, OpensDatabase};
ghost use Rattle.folder_hosts.specs.Faults.{node_told};
ghost use Rattle.folder_hosts.specs.Folders.{LetsGo, SameElse, may_fail};
ghost use Rattle.hosts.specs.Opening.{IsOpenedAt};
ghost use Rattle.stored_hosts.specs.Acts.{AreDone};
ghost use Rattle.stored_hosts.specs.Committing.{commit_of};
ghost use Rattle.stored_nodes.specs.Starts.{HasStartedBeside};

use crate::databases::Databases;
use crate::fault::{HostStartFault, is_missing, node_told, state_refused};
use ballots::{Members, NodeId};
use hosts::Opens;
use kept_node::{KeptNode, WriteStore};
use node::{Node, NodeFault};
use seats::{Keeps, PlainNode, Seat};
use std::alloc::Global;
use stored_hosts::{Folder, commit_bytes, let_go};
use stored_nodes::StartFault;

/// Opens the nodes of epochs over the databases of a folder, and keeps states there. The database of an epoch up to
/// `known` has to be there. One above it is made where none is there, or none with tables, and for no other fault.
#[derive(Drop)]
pub struct FolderOpens<F, D> {
    pub(crate) alloc: Global,
    pub(crate) folder: F,
    pub(crate) databases: D,
    pub(crate) known: u64,
    pub(crate) last: Option<HostStartFault>,
}

impl<F: Folder + Drop, D: Databases> FolderOpens<F, D> {
    /// Why the last call that failed did, where one has.
    pub fn last(&self) -> Option<HostStartFault>
        ensures { result ≡ self.now.last }
    {
        self.last
    }

    /// Remembers why a call failed. It is told as a host tells it.
    fn remember(&mut self, why: HostStartFault) -> NodeFault
        ensures told { result ≡ node_told why }
        ensures last { self.new.last ≡ Some why }
        ensures same { SameElse self.old self.new × (self.new.databases ≡ self.old.databases) × (self.new.folder ≡ self.old.folder) }
    {
        let told = node_told(&why);
        self.last = Some(why);
        told
    }

    /// The node of an epoch in memory beside the records of its database, which is there or is made.
    fn begun(&mut self, epoch: u64) -> Result<(PlainNode, D::Store), StartFault>
        ensures started { IfOk result (λ r. (is_new : Bool) × HasStartedBeside ⟦<PlainNode as Node>⟧.who ⟦<PlainNode as Node>⟧.stands (D.Store.honest r.1)
            (D.Store.may_find r.1) (D.begins self.old.databases epoch) (D.member self.old.databases).1 (D.member self.old.databases).0 is_new r.0) }
        ensures some { 0 < (D.member self.old.databases).1 }
        ensures opens { OpensDatabase D.opens self.old.known epoch self.old.databases (result_err result) self.new.databases }
        ensures keeps { KeepsDatabases D.member D.begins self.old.databases self.new.databases }
        ensures same { SameElse self.old self.new × (self.new.folder ≡ self.old.folder) × (self.new.last ≡ self.old.last) }
    {
        match self.databases.open(epoch, false) {
            Ok(opened) => Ok(opened),
            Err(fault) => self.begun_anew(epoch, fault),
        }
    }

    /// The same as a new one, where none was there for this fault and its epoch is above those that have to be there.
    fn begun_anew(
        &mut self,
        epoch: u64,
        fault: StartFault,
    ) -> Result<(PlainNode, D::Store), StartFault>
        ensures started { IfOk result (λ r. HasStartedBeside ⟦<PlainNode as Node>⟧.who ⟦<PlainNode as Node>⟧.stands (D.Store.honest r.1)
            (D.Store.may_find r.1) (D.begins self.old.databases epoch) (D.member self.old.databases).1 (D.member self.old.databases).0 true r.0) }
        ensures opens { OpensAnew D.opens self.old.known epoch fault self.old.databases (result_err result) self.new.databases }
        ensures keeps { KeepsDatabases D.member D.begins self.old.databases self.new.databases }
        ensures same { SameElse self.old self.new × (self.new.folder ≡ self.old.folder) × (self.new.last ≡ self.old.last) }
    {
        let missing = is_missing(&fault);
        if self.known < epoch && missing {
            self.databases.open(epoch, true)
        } else {
            Err(fault)
        }
    }

    /// That node, which notes its writes for the store.
    pub(crate) fn opened(&mut self, epoch: u64) -> Result<KeptNode<D::Store>, StartFault>
        ensures opened { IfOk result (IsOpenedAt ⟦<KeptNode<D::Store> as Node>⟧.who ⟦<KeptNode<D::Store> as Node>⟧.honest ⟦<KeptNode<D::Store> as Node>⟧.stands
            (D.member self.old.databases) (IsBegun D.Store.WriteStore D.begins self.old.databases epoch)) }
        ensures sure { IfOk result (λ node. IsTrue (⟦<KeptNode<D::Store> as Node>⟧.clean node) → IsTrue (⟦<KeptNode<D::Store> as Node>⟧.honest node)) }
        ensures kept { IfOk result ⟦<KeptNode<D::Store> as Keeps>⟧.has_kept }
        ensures opens { OnOk result (OpensDatabase D.opens self.old.known epoch self.old.databases None self.new.databases) }
        ensures keeps { KeepsDatabases D.member D.begins self.old.databases self.new.databases }
        ensures same { SameElse self.old self.new × (self.new.folder ≡ self.old.folder) × (self.new.last ≡ self.old.last) }
    {
        let (node, store) = self.begun(epoch)?;
        Ok(KeptNode::of(self.alloc, node, store)?)
    }
}

impl<F: Folder + Drop, D: Databases> Opens for FolderOpens<F, D> {
    type Node = KeptNode<D::Store>;

    ghost member = { λ opens. D.member opens.databases };

    ghost begins = { λ opens e c. IsBegun D.Store.WriteStore D.begins opens.databases e c };

    ghost may_fail = { may_fail };

    ghost opens_node = { λ old e new. OpensDatabase D.opens old.known e old.databases None new.databases × (new.folder ≡ old.folder) × SameElse old new };

    ghost keeps_state = { λ old e bytes new. AreDone F.does old.folder (commit_of e bytes) new.folder × (new.databases ≡ old.databases) × SameElse old new };

    ghost lets_go = { λ old e new. LetsGo F.lists F.unread F.does e old.folder new.folder × (new.databases ≡ old.databases) × SameElse old new };

    ghost has_kept = { λ node. ⟦<KeptNode<D::Store> as Keeps>⟧.has_kept node };

    ghost fails_to_keep = { λ old why new. ⟦<KeptNode<D::Store> as Keeps>⟧.fails_to_keep old why new };

    fn id(&self) -> NodeId {
        self.databases.id()
    }

    fn members(&self) -> Members {
        self.databases.members()
    }

    fn open(&mut self, epoch: u64) -> Result<KeptNode<D::Store>, NodeFault> {
        match self.opened(epoch) {
            Ok(node) => Ok(node),
            Err(fault) => Err(self.remember(HostStartFault::Database(epoch, fault))),
        }
    }

    fn keep_state(&mut self, epoch: u64, state: &[u8]) -> Result<(), NodeFault> {
        match commit_bytes(&mut self.folder, epoch, state) {
            Ok(()) => Ok(()),
            Err(error) => Err(self.remember(state_refused(epoch, error))),
        }
    }

    fn let_go(&mut self, epoch: u64) {
        let _ = let_go(&mut self.folder, epoch);
    }

    fn waits(node: &KeptNode<D::Store>) -> bool {
        node.waits()
    }

    fn is_full(node: &KeptNode<D::Store>) -> bool {
        node.is_full()
    }

    fn keep(seat: &mut Seat<KeptNode<D::Store>>) -> Result<(), NodeFault> {
        seat.keep()
    }
}
