//! What a node's files are, found out without a change of them.

ghost use Rattle.std.specs.Prelude.{◌≡◌, ◌<◌, ◌≤◌, ◌&&◌, IfNone, IfOk, IfSome, IsOkAnd, IsTrue, MatchResult, None, OnErr, Some};
ghost use Rattle.std.specs.Prelude.{false, true};
ghost use Rattle.acceptor_store_parts.specs.declared.owner.Owner.{Owner as Named};
ghost use Rattle.ballots.specs.Members.{member_count};
ghost use Rattle.log_ties.specs.declared.tie.Loss.{Loss};
ghost use Rattle.sqlite.specs.Files.{faults_of, image_of};
ghost use Rattle.sqlite_wal.specs.Reads.{AreClean};
ghost use Rattle.stored_nodes.specs.declared.start.FileFault.TheVariants.{Failed};
ghost use Rattle.stored_nodes.specs.declared.states.FilesState.TheVariants.{OtherNode, Unusable};
ghost use Rattle.stored_nodes.specs.declared.states.Told.TheVariants.{State};
ghost use Rattle.stored_nodes.specs.Lost.{IsLossOf};
ghost use Rattle.stored_nodes.specs.Looks.{IsMember, IsSeenAs};
ghost use Rattle.stored_nodes.specs.Told.{IsStateOf};
ghost use Rattle.stored_nodes.specs.States.{IsTold, IsToldLost, StayFiles, other_owner, refusal_of, state_told};
ghost use Rattle.stored_nodes.specs.States.{told_open, told_owned};
ghost use Rattle.stored_nodes.specs.States.{told_owner, told_refused, told_start, told_unowned, told_unread};

use crate::connection::refused;
use crate::copies::copy_of;
use crate::looks::told_copy;
use crate::start::{FileFault, StartFault};
use crate::ties::refuse_lost;
use acceptor_store::{OpenFault, OwnerFault};
use acceptor_store_parts::Owner;
use ballots::{Members, NodeId};
use log_ties::Loss;
use node::NodeFault;
use sqlite::Files;
use sqlite_disk::Disk;
use std::alloc::{AllocError, Global};

/// What a node's files are.
#[derive(Clone, Copy, Debug, PartialEq, Eq)]
pub enum FilesState {
    /// They have no tables, or are nobody's and hold nothing.
    Fresh,
    /// They are this node's, and hold nothing.
    Begun,
    /// They are this node's, and hold a ballot, a vote or a learned value.
    Used,
    /// They are nobody's, and hold one of these. No node goes on over them.
    Unowned,
    /// They hold no database that a node wrote.
    Foreign,
    /// Another process has them open.
    Locked,
    /// They are another node's, or one's of other members: this one's.
    OtherNode(Owner),
    /// One of the two lost something, or isn't there.
    Lost(Loss),
    /// A file can't be used.
    Unusable(FileFault),
}

/// What an open tells of the files.
#[derive(Clone, Copy, Debug)]
pub(crate) enum Told {
    State(FilesState),
    /// They have no owner.
    NoOwner,
    /// Nothing, for want of memory.
    Memory,
}

fn told_open(fault: OpenFault) -> Told
    ensures { result ≡ told_open fault }
{
    match fault {
        OpenFault::Refused => Told::State(FilesState::Foreign),
        OpenFault::Foreign => Told::State(FilesState::Foreign),
        OpenFault::Broken => Told::State(FilesState::Unusable(FileFault::Failed)),
        OpenFault::OutOfMemory => Told::Memory,
    }
}

fn told_owner(fault: OwnerFault) -> Told
    ensures { result ≡ told_owner fault }
{
    match fault {
        OwnerFault::Open(fault) => told_open(fault),
        OwnerFault::Blank => Told::State(FilesState::Fresh),
        OwnerFault::Unowned => Told::NoOwner,
        OwnerFault::OtherNode(owner) => Told::State(FilesState::OtherNode(owner)),
        OwnerFault::OtherMembers(owner) => Told::State(FilesState::OtherNode(owner)),
    }
}

fn told_unread(fault: NodeFault) -> Told
    ensures { result ≡ told_unread fault }
{
    match fault {
        NodeFault::OutOfMemory => Told::Memory,
        _ => Told::State(FilesState::Unusable(FileFault::Failed)),
    }
}

fn told_start(fault: StartFault) -> Told
    ensures { result ≡ told_start fault }
{
    match fault {
        StartFault::Unopened(fault) => told_owner(fault),
        StartFault::Unread(fault) => told_unread(fault),
        StartFault::OutOfMemory => Told::Memory,
        StartFault::InUse => Told::State(FilesState::Locked),
        StartFault::Lost(loss) => Told::State(FilesState::Lost(loss)),
        StartFault::Unusable(why) => Told::State(FilesState::Unusable(why)),
        _ => Told::State(FilesState::Unusable(FileFault::Failed)),
    }
}

/// What an open for an owner tells: whether its records hold nothing, or why there are none.
pub(crate) fn told_owned(opened: Result<bool, StartFault>) -> Told
    ensures { result ≡ told_owned opened }
{
    match opened {
        Ok(true) => Told::State(FilesState::Begun),
        Ok(false) => Told::State(FilesState::Used),
        Err(fault) => told_start(fault),
    }
}

/// What an open for nobody tells, of tables that have no owner.
pub(crate) fn told_unowned(opened: Result<bool, StartFault>) -> Told
    ensures { result ≡ told_unowned opened }
{
    match opened {
        Ok(true) => Told::State(FilesState::Fresh),
        Ok(false) => Told::State(FilesState::Unowned),
        Err(fault) => told_start(fault),
    }
}

/// Why a copy in memory wasn't opened, whose tables are known or not as those of a version. A call of it fails for want
/// of memory alone, and known tables aren't refused for what they are.
pub(crate) fn told_refused(fault: OwnerFault, is_known: bool) -> Told
    ensures { result ≡ told_refused fault is_known }
{
    match fault {
        OwnerFault::Open(OpenFault::Refused) if is_known => Told::Memory,
        OwnerFault::Open(OpenFault::Broken) => Told::Memory,
        _ => told_owner(fault),
    }
}

/// What an open of a copy tells of files that lost nothing, for this node as one of these members.
fn told_by_copy<D: Disk>(alloc: Global, files: &mut Files<D>, id: NodeId, members: Members) -> Told
    requires member { id < member_count members }
    requires log { IsTrue (D.Disk.is_usable files.old.log) }
    requires db { IsTrue (D.Disk.is_usable files.old.db) }
    ensures files { StayFiles D.Disk files.old files.new }
    ensures log_usable { IsTrue (D.Disk.is_usable files.new.log) }
    ensures db_usable { IsTrue (D.Disk.is_usable files.new.db) }
    ensures counts { faults_of D.Disk files.old ≤ faults_of D.Disk files.new }
    ensures seen { AreClean D.Disk files.new.log files.new.db → IsTold (IsSeenAs (image_of D.Disk files.old) (record { node = id; members = members })
        (faults_of D.Disk files.old) (faults_of D.Disk files.new)) result }
{
    match copy_of(alloc, files) {
        Ok(copy) => told_copy(alloc, copy, id, members),
        Err(error) => told_start(StartFault::from(error)),
    }
}

/// The members that the owner is among, where it is this node.
fn members_of(owner: &Owner, id: NodeId) -> Option<Members>
    ensures some { IfSome result (λ members. (owner.now ≡ record { node = id; members = members }) × (id < member_count members)) }
    ensures none { IfNone result (IsMember id owner.now → ⊥) }
{
    if owner.node == id && id.number() < owner.members.count() {
        Some(owner.members)
    } else {
        None
    }
}

/// The members that this node is among by its files, where these were told to be its own among others.
fn named_member(told: &Told, id: NodeId) -> Option<Members>
    ensures some { IfSome result (λ members. (told.now ≡ State (OtherNode (record { node = id; members = members }))) × (id < member_count members)) }
    ensures none { IfNone result ((other : Named) → told.now ≡ State (OtherNode other) → IsMember id other → ⊥) }
{
    match told {
        Told::State(FilesState::OtherNode(owner)) => members_of(owner, id),
        _ => None,
    }
}

/// What an open of a copy tells of files that lost nothing: for this node as one of five members, or of those that the
/// files name.
fn told_whole<D: Disk>(alloc: Global, files: &mut Files<D>, id: NodeId) -> Told
    requires log { IsTrue (D.Disk.is_usable files.old.log) }
    requires db { IsTrue (D.Disk.is_usable files.old.db) }
    ensures files { StayFiles D.Disk files.old files.new }
    ensures so { AreClean D.Disk files.new.log files.new.db
        → IsTold (IsStateOf (image_of D.Disk files.old) id (faults_of D.Disk files.old) (faults_of D.Disk files.new)) result }
{
    let told = told_by_copy(alloc, files, id, Members::Five);
    match named_member(&told, id) {
        Some(members) => told_by_copy(alloc, files, id, members),
        None => told,
    }
}

/// What is told of the files: what they lost, and else what an open of a copy tells.
fn told_of<D: Disk>(alloc: Global, files: &mut Files<D>, id: NodeId) -> Told
    ensures files { StayFiles D.Disk files.old files.new }
    ensures unusable { (D.Disk.is_usable files.old.log && D.Disk.is_usable files.old.db) ≡ false → result ≡ State (Unusable Failed) }
    ensures lost { (D.Disk.is_usable files.old.log && D.Disk.is_usable files.old.db) ≡ true → (loss : Loss) → IsLossOf (image_of D.Disk files.old) loss
        → AreClean D.Disk files.new.log files.new.db → IsTold (IsToldLost loss) result }
    ensures so { (D.Disk.is_usable files.old.log && D.Disk.is_usable files.old.db) ≡ true → AreClean D.Disk files.new.log files.new.db
        → IsTold (IsStateOf (image_of D.Disk files.old) id (faults_of D.Disk files.old) (faults_of D.Disk files.new)) result }
{
    if !files.may_be_used() {
        return Told::State(FilesState::Unusable(FileFault::Failed));
    }
    match refuse_lost(alloc, files) {
        Ok(_tie) => told_whole(alloc, files, id),
        Err(fault) => told_start(fault),
    }
}

/// The state that was told. Files that neither an owner nor nobody wrote are foreign.
fn state_told(told: Told) -> Result<FilesState, AllocError>
    ensures state { IfOk result (λ state. state_told told ≡ Some state) }
    ensures memory { OnErr result (state_told told ≡ None) }
{
    match told {
        Told::State(state) => Ok(state),
        Told::NoOwner => Ok(FilesState::Foreign),
        Told::Memory => Err(AllocError),
    }
}

/// What the files of this node are. A copy of them is opened in memory, so that they stay as they are. Files that may
/// not be used are unusable. Of files that lost something it is told what, unless a read of them fails. Of others the
/// state is so of their bytes, and they are unusable only where a read of them fails.
pub fn state_of_files<D: Disk>(
    alloc: Global,
    files: &mut Files<D>,
    id: NodeId,
) -> Result<FilesState, AllocError>
    ensures files { StayFiles D.Disk files.old files.new }
    ensures unusable { (D.Disk.is_usable files.old.log && D.Disk.is_usable files.old.db) ≡ false → IsOkAnd result (λ state. state ≡ Unusable Failed) }
    ensures lost { (D.Disk.is_usable files.old.log && D.Disk.is_usable files.old.db) ≡ true → (loss : Loss) → IsLossOf (image_of D.Disk files.old) loss
        → AreClean D.Disk files.new.log files.new.db → IfOk result (IsToldLost loss) }
    ensures as_open { (D.Disk.is_usable files.old.log && D.Disk.is_usable files.old.db) ≡ true → AreClean D.Disk files.new.log files.new.db
        → IfOk result (IsStateOf (image_of D.Disk files.old) id (faults_of D.Disk files.old) (faults_of D.Disk files.new)) }
{
    state_told(told_of(alloc, files, id))
}

/// What files are that weren't opened.
pub fn state_unopened(fault: StartFault) -> Result<FilesState, AllocError>
    ensures state { IfOk result (λ state. state_told (told_start fault) ≡ Some state) }
    ensures memory { OnErr result (state_told (told_start fault) ≡ None) }
{
    state_told(told_start(fault))
}

/// Why files of this owner aren't this node's.
fn other_owner(owner: Owner, id: NodeId) -> OwnerFault
    ensures { result ≡ other_owner id owner }
{
    if owner.node == id {
        OwnerFault::OtherMembers(owner)
    } else {
        OwnerFault::OtherNode(owner)
    }
}

/// Refuses files of this state to a new node that goes on over what an earlier start left: if they hold anything, or
/// aren't this node's.
pub(crate) fn refused_as_used(state: FilesState, id: NodeId) -> Result<(), StartFault>
    ensures { MatchResult result (λ _. refusal_of id state ≡ None) (λ fault. refusal_of id state ≡ Some fault) }
{
    match state {
        FilesState::Fresh | FilesState::Begun => Ok(()),
        FilesState::Used | FilesState::Unowned => Err(StartFault::NotFresh),
        FilesState::Foreign => Err(refused(OpenFault::Foreign)),
        FilesState::Locked => Err(StartFault::InUse),
        FilesState::OtherNode(owner) => Err(StartFault::Unopened(other_owner(owner, id))),
        FilesState::Lost(loss) => Err(StartFault::Lost(loss)),
        FilesState::Unusable(why) => Err(StartFault::Unusable(why)),
    }
}
