//! Which state of a folder counts, and what a start finds there.

ghost use Rattle.std.specs.Prelude.{◌≡◌, ◌≢◌, ◌↔◌, ◌+◌, [], max, Contains, IfErr, IfOk, IsTrue, MatchOption};
ghost use Rattle.flow_state.specs.Rows.{Rows};
ghost use Rattle.host_states.specs.States.{IsWant};
ghost use Rattle.host_states.specs.declared.head.StateHead.{StateHead as Head};
ghost use Rattle.stored_hosts.specs.Committing.{file_of};
ghost use Rattle.stored_hosts.specs.Finding.{Finds, HasBoth, IsBest, IsFirstLacking, IsGreatest, IsOf, IsOther};
ghost use Rattle.stored_hosts.specs.Finding.{IsWhole, OnlyWants, later};
ghost use Rattle.stored_hosts.specs.declared.names.FileKind.TheVariants.{Database};

use crate::fault::FolderFault;
use crate::names::{FileKind, HostFile};
use grant_machine::Machine;
use host_states::{StateFault, StateHead, one_spelling_of_states, read_state};
use row_bytes::RowsFault;
use std::alloc::Global;

/// Which host of how many, and how many places an epoch of theirs has.
#[derive(Clone, Copy, Debug, PartialEq, Eq)]
pub struct WhichHost {
    pub id: u8,
    pub members: u8,
    pub places: u64,
}

/// The bytes of a file `E.state`.
#[derive(Drop)]
pub struct StateFile {
    pub epoch: u64,
    pub bytes: Vec<u8>,
}

/// Where a host goes on.
#[derive(Drop)]
pub struct Start {
    pub head: StateHead,
    /// A scheduler at the tables of the state.
    pub machine: Machine,
    /// Whether the database of the epoch before is there.
    pub has_before: bool,
}

/// What a start finds in a folder.
#[derive(Drop)]
pub enum Found {
    /// No state: what else is there was never gone on from.
    Nothing,
    /// A state that counts, and the databases of its epoch and of the one behind it.
    Whole(Start),
}

fn is_want(fault: StateFault) -> bool
    ensures { IsTrue result ↔ IsWant fault }
{
    matches!(fault, StateFault::Rows(RowsFault::OutOfMemory))
}

/// The state that a file is, where it is whole: it is of the epoch that the file's name says.
fn whole(alloc: Global, file: &StateFile) -> Result<Option<(StateHead, Machine)>, FolderFault>
    ensures found { IfOk result (λ state. MatchOption state ((head : Head) (rows : Rows) → ¬ IsWhole file.now head rows) (λ s. IsWhole file.now s.0 s.1)) }
    ensures wants { IfErr result OnlyWants }
{
    one_spelling_of_states();
    let (head, machine) = match read_state(alloc, file.bytes.as_slice()) {
        Ok(state) => state,
        Err(fault) if is_want(fault) => return Err(FolderFault::OutOfMemory),
        Err(_) => return Ok(None),
    };
    if head.epoch == file.epoch {
        Ok(Some((head, machine)))
    } else {
        Ok(None)
    }
}

/// The one of the greater epoch: the second, where both are of one.
fn later(
    one: Option<(StateHead, Machine)>,
    other: Option<(StateHead, Machine)>,
) -> Option<(StateHead, Machine)>
    ensures { result ≡ later one other }
{
    let Some(other) = other else {
        return one;
    };
    match one {
        Some(one) if other.0.epoch < one.0.epoch => Some(one),
        _ => Some(other),
    }
}

/// The whole state of the greatest epoch, where there is a whole one.
fn best_of(alloc: Global, files: &[StateFile]) -> Result<Option<(StateHead, Machine)>, FolderFault>
    ensures best { IfOk result (IsBest files.now) }
    ensures wants { IfErr result OnlyWants }
{
    let mut best = None;
    for file in files {
        let state = whole(alloc, file)?;
        best = later(best, state);
    }
    Ok(best)
}

/// Why a state isn't this host's, if it isn't.
fn other_host(which: WhichHost, head: &StateHead) -> Option<FolderFault>
    ensures { MatchOption result (IsOf which head.now) (λ fault. IsOther which head.now fault) }
{
    if head.id != which.id {
        Some(FolderFault::OtherNode(*head))
    } else if head.members != which.members {
        Some(FolderFault::OtherMembers(*head))
    } else if head.places != which.places {
        Some(FolderFault::OtherPlaces(*head))
    } else {
        None
    }
}

/// Whether a file is the database of the epoch so many behind this one.
fn is_database(file: HostFile, epoch: u64, behind: u64) -> bool
    ensures { IsTrue result ↔ (file ≡ file_of (epoch + behind) Database) }
{
    matches!(file.kind, FileKind::Database) && file.epoch >= epoch && file.epoch - epoch == behind
}

fn has_database(files: &[HostFile], epoch: u64, behind: u64) -> bool
    ensures { IsTrue result ↔ Contains files.now (file_of (epoch + behind) Database) }
{
    for file in files {
        if is_database(*file, epoch, behind) {
            return true;
        }
    }
    false
}

/// The first of the databases of an epoch and of the one behind it that isn't there, if one isn't.
fn first_lacking(files: &[HostFile], epoch: u64) -> Option<u64>
    ensures { MatchOption result (HasBoth files.now epoch) (IsFirstLacking files.now epoch) }
{
    if !has_database(files, epoch, 0) {
        Some(epoch)
    } else if !has_database(files, epoch, 1) {
        Some(epoch.saturating_add(1))
    } else {
        None
    }
}

fn greater(one: u64, other: u64) -> u64
    ensures { result ≡ max one other }
{
    if one < other { other } else { one }
}

/// The greatest epoch of these files, of which there is one.
fn greatest_of(files: &[StateFile]) -> u64
    requires { files.now ≢ [] }
    ensures { IsGreatest files.now result }
{
    let mut greatest = 0;
    for file in files {
        greatest = greater(greatest, file.epoch);
    }
    greatest
}

/// What a start of this host finds, where the folder has these files and these are the bytes of its states.
#[tactic(auto, using(crate::proofs::Finds::counts_of))]
pub fn find(
    alloc: Global,
    which: WhichHost,
    files: &[HostFile],
    states: &[StateFile],
) -> Result<Found, FolderFault>
    ensures { Finds which files.now states.now result }
{
    if states.is_empty() {
        return Ok(Found::Nothing);
    }
    let Some((head, machine)) = best_of(alloc, states)? else {
        return Err(FolderFault::Damaged(greatest_of(states)));
    };
    if let Some(fault) = other_host(which, &head) {
        return Err(fault);
    }
    if let Some(lacking) = first_lacking(files, head.epoch) {
        return Err(FolderFault::NoStore(lacking));
    }
    let has_before = has_database(files, head.epoch.saturating_sub(1), 0);
    Ok(Found::Whole(Start {
        head,
        machine,
        has_before,
    }))
}
