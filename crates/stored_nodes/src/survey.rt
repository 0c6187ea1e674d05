//! What the files of a folder's nodes are.

use crate::fault::StoreFault;
use crate::own_file::length_of;
use crate::start::StartFault;
use crate::states::{FilesState, refused_as_used, state_of_files, state_unopened};
use crate::ties::Lengths;
use ballots::NodeId;
use log_ties::Loss;
use sqlite::{File, Files, Unknown};
use sqlite_disk::Disk;
use std::alloc::AllocError;
use std::fs;

/// How many nodes there are at most.
const MOST: u8 = 5;

fn is_empty(file: &mut File) -> bool {
    file.may_be_used() && matches!(file.len(), Ok(0))
}

/// The state of files that are open. A log that was made for this is taken away again, while nobody else can open it.
fn state_opened(
    rt: &HostRuntime,
    files: &mut Files<File>,
    id: NodeId,
    log: &str,
    has_log: bool,
) -> Result<FilesState, AllocError> {
    let state = state_of_files(rt.alloc(), files, id);
    if !has_log && is_empty(&mut files.log) {
        let _ = fs::remove_file(rt, log);
    }
    state
}

/// The state of the database of this path, of so many bytes, and its log.
fn state_at(
    rt: &HostRuntime,
    path: &str,
    log: &str,
    id: NodeId,
    database: u64,
) -> Result<FilesState, AllocError> {
    let lengths = match length_of(rt, log) {
        Ok(log) => Lengths {
            database: Some(database),
            log,
        },
        Err(fault) => return state_unopened(fault),
    };
    if let Some(loss) = lengths.loss() {
        return Ok(FilesState::Lost(loss));
    }
    match sqlite_std_file::open(rt, path, Unknown) {
        Ok(mut files) => state_opened(rt, &mut files, id, log, lengths.log.is_some()),
        Err(error) => state_unopened(StartFault::from(error)),
    }
}

/// The state of a node whose database isn't there: that is missing, where its log is there and has a byte.
fn state_without(rt: &HostRuntime, log: &str) -> Result<Option<FilesState>, AllocError> {
    match length_of(rt, log) {
        Ok(None) | Ok(Some(0)) => Ok(None),
        Ok(Some(_)) => Ok(Some(FilesState::Lost(Loss::NoDatabase))),
        Err(fault) => Ok(Some(state_unopened(fault)?)),
    }
}

/// The state of this node's database of a path and its log, where one of them is there.
fn state_of(rt: &HostRuntime, path: &str, id: NodeId) -> Result<Option<FilesState>, AllocError> {
    let log = format!(in rt.alloc(); "{path}-wal")?;
    match length_of(rt, path) {
        Ok(None) => state_without(rt, log.as_str()),
        Ok(Some(length)) => Ok(Some(state_at(rt, path, log.as_str(), id, length)?)),
        Err(fault) => Ok(Some(state_unopened(fault)?)),
    }
}

/// The state of the files of a node in the folder, where its database or its log is there.
fn state_in(rt: &HostRuntime, folder: &str, id: NodeId) -> Result<Option<FilesState>, AllocError> {
    let number = id.number();
    let path = format!(in rt.alloc(); "{folder}/node-{number}.db")?;
    state_of(rt, path.as_str(), id)
}

/// Refuses the database of a path and its log where they hold anything, or aren't this node's as one of any members.
/// They aren't refused where they aren't there, or where they hold nothing, as those of a start that was stopped. They
/// stay as they are.
pub fn refuse_used(rt: &HostRuntime, path: &str, id: NodeId) -> Result<(), StartFault> {
    match state_of(rt, path, id)? {
        Some(state) => refused_as_used(state, id),
        None => Ok(()),
    }
}

/// What the files of nodes in a folder are, for each node from 0 on whose database or log is there. They stay as they
/// are.
pub fn states_in(rt: &HostRuntime, folder: &str) -> Result<Vec<(u8, FilesState)>, StoreFault> {
    if !fs::metadata(rt, folder)?.is_dir() {
        return Err(StoreFault::Unusable);
    }
    let mut states = Vec::new(rt.alloc());
    for number in 0..MOST {
        let Some(id) = NodeId::new(number) else {
            break;
        };
        if let Some(state) = state_in(rt, folder, id)? {
            states.push((number, state))?;
        }
    }
    Ok(states)
}
