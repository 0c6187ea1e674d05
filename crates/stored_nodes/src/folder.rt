//! The files of nodes in a folder.

ghost use Rattle.std.specs.Prelude.{IfOk};
ghost use Rattle.ballots.specs.Members.{member_count};

use crate::fault::StoreFault;
use crate::uses::{NodesUse, use_nodes_over};
use ballots::Members;
use sqlite::{File, Files, Unknown};
use std::fs;
use std::io::ErrorKind;

/// Notes the path where nothing is there yet. What is there has to be a regular file.
fn note_missing(
    rt: &HostRuntime,
    path: String,
    missing: &mut Vec<String>,
) -> Result<(), StoreFault> {
    match fs::symlink_metadata(rt, path.as_str()) {
        Ok(found) if found.is_file() => Ok(()),
        Ok(_) => Err(StoreFault::Unusable),
        Err(error) if error.kind() == ErrorKind::NotFound => Ok(missing.push(path)?),
        Err(error) => Err(StoreFault::from(error)),
    }
}

/// Opens a node's database and its log, or makes them, and notes those that weren't there.
fn open_pair(
    rt: &HostRuntime,
    folder: &str,
    number: u8,
    missing: &mut Vec<String>,
) -> Result<Files<File>, StoreFault> {
    let path = format!(in rt.alloc(); "{folder}/node-{number}.db")?;
    let log = format!(in rt.alloc(); "{folder}/node-{number}.db-wal")?;
    note_missing(rt, path.clone()?, missing)?;
    note_missing(rt, log, missing)?;
    Ok(sqlite_std_file::open(rt, path.as_str(), Unknown)?)
}

/// Opens the files of so many nodes in a folder that is there, and notes those that weren't there.
fn open_pairs(
    rt: &HostRuntime,
    folder: &str,
    members: Members,
    missing: &mut Vec<String>,
) -> Result<Vec<Files<File>>, StoreFault> {
    if !fs::metadata(rt, folder)?.is_dir() {
        return Err(StoreFault::Unusable);
    }
    let mut pairs = Vec::new(rt.alloc());
    for number in 0..members.count() {
        pairs.push(open_pair(rt, folder, number, missing)?)?;
    }
    Ok(pairs)
}

/// Takes these files away, as far as that goes.
fn remove_all(rt: &HostRuntime, paths: Vec<String>) {
    for path in paths {
        let _ = fs::remove_file(rt, path.as_str());
    }
}

/// Uses the nodes over the files of a folder, `node-K.db` and its log for node K. Where that gives a fault, it is
/// given, nothing is used, and what wasn't there before is taken away again.
pub fn use_nodes_in<U: NodesUse>(
    rt: &HostRuntime,
    folder: &str,
    members: Members,
    user: U,
) -> Result<U::Answer, StoreFault>
    ensures { IfOk result (U.comes user (member_count members)) }
{
    let mut missing = Vec::new(rt.alloc());
    let answer = match open_pairs(rt, folder, members, &mut missing) {
        Ok(pairs) => use_nodes_over(rt.alloc(), members, pairs, user),
        Err(fault) => Err(fault),
    };
    if answer.is_err() {
        remove_all(rt, missing);
    }
    answer
}
