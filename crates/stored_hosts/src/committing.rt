//! How a state is put into a folder.

ghost use Rattle.std.specs.Prelude.{◌≡◌, IfErr, OnOk};
ghost use Rattle.stored_hosts.specs.Acts.{AreDone, FailsAmong};
ghost use Rattle.host_states.specs.States.{state_bytes};
ghost use Rattle.stored_hosts.specs.Committing.{FailsToCommit, commit_of};

use crate::fault::FolderFault;
use crate::folder::Folder;
use crate::names::{FileKind, HostFile};
use grant_machine::Machine;
use host_states::{StateHead, state_bytes};
use std::alloc::Global;
use std::io;

/// Puts the bytes of a state into the folder, under the name of the epoch, in place of one that was there. They are
/// written under another name and synced before they get that name, and last the folder is synced. What fails ends it: no
/// other file was touched, and the state of that epoch, where one was there, is as before unless the bytes got its name
/// whole and synced.
pub fn commit_bytes<F: Folder>(folder: &mut F, epoch: u64, bytes: &[u8]) -> io::Result<()>
    ensures done { OnOk result (AreDone F.does folder.old (commit_of epoch bytes.now) folder.new) }
    ensures fails { IfErr result (λ why. FailsAmong F.does folder.old (commit_of epoch bytes.now) why folder.new) }
{
    let part = HostFile {
        epoch,
        kind: FileKind::Part,
    };
    let state = HostFile {
        epoch,
        kind: FileKind::State,
    };
    let mut target = folder.make(part)?;
    folder.write(&mut target, bytes)?;
    folder.sync_file(&mut target)?;
    folder.rename(part, state)?;
    folder.sync()
}

/// Puts the state of a scheduler at the start of an epoch into the folder, as `commit_bytes` does. Without memory nothing
/// is done.
pub fn commit_state<F: Folder>(
    alloc: Global,
    folder: &mut F,
    head: &StateHead,
    machine: &Machine,
) -> Result<(), FolderFault>
    ensures done { OnOk result (AreDone F.does folder.old (commit_of head.now.epoch (state_bytes head.now machine.now)) folder.new) }
    ensures fails { IfErr result (FailsToCommit F.does (commit_of head.now.epoch (state_bytes head.now machine.now)) folder.old folder.new) }
{
    let bytes = state_bytes(alloc, head, machine)?;
    commit_bytes(folder, head.epoch, bytes.as_slice())?;
    Ok(())
}
