//! What a start finds in a folder.

ghost use Rattle.std.specs.Prelude.{◌≡◌, IfErr, IfOk};
ghost use Rattle.stored_hosts.specs.Surveying.{AreRead, IsUnread, Surveys, is_state};

use crate::fault::FolderFault;
use crate::finding::{Found, StateFile, WhichHost, find};
use crate::folder::Folder;
use crate::names::{FileKind, HostFile};
use std::alloc::Global;

fn is_state(kind: FileKind) -> bool
    ensures { result ≡ is_state kind }
{
    matches!(kind, FileKind::State)
}

/// The bytes of a state.
fn state_in<F: Folder>(folder: &F, file: HostFile) -> Result<StateFile, FolderFault>
    ensures read { IfOk result (λ state. (state.epoch ≡ file.epoch) × F.holds folder.now file state.bytes.items) }
    ensures fails { IfErr result (IsUnread F.holds F.unread folder.now) }
{
    let epoch = file.epoch;
    match folder.read(file) {
        Ok(bytes) => Ok(StateFile { epoch, bytes }),
        Err(why) => Err(FolderFault::Unread(epoch, why)),
    }
}

/// The bytes of those of these files that are states, in their order.
fn states_of<F: Folder>(
    alloc: Global,
    folder: &F,
    files: &[HostFile],
) -> Result<Vec<StateFile>, FolderFault>
    ensures read { IfOk result (λ states. AreRead F.holds F.unread folder.now files.now states.items) }
    ensures fails { IfErr result (IsUnread F.holds F.unread folder.now) }
{
    let mut states = Vec::new(alloc);
    for file in files {
        if is_state(file.kind) {
            states.push(state_in(folder, *file)?)?;
        }
    }
    Ok(states)
}

/// What a start of this host finds in a folder. It changes nothing there.
pub fn survey<F: Folder>(alloc: Global, folder: &F, which: WhichHost) -> Result<Found, FolderFault>
    ensures { Surveys F.holds F.unread F.lists which folder.now result }
{
    let files = folder.files()?;
    let states = states_of(alloc, folder, files.as_slice())?;
    find(alloc, which, files.as_slice(), states.as_slice())
}
