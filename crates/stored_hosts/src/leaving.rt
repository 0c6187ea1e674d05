//! What is removed from a folder.

ghost use Rattle.std.specs.Prelude.{◌≡◌, ℕ, List, IfErr, OnOk};
ghost use Rattle.stored_hosts.specs.Acts.{AreDone, FailsAmong};
ghost use Rattle.stored_hosts.specs.Leaving.{FailsToLeave, HasLeft, goes, removals_of};

use crate::folder::Folder;
use crate::names::{FileKind, HostFile};
use std::io;

/// What is removed together.
#[derive(Clone, Copy)]
pub(crate) enum Layer {
    States,
    Databases,
}

/// Whether a file of this layer is removed where the state of this epoch counts.
fn goes(layer: Layer, counts: u64, file: HostFile) -> bool
    ensures { result ≡ goes layer counts file }
{
    match (layer, file.kind) {
        (Layer::States, FileKind::State) => file.epoch < counts,
        (Layer::States, FileKind::Part) => true,
        (Layer::Databases, FileKind::Database | FileKind::Log) => file.epoch
            < counts.saturating_sub(1),
        _ => false,
    }
}

/// Removes those of these files that are of a layer, up to the first that can't be removed.
fn remove_layer<F: Folder>(
    folder: &mut F,
    files: &[HostFile],
    layer: Layer,
    counts: u64,
) -> io::Result<()>
    ensures done { OnOk result (AreDone F.does folder.old (removals_of layer counts files.now) folder.new) }
    ensures fails { IfErr result (λ why. FailsAmong F.does folder.old (removals_of layer counts files.now) why folder.new) }
{
    for file in files {
        if goes(layer, counts, *file) {
            folder.remove(*file)?;
        }
    }
    Ok(())
}

/// Removes what no start needs where the state of this epoch counts: states before it and what was being written; then,
/// behind a sync of the folder, databases below the epoch before it, each with its log. What can't be removed ends it,
/// and what is left is removed by the next call. It makes no file, and removes no other.
pub fn let_go<F: Folder>(folder: &mut F, counts: u64) -> io::Result<()>
    ensures done { OnOk result (HasLeft F.lists F.unread F.does counts folder.old folder.new) }
    ensures fails { IfErr result (λ why. FailsToLeave F.lists F.unread F.does counts folder.old why folder.new) }
{
    let files = folder.files()?;
    remove_layer(folder, files.as_slice(), Layer::States, counts)?;
    folder.sync()?;
    remove_layer(folder, files.as_slice(), Layer::Databases, counts)
}
