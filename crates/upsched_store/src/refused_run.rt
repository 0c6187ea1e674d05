//! Why a script doesn't run over the files of a folder, where more is to be logged.

ghost use Rattle.std.specs.Prelude.{◌≡◌, IsTrue, OnOk, flat_map};
ghost use Rattle.std.specs.Io.KnownBytes.{Appends};
ghost use Rattle.upsched_store.specs.Surveys.{is_fresh, taken_line};

use crate::found::{Found, found_in};
use crate::store_check::{print_one, why_text};
use std::alloc::Global;
use std::fs;
use std::io::Write;
use stored_nodes::{FileFault, FilesState, StartFault};
use upsched_ends::Fault;

/// Whether the fault is one of the files.
pub(crate) fn is_of_files(fault: &Fault<'_>) -> bool {
    matches!(fault, Fault::Store | Fault::StoreNotFresh)
}

fn is_fresh(state: FilesState) -> bool
    ensures { result ≡ is_fresh state }
{
    matches!(state, FilesState::Fresh)
}

fn print_taken<'a, E: Write>(
    alloc: Global,
    folder: &str,
    found: &Found,
    errors: &mut E,
) -> Result<(), Fault<'a>>
    ensures { OnOk result (Appends (E.contents errors.old) (E.contents errors.new) (taken_line folder.now found.now)) }
{
    if is_fresh(found.state) {
        return Ok(());
    }
    print_one(alloc, folder, found, errors)
}

/// Prints the line of each node's files over which no script begins.
fn print_all_taken<'a, E: Write>(
    alloc: Global,
    folder: &str,
    all: &[Found],
    errors: &mut E,
) -> Result<(), Fault<'a>>
    ensures { OnOk result (Appends (E.contents errors.old) (E.contents errors.new) (flat_map (taken_line folder.now) all.now)) }
{
    for found in all {
        print_taken(alloc, folder, found, errors)?;
    }
    Ok(())
}

/// Why the folder itself can't be used.
fn folder_fault(rt: &HostRuntime, folder: &str) -> Option<FileFault> {
    match fs::metadata(rt, folder) {
        Ok(found) if found.is_dir() => None,
        Ok(_) => Some(FileFault::NoFolder),
        Err(error) => match StartFault::from(error) {
            StartFault::Unusable(why) => Some(why),
            _ => None,
        },
    }
}

/// Tells why no script runs over the files of this folder: of the folder, or of each node's files over which none does.
pub(crate) fn tell_refused<E: Write>(rt: &HostRuntime, folder: &str, errors: &mut E) {
    if let Some(why) = folder_fault(rt, folder) {
        let why = why_text(why);
        let _ = writeln!(errors, "{folder}: {why}");
        return;
    }
    if let Ok(all) = found_in(rt, folder) {
        let _ = print_all_taken(rt.alloc(), folder, all.as_slice(), errors);
    }
}
