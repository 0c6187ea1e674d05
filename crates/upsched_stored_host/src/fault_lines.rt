//! What is told of a host that doesn't start over its folder, or that ended.

ghost use Rattle.std.specs.Prelude.{◌≡◌, ℕ, OnOk};
ghost use Rattle.std.specs.Io.KnownBytes.{Appends};
ghost use Rattle.folder_hosts.specs.declared.fault.HostStartFault.{HostStartFault as Fault};
ghost use Rattle.stored_hosts.specs.declared.names.FileKind.TheVariants.{Database, State};
ghost use Rattle.upsched_store.specs.Starts.{memory_line, start_line};
ghost use Rattle.upsched_store.specs.declared.crash.CrashCause.{CrashCause as Cause};
ghost use Rattle.upsched_stored_host.specs.Lines.{fall_line, host_start_line, path_in, state_line, unusable_line};

use crate::stopped::Stopped;
use folder_hosts::{HostStartFault, StateCause};
use std::alloc::Global;
use std::io;
use std::io::{ErrorKind, Write};
use stored_hosts::{FileKind, HostFile, path_of};
use stored_nodes::{FileFault, StartFault};
use upsched_host::NO_PLACES;
use upsched_store::{CrashCause, print_crash, print_start, why_text};

fn print_memory<E: Write>(errors: &mut E) -> io::Result<()>
    ensures { OnOk result (Appends (E.contents errors.old) (E.contents errors.new) (memory_line)) }
{
    writeln!(errors, "upsched: memory")
}

/// The same where a line can't be made. It isn't told then.
fn print_memory_instead<E: Write>(errors: &mut E) -> io::Result<()>
    ensures { OnOk result ⊥ }
{
    print_memory(errors)?;
    Err(io::Error::from(ErrorKind::OutOfMemory))
}

/// The line of a file or folder that can't be used.
fn print_unusable<E: Write>(path: &str, why: FileFault, errors: &mut E) -> io::Result<()>
    ensures { OnOk result (Appends (E.contents errors.old) (E.contents errors.new) (unusable_line path.now why)) }
{
    let why = why_text(why);
    writeln!(errors, "upsched: store: {path}: {why}")
}

/// The line of a state, by the path of its file.
fn print_state<E: Write>(path: &str, cause: StateCause, errors: &mut E) -> io::Result<()>
    ensures { OnOk result (Appends (E.contents errors.old) (E.contents errors.new) (state_line path.now cause)) }
{
    match cause {
        StateCause::NotFresh => writeln!(errors, "upsched: store not fresh: {path}"),
        StateCause::OtherNode(head) => {
            let (host, count) = (head.id, head.members);
            writeln!(
                errors,
                "upsched: store of another node: {path}: node {host} of {count}"
            )
        }
        StateCause::OtherMembers(head) => {
            let (host, count) = (head.id, head.members);
            writeln!(
                errors,
                "upsched: store of other members: {path}: {host} of {count}"
            )
        }
        StateCause::OtherPlaces(head) => {
            let places = head.places;
            writeln!(errors, "upsched: store of other places: {path}: {places}")
        }
        StateCause::Damaged => writeln!(errors, "upsched: store: {path}: damaged"),
        StateCause::Unusable(why) => print_unusable(path, why, errors),
    }
}

/// The line of the state of an epoch in this folder.
fn print_state_in<E: Write>(
    alloc: Global,
    folder: &str,
    state: (u64, StateCause),
    errors: &mut E,
) -> io::Result<()>
    ensures { OnOk result (Appends (E.contents errors.old) (E.contents errors.new) (state_line (path_in folder.now state.0 State) state.1)) }
{
    let (epoch, cause) = state;
    let kind = FileKind::State;
    match path_of(alloc, folder, HostFile { epoch, kind }) {
        Ok(path) => print_state(path.as_str(), cause, errors),
        Err(_) => print_memory_instead(errors),
    }
}

/// The line of the database of an epoch in this folder.
fn print_database_in<E: Write>(
    alloc: Global,
    folder: &str,
    database: (u64, StartFault),
    errors: &mut E,
) -> io::Result<()>
    ensures { OnOk result (Appends (E.contents errors.old) (E.contents errors.new) (start_line (path_in folder.now database.0 Database) database.1)) }
{
    let (epoch, why) = database;
    let kind = FileKind::Database;
    match path_of(alloc, folder, HostFile { epoch, kind }) {
        Ok(path) => print_start(path.as_str(), why, errors),
        Err(_) => print_memory_instead(errors),
    }
}

/// The line of a node that crashed in this folder, with the cause.
fn print_crash_in<E: Write>(
    alloc: Global,
    folder: &str,
    crash: (u64, CrashCause),
    errors: &mut E,
) -> io::Result<()>
    ensures { OnOk result (Appends (E.contents errors.old) (E.contents errors.new) (fall_line folder.now crash.0 crash.1)) }
{
    let (epoch, cause) = crash;
    let kind = FileKind::Database;
    match path_of(alloc, folder, HostFile { epoch, kind }) {
        Ok(path) => print_crash(path.as_str(), cause, errors),
        Err(_) => print_memory_instead(errors),
    }
}

/// Prints the line of the fault of a host over this folder, with the path of the file and the cause. Where there is no
/// memory for the path, that is told.
pub fn print_host_start<E: Write>(
    alloc: Global,
    folder: &str,
    fault: HostStartFault,
    errors: &mut E,
) -> io::Result<()>
    ensures { OnOk result (Appends (E.contents errors.old) (E.contents errors.new) (host_start_line folder.now fault)) }
{
    match fault {
        HostStartFault::NoState => writeln!(errors, "upsched: no store: {folder}"),
        HostStartFault::Places => writeln!(errors, "{NO_PLACES}"),
        HostStartFault::Folder(why) => print_unusable(folder, why, errors),
        HostStartFault::Database(epoch, why) => {
            print_database_in(alloc, folder, (epoch, why), errors)
        }
        HostStartFault::State(epoch, cause) => {
            print_state_in(alloc, folder, (epoch, cause), errors)
        }
        HostStartFault::OutOfMemory => print_memory(errors),
    }
}

/// Prints in one line why a host over this folder ended before its input did.
pub fn print_stopped<E: Write>(
    alloc: Global,
    folder: &str,
    why: &Stopped<'_, CrashCause>,
    errors: &mut E,
) -> io::Result<()>
    ensures unstarted { (fault : Fault) → why.now ≡ Stopped.Unstarted fault
        → OnOk result (Appends (E.contents errors.old) (E.contents errors.new) (host_start_line folder.now fault)) }
    ensures crashed { (epoch : ℕ) (cause : Cause) → why.now ≡ Stopped.Crashed epoch cause
        → OnOk result (Appends (E.contents errors.old) (E.contents errors.new) (fall_line folder.now epoch cause)) }
{
    match why {
        Stopped::Unstarted(fault) => print_host_start(alloc, folder, *fault, errors),
        Stopped::Crashed(epoch, cause) => print_crash_in(alloc, folder, (*epoch, *cause), errors),
        Stopped::Ended(fault) => {
            let _ = fault.told(errors);
            Ok(())
        }
    }
}
