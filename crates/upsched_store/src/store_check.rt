//! `upsched check --store DIR`: what the files of a folder's nodes are, and why.

ghost use Rattle.std.specs.Prelude.{◌≡◌, ◌≢◌, ◌++◌, [], List, IfOk, IsTrue, OnOk, Some, codes, flat_map, IfErr};
ghost use Rattle.std.specs.Io.KnownBytes.{Appends};
ghost use Rattle.log_ties.specs.declared.tie.Loss.TheVariants.{OtherTime};
ghost use Rattle.upsched_store.specs.Commitless.{all_commit};
ghost use Rattle.upsched_store.specs.declared.found.Found.{Found as Each};
ghost use Rattle.upsched_ends.specs.declared.status.Status.TheVariants.{Done, NotUnderstood};
ghost use Rattle.upsched_store.specs.Surveys.{all_serve, each_serves, found_text, serves, state_line, state_lines};
ghost use Rattle.upsched_store.specs.Surveys.{look_text, state_text, why_text};
ghost use Rattle.stored_nodes.specs.declared.states.FilesState.TheVariants.{Foreign, Lost, OtherNode, Unusable};
ghost use Rattle.upsched_ends.specs.Faults.{StopsPrint};

use crate::commitless::tell_commitless;
use crate::found::{Found, foreign_text, found_in};
use crate::stored_run::fault_of;
use acceptor_store_parts::Owner;
use log_ties::{Loss, Times};
use std::alloc::Global;
use std::io;
use std::io::Write;
use stored_nodes::{FileFault, FilesState, ForeignCause};
use upsched_ends::{Fault, Status};

/// Why a file can't be used.
pub fn why_text(why: FileFault) -> &'static str
    ensures { result.now ≡ why_text why }
{
    match why {
        FileFault::NoFolder => "no folder",
        FileFault::NotRegular => "no regular file",
        FileFault::Denied => "permission denied",
        FileFault::NoRoom => "no room",
        FileFault::Journal => "rollback journal",
        FileFault::Failed => "a read or write failed",
    }
}

/// The same of files that are only looked at.
fn look_text(why: FileFault) -> &'static str
    ensures { result.now ≡ look_text why }
{
    match why {
        FileFault::Failed => "cannot read",
        _ => why_text(why),
    }
}

fn serves(state: FilesState) -> bool
    ensures { result ≡ serves state }
{
    match state {
        FilesState::Fresh | FilesState::Begun | FilesState::Used | FilesState::Locked => true,
        _ => false,
    }
}

/// Prints the line of files of two times.
fn print_times<O: Write>(path: &str, times: Times, output: &mut O) -> io::Result<()>
    ensures { OnOk result (Appends (O.contents output.old) (O.contents output.new) (path.now ++ (codes ": "
        ++ state_text path.now (Lost (OtherTime times))))) }
{
    let Times { first, last, file } = times;
    writeln!(
        output,
        "{path}: log missing: {path}-wal has commits {first} to {last}, {path} has {file}"
    )
}

/// Prints the line of files that lost something.
fn print_loss<O: Write>(path: &str, loss: Loss, output: &mut O) -> io::Result<()>
    ensures { OnOk result (Appends (O.contents output.old) (O.contents output.new) (path.now ++ (codes ": " ++ state_text path.now (Lost loss)))) }
{
    match loss {
        Loss::NoLog => writeln!(output, "{path}: log missing: {path}-wal isn't there"),
        Loss::CutAt(at) => writeln!(
            output,
            "{path}: log missing: {path}-wal is cut at byte {at}"
        ),
        Loss::Damaged => writeln!(output, "{path}: log missing: {path}-wal is damaged"),
        Loss::NoDatabase => writeln!(output, "{path}: database missing: {path} isn't there"),
        Loss::OtherTime(times) => print_times(path, times, output),
        Loss::OtherFile => writeln!(
            output,
            "{path}: log missing: {path}-wal has commits that don't fit {path}"
        ),
        Loss::NoTables => writeln!(output, "{path}: database missing: {path} has no tables"),
    }
}

/// Prints the line of another node's files.
fn print_other<O: Write>(path: &str, owner: Owner, output: &mut O) -> io::Result<()>
    ensures { OnOk result (Appends (O.contents output.old) (O.contents output.new) (path.now ++ (codes ": "
        ++ state_text path.now (OtherNode owner)))) }
{
    let (node, count) = (owner.node.number(), owner.members.count());
    writeln!(output, "{path}: of another node: node {node} of {count}")
}

/// Prints the line of files that can't be used.
fn print_unusable<O: Write>(path: &str, why: FileFault, output: &mut O) -> io::Result<()>
    ensures { OnOk result (Appends (O.contents output.old) (O.contents output.new) (path.now ++ (codes ": "
        ++ state_text path.now (Unusable why)))) }
{
    let why = look_text(why);
    writeln!(output, "{path}: unusable: {why}")
}

/// Writes the line of the files of this path.
fn write_state<O: Write>(path: &str, state: FilesState, output: &mut O) -> io::Result<()>
    ensures { OnOk result (Appends (O.contents output.old) (O.contents output.new) (path.now ++ (codes ": " ++ state_text path.now state))) }
{
    match state {
        FilesState::Fresh => writeln!(output, "{path}: fresh"),
        FilesState::Begun => writeln!(output, "{path}: begun"),
        FilesState::Used => writeln!(output, "{path}: used"),
        FilesState::Unowned => writeln!(output, "{path}: used, of nobody"),
        FilesState::Foreign => writeln!(output, "{path}: foreign"),
        FilesState::Locked => writeln!(output, "{path}: locked: another process has it open"),
        FilesState::OtherNode(owner) => print_other(path, owner, output),
        FilesState::Lost(loss) => print_loss(path, loss, output),
        FilesState::Unusable(why) => print_unusable(path, why, output),
    }
}

/// Writes the line of foreign files, of which it is known why.
fn write_foreign<O: Write>(path: &str, cause: ForeignCause, output: &mut O) -> io::Result<()>
    ensures { OnOk result (Appends (O.contents output.old) (O.contents output.new) (path.now ++ (codes ": "
        ++ found_text path.now Foreign (Some cause)))) }
{
    let cause = foreign_text(cause);
    writeln!(output, "{path}: foreign: {cause}")
}

/// Writes the line of the files of this path, by what was found.
fn write_found<O: Write>(path: &str, found: &Found, output: &mut O) -> io::Result<()>
    ensures { OnOk result (Appends (O.contents output.old) (O.contents output.new) (path.now ++ (codes ": "
        ++ found_text path.now found.now.state found.now.cause))) }
{
    match (found.state, found.cause) {
        (FilesState::Foreign, Some(cause)) => write_foreign(path, cause, output),
        _ => write_state(path, found.state, output),
    }
}

/// Prints the line of a node's files in this folder.
pub(crate) fn print_one<'a, O: Write>(
    alloc: Global,
    folder: &str,
    found: &Found,
    output: &mut O,
) -> Result<(), Fault<'a>>
    ensures printed { OnOk result (Appends (O.contents output.old) (O.contents output.new) (state_line folder.now found.now)) }
    ensures fault { IfErr result StopsPrint }
{
    let number = found.number;
    let path = format!(in alloc; "{folder}/node-{number}.db")?;
    write_found(path.as_str(), found, output)?;
    Ok(())
}

fn print_each<'a, O: Write>(
    alloc: Global,
    folder: &str,
    states: &[Found],
    output: &mut O,
) -> Result<(), Fault<'a>>
    ensures printed { OnOk result (Appends (O.contents output.old) (O.contents output.new) (flat_map (state_line folder.now) states.now)) }
    ensures fault { IfErr result StopsPrint }
{
    for found in states {
        print_one(alloc, folder, found, output)?;
    }
    Ok(())
}

fn print_none<'a, O: Write>(folder: &str, output: &mut O) -> Result<(), Fault<'a>>
    ensures printed { OnOk result (Appends (O.contents output.old) (O.contents output.new) (state_lines folder.now [])) }
    ensures fault { IfErr result StopsPrint }
{
    writeln!(output, "{folder}: no file of a node")?;
    Ok(())
}

fn print_states<'a, O: Write>(
    alloc: Global,
    folder: &str,
    states: &[Found],
    output: &mut O,
) -> Result<(), Fault<'a>>
    ensures printed { OnOk result (Appends (O.contents output.old) (O.contents output.new) (state_lines folder.now states.now)) }
    ensures fault { IfErr result StopsPrint }
{
    if states.is_empty() {
        print_none(folder, output)
    } else {
        print_each(alloc, folder, states, output)
    }
}

fn each_serves(states: &[Found]) -> bool
    ensures { result ≡ each_serves states.now }
{
    states.iter().all(|found| serves(found.state))
}

fn all_serve(states: &[Found]) -> bool
    ensures { result ≡ all_serve states.now }
{
    !states.is_empty() && each_serves(states)
}

/// Prints what each node's files are, a line each, and gives whether a node can begin or go on over each of them, or a
/// process has it open.
pub fn report_states<'a, O: Write>(
    alloc: Global,
    folder: &str,
    states: &[Found],
    output: &mut O,
) -> Result<bool, Fault<'a>>
    ensures printed { OnOk result (Appends (O.contents output.old) (O.contents output.new) (state_lines folder.now states.now)) }
    ensures serve { IfOk result (λ serve. serve ≡ all_serve states.now) }
    ensures fault { IfErr result StopsPrint }
{
    print_states(alloc, folder, states, output)?;
    output.flush()?;
    Ok(all_serve(states))
}

/// Reports the states of a folder's files, and tells of logs without commits on standard error.
fn report_folder<'a, O: Write, E: Write>(
    rt: &HostRuntime,
    folder: &str,
    output: &mut O,
    errors: &mut E,
) -> Result<bool, Fault<'a>>
    ensures { IfOk result (λ serve. (states : List Each) × (serve ≡ all_serve states)
        × Appends (O.contents output.old) (O.contents output.new) (state_lines folder.now states)
        × (IsTrue (all_commit states) → errors.new ≡ errors.old)) }
{
    match found_in(rt, folder) {
        Ok(states) => {
            tell_commitless(rt.alloc(), folder, states.as_slice(), errors);
            report_states(rt.alloc(), folder, states.as_slice(), output)
        }
        Err(fault) => Err(fault_of(fault)),
    }
}

/// Tells what the files of a folder's nodes are. Where no node can begin or go on over one of them, which no process
/// has open, or none is there, it ends as faulted. On standard error there is a line of each log without commits.
pub fn check_store<O: Write, E: Write>(
    rt: &HostRuntime,
    folder: &str,
    output: &mut O,
    errors: &mut E,
) -> Status
    ensures serve { result ≡ Done → (states : List Each) × IsTrue (all_serve states)
        × Appends (O.contents output.old) (O.contents output.new) (state_lines folder.now states)
        × (IsTrue (all_commit states) → errors.new ≡ errors.old) }
    ensures understood { result ≢ NotUnderstood }
{
    match report_folder(rt, folder, output, errors) {
        Ok(true) => Status::Done,
        Ok(false) => Status::Faulted,
        Err(fault) => fault.told(errors),
    }
}
