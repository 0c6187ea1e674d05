//! What is told of logs without commits.

ghost use Rattle.std.specs.Prelude.{◌≡◌, [], IsTrue, OnOk, false, flat_map, if◌then◌else◌};
ghost use Rattle.std.specs.Io.KnownBytes.{Appends};
ghost use Rattle.upsched_store.specs.Commitless.{all_commit, commitless_in, commitless_line};

use crate::found::Found;
use std::alloc::Global;
use std::io;
use std::io::Write;
use upsched_ends::Fault;

/// Prints the line of a log without commits, by the path of its database.
fn print_line<E: Write>(path: &str, errors: &mut E) -> io::Result<()>
    ensures { OnOk result (Appends (E.contents errors.old) (E.contents errors.new) (commitless_line path.now)) }
{
    writeln!(errors, "upsched: log without commits: {path}-wal")
}

/// Prints that line where the log of a database of this path lacks commits.
pub fn print_commitless<E: Write>(path: &str, lacks_commits: bool, errors: &mut E) -> io::Result<()>
    ensures printed { OnOk result (Appends (E.contents errors.old) (E.contents errors.new) (if lacks_commits then commitless_line path.now else [])) }
    ensures quiet { lacks_commits ≡ false → errors.new ≡ errors.old }
{
    if !lacks_commits {
        return Ok(());
    }
    print_line(path, errors)
}

/// The same of a node's files in this folder.
fn print_commitless_in<'a, E: Write>(
    alloc: Global,
    folder: &str,
    found: &Found,
    errors: &mut E,
) -> Result<(), Fault<'a>>
    ensures { OnOk result (Appends (E.contents errors.old) (E.contents errors.new) (commitless_in folder.now found.now)) }
{
    if !found.lacks_commits {
        return Ok(());
    }
    let number = found.number;
    let path = format!(in alloc; "{folder}/node-{number}.db")?;
    print_line(path.as_str(), errors)?;
    Ok(())
}

/// The same of each node's.
fn print_each_commitless<'a, E: Write>(
    alloc: Global,
    folder: &str,
    states: &[Found],
    errors: &mut E,
) -> Result<(), Fault<'a>>
    ensures { OnOk result (Appends (E.contents errors.old) (E.contents errors.new) (flat_map (commitless_in folder.now) states.now)) }
{
    for found in states {
        print_commitless_in(alloc, folder, found, errors)?;
    }
    Ok(())
}

fn all_commit(states: &[Found]) -> bool
    ensures { result ≡ all_commit states.now }
{
    states.iter().all(|found| !found.lacks_commits)
}

/// Tells of each node's files in this folder whose log has no commit, as far as that goes.
pub(crate) fn tell_commitless<E: Write>(
    alloc: Global,
    folder: &str,
    states: &[Found],
    errors: &mut E,
)
    ensures { IsTrue (all_commit states.now) → errors.new ≡ errors.old }
{
    if !all_commit(states) {
        let _ = print_each_commitless(alloc, folder, states, errors);
    }
}
