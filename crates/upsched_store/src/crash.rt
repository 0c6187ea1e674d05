//! Why a node over files of its own crashed, and what is told of it.

ghost use Rattle.std.specs.Prelude.{◌≡◌, OnOk};
ghost use Rattle.std.specs.Io.KnownBytes.{Appends};
ghost use Rattle.upsched_store.specs.Crashes.{IsCause, TellsCause, cause_text, crash_line, refused_in};

use crate::store_check::why_text;
use acceptor::Records;
use acceptor_store::SqlRecords;
use std::io;
use std::io::Write;
use stored_nodes::{CountsRefusals, FileFault};

/// Why a node over files of its own crashed.
#[derive(Clone, Copy, Debug, PartialEq, Eq)]
pub enum CrashCause {
    /// A call found no memory, and its records never failed.
    Memory,
    /// Its records failed, since a call of their files did so.
    Files(FileFault),
}

/// The cause, where the records failed so often, and so many calls of their files found no room.
fn cause_of(failures: u64, refused: u64) -> CrashCause
    ensures { IsCause failures refused result }
{
    if failures == 0 {
        CrashCause::Memory
    } else if refused == 0 {
        CrashCause::Files(FileFault::Failed)
    } else {
        CrashCause::Files(FileFault::NoRoom)
    }
}

/// How many calls found no room in a store that was given back.
fn refused_in<S: CountsRefusals>(given: &Option<S>) -> u64
    ensures { result ≡ refused_in S.refusals given.now }
{
    match given {
        Some(store) => store.refusals(),
        None => 0,
    }
}

/// Why the node crashed whose records these are. They count since their files were opened, and are given up.
pub fn crash_of<S: CountsRefusals>(records: SqlRecords<S>) -> CrashCause
    ensures { TellsCause S.refusals records result }
{
    let failures = records.failures();
    let given = records.into_store();
    cause_of(failures, refused_in(&given))
}

/// The text of a cause.
pub fn cause_text(cause: CrashCause) -> &'static str
    ensures { result.now ≡ cause_text cause }
{
    match cause {
        CrashCause::Memory => "memory",
        CrashCause::Files(why) => why_text(why),
    }
}

/// Prints the line of a crash, with the path of the file and the cause.
pub fn print_crash<E: Write>(path: &str, cause: CrashCause, errors: &mut E) -> io::Result<()>
    ensures { OnOk result (Appends (E.contents errors.old) (E.contents errors.new) (crash_line path.now cause)) }
{
    let cause = cause_text(cause);
    writeln!(errors, "upsched: crashed: {path}: {cause}")
}
