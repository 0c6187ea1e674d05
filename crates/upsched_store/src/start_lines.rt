//! What is told of a node that doesn't start over its file.

ghost use Rattle.std.specs.Prelude.{OnOk};
ghost use Rattle.std.specs.Io.KnownBytes.{Appends};
ghost use Rattle.log_ties.specs.declared.tie.Loss.TheVariants.{OtherTime};
ghost use Rattle.stored_nodes.specs.declared.start.StartFault.TheVariants.{Lost, Unopened, Unusable};
ghost use Rattle.upsched_store.specs.Starts.{foreign_line, memory_line, start_line};

use crate::found::foreign_text;
use crate::store_check::why_text;
use acceptor_store::{OpenFault, OwnerFault};
use log_ties::{Loss, Times};
use node::NodeFault;
use std::io;
use std::io::Write;
use stored_nodes::{FileFault, ForeignCause, StartFault};

fn print_times<E: Write>(path: &str, times: Times, errors: &mut E) -> io::Result<()>
    ensures { OnOk result (Appends (E.contents errors.old) (E.contents errors.new) (start_line path.now (Lost (OtherTime times)))) }
{
    let Times { first, last, file } = times;
    writeln!(
        errors,
        "upsched: log missing: {path}-wal: has commits {first} to {last}, {path} has {file}"
    )
}

fn print_loss<E: Write>(path: &str, loss: Loss, errors: &mut E) -> io::Result<()>
    ensures { OnOk result (Appends (E.contents errors.old) (E.contents errors.new) (start_line path.now (Lost loss))) }
{
    match loss {
        Loss::NoLog => writeln!(errors, "upsched: log missing: {path}-wal: isn't there"),
        Loss::CutAt(at) => writeln!(
            errors,
            "upsched: log missing: {path}-wal: is cut at byte {at}"
        ),
        Loss::Damaged => writeln!(errors, "upsched: log missing: {path}-wal: is damaged"),
        Loss::NoDatabase => writeln!(errors, "upsched: database missing: {path}"),
        Loss::OtherTime(times) => print_times(path, times, errors),
        Loss::OtherFile => writeln!(
            errors,
            "upsched: log missing: {path}-wal: has commits that don't fit {path}"
        ),
        Loss::NoTables => writeln!(errors, "upsched: database missing: {path}: has no tables"),
    }
}

fn print_unusable<E: Write>(path: &str, why: FileFault, errors: &mut E) -> io::Result<()>
    ensures { OnOk result (Appends (E.contents errors.old) (E.contents errors.new) (start_line path.now (Unusable why))) }
{
    let why = why_text(why);
    writeln!(errors, "upsched: store: {path}: {why}")
}

fn print_memory<E: Write>(errors: &mut E) -> io::Result<()>
    ensures { OnOk result (Appends (E.contents errors.old) (E.contents errors.new) memory_line) }
{
    writeln!(errors, "upsched: memory")
}

fn print_unopened<E: Write>(path: &str, fault: OwnerFault, errors: &mut E) -> io::Result<()>
    ensures { OnOk result (Appends (E.contents errors.old) (E.contents errors.new) (start_line path.now (Unopened fault))) }
{
    match fault {
        OwnerFault::Blank => writeln!(errors, "upsched: no store: {path}"),
        OwnerFault::Unowned => writeln!(errors, "upsched: store of nobody: {path}"),
        OwnerFault::OtherNode(owner) => {
            let (node, count) = (owner.node.number(), owner.members.count());
            writeln!(
                errors,
                "upsched: store of another node: {path}: node {node} of {count}"
            )
        }
        OwnerFault::OtherMembers(owner) => {
            let (node, count) = (owner.node.number(), owner.members.count());
            writeln!(
                errors,
                "upsched: store of other members: {path}: {node} of {count}"
            )
        }
        OwnerFault::Open(OpenFault::OutOfMemory) => print_memory(errors),
        OwnerFault::Open(OpenFault::Broken) => print_unusable(path, FileFault::Failed, errors),
        OwnerFault::Open(_) => writeln!(errors, "upsched: store: {path}: no database of a node"),
    }
}

/// Prints the line of the fault, with the path of the file and the cause.
pub fn print_start<E: Write>(path: &str, fault: StartFault, errors: &mut E) -> io::Result<()>
    ensures { OnOk result (Appends (E.contents errors.old) (E.contents errors.new) (start_line path.now fault)) }
{
    match fault {
        StartFault::NoFile => writeln!(errors, "upsched: no store: {path}"),
        StartFault::InUse => writeln!(errors, "upsched: store in use: {path}"),
        StartFault::NotFresh => writeln!(errors, "upsched: store not fresh: {path}"),
        StartFault::Lost(loss) => print_loss(path, loss, errors),
        StartFault::Unusable(why) => print_unusable(path, why, errors),
        StartFault::Unopened(fault) => print_unopened(path, fault, errors),
        StartFault::Unread(NodeFault::OutOfMemory) | StartFault::OutOfMemory => print_memory(
            errors,
        ),
        StartFault::Unread(_) => print_unusable(path, FileFault::Failed, errors),
    }
}

/// Prints the line of a start over files that no node wrote, with what is wrong of them.
pub fn print_foreign<E: Write>(path: &str, cause: ForeignCause, errors: &mut E) -> io::Result<()>
    ensures { OnOk result (Appends (E.contents errors.old) (E.contents errors.new) (foreign_line path.now cause)) }
{
    let cause = foreign_text(cause);
    writeln!(
        errors,
        "upsched: store: {path}: no database of a node: {cause}"
    )
}
