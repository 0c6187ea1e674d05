//! From the words to how the program ends.

ghost use Rattle.std.specs.Prelude.{◌≡◌, ◌<◌};
ghost use Rattle.ballots.specs.Members.{member_count};
ghost use Rattle.upsched_ends.specs.declared.status.Status.TheVariants.{Done, NotUnderstood};
ghost use Rattle.upsched_host.specs.Named.{NameHost, Who as Named};
ghost use Rattle.upsched_store.specs.Crashes.{TellsCause};
ghost use Rattle.upsched_store.specs.declared.crash.CrashCause.{CrashCause as Cause};
ghost use Rattle.upsched_stored_host.specs.Ends.{TellsCauses, Told, status_of};
ghost use Rattle.upsched_stored_host.specs.Running.{RunsAt};

use crate::fault_lines::print_stopped;
use crate::folder_run::serve_over;
use crate::stopped::Stopped;
use acceptor_store::SqlRecords;
use folder_hosts::{Databases, DatabasesAt, FolderOpens};
use hosts::Opens;
use kept_node::{KeptNode, WriteStore};
use node::Node;
use node_lines::Ahead;
use node_service::{Lines, Outbox};
use sqlite::{File, FileStore};
use std::alloc::Global;
use std::io::Write;
use stored_hosts::{Folder, FolderAt};
use stored_nodes::{CountsRefusals, FileRecords};
use upsched_ends::Status;
use upsched_host::{FolderWords, HostWords, Who, named_who};
use upsched_store::{CrashCause, crash_of};

/// What is told of a host, with the cause of a crash in place of its node: the node's records tell it, and are given up.
fn with_cause<'a, S: CountsRefusals>(
    told: Result<(), Stopped<'a, KeptNode<SqlRecords<S>>>>,
) -> Result<(), Stopped<'a, CrashCause>>
    ensures { TellsCauses (λ node cause. TellsCause S.refusals node.noted.store cause) told.entry result }
{
    match told {
        Ok(()) => Ok(()),
        Err(Stopped::Unstarted(fault)) => Err(Stopped::Unstarted(fault)),
        Err(Stopped::Crashed(epoch, node)) => {
            Err(Stopped::Crashed(epoch, crash_of(node.into_store())))
        }
        Err(Stopped::Ended(fault)) => Err(Stopped::Ended(fault)),
    }
}

/// Serves as this host over the folder.
fn serve_at<'a, I: Lines + Ahead, O: Outbox>(
    rt: &'a HostRuntime,
    who: Who,
    words: &FolderWords<'a>,
    input: &mut I,
    output: &mut O,
) -> Result<(), Stopped<'a, CrashCause>>
    requires { who.0 < member_count who.1 }
    ensures { RunsAt ⟦<FolderAt<'a> as Folder>⟧ ⟦<DatabasesAt<'a> as Databases>⟧ ⟦<FileRecords as WriteStore>⟧
        ⟦<FolderOpens<FolderAt<'a>, DatabasesAt<'a>> as Opens>⟧ ⟦<KeptNode<FileRecords> as Node>⟧ I.Lines O.Outbox
        (λ node cause. TellsCause ⟦<FileStore<File> as CountsRefusals>⟧.refusals node.noted.store cause)
        who words.now.start result input.old output.old input.new output.new }
{
    let (id, members, places) = who;
    let Some(databases) = DatabasesAt::new(rt, words.path, id, members) else {
        unreachable!()
    };
    let folder = FolderAt::new(rt, words.path);
    let told = serve_over(
        rt.alloc(),
        folder,
        databases,
        places,
        words.start,
        input,
        output,
    );
    with_cause(told)
}

/// Tells in one line why it ended before its input did, if it did.
fn tell_end<E: Write>(
    alloc: Global,
    folder: &str,
    told: &Result<(), Stopped<'_, CrashCause>>,
    errors: &mut E,
) -> Status
    ensures status { result ≡ status_of told.now }
    ensures quiet { result ≡ Done → errors.new ≡ errors.old }
{
    match told {
        Ok(()) => Status::Done,
        Err(why) => {
            let _ = print_stopped(alloc, folder, why, errors);
            Status::Faulted
        }
    }
}

/// Serves as the host that the words name, with its records and its states in a folder. Where they name none, one line
/// tells why. A fault is told in one line.
pub fn stored_host<'a, I: Lines + Ahead, O: Outbox, E: Write>(
    rt: &'a HostRuntime,
    words: &HostWords<'_>,
    folder: &FolderWords<'a>,
    input: &mut I,
    output: &mut O,
    errors: &mut E,
) -> Status
    ensures named { (who : Named) → NameHost words.now who → (told : Told Cause) × (result ≡ status_of told)
        × RunsAt ⟦<FolderAt<'a> as Folder>⟧ ⟦<DatabasesAt<'a> as Databases>⟧ ⟦<FileRecords as WriteStore>⟧
        ⟦<FolderOpens<FolderAt<'a>, DatabasesAt<'a>> as Opens>⟧ ⟦<KeptNode<FileRecords> as Node>⟧ I.Lines O.Outbox
        (λ node cause. TellsCause ⟦<FileStore<File> as CountsRefusals>⟧.refusals node.noted.store cause)
        who folder.now.start told input.old output.old input.new output.new }
    ensures unnamed { ((who : Named) → ¬ NameHost words.now who) → (result ≡ NotUnderstood) × (input.new ≡ input.old) × (output.new ≡ output.old) }
    ensures quiet { result ≡ Done → errors.new ≡ errors.old }
{
    match named_who(words) {
        Ok(who) => {
            let told = serve_at(rt, who, folder, input, output);
            tell_end(rt.alloc(), folder.path, &told, errors)
        }
        Err(why) => {
            let _ = writeln!(errors, "{}", why.line());
            Status::NotUnderstood
        }
    }
}
