//! `upsched node K --members M --store FILE`: the node keeps its records in a file of its own.

ghost use Rattle.std.specs.Prelude.{◌≡◌, ◌<◌, ℕ, IfErr, IsTrue, OnOk, false};
ghost use Rattle.std.specs.Io.KnownBytes.{Appends};
ghost use Rattle.acceptor.specs.Content.{AreRowsFrom};
ghost use Rattle.acceptor.specs.Found.{Holds};
ghost use Rattle.acceptor_store.specs.Linked.{IsHonest, MayFind};
ghost use Rattle.ballots.specs.Members.{member_count};
ghost use Rattle.ballots.specs.declared.members.Members.{Members};
ghost use Rattle.node.specs.View.{View};
ghost use Rattle.node.specs.View.Standing.{Running};
ghost use Rattle.node_service.specs.Batched.{FailsToTell};
ghost use Rattle.stored_nodes.specs.Alone.{IsBegunIn};
ghost use Rattle.upsched_ends.specs.declared.status.Status.TheVariants.{Done, Faulted, NotUnderstood};
ghost use Rattle.upsched_node.specs.Member.{NamesMember};
ghost use Rattle.upsched_store.specs.Crashes.{TellsCause};
ghost use Rattle.upsched_store.specs.Runs.{RunsStored, TellsAndServes, first_text};
ghost use Rattle.upsched_store.specs.Stops.{IsUnstarted, StopsBy, Told, status_of};

use crate::commitless::print_commitless;
use crate::crash::{CrashCause, crash_of, print_crash};
use crate::found::{foreign_start, is_commitless};
use crate::start_lines::{print_foreign, print_start};
use acceptor_store::SqlRecords;
use ballots::{Members, NodeId};
use batched_node::{BatchedSeat, serve_batched_member};
use kept_node::WriteStore;
use node::Node;
use node_lines::{Ahead, Unwritten};
use node_service::{BatchedEnd, Lines, Outbox, Reply, tell};
use seats::PlainNode;
use sqlite::{File, FileStore};
use sqlite_disk::Disk;
use std::alloc::Global;
use std::io::Write;
use stored_nodes::{CountsRefusals, FileRecords, ForeignCause, StartFault, started_at};
use upsched_ends::{Fault, NodeWords, Status};
use upsched_node::{NO_MEMBER, member_of, unread, unwritten};

/// Why a node over a file of its own ended before its input did.
#[derive(Drop)]
enum Stopped {
    /// It didn't start.
    Unstarted(StartFault),
    /// It didn't start over files that no node wrote.
    Foreign(ForeignCause),
    /// It crashed.
    Crashed(CrashCause),
    Ended(Fault<'static>),
}

/// Why it ended, where the lines ended so and these records are given up.
fn stopped_by<S: CountsRefusals>(end: BatchedEnd, records: SqlRecords<S>) -> Result<(), Stopped>
    ensures { StopsBy (TellsCause S.refusals records) end result }
{
    match end {
        BatchedEnd::Input => Ok(()),
        BatchedEnd::Crashed | BatchedEnd::Uncommitted => Err(Stopped::Crashed(crash_of(records))),
        BatchedEnd::Unreadable | BatchedEnd::Spent => Err(Stopped::Ended(unread())),
        BatchedEnd::Unwritten(why) => Err(Stopped::Ended(unwritten(why))),
    }
}

/// Which node of how many, and whether it is new.
type Who = (NodeId, Members, bool);

/// Tells the first line of a node.
fn tell_first<O: Outbox>(alloc: Global, who: Who, output: &mut O) -> Result<(), Unwritten>
    ensures written { OnOk result (Appends (O.bytes_held output.old) (O.bytes_held output.new) (first_text who.2 who.0 who.1)) }
    ensures fails { IfErr result (λ why. FailsToTell O.Outbox (first_text who.2 who.0 who.1) why output.old output.new) }
{
    let (id, members, is_new) = who;
    if is_new {
        tell(alloc, &Reply::Fresh(id, members), output)
    } else {
        tell(alloc, &Reply::Restarted(id, members), output)
    }
}

/// A node that has started, beside the records of its files, which hold what it holds, tells its first line, and then
/// replies to each line that comes.
fn serve_started<S: CountsRefusals, I: Lines + Ahead, O: Outbox>(
    alloc: Global,
    started: (PlainNode, SqlRecords<S>),
    who: Who,
    input: &mut I,
    output: &mut O,
) -> Result<(), Stopped>
    requires id { (⟦<PlainNode as Node>⟧.who started.0).id ≡ who.0 }
    requires members { (⟦<PlainNode as Node>⟧.who started.0).members ≡ member_count who.1 }
    requires up { (⟦<PlainNode as Node>⟧.who started.0).down ≡ false }
    requires holds { IsHonest S.Store started.1 → (view : View) × ⟦<PlainNode as Node>⟧.stands started.0 (Running view)
        × Holds (MayFind S.Store started.1.owner started.1.held) view.content × AreRowsFrom 1 view.content.votes }
    ensures { (view : View) → ⟦<PlainNode as Node>⟧.stands started.0 (Running view)
        → TellsAndServes ⟦<SqlRecords<S> as WriteStore>⟧ (λ store cause. TellsCause S.refusals store cause) I.Lines O.Outbox
        (member_count who.1) who.0 view (first_text who.2 who.0 who.1) result input.old output.old input.new output.new }
{
    let (node, store) = started;
    let Ok(mut seat) = BatchedSeat::of(alloc, node, store) else {
        return Err(Stopped::Ended(Fault::Memory));
    };
    if let Err(why) = tell_first(alloc, who, output) {
        return Err(Stopped::Ended(unwritten(why)));
    }
    let end = serve_batched_member(alloc, &mut seat, input, output);
    stopped_by(end, seat.into_store())
}

/// Why it didn't start for this fault, over the database of a path.
fn unstarted(rt: &HostRuntime, path: &str, fault: StartFault) -> Stopped
    ensures { IsUnstarted result }
{
    match foreign_start(rt, path, &fault) {
        Some(cause) => Stopped::Foreign(cause),
        None => Stopped::Unstarted(fault),
    }
}

/// Serves so: as a new node, or as one that goes on over what it left there. Before its first line it tells where the
/// log that it goes on over lacks commits.
fn serve_over<I: Lines + Ahead, O: Outbox, E: Write>(
    rt: &HostRuntime,
    path: &str,
    who: Who,
    input: &mut I,
    output: &mut O,
    errors: &mut E,
) -> Result<(), Stopped>
    requires { who.0 < member_count who.1 }
    ensures runs { RunsStored ⟦<FileRecords as WriteStore>⟧ (λ store cause. TellsCause ⟦<FileStore<File> as CountsRefusals>⟧.refusals store cause)
        I.Lines O.Outbox
        (λ is_new c. (files : _) × IsBegunIn ⟦<File as Disk>⟧ files (record { node = who.0; members = who.1 }) is_new c)
        who.0 who.1 who.2 result input.old output.old input.new output.new }
    ensures quiet { IsTrue who.2 → errors.new ≡ errors.old }
{
    let (id, members, is_new) = who;
    let lacks_commits = !is_new && is_commitless(rt, path);
    match started_at(rt, path, (id, members), is_new) {
        Ok(started) => {
            let _ = print_commitless(path, lacks_commits, errors);
            serve_started(rt.alloc(), started, (id, members, is_new), input, output)
        }
        Err(fault) => Err(unstarted(rt, path, fault)),
    }
}

/// Tells in one line why it ended, with the path of the file where that is the cause.
fn tell_stopped<E: Write>(path: &str, why: &Stopped, errors: &mut E) -> Status
    ensures { result ≡ Faulted }
{
    match why {
        Stopped::Unstarted(fault) => {
            let _ = print_start(path, *fault, errors);
        }
        Stopped::Foreign(cause) => {
            let _ = print_foreign(path, *cause, errors);
        }
        Stopped::Crashed(cause) => {
            let _ = print_crash(path, *cause, errors);
        }
        Stopped::Ended(fault) => {
            let _ = fault.told(errors);
        }
    }
    Status::Faulted
}

/// Serves as the member that the words name, with its records in the database of a path. Lines that have come together
/// share a sync there, and their replies go out behind it. A fault is told in one line.
pub fn stored_node<I: Lines + Ahead, O: Outbox, E: Write>(
    rt: &HostRuntime,
    words: &NodeWords<'_>,
    path: &str,
    input: &mut I,
    output: &mut O,
    errors: &mut E,
) -> Status
    ensures named { (id : ℕ) (count : Members) → NamesMember words.now.number.now words.now.members.now id count
        → (told : Told) × (result ≡ status_of told)
        × RunsStored ⟦<FileRecords as WriteStore>⟧ (λ store cause. TellsCause ⟦<FileStore<File> as CountsRefusals>⟧.refusals store cause)
        I.Lines O.Outbox (λ is_new c. (files : _) × IsBegunIn ⟦<File as Disk>⟧ files (record { node = id; members = count }) is_new c)
        id count words.now.is_new told input.old output.old input.new output.new }
    ensures unnamed { ((id : ℕ) (count : Members) → ¬ NamesMember words.now.number.now words.now.members.now id count)
        → (result ≡ NotUnderstood) × (input.new ≡ input.old) × (output.new ≡ output.old) }
    ensures quiet { result ≡ Done → IsTrue words.now.is_new → errors.new ≡ errors.old }
{
    let Some((id, members)) = member_of(words.number, words.members) else {
        let _ = writeln!(errors, "{NO_MEMBER}");
        return Status::NotUnderstood;
    };
    let who = (id, members, words.is_new);
    match serve_over(rt, path, who, input, output, errors) {
        Ok(()) => Status::Done,
        Err(why) => tell_stopped(path, &why, errors),
    }
}
