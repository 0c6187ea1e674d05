//! `upsched node K --members M`: from the words to how the program ends.

ghost use Rattle.std.specs.Prelude.{◌≡◌, ◌⊎◌, ◌<◌, ◌↔◌, ℕ, Err, IsErrAnd, IsOk, MatchResult};
ghost use Rattle.ballots.specs.Members.{member_count};
ghost use Rattle.ballots.specs.declared.members.Members.{Members};
ghost use Rattle.node_service.specs.declared.service.End.TheVariants as ends;
ghost use Rattle.upsched_ends.specs.declared.status.Status.TheVariants.{Done, Faulted, NotUnderstood};
ghost use Rattle.upsched_node.specs.Ends.{IsOfInput, write_fault};
ghost use Rattle.upsched_node.specs.Member.{NamesMember};
ghost use Rattle.upsched_node.specs.Serving.{IsNewSeat, RunsNode};

use crate::member::member_of;
use crate::serving::serve_member;
use acceptor::PlainRecords;
use ballots::{Members, NodeId};
use node::SchedNode;
use node_lines::Unwritten;
use node_service::{End, Input, Output, Reply};
use seats::{PlainNode, Seat};
use std::alloc::Global;
use std::io::Write;
use upsched_ends::{Fault, NodeWords, Status};

/// Where lines come from, in what is told of a fault.
const INPUT_NAME: &str = "standard input";

/// What is told of words that name no member.
pub const NO_MEMBER: &str = "error: K is one of the M members, from 0 on, and M is 3 or 5";

/// What is told of a write that failed.
pub fn unwritten<'a>(why: Unwritten) -> Fault<'a>
    ensures { result ≡ write_fault why }
{
    match why {
        Unwritten::OutOfMemory => Fault::Memory,
        Unwritten::Output => Fault::Output,
    }
}

/// What is told of an input that failed, or that has more lines than a run may have.
pub fn unread<'a>() -> Fault<'a>
    ensures { IsOfInput result }
{
    Fault::Unreadable(INPUT_NAME)
}

/// What is told of how the lines ended: nothing where there are no more.
pub fn ended<'a>(end: End) -> Result<(), Fault<'a>>
    ensures done { IsOk result ↔ (end ≡ ends.Input) }
    ensures crashed { (result ≡ Err Fault.Crashed) ↔ (end ≡ ends.Crashed) }
    ensures memory { end ≡ ends.Unwritten Unwritten.OutOfMemory → result ≡ Err Fault.Memory }
    ensures output { end ≡ ends.Unwritten Unwritten.Output → result ≡ Err Fault.Output }
    ensures unread { (end ≡ ends.Unreadable) ⊎ (end ≡ ends.Spent) → IsErrAnd result IsOfInput }
{
    match end {
        End::Input => Ok(()),
        End::Crashed => Err(Fault::Crashed),
        End::Unreadable | End::Spent => Err(unread()),
        End::Unwritten(why) => Err(unwritten(why)),
    }
}

/// A new node of this number, with records in memory.
fn new_seat(alloc: Global, id: NodeId, members: Members) -> Seat<PlainNode>
    requires { id < member_count members }
    ensures { IsNewSeat id (member_count members) result }
{
    let records = PlainRecords::new(alloc);
    Seat::new(SchedNode::new(alloc, id, members, records))
}

fn serve_new<'a, I: Input, O: Output>(
    alloc: Global,
    id: NodeId,
    members: Members,
    input: &mut I,
    output: &mut O,
) -> Result<(), Fault<'a>>
    requires { id < member_count members }
    ensures { MatchResult result (λ done. RunsNode I.Input O.Output id members Done input.old output.old input.new output.new)
        (λ fault. RunsNode I.Input O.Output id members Faulted input.old output.old input.new output.new) }
{
    if let Err(why) = output.write_reply(alloc, &Reply::Fresh(id, members)) {
        return Err(unwritten(why));
    }
    let mut seat = new_seat(alloc, id, members);
    ended(serve_member(alloc, &mut seat, input, output))
}

/// Serves as the member that the words name, with records in memory. A fault is told in one line.
pub fn node<I: Input, O: Output, E: Write>(
    alloc: Global,
    words: &NodeWords<'_>,
    input: &mut I,
    output: &mut O,
    errors: &mut E,
) -> Status
    ensures named { (id : ℕ) (count : Members) → NamesMember words.now.number.now words.now.members.now id count
        → RunsNode I.Input O.Output id count result input.old output.old input.new output.new }
    ensures unnamed { ((id : ℕ) (count : Members) → ¬ NamesMember words.now.number.now words.now.members.now id count)
        → (result ≡ NotUnderstood) × (input.new ≡ input.old) × (output.new ≡ output.old) }
    ensures quiet { result ≡ Done → errors.new ≡ errors.old }
{
    let Some((id, members)) = member_of(words.number, words.members) else {
        let _ = writeln!(errors, "{NO_MEMBER}");
        return Status::NotUnderstood;
    };
    match serve_new(alloc, id, members, input, output) {
        Ok(()) => Status::Done,
        Err(fault) => fault.told(errors),
    }
}
