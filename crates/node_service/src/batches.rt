//! Whatever keeps what it did by commits, over lines: those that have come together share a commit.

ghost use Rattle.std.specs.Prelude.{◌≡◌, ◌⊎◌, ◌++◌, ◌∷◌, ◌<◌, [], ℕ, List, Result, IfErr, IfOk, IsOk, IsTrue, MatchOption};
ghost use Rattle.std.specs.Prelude.{OnErr, OnOk, false, length, true};
ghost use Rattle.std.specs.List.{Contains, flat_map, prefix_len};
ghost use Rattle.std.specs.Io.KnownBytes.{Appends};
ghost use Rattle.node_lines.specs.Input.{LineComes};
ghost use Rattle.node_service.specs.Came.{next_of};
ghost use Rattle.node_service.specs.Batched.{Closes, Commits, EndsBatchedBy, FailsAt, FailsToClose, FailsToTell};
ghost use Rattle.node_service.specs.Batched.{FailsToTellLeft, FailsWithin, IsLeft, StopsAt, Takes, TellsLeft};
ghost use Rattle.node_service.specs.Batched.{comes_apart, left_of, those};
ghost use Rattle.node_lines.specs.declared.fault.LineFault.{LineFault as WhyNot};
ghost use Rattle.node_lines.specs.declared.input.Next.TheVariants as next;

use crate::incoming::Unreadable;
use crate::keeper::Keeper;
use crate::lines::Lines;
use crate::outbox::{Outbox, Told};
use node_lines::{Ahead, Next, Unwritten};
use std::alloc::Global;

/// The most lines of a batch.
const MOST_LINES: u64 = 1024;

/// Why no more lines are replied to.
#[derive(Clone, Copy, Debug, PartialEq, Eq)]
pub enum BatchedEnd {
    /// No whole line is left.
    Input,
    /// What replies is down.
    Crashed,
    /// A commit failed, which was told.
    Uncommitted,
    /// The input failed.
    Unreadable,
    /// What was to go out couldn't be written or sent out, or there was no memory for it.
    Unwritten(Unwritten),
    /// So many lines were replied to as a run may have, 2^64 - 1.
    Spent,
}

/// What comes next. It is waited for only where no reply waits.
fn next_unless_waiting<I: Lines + Ahead, R>(
    alloc: Global,
    input: &mut I,
    replies: &Vec<R>,
) -> Result<Next, Unreadable>
    requires { (replies.now.items ≡ []) ⊎ Contains (I.ahead input.old) 10 }
    ensures comes { IfOk result (LineComes (I.bytes_left input.old) (I.bytes_left input.new)) }
    ensures gives { IfOk result (λ what. I.gives input.old what input.new) }
    ensures fails { OnErr result (I.fails input.old input.new) }
{
    input.next(alloc)
}

/// The reply to what came. None where no line is left.
fn reply_to_next<K: Keeper>(alloc: Global, keeper: &mut K, what: Next) -> Option<K::Reply>
    requires up { K.up keeper.old ≡ true }
    requires apart { comes_apart K.is_apart what ≡ true → K.has_kept keeper.old }
    requires noted { K.has_noted keeper.old }
    requires room { K.has_room keeper.old }
    ensures replies { MatchOption result ((what ≡ next.End) × (keeper.new ≡ keeper.old))
        (λ reply. (came : Result (List ℕ) WhyNot) × (what ≡ next_of came) × K.replies keeper.old came reply keeper.new) }
    ensures noted { K.has_noted keeper.new }
{
    match what {
        Next::Line(line) => Some(keeper.reply_to(alloc, Ok(line))),
        Next::Refused(why) => Some(keeper.reply_to(alloc, Err(why))),
        Next::End => None,
    }
}

/// Writes a reply of one that has kept all that it did.
fn put_kept<K: Keeper, O: Outbox>(
    alloc: Global,
    keeper: &K,
    reply: &K::Reply,
    output: &mut O,
) -> Result<(), Unwritten>
    requires { K.has_kept keeper.now }
    ensures written { OnOk result (Appends (O.bytes_held output.old) (O.bytes_held output.new) (K.Reply.text reply.now)) }
    ensures fails { IfErr result (λ why. O.fails output.old (K.Reply.text reply.now) why output.new) }
{
    output.put(alloc, reply)
}

/// The same, where the end is to be known that comes of it.
fn put_one<K: Keeper, O: Outbox>(
    alloc: Global,
    keeper: &K,
    reply: &K::Reply,
    output: &mut O,
) -> Result<(), BatchedEnd>
    requires { K.has_kept keeper.now }
    ensures written { OnOk result (Appends (O.bytes_held output.old) (O.bytes_held output.new) (K.Reply.text reply.now)) }
    ensures fails { IfErr result (FailsAt O.Outbox (K.Reply.text reply.now) output.old output.new) }
{
    match put_kept(alloc, keeper, reply, output) {
        Ok(()) => Ok(()),
        Err(why) => Err(BatchedEnd::Unwritten(why)),
    }
}

/// Tells something, and sends it out.
pub fn tell<T: Told, O: Outbox>(alloc: Global, told: &T, output: &mut O) -> Result<(), Unwritten>
    ensures written { OnOk result (Appends (O.bytes_held output.old) (O.bytes_held output.new) (T.text told.now)) }
    ensures fails { IfErr result (λ why. FailsToTell O.Outbox (T.text told.now) why output.old output.new) }
{
    output.put(alloc, told)?;
    output.send_out()
}

/// Writes replies of one that has kept all that it did, and the last one if there is one, and sends them out.
fn put_all_kept<K: Keeper, O: Outbox>(
    alloc: Global,
    keeper: &K,
    replies: &[K::Reply],
    last: &Option<K::Reply>,
    output: &mut O,
) -> Result<(), Unwritten>
    requires { K.has_kept keeper.now }
    ensures written { OnOk result (Appends (O.bytes_held output.old) (O.bytes_held output.new) (flat_map K.Reply.text (replies.now ++ those last.now))) }
    ensures fails { IfErr result (λ why. FailsWithin K.Reply.text O.Outbox (replies.now ++ those last.now) why output.old output.new) }
{
    for reply in replies {
        put_kept(alloc, keeper, reply, output)?;
    }
    if let Some(reply) = last {
        put_kept(alloc, keeper, reply, output)?;
    }
    output.send_out()
}

/// Writes a reply that may be told behind a commit that failed.
fn put_left<K: Keeper, O: Outbox>(
    alloc: Global,
    told: &K::Reply,
    reply: &K::Reply,
    output: &mut O,
) -> Result<(), Unwritten>
    requires { K.may_tell told.now reply.now ≡ true }
    ensures written { OnOk result (Appends (O.bytes_held output.old) (O.bytes_held output.new) (K.Reply.text reply.now)) }
    ensures fails { IfErr result (λ why. O.fails output.old (K.Reply.text reply.now) why output.new) }
{
    output.put(alloc, reply)
}

/// Writes the replies before the first one that may not be told there. Gives whether these are all.
fn put_front<K: Keeper, O: Outbox>(
    alloc: Global,
    told: &K::Reply,
    replies: &[K::Reply],
    output: &mut O,
) -> Result<bool, Unwritten>
    ensures all { IfOk result (λ all. IsTrue all → prefix_len (K.may_tell told.now) replies.now ≡ length replies.now) }
    ensures some { IfOk result (λ all. all ≡ false → prefix_len (K.may_tell told.now) replies.now < length replies.now) }
    ensures written { OnOk result (Appends (O.bytes_held output.old) (O.bytes_held output.new)
        (flat_map K.Reply.text (left_of K.Keeper told.now replies.now))) }
    ensures fails { IfErr result (λ why. StopsAt K.Reply.text O.Outbox (left_of K.Keeper told.now replies.now) why output.old output.new) }
{
    for reply in replies {
        if !K::may_tell(told, reply) {
            return Ok(false);
        }
        put_left::<K, O>(alloc, told, reply, output)?;
    }
    Ok(true)
}

/// Writes the last reply, if there is one and it may be told there.
fn put_last<K: Keeper, O: Outbox>(
    alloc: Global,
    told: &K::Reply,
    last: &Option<K::Reply>,
    output: &mut O,
) -> Result<(), Unwritten>
    ensures written { OnOk result (Appends (O.bytes_held output.old) (O.bytes_held output.new)
        (flat_map K.Reply.text (left_of K.Keeper told.now (those last.now)))) }
    ensures fails { IfErr result (λ why. StopsAt K.Reply.text O.Outbox (left_of K.Keeper told.now (those last.now)) why output.old output.new) }
{
    match last {
        Some(reply) if K::may_tell(told, reply) => put_left::<K, O>(alloc, told, reply, output),
        _ => Ok(()),
    }
}

/// Writes all that may be told there.
fn put_all_left<K: Keeper, O: Outbox>(
    alloc: Global,
    told: &K::Reply,
    replies: &[K::Reply],
    last: &Option<K::Reply>,
    output: &mut O,
) -> Result<(), Unwritten>
    ensures written { OnOk result (Appends (O.bytes_held output.old) (O.bytes_held output.new)
        (flat_map K.Reply.text (left_of K.Keeper told.now (replies.now ++ those last.now)))) }
    ensures fails { IfErr result (λ why. StopsAt K.Reply.text O.Outbox (left_of K.Keeper told.now (replies.now ++ those last.now)) why
        output.old output.new) }
{
    let all = put_front::<K, O>(alloc, told, replies, output)?;
    if all {
        return put_last::<K, O>(alloc, told, last, output);
    }
    Ok(())
}

/// A commit failed: it writes the replies that may be told all the same, and then what is told of that.
fn tell_failed<K: Keeper, O: Outbox>(
    alloc: Global,
    told: &K::Reply,
    replies: &[K::Reply],
    last: &Option<K::Reply>,
    output: &mut O,
) -> Result<(), Unwritten>
    ensures written { OnOk result (TellsLeft K.Keeper K.Reply.text O.Outbox told.now (replies.now ++ those last.now) output.old output.new) }
    ensures fails { IfErr result (λ why. FailsToTellLeft K.Keeper K.Reply.text O.Outbox told.now (replies.now ++ those last.now) why output.old output.new) }
{
    put_all_left::<K, O>(alloc, told, replies, last, output)?;
    tell(alloc, told, output)
}

/// Keeps what it did, where something waits for that or there is no room for more.
fn keep<K: Keeper>(keeper: &mut K) -> Result<(), K::Reply>
    requires { K.has_noted keeper.old }
    ensures kept { OnOk result (K.has_kept keeper.new) }
    ensures noted { OnOk result (K.has_noted keeper.new) }
    ensures room { OnOk result (K.has_room keeper.new) }
    ensures commits { OnOk result ((n : ℕ) × Commits K.Keeper n keeper.old keeper.new) }
    ensures stays { OnOk result (K.up keeper.new ≡ K.up keeper.old) }
    ensures fails { IfErr result (λ told. K.fails keeper.old told keeper.new) }
    ensures left { IfErr result (λ told. IsLeft K.Keeper told keeper.new) }
    ensures down { OnErr result (K.up keeper.new ≡ false) }
{
    if keeper.waits() || keeper.is_full() {
        return keeper.commit();
    }
    Ok(())
}

/// Keeps what it did, and writes the replies that wait for it, and the last one if there is one. What was written before
/// is sent out first.
fn close_all<K: Keeper, O: Outbox>(
    alloc: Global,
    keeper: &mut K,
    replies: &mut Vec<K::Reply>,
    last: Option<K::Reply>,
    output: &mut O,
) -> Result<(), BatchedEnd>
    requires { K.has_noted keeper.old }
    ensures closed { OnOk result (Closes K.Keeper K.Reply.text O.Outbox (replies.old.items ++ those last) keeper.old output.old keeper.new output.new) }
    ensures none { OnOk result (replies.new.items ≡ []) }
    ensures fails { IfErr result (λ end. FailsToClose K.Keeper K.Reply.text O.Outbox (replies.old.items ++ those last) end
        keeper.old output.old keeper.new output.new) }
{
    if let Err(why) = output.send_out() {
        return Err(BatchedEnd::Unwritten(why));
    }
    if let Err(told) = keep(keeper) {
        if let Err(why) = tell_failed::<K, O>(alloc, &told, replies, &last, output) {
            return Err(BatchedEnd::Unwritten(why));
        }
        return Err(BatchedEnd::Uncommitted);
    }
    if let Err(why) = put_all_kept(alloc, keeper, replies, &last, output) {
        return Err(BatchedEnd::Unwritten(why));
    }
    replies.clear();
    Ok(())
}

/// The same with no last one.
fn close<K: Keeper, O: Outbox>(
    alloc: Global,
    keeper: &mut K,
    replies: &mut Vec<K::Reply>,
    output: &mut O,
) -> Result<(), BatchedEnd>
    requires { K.has_noted keeper.old }
    ensures closed { OnOk result (Closes K.Keeper K.Reply.text O.Outbox replies.old.items keeper.old output.old keeper.new output.new) }
    ensures none { OnOk result (replies.new.items ≡ []) }
    ensures fails { IfErr result (λ end. FailsToClose K.Keeper K.Reply.text O.Outbox replies.old.items end keeper.old output.old keeper.new output.new) }
{
    close_all(alloc, keeper, replies, None, output)
}

/// The same where it is to be done, and else nothing.
fn close_unless<K: Keeper, O: Outbox>(
    goes_on: bool,
    alloc: Global,
    keeper: &mut K,
    replies: &mut Vec<K::Reply>,
    output: &mut O,
) -> Result<(), BatchedEnd>
    requires { K.has_noted keeper.old }
    ensures done { IsTrue goes_on → IsOk result }
    ensures open { IsTrue goes_on → OnOk result ((replies.new.items ≡ replies.old.items) × (keeper.new ≡ keeper.old) × (output.new ≡ output.old)) }
    ensures closed { goes_on ≡ false → OnOk result (Closes K.Keeper K.Reply.text O.Outbox replies.old.items keeper.old output.old keeper.new output.new
        × (replies.new.items ≡ [])) }
    ensures fails { IfErr result (λ end. FailsToClose K.Keeper K.Reply.text O.Outbox replies.old.items end keeper.old output.old keeper.new output.new) }
{
    if goes_on {
        return Ok(());
    }
    close(alloc, keeper, replies, output)
}

/// The same before an end. Where it fails the end is another one.
fn close_before<K: Keeper, O: Outbox>(
    end: BatchedEnd,
    alloc: Global,
    keeper: &mut K,
    replies: &mut Vec<K::Reply>,
    output: &mut O,
) -> BatchedEnd
    requires { K.has_noted keeper.old }
    ensures { ((result ≡ end) × Closes K.Keeper K.Reply.text O.Outbox replies.old.items keeper.old output.old keeper.new output.new)
        ⊎ FailsToClose K.Keeper K.Reply.text O.Outbox replies.old.items result keeper.old output.old keeper.new output.new }
{
    match close(alloc, keeper, replies, output) {
        Ok(()) => end,
        Err(failed) => failed,
    }
}

/// Writes a reply where nothing waits, and else lets it wait too.
fn take<K: Keeper, O: Outbox>(
    reply: K::Reply,
    alloc: Global,
    keeper: &mut K,
    replies: &mut Vec<K::Reply>,
    output: &mut O,
) -> Result<(), BatchedEnd>
    requires { K.has_noted keeper.old }
    ensures taken { OnOk result (Takes K.Keeper K.Reply.text O.Outbox reply replies.old.items keeper.old output.old replies.new.items keeper.new output.new) }
    ensures fails { IfErr result (λ end. FailsToClose K.Keeper K.Reply.text O.Outbox (replies.old.items ++ reply ∷ []) end
        keeper.old output.old keeper.new output.new) }
{
    if replies.is_empty() && !keeper.waits() && !keeper.is_full() {
        return put_one(alloc, keeper, &reply, output);
    }
    if let Err(refused) = replies.push(reply) {
        return close_all(alloc, keeper, replies, Some(refused.value), output);
    }
    Ok(())
}

/// Whether one more line has come already, and may be done before a commit, behind so many that were served before.
fn has_more<K: Keeper, I: Lines + Ahead>(count: u64, keeper: &K, input: &I) -> bool
    ensures room { IsTrue result → K.has_room keeper.now }
    ensures up { IsTrue result → K.up keeper.now ≡ true }
    ensures ahead { IsTrue result → Contains (I.ahead input.now) 10 }
{
    let is_last = count % MOST_LINES == MOST_LINES - 1;
    !is_last && input.has_line() && keeper.can_act() && !keeper.is_full()
}

/// Whether what came may be done before a commit: no reply waits, or it isn't done apart.
fn may_be_done<K: Keeper>(keeper: &K, replies: &Vec<K::Reply>, what: &Next) -> bool
    ensures may { IsTrue result → (replies.now.items ≡ []) ⊎ (comes_apart K.is_apart what.now ≡ false) }
    ensures apart { result ≡ false → comes_apart K.is_apart what.now ≡ true }
{
    if replies.is_empty() {
        return true;
    }
    match what {
        Next::Line(line) => !keeper.is_apart(line),
        _ => true,
    }
}

/// Does what the lines ask that have come together, keeps that, and only then replies to those that changed something
/// and to all behind them; and so on.
#[tactic(auto, using(crate::proofs::Looping::ends_down))]
pub fn serve_batched<K: Keeper, I: Lines + Ahead, O: Outbox>(
    alloc: Global,
    keeper: &mut K,
    input: &mut I,
    output: &mut O,
) -> BatchedEnd
    requires noted { K.has_noted keeper.old }
    requires room { K.has_room keeper.old }
    requires kept { K.has_kept keeper.old }
    ensures { EndsBatchedBy K.Keeper K.Reply.text I.Lines O.Outbox result keeper.old input.old output.old keeper.new input.new output.new }
{
    let mut replies = Vec::new(alloc);
    for count in 0..u64::MAX {
        if !keeper.can_act() {
            return BatchedEnd::Crashed;
        }
        let Ok(what) = next_unless_waiting(alloc, input, &replies) else {
            return close_before(BatchedEnd::Unreadable, alloc, keeper, &mut replies, output);
        };
        let is_now = may_be_done(keeper, &replies, &what);
        if let Err(end) = close_unless(is_now, alloc, keeper, &mut replies, output) {
            return end;
        }
        let Some(reply) = reply_to_next(alloc, keeper, what) else {
            return close_before(BatchedEnd::Input, alloc, keeper, &mut replies, output);
        };
        if let Err(end) = take(reply, alloc, keeper, &mut replies, output) {
            return end;
        }
        let goes_on = has_more(count, keeper, input);
        if let Err(end) = close_unless(goes_on, alloc, keeper, &mut replies, output) {
            return end;
        }
    }
    close_before(BatchedEnd::Spent, alloc, keeper, &mut replies, output)
}
