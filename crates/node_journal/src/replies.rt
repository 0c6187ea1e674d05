//! What is replied, and what is asked.

ghost use Rattle.std.specs.Prelude.{◌≡◌, ◌∷◌, IfOk, IfSome};
ghost use Rattle.node_journal.specs.Following.{IsCourse, IsCrashPart, IsPartOf, letters_told};
ghost use Rattle.node_journal.specs.Turns.{Tells, cause_of as cause_of_lem};
ghost use Rattle.node.specs.Calls.{IsStop};
ghost use Rattle.node_service.specs.Incoming.{IsTakenFor};
ghost use Rattle.node_service.specs.Texts.{acted_text, reply_text};
ghost use Rattle.seats.specs.declared.acted.Acted.TheVariants.{Fault};

use crate::texts::{begins_life, ends_within, last_part};
use ballots::{Bytes, Letter};
use node::NodeFault;
use node_lines::{LONGEST_LINE, LineFault, Request, read_line};
use node_service::{Incoming, Output, Reply};
use node_worker::{Ask, Cause, Ended, Entry};
use seats::{Acted, OutOfMemory};
use std::alloc::Global;

/// How many bytes of a reply that the node crashed are there, and whether they are all of it.
#[derive(Clone, Copy)]
pub(crate) struct CrashPart {
    pub(crate) count: usize,
    pub(crate) is_whole: bool,
}

/// How a line that asks something goes on.
pub(crate) enum Course {
    /// It isn't obeyed, and the life ends behind these bytes of a reply that the node crashed.
    Left(CrashPart),
    /// It is obeyed, and the life ends behind these bytes of the reply that the store broke.
    Stopped(CrashPart),
    /// It is obeyed.
    Obeyed,
}

/// Which lines without a reply are taken for ones that weren't obeyed.
#[derive(Drop)]
pub(crate) struct Guesses {
    /// What is taken of the first ones, one after another.
    skips: Vec<bool>,
    /// How many there were.
    pub(crate) doubts: usize,
}

impl Guesses {
    /// The first lines without a reply are taken as these say, and all behind them for ones that were obeyed.
    pub(crate) fn new(skips: Vec<bool>) -> Guesses {
        Guesses { skips, doubts: 0 }
    }

    /// Whether the next one is taken for one that wasn't obeyed.
    fn skips(&mut self) -> bool {
        let number = self.doubts;
        self.doubts = number.saturating_add(1);
        match self.skips.get(number) {
            Some(skipped) => *skipped,
            None => false,
        }
    }

    /// How a line that asks something goes on.
    pub(crate) fn course(&mut self, alloc: Global, after: &[u8]) -> Result<Course, OutOfMemory>
        ensures { IfOk result (IsCourse after.now) }
    {
        if let Some(part) = crash_part(alloc, after, NodeFault::Down)? {
            return Ok(if self.skips() {
                Course::Left(part)
            } else {
                Course::Stopped(part)
            });
        }
        if let Some(part) = undone_part(alloc, after)? {
            return Ok(Course::Left(part));
        }
        if begins_life(after) && self.skips() {
            return Ok(Course::Left(CrashPart {
                count: 0,
                is_whole: false,
            }));
        }
        Ok(Course::Obeyed)
    }
}

/// A reply as it is written.
pub(crate) fn reply_bytes(alloc: Global, reply: &Reply) -> Result<Vec<u8>, OutOfMemory>
    ensures { IfOk result (λ bytes. bytes.items ≡ reply_text reply.now) }
{
    let mut bytes = Vec::new(alloc);
    match bytes.write_reply(alloc, reply) {
        Ok(()) => Ok(bytes),
        Err(_) => Err(OutOfMemory),
    }
}

/// The first lines of a life: an empty one, and the one that says who it is.
pub(crate) fn head_bytes(alloc: Global, first: &Reply) -> Result<Vec<u8>, OutOfMemory>
    ensures { IfOk result (λ bytes. bytes.items ≡ 10 ∷ reply_text first.now) }
{
    let mut bytes = Vec::new(alloc);
    bytes.push(b'\n')?;
    match bytes.write_reply(alloc, first) {
        Ok(()) => Ok(bytes),
        Err(_) => Err(OutOfMemory),
    }
}

/// How a reply begins that there was no memory for the line.
const NO_MEMORY: &[u8] = b"error 6 ";

/// Whether there was no memory for a line, as what stands behind it tells.
fn lacked_memory(after: &[u8]) -> bool {
    after.starts_with(NO_MEMORY) || ends_within(after, NO_MEMORY)
}

/// What a line is taken for. It was no more than that where the node had no memory for it.
pub(crate) fn what_is_asked(
    alloc: Global,
    line: &[u8],
    after: &[u8],
) -> Result<Incoming, OutOfMemory>
    ensures { IfOk result (IsTakenFor line.now) }
{
    if line.len() > LONGEST_LINE {
        return Ok(Incoming::Refused(LineFault::TooLong));
    }
    if !line.is_empty() && lacked_memory(after) {
        return Ok(Incoming::Refused(LineFault::OutOfMemory));
    }
    match read_line(alloc, Bytes::new(Vec::from_slice(alloc, line)?)) {
        Ok(asked) => Ok(Incoming::Asks(asked)),
        Err(LineFault::OutOfMemory) => Err(OutOfMemory),
        Err(why) => Ok(Incoming::Refused(why)),
    }
}

/// A request as a cause.
pub(crate) fn cause_of(asked: Request) -> Cause
    ensures { result ≡ cause_of_lem asked }
{
    match asked {
        Request::Lead => Cause::Ask(Ask::Lead),
        Request::Offer(value) => Cause::Ask(Ask::Offer(value)),
        Request::Release(now) => Cause::Ask(Ask::Release(now)),
        Request::Letter(letter) => Cause::Letter(letter),
        Request::Tell(to, place) => Cause::Ask(Ask::Tell(to, place)),
    }
}

/// What came of an entry, as a reply tells it. None where it ended in a crash.
pub(crate) fn acted_of(entry: Entry) -> Option<Acted>
    ensures { IfSome result (λ acted. Tells acted entry) }
{
    let Entry {
        cause,
        ended,
        letters,
        outputs,
    } = entry;
    match (ended, cause) {
        (Ended::Whole, Cause::Ask(Ask::Release(_))) if letters.is_empty() => {
            Some(Acted::Released(outputs))
        }
        (Ended::Whole, Cause::Ask(Ask::Lead | Ask::Offer(_) | Ask::Tell(..)) | Cause::Letter(_))
            if outputs.is_empty() => { Some(Acted::Sent(letters)) }
        (Ended::Whole, Cause::Ask(Ask::Crash | Ask::Restart))
            if letters.is_empty() && outputs.is_empty() => { Some(Acted::Finished) }
        (Ended::Fault(fault), _) if letters.is_empty() && outputs.is_empty() => {
            Some(Acted::Fault(fault))
        }
        _ => None,
    }
}

/// The letters that go out with a reply.
pub(crate) fn letters_out(alloc: Global, reply: Reply) -> Vec<Letter>
    ensures { result.items ≡ letters_told reply }
{
    match reply {
        Reply::Acted(Acted::Sent(letters)) => letters,
        _ => Vec::new(alloc),
    }
}

/// How many bytes of a text are the reply to a call in which the node crashed by this fault, or a part of it in which
/// the life ends. None where the text begins otherwise.
fn crash_part(
    alloc: Global,
    text: &[u8],
    fault: NodeFault,
) -> Result<Option<CrashPart>, OutOfMemory>
    requires { IsStop fault }
    ensures part { IfOk result (λ found. IfSome found (λ p. IsPartOf (acted_text (Fault fault)) text.now p.count)) }
    ensures stop { IfOk result (λ found. IfSome found (IsCrashPart text.now)) }
{
    let reply = reply_bytes(alloc, &Reply::Acted(Acted::Fault(fault)))?;
    let Some(count) = last_part(text, &reply) else {
        return Ok(None);
    };
    let is_whole = count == reply.len();
    Ok(Some(CrashPart { count, is_whole }))
}

/// The same where the call changed nothing: its store refused, or it lacked memory.
fn undone_part(alloc: Global, text: &[u8]) -> Result<Option<CrashPart>, OutOfMemory>
    ensures { IfOk result (λ found. IfSome found (IsCrashPart text.now)) }
{
    match crash_part(alloc, text, NodeFault::StoreRefused)? {
        Some(part) => Ok(Some(part)),
        None => crash_part(alloc, text, NodeFault::OutOfMemory),
    }
}
