//! A node over lines.

ghost use Rattle.std.specs.Prelude.{◌≡◌, MatchOption, true};
ghost use Rattle.node_service.specs.declared.incoming.Incoming.TheVariants as incoming;
ghost use Rattle.node_service.specs.Serving.{EndsBy, RepliesTo};

use crate::actor::Actor;
use crate::incoming::{Incoming, Input};
use crate::outgoing::{Output, Reply};
use node_lines::Unwritten;
use std::alloc::Global;

/// Why no more lines are replied to.
#[derive(Clone, Copy, Debug, PartialEq, Eq)]
pub enum End {
    /// No whole line is left.
    Input,
    /// What acts is down.
    Crashed,
    /// The input failed.
    Unreadable,
    /// The reply to the last line couldn't be written, or there was no memory for it.
    Unwritten(Unwritten),
    /// So many lines were replied to as a run may have, 2^64 - 1.
    Spent,
}

/// The reply to what came, which is done if it asks something. None where no line is left.
fn reply_to<A: Actor>(actor: &mut A, what: Incoming) -> Option<Reply>
    requires { A.up actor.old ≡ true }
    ensures { MatchOption result ((what ≡ incoming.End) × (actor.new ≡ actor.old)) (λ reply. RepliesTo A.Actor what actor.old reply actor.new) }
{
    match what {
        Incoming::Asks(asked) => Some(Reply::Acted(actor.obey(&asked))),
        Incoming::Refused(why) => Some(Reply::Refused(why)),
        Incoming::End => None,
    }
}

/// Replies to each line that comes, until there are no more or what acts is down. Each reply goes out before the next
/// line is read. What follows the last line's end is no line.
pub fn serve<A: Actor, I: Input, O: Output>(
    alloc: Global,
    actor: &mut A,
    input: &mut I,
    output: &mut O,
) -> End
    ensures { EndsBy A.Actor I.Input O.Output result actor.old input.old output.old actor.new input.new output.new }
{
    for count in 0..u64::MAX {
        if !actor.can_act() {
            return End::Crashed;
        }
        let Ok(what) = input.next_request(alloc) else {
            return End::Unreadable;
        };
        let Some(reply) = reply_to(actor, what) else {
            return End::Input;
        };
        if let Err(why) = output.write_reply(alloc, &reply) {
            return End::Unwritten(why);
        }
    }
    End::Spent
}
