//! An answer as text.

ghost use Rattle.std.specs.Prelude.{◌≡◌, IfOk, string_bytes};
ghost use Rattle.printed_answers.specs.Texts.{heard_text, sending_text, refusal_name, fault_name, answer_text};

use modem::{Heard, Sending};
use node::NodeFault;
use seats::Answer;
use std::alloc::{AllocError, Global};
use world_events::EventRefusal;

/// The name of what a modem made of an output.
pub fn heard_text(heard: Heard) -> &'static str
    ensures { result.now ≡ heard_text heard }
{
    match heard {
        Heard::Taken => "taken",
        Heard::NotMine => "not-mine",
        Heard::OtherUcd => "other-ucd",
        Heard::Past => "past",
        Heard::Unreadable => "unreadable",
    }
}

fn sending_text(alloc: Global, sending: Option<Sending>) -> Result<String, AllocError>
    ensures { IfOk result (λ text. string_bytes text ≡ sending_text sending) }
{
    match sending {
        None => String::from_str(alloc, "idle"),
        Some(Sending::Unicast(sid)) => format!(in alloc; "unicast {sid}"),
        Some(Sending::Polled(sid, n)) => format!(in alloc; "polled {sid} {n}"),
        Some(Sending::Request(sid, n)) => format!(in alloc; "request {sid} {n}"),
        Some(Sending::Ranging(sid)) => format!(in alloc; "ranging {sid}"),
    }
}

/// The name of why an event changed nothing.
pub fn refusal_name(refusal: EventRefusal) -> &'static str
    ensures { result.now ≡ refusal_name refusal }
{
    match refusal {
        EventRefusal::NoLetter => "NoLetter",
        EventRefusal::NodeDown => "NodeDown",
        EventRefusal::NodeUp => "NodeUp",
        EventRefusal::NoOutput => "NoOutput",
        EventRefusal::TooOld => "TooOld",
        EventRefusal::NoModem => "NoModem",
        EventRefusal::TimeBack => "TimeBack",
        EventRefusal::NoNode => "NoNode",
        EventRefusal::OutOfMemory => "OutOfMemory",
    }
}

/// The name of a node's fault.
pub fn fault_name(fault: NodeFault) -> &'static str
    ensures { result.now ≡ fault_name fault }
{
    match fault {
        NodeFault::NotLeading => "NotLeading",
        NodeFault::LogFull => "LogFull",
        NodeFault::RoundsSpent => "RoundsSpent",
        NodeFault::ValueTooLong => "ValueTooLong",
        NodeFault::OutOfMemory => "OutOfMemory",
        NodeFault::StoreRefused => "StoreRefused",
        NodeFault::Down => "Down",
    }
}

/// An answer, without its event's number and its line's end.
pub fn answer_text(alloc: Global, answer: Answer) -> Result<String, AllocError>
    ensures { IfOk result (λ text. string_bytes text ≡ answer_text answer) }
{
    match answer {
        Answer::Sent(count) => format!(in alloc; "sent {count}"),
        Answer::Finished => String::from_str(alloc, "done"),
        Answer::Released(count) => format!(in alloc; "released {count}"),
        Answer::Heard(heard) => format!(in alloc; "heard {}", heard_text(heard)),
        Answer::Ticked(sending) => sending_text(alloc, sending),
        Answer::WantRefused(fault) => format!(in alloc; "want-refused {}", fault.number()),
        Answer::Refused(refusal) => {
            format!(in alloc; "refused {} {}", refusal.number(), refusal_name(refusal))
        }
        Answer::Fault(fault) => {
            format!(in alloc; "fault {} {}", fault.number(), fault_name(fault))
        }
        Answer::Crashed => String::from_str(alloc, "crashed"),
    }
}
