//! An answer as fields.

ghost use Rattle.std.specs.Prelude.{◌≡◌, OnOk, List, codes};
ghost use Rattle.serde_json.specs.View.{members_view};
ghost use Rattle.json_answers.specs.Answers.{with_name, with_sid, with_sending, with_fault, with_answer};

use crate::names::want_fault_name;
use json_outputs::{put_number, put_text};
use modem::Sending;
use printed_answers::{fault_name, heard_text, refusal_name};
use seats::Answer;
use serde_json::{Map, Value};
use std::alloc::{AllocError, Global};

/// Puts the name of an answer.
fn put_name(map: &mut Map<String, Value>, alloc: Global, name: &str) -> Result<(), AllocError>
    ensures { OnOk result (members_view map.new.entries ≡ with_name name.now (members_view map.old.entries)) }
{
    put_text(map, alloc, "answer", name)
}

/// Puts the SID and the minislots of a request.
fn put_sid(
    map: &mut Map<String, Value>,
    alloc: Global,
    name: &str,
    sid: u16,
    minislots: u16,
) -> Result<(), AllocError>
    ensures { OnOk result (members_view map.new.entries ≡ with_sid name.now sid minislots (members_view map.old.entries)) }
{
    put_name(map, alloc, name)?;
    put_number(map, alloc, "sid", u64::from(sid))?;
    put_number(map, alloc, "minislots", u64::from(minislots))
}

/// Puts what a modem sends.
fn put_sending(
    map: &mut Map<String, Value>,
    alloc: Global,
    sending: Option<Sending>,
) -> Result<(), AllocError>
    ensures { OnOk result (members_view map.new.entries ≡ with_sending sending (members_view map.old.entries)) }
{
    match sending {
        None => put_name(map, alloc, "idle"),
        Some(Sending::Unicast(sid)) => {
            put_name(map, alloc, "unicast")?;
            put_number(map, alloc, "sid", u64::from(sid))
        }
        Some(Sending::Polled(sid, minislots)) => put_sid(map, alloc, "polled", sid, minislots),
        Some(Sending::Request(sid, minislots)) => put_sid(map, alloc, "request", sid, minislots),
        Some(Sending::Ranging(sid)) => {
            put_name(map, alloc, "ranging")?;
            put_number(map, alloc, "sid", u64::from(sid))
        }
    }
}

/// Puts the number and the name of a refusal or of a fault.
fn put_fault(
    map: &mut Map<String, Value>,
    alloc: Global,
    answer: &str,
    number: u8,
    name: &str,
) -> Result<(), AllocError>
    ensures { OnOk result (members_view map.new.entries ≡ with_fault answer.now number name.now (members_view map.old.entries)) }
{
    put_name(map, alloc, answer)?;
    put_number(map, alloc, "number", u64::from(number))?;
    put_text(map, alloc, "name", name)
}

/// Puts the fields of an answer among others.
pub(crate) fn put_answer(
    map: &mut Map<String, Value>,
    alloc: Global,
    answer: Answer,
) -> Result<(), AllocError>
    ensures { OnOk result (members_view map.new.entries ≡ with_answer answer (members_view map.old.entries)) }
{
    match answer {
        Answer::Sent(count) => {
            put_name(map, alloc, "sent")?;
            put_number(map, alloc, "letters", count as u64)
        }
        Answer::Finished => put_name(map, alloc, "done"),
        Answer::Released(count) => {
            put_name(map, alloc, "released")?;
            put_number(map, alloc, "count", count as u64)
        }
        Answer::Heard(heard) => {
            put_name(map, alloc, "heard")?;
            put_text(map, alloc, "heard", heard_text(heard))
        }
        Answer::Ticked(sending) => put_sending(map, alloc, sending),
        Answer::WantRefused(fault) => put_fault(
            map,
            alloc,
            "want-refused",
            fault.number(),
            want_fault_name(fault),
        ),
        Answer::Refused(refusal) => put_fault(
            map,
            alloc,
            "refused",
            refusal.number(),
            refusal_name(refusal),
        ),
        Answer::Fault(fault) => put_fault(map, alloc, "fault", fault.number(), fault_name(fault)),
        Answer::Crashed => put_name(map, alloc, "crashed"),
    }
}
