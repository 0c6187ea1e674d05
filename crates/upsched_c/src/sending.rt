//! What a modem sends, hears and does next, as C is told it.

ghost use Rattle.std.specs.Prelude.{◌≡◌};
ghost use Rattle.upsched_c.specs.Modems.{event_fields as event_fields_lem, heard_number as heard_number_lem};
ghost use Rattle.upsched_c.specs.Modems.{sending_fields as sending_fields_lem};

use modem::{Action, Heard, NextEvent, Sending};

/// What a modem sends at a minislot: 0 nothing, 1 data by a grant, 2 a request at a poll, 3 a request where all may
/// send one, 4 ranging. A request is for so many minislots.
#[repr(C)]
#[derive(Clone, Copy)]
pub struct SendingFields {
    pub kind: u32,
    pub sid: u16,
    pub minislots: u16,
}

/// What a modem does at a minislot: 1 it uses a grant, from a first minislot to a last one; 2 it sends a request at a
/// poll; 3 its request takes part where all may send one; 4 a want goes, as its lease ends; 5 it uses a ranging
/// opportunity, from a first minislot to a last one.
#[repr(C)]
#[derive(Clone, Copy)]
pub struct EventFields {
    pub slot: u64,
    pub first: u64,
    pub last: u64,
    pub kind: u32,
    pub sid: u16,
    pub minislots: u16,
    pub iuc: u8,
}

/// The number that tells how an output was heard.
pub fn heard_number(heard: Heard) -> u32
    ensures { result ≡ heard_number_lem heard }
{
    match heard {
        Heard::Taken => 0,
        Heard::NotMine => 1,
        Heard::OtherUcd => 2,
        Heard::Past => 3,
        Heard::Unreadable => 4,
    }
}

/// The fields that tell what is sent.
pub fn sending_fields(sending: Option<Sending>) -> SendingFields
    ensures { result ≡ sending_fields_lem sending }
{
    let (kind, sid, minislots) = match sending {
        None => (0, 0, 0),
        Some(Sending::Unicast(sid)) => (1, sid, 0),
        Some(Sending::Polled(sid, n)) => (2, sid, n),
        Some(Sending::Request(sid, n)) => (3, sid, n),
        Some(Sending::Ranging(sid)) => (4, sid, 0),
    };
    SendingFields {
        kind,
        sid,
        minislots,
    }
}

/// The fields that tell what a modem does at a minislot.
pub fn event_fields(event: &NextEvent) -> EventFields
    ensures { result ≡ event_fields_lem event.now.slot event.now.action }
{
    let fields = EventFields {
        slot: event.slot,
        first: 0,
        last: 0,
        kind: 0,
        sid: 0,
        minislots: 0,
        iuc: 0,
    };
    match &event.action {
        Action::Grant {
            sid,
            iuc,
            first,
            last,
        } => EventFields {
            kind: 1,
            sid: *sid,
            iuc: iuc.get(),
            first: *first,
            last: *last,
            ..fields
        },
        Action::Poll { sid, n } => EventFields {
            kind: 2,
            sid: *sid,
            minislots: *n,
            ..fields
        },
        Action::Contention { sid, n } => EventFields {
            kind: 3,
            sid: *sid,
            minislots: *n,
            ..fields
        },
        Action::LeaseEnd { sid } => EventFields {
            kind: 4,
            sid: *sid,
            ..fields
        },
        Action::Ranging { sid, first, last } => EventFields {
            kind: 5,
            sid: *sid,
            first: *first,
            last: *last,
            ..fields
        },
    }
}
