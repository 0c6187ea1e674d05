//! A struct of each kind that C shares, with numbered fields: by them C sees that its header is this library's.

ghost use Rattle.std.specs.Prelude.{◌≡◌};
ghost use Rattle.upsched_c.specs.Samples.{numbered};

use crate::command::CommandFields;
use crate::queries::{ChannelFields, FlowFields, WaitingFields};
use crate::sending::{EventFields, SendingFields};
use crate::structs::{MapCell, MapElement, MapHead};
use upsched_c_parts::OutputFields;

/// A struct of each kind.
#[repr(C)]
#[derive(Clone, Copy)]
pub struct Samples {
    pub head: MapHead,
    pub elements: [MapElement; 2],
    pub cell: MapCell,
    pub command: CommandFields,
    pub output: OutputFields,
    pub sending: SendingFields,
    pub event: EventFields,
    pub channel: ChannelFields,
    pub waiting: WaitingFields,
    pub flow: FlowFields,
}

const HEAD: MapHead = MapHead {
    start: 1,
    ack: 2,
    channel: 3,
    ucd: 4,
    ranging_start: 5,
    ranging_end: 6,
    data_start: 7,
    data_end: 8,
};

const ELEMENT: MapElement = MapElement {
    sid: 1,
    offset: 2,
    iuc: 3,
};

const COMMAND: CommandFields = CommandFields {
    kind: 1,
    modem: 2,
    tag: 3,
    interval: 4,
    jitter: 5,
    base: 6,
    last: 7,
    sent: 8,
    not_before: 9,
    ack: 10,
    sid: 11,
    minislots: 12,
    short_max: 13,
    keep: 14,
    ch: 15,
    ucd: 16,
    phy: 17,
    service: 18,
    priority: 19,
    ranging_start: 20,
    ranging_end: 21,
    data_start: 22,
    data_end: 23,
};

const OUTPUT: OutputFields = OutputFields {
    kind: 1,
    modem: 2,
    first: 3,
    last: 4,
    start: 5,
    body_len: 6,
    sid: 7,
    minislots: 8,
    ch: 9,
    ucd: 10,
    refusal: 11,
};

const EVENT: EventFields = EventFields {
    slot: 1,
    first: 2,
    last: 3,
    kind: 4,
    sid: 5,
    minislots: 6,
    iuc: 7,
};

const CHANNEL: ChannelFields = ChannelFields {
    next_start: 1,
    ack: 2,
    waiting: 3,
};

const WAITING: WaitingFields = WaitingFields {
    sent: 1,
    sid: 2,
    minislots: 3,
};

const FLOW: FlowFields = FlowFields {
    due: 1,
    first: 2,
    last: 3,
    modem: 4,
    tag: 5,
    sid: 6,
    service: 7,
};

/// Numbers the fields of each struct from 1 in their order. The answer is the version of the library.
#[unsafe(no_mangle)]
pub extern "C" fn upsched_c_samples(samples: &mut Samples) -> u32
    ensures version { result ≡ 768 }
    ensures samples { samples.new ≡ numbered }
{
    *samples = Samples {
        head: HEAD,
        elements: [ELEMENT, ELEMENT],
        cell: MapCell { sid: 1, iuc: 2 },
        command: COMMAND,
        output: OUTPUT,
        sending: SendingFields {
            kind: 1,
            sid: 2,
            minislots: 3,
        },
        event: EVENT,
        channel: CHANNEL,
        waiting: WAITING,
        flow: FLOW,
    };
    0x0300
}
