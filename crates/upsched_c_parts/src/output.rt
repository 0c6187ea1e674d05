//! Outputs as structs that C shares.

ghost use Rattle.std.specs.Prelude.{◌≡◌};
ghost use Rattle.upsched_c_parts.specs.Outputs.{body_after, FitsRoom, output_fields as output_fields_lem};

use crate::front::put_front;
use grant_machine::Output;

/// An output: its number, and the fields that it has. The others are 0.
#[repr(C)]
#[derive(Clone, Copy)]
pub struct OutputFields {
    pub kind: u32,
    pub modem: u32,
    pub first: u64,
    pub last: u64,
    pub start: u64,
    pub body_len: usize,
    pub sid: u16,
    pub minislots: u16,
    pub ch: u8,
    pub ucd: u8,
    pub refusal: u8,
}

const NO_FIELDS: OutputFields = OutputFields {
    kind: 0,
    modem: 0,
    first: 0,
    last: 0,
    start: 0,
    body_len: 0,
    sid: 0,
    minislots: 0,
    ch: 0,
    ucd: 0,
    refusal: 0,
};

/// An output's fields.
pub fn output_fields(output: &Output) -> OutputFields
    ensures { result ≡ output_fields_lem output.now }
{
    match output {
        Output::Nothing => NO_FIELDS,
        Output::ChannelSet { ch, ucd } => OutputFields {
            kind: 1,
            ch: *ch,
            ucd: *ucd,
            ..NO_FIELDS
        },
        Output::Assigned {
            modem,
            ch,
            sid,
            first,
            last,
        } => OutputFields {
            kind: 2,
            modem: *modem,
            ch: *ch,
            sid: *sid,
            first: *first,
            last: *last,
            ..NO_FIELDS
        },
        Output::Map {
            ch,
            start,
            len,
            bytes,
        } => OutputFields {
            kind: 3,
            ch: *ch,
            start: start.get(),
            minislots: *len,
            body_len: bytes.as_slice().len(),
            ..NO_FIELDS
        },
        Output::Refused(number) => OutputFields {
            kind: 4,
            refusal: *number,
            ..NO_FIELDS
        },
    }
}

/// Writes a MAP's body over the front of the room for it. Of another output nothing is written.
pub fn put_body(output: &Output, room: &mut [u8; 1036])
    requires { FitsRoom output.now }
    ensures { room.new ≡ body_after output.now room.old }
{
    if let Output::Map {
        ch: _,
        start: _,
        len: _,
        bytes,
    } = output
    {
        put_front(bytes.as_slice(), room);
    }
}
