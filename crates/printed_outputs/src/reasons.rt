//! Why a command is refused, as text.

ghost use Rattle.std.specs.Prelude.{◌≡◌, IfOk, string_bytes};
ghost use Rattle.printed_outputs.specs.Reasons.{field_name, reason_text, refusal_name, refused_text};

use flow_state::{Field, Reason, Refusal};
use std::alloc::{AllocError, Global};

/// A refusal's name.
fn refusal_name(refusal: Refusal) -> &'static str
    ensures { result.now ≡ refusal_name refusal }
{
    match refusal {
        Refusal::NoChannel => "NoChannel",
        Refusal::ChannelThere => "ChannelThere",
        Refusal::NoFlow => "NoFlow",
        Refusal::SidsSpent => "SidsSpent",
        Refusal::Busy => "Busy",
        Refusal::OldRequest => "OldRequest",
        Refusal::BadValue => "BadValue",
        Refusal::OutOfMemory => "OutOfMemory",
    }
}

/// What a field is called.
fn field_name(field: Field) -> &'static str
    ensures { result.now ≡ field_name field }
{
    match field {
        Field::ShortMax => "short_max",
        Field::Ranging => "the end of ranging",
        Field::Data => "the end of data",
        Field::Base => "base",
        Field::Priority => "priority",
        Field::Size => "size",
        Field::Interval => "interval",
        Field::Last => "last",
        Field::Minislots => "n",
        Field::Sent => "sent",
        Field::Len => "len",
        Field::NotBefore => "not_before",
        Field::Ack => "ack",
        Field::Keep => "keep",
        Field::End => "the end of the MAP",
    }
}

/// A value outside its limits.
fn outside_text(
    alloc: Global,
    field: Field,
    value: u64,
    least: u64,
    most: u64,
) -> Result<String, AllocError>
    ensures { IfOk result (λ text. string_bytes text ≡ reason_text (Reason.Outside field value least most)) }
{
    let name = field_name(field);
    format!(in alloc; "{name} is {value}, not {least} to {most}")
}

/// A back-off whose start comes after its end.
fn turned_text(alloc: Global, field: Field, start: u8, end: u8) -> Result<String, AllocError>
    ensures { IfOk result (λ text. string_bytes text ≡ reason_text (Reason.BackoffTurned field start end)) }
{
    let name = field_name(field);
    format!(in alloc; "{name} is {end}, below its start {start}")
}

/// Which value refuses a command, and what it may be.
pub fn reason_text(alloc: Global, reason: Reason) -> Result<String, AllocError>
    ensures { IfOk result (λ text. string_bytes text ≡ reason_text reason) }
{
    match reason {
        Reason::NoChannel { ch } => format!(in alloc; "there is no channel {ch}"),
        Reason::ChannelThere { ch } => format!(in alloc; "there is a channel {ch}"),
        Reason::NoFlow { ch, sid } => format!(in alloc; "channel {ch} has no sid {sid}"),
        Reason::SidsSpent { ch } => format!(in alloc; "channel {ch} has no sid left"),
        Reason::Waits { sid } => format!(in alloc; "a request of sid {sid} waits"),
        Reason::Full { ch } => format!(in alloc; "no more requests may wait on channel {ch}"),
        Reason::BeforeLease { sent, first } => {
            format!(in alloc; "sent is {sent}, before the lease at {first}")
        }
        Reason::Repeated { sent, last } => format!(in alloc; "sent is {sent}, not behind {last}"),
        Reason::Outside {
            field,
            value,
            least,
            most,
        } => outside_text(alloc, field, value, least, most),
        Reason::JitterTooLong { jitter, interval } => {
            format!(in alloc; "jitter is {jitter}, not below interval {interval}")
        }
        Reason::BackoffTurned { field, start, end } => turned_text(alloc, field, start, end),
        Reason::LastTooEarly { last, next_start } => {
            format!(in alloc; "last is {last}, before the next MAP at {next_start}")
        }
        Reason::BehindLease { sent, last } => {
            format!(in alloc; "sent is {sent}, behind the lease's last minislot {last}")
        }
        Reason::TakesNoRequests { sid } => format!(in alloc; "sid {sid} takes no requests"),
        Reason::WrongCount { ucd, own } => {
            format!(in alloc; "ucd is {ucd}, neither the channel's {own} nor the next one")
        }
        Reason::OtherPhy => {
            String::from_str(alloc, "phy is another one, under the channel's own ucd")
        }
        Reason::OtherShortMax { short_max, own } => {
            format!(in alloc; "short_max is {short_max}, not {own}, under the channel's own ucd")
        }
    }
}

/// The text of a refusal with its reason.
pub fn refused_text(alloc: Global, reason: Reason) -> Result<String, AllocError>
    ensures { IfOk result (λ text. string_bytes text ≡ refused_text reason) }
{
    let refusal = reason.refusal();
    let number = refusal.number();
    let name = refusal_name(refusal);
    let text = reason_text(alloc, reason)?;
    format!(in alloc; "refused {number} {name}: {text}")
}
