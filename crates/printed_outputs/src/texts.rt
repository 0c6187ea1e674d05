//! An output as text.

ghost use Rattle.std.specs.Prelude.{◌≡◌, IfOk, string_bytes};
ghost use Rattle.printed_outputs.specs.Texts.{lease_text, output_text};

use flow_state::LAST_TIME;
use grant_machine::Output;
use std::alloc::{AllocError, Global};

// A lease behind its SID: nothing where it is of every minislot up to the last time.
fn lease_text(alloc: Global, first: u64, last: u64) -> Result<String, AllocError>
    ensures { IfOk result (λ text. string_bytes text ≡ lease_text first last) }
{
    if first == 0 && last == LAST_TIME {
        return String::from_str(alloc, "");
    }
    format!(in alloc; " first {first} last {last}")
}

/// An output, without its line's end.
pub fn output_text(alloc: Global, output: &Output) -> Result<String, AllocError>
    ensures { IfOk result (λ text. string_bytes text ≡ output_text output.now) }
{
    match output {
        Output::Nothing => String::from_str(alloc, "nothing"),
        Output::ChannelSet { ch, ucd } => format!(in alloc; "channel {ch} ucd {ucd}"),
        Output::Assigned {
            modem,
            ch,
            sid,
            first,
            last,
        } => {
            let lease = lease_text(alloc, *first, *last)?;
            format!(in alloc; "assigned modem {modem} channel {ch} sid {sid}{lease}")
        }
        Output::Map {
            ch,
            start,
            len,
            bytes,
        } => {
            let start = start.get();
            let hex = hex::encode(alloc, bytes.as_slice())?;
            format!(in alloc; "map channel {ch} start {start} len {len} {hex}")
        }
        Output::Refused(number) => format!(in alloc; "refused {number}"),
    }
}
