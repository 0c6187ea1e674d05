//! The printed lines of a MAP body.

ghost use Rattle.std.specs.Prelude.{◌≡◌, IfOk, string_bytes};
ghost use Rattle.upsched_maps.specs.Lines.{backoffs_text, head_text, element_text};

use map_body::{Element, Head};
use std::alloc::{AllocError, Global};

fn backoffs_text(alloc: Global, head: &Head) -> Result<String, AllocError>
    ensures { IfOk result (λ text. string_bytes text ≡ backoffs_text head.now) }
{
    let (ranging_start, ranging_end) = head.ranging_backoff;
    let (data_start, data_end) = head.data_backoff;
    format!(in alloc; "ranging {ranging_start} {ranging_end} data {data_start} {data_end}")
}

/// The head of a MAP body, without its line's end.
pub fn head_text(alloc: Global, head: &Head) -> Result<String, AllocError>
    ensures { IfOk result (λ text. string_bytes text ≡ head_text head.now) }
{
    let Head {
        channel,
        ucd,
        start,
        ack,
        ..
    } = *head;
    let backoffs = backoffs_text(alloc, head)?;
    format!(in alloc; "channel {channel} ucd {ucd} start {start} ack {ack} {backoffs}")
}

/// An element of a MAP body, without its line's end.
pub fn element_text(alloc: Global, element: &Element) -> Result<String, AllocError>
    ensures { IfOk result (λ text. string_bytes text ≡ element_text element.now) }
{
    let offset = element.offset.get();
    let sid = element.sid.get();
    let iuc = element.iuc.get();
    format!(in alloc; "offset {offset} sid {sid} iuc {iuc}")
}
