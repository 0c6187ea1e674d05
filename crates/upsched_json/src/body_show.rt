//! `upsched show HEX --json`: a MAP body as an object.

ghost use Rattle.std.specs.Prelude.{◌≡◌, ◌≢◌, OnOk};
ghost use Rattle.map_body.specs.Body.{Body};
ghost use Rattle.json_outputs.specs.Elements.{body_data};
ghost use Rattle.upsched_ends.specs.declared.status.Status.TheVariants.{Done, NotUnderstood};
ghost use Rattle.upsched_maps.specs.Show.{IsHexBody};
ghost use Rattle.upsched_json.specs.Lines.{PrintsValue};

use crate::lines::print_line;
use json_outputs::body_text;
use map_body::MapBody;
use std::alloc::Global;
use std::io::Write;
use upsched_ends::{Fault, ShowWords, Status};
use upsched_maps::body_of;

fn print_body<'a, O: Write>(alloc: Global, map: &MapBody, output: &mut O) -> Result<(), Fault<'a>>
    ensures { OnOk result (PrintsValue (body_data map.now) (O.contents output.old) (O.contents output.new)) }
{
    let text = body_text(alloc, map)?;
    print_line(text.as_str(), output)?;
    output.flush()?;
    Ok(())
}

fn print_hex<'a, O: Write>(alloc: Global, hex: &str, output: &mut O) -> Result<(), Fault<'a>>
    ensures printed { OnOk result ((map : Body) × IsHexBody hex.now map × PrintsValue (body_data map) (O.contents output.old) (O.contents output.new)) }
    ensures no_body { ((map : Body) → ¬ IsHexBody hex.now map) → output.new ≡ output.old }
{
    let map = body_of(alloc, hex)?;
    print_body(alloc, &map, output)
}

/// Prints a MAP body: an object with the fields of its head, and its elements. Digits of either case.
pub fn show_as_json<O: Write, E: Write>(
    alloc: Global,
    words: &ShowWords<'_>,
    output: &mut O,
    errors: &mut E,
) -> Status
    ensures printed { result ≡ Done → (map : Body) × IsHexBody words.now.hex.now map
        × PrintsValue (body_data map) (O.contents output.old) (O.contents output.new) }
    ensures quiet { result ≡ Done → errors.new ≡ errors.old }
    ensures no_body { ((map : Body) → ¬ IsHexBody words.now.hex.now map) → output.new ≡ output.old }
    ensures understood { result ≢ NotUnderstood }
{
    match print_hex(alloc, words.hex, output) {
        Ok(()) => Status::Done,
        Err(fault) => fault.told(errors),
    }
}
