//! `upsched show HEX --names`: a MAP body in words, with the names of its uses.

ghost use Rattle.std.specs.Prelude.{◌≡◌, ◌≢◌, OnOk};
ghost use Rattle.std.specs.Io.KnownBytes.{Appends};
ghost use Rattle.map_body.specs.Body.{Body};
ghost use Rattle.upsched_ends.specs.declared.status.Status.TheVariants.{Done, NotUnderstood};
ghost use Rattle.upsched_maps.specs.Show.{IsHexBody};
ghost use Rattle.upsched_check.specs.Named.{named_body_lines, named_line, named_lines};

use map_body::{Element, MapBody};
use std::alloc::Global;
use std::io::Write;
use upsched_ends::{Fault, ShowWords, Status};
use upsched_maps::{body_of, element_text, head_text};

fn print_element<'a, O: Write>(
    alloc: Global,
    element: &Element,
    output: &mut O,
) -> Result<(), Fault<'a>>
    ensures { OnOk result (Appends (O.contents output.old) (O.contents output.new) (named_line element.now)) }
{
    let text = element_text(alloc, element)?;
    let name = element.iuc.name();
    writeln!(output, "{text} {name}")?;
    Ok(())
}

fn print_elements<'a, O: Write>(
    alloc: Global,
    elements: &[Element],
    output: &mut O,
) -> Result<(), Fault<'a>>
    ensures { OnOk result (Appends (O.contents output.old) (O.contents output.new) (named_lines elements.now)) }
{
    for element in elements {
        print_element(alloc, element, output)?;
    }
    output.flush()?;
    Ok(())
}

fn print_body<'a, O: Write>(alloc: Global, map: &MapBody, output: &mut O) -> Result<(), Fault<'a>>
    ensures { OnOk result (Appends (O.contents output.old) (O.contents output.new) (named_body_lines map.now)) }
{
    let head = head_text(alloc, map.head())?;
    writeln!(output, "{head}")?;
    print_elements(alloc, map.elements(), output)
}

fn print_hex<'a, O: Write>(alloc: Global, hex: &str, output: &mut O) -> Result<(), Fault<'a>>
    ensures printed { OnOk result ((map : Body) × IsHexBody hex.now map
        × Appends (O.contents output.old) (O.contents output.new) (named_body_lines map)) }
    ensures no_body { ((map : Body) → ¬ IsHexBody hex.now map) → output.new ≡ output.old }
{
    let map = body_of(alloc, hex)?;
    print_body(alloc, &map, output)
}

/// Prints a MAP body as `show` does, with the name of each element's use behind its number.
pub fn show_names<O: Write, E: Write>(
    alloc: Global,
    words: &ShowWords<'_>,
    output: &mut O,
    errors: &mut E,
) -> Status
    ensures printed { result ≡ Done → (map : Body) × IsHexBody words.now.hex.now map
        × Appends (O.contents output.old) (O.contents output.new) (named_body_lines map) }
    ensures quiet { result ≡ Done → errors.new ≡ errors.old }
    ensures no_body { ((map : Body) → ¬ IsHexBody words.now.hex.now map) → output.new ≡ output.old }
    ensures understood { result ≢ NotUnderstood }
{
    match print_hex(alloc, words.hex, output) {
        Ok(()) => Status::Done,
        Err(fault) => fault.told(errors),
    }
}
