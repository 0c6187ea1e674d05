//! `upsched show HEX`: a MAP body in words.

ghost use Rattle.std.specs.Prelude.{◌≡◌, ◌≢◌, ◌⊎◌, ℕ, List, Err, Ok, IfErr, IfOk, OnOk};
ghost use Rattle.std.specs.Io.KnownBytes.{Appends};
ghost use Rattle.hex.specs.Hex.{decode_of};
ghost use Rattle.map_body.specs.Body.{Body};
ghost use Rattle.map_body.specs.Faults.{map_fault_number};
ghost use Rattle.map_body.specs.Layout.{ReadingFault};
ghost use Rattle.upsched_ends.specs.declared.status.Status.TheVariants.{Done, NotUnderstood};
ghost use Rattle.upsched_maps.specs.Lines.{element_line, element_lines, body_lines};
ghost use Rattle.upsched_maps.specs.Show.{IsHexBody};

use crate::lines::{element_text, head_text};
use hex::FromHexError;
use map_body::{Element, MapBody, MapFault};
use std::alloc::Global;
use std::io::Write;
use upsched_ends::{Fault, ShowWords, Status};

/// The body that hexadecimal digits give.
pub fn body_of<'a>(alloc: Global, hex: &str) -> Result<MapBody, Fault<'a>>
    ensures body { IfOk result (IsHexBody hex.now) }
    ensures fault { IfErr result (λ fault. (fault ≡ Fault.Memory) ⊎ ((why : FromHexError) × (decode_of hex.now ≡ Err why) × (fault ≡ Fault.Hex))
        ⊎ ((bytes : List ℕ) × (why : MapFault) × (decode_of hex.now ≡ Ok bytes) × ReadingFault bytes why
        × (fault ≡ Fault.Body (map_fault_number why) why))) }
{
    let bytes = match hex::decode(alloc, hex) {
        Ok(bytes) => bytes,
        Err(FromHexError::OutOfMemory) => return Err(Fault::Memory),
        Err(_) => return Err(Fault::Hex),
    };
    match map_body::decode(alloc, bytes.as_slice()) {
        Ok(map) => Ok(map),
        Err(fault) => Err(Fault::Body {
            number: fault.number(),
            fault,
        }),
    }
}

fn print_element<'a, O: Write>(
    alloc: Global,
    element: &Element,
    output: &mut O,
) -> Result<(), Fault<'a>>
    ensures { OnOk result (Appends (O.contents output.old) (O.contents output.new) (element_line element.now)) }
{
    let text = element_text(alloc, element)?;
    writeln!(output, "{text}")?;
    Ok(())
}

fn print_elements<'a, O: Write>(
    alloc: Global,
    elements: &[Element],
    output: &mut O,
) -> Result<(), Fault<'a>>
    ensures { OnOk result (Appends (O.contents output.old) (O.contents output.new) (element_lines elements.now)) }
{
    for element in elements {
        print_element(alloc, element, output)?;
    }
    output.flush()?;
    Ok(())
}

fn print_body<'a, O: Write>(alloc: Global, map: &MapBody, output: &mut O) -> Result<(), Fault<'a>>
    ensures { OnOk result (Appends (O.contents output.old) (O.contents output.new) (body_lines map.now)) }
{
    let head = head_text(alloc, map.head())?;
    writeln!(output, "{head}")?;
    print_elements(alloc, map.elements(), output)
}

fn print_hex<'a, O: Write>(alloc: Global, hex: &str, output: &mut O) -> Result<(), Fault<'a>>
    ensures printed { OnOk result ((map : Body) × IsHexBody hex.now map × Appends (O.contents output.old) (O.contents output.new) (body_lines map)) }
    ensures no_body { ((map : Body) → ¬ IsHexBody hex.now map) → output.new ≡ output.old }
{
    let map = body_of(alloc, hex)?;
    print_body(alloc, &map, output)
}

/// Prints a MAP body: a line for the head and one for each element. Digits of either case.
pub fn show<O: Write, E: Write>(
    alloc: Global,
    words: &ShowWords<'_>,
    output: &mut O,
    errors: &mut E,
) -> Status
    ensures printed { result ≡ Done → (map : Body) × IsHexBody words.now.hex.now map
        × Appends (O.contents output.old) (O.contents output.new) (body_lines map) }
    ensures quiet { result ≡ Done → errors.new ≡ errors.old }
    ensures no_body { ((map : Body) → ¬ IsHexBody words.now.hex.now map) → output.new ≡ output.old }
    ensures understood { result ≢ NotUnderstood }
{
    match print_hex(alloc, words.hex, output) {
        Ok(()) => Status::Done,
        Err(fault) => fault.told(errors),
    }
}
