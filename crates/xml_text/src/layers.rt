//! Layers, and a drawing of them.

ghost use Rattle.std.specs.Prelude.{◌≡◌, ◌++◌, ℕ, List, IfOk, OnOk, string_bytes};
ghost use Rattle.xml_text.specs.Xml.{Xml, Drawn, contents, drawing, layers_of, render, said};
ghost use Rattle.xml_text.specs.Xml.Tag.{Title, Style, Definitions};
ghost use Rattle.xml_text.specs.Xml.Xml.{Holding, Nothing};
ghost use Rattle.xml_text.specs.WellFormed.{IsContent, IsDocument};
ghost use Rattle.xml_text.specs.Drawings.{AreDrawn};

use crate::elements::{Area, add_rectangle};
use crate::plain::plain;
use std::alloc::{AllocError, Global};

/// What a drawing is on: its size, its title, its style, and the text of its definitions.
#[derive(Clone, Copy, Debug)]
pub struct Sheet<'a> {
    pub size: (u64, u64),
    pub title: &'a str,
    pub style: &'a str,
    pub definitions: &'a str,
}

/// Five layers of elements, from the lowest on.
#[derive(Debug, Drop)]
pub struct Layers {
    pub rules: String,
    pub bands: String,
    pub arrows: String,
    pub marks: String,
    pub labels: String,
}

impl Layers {
    ghost use Rattle.xml_text.specs.Drawings.{AreDrawn, not_drawn};

    pub fn new(alloc: Global) -> Layers
        ensures { AreDrawn result not_drawn }
    {
        Layers {
            rules: String::new(alloc),
            bands: String::new(alloc),
            arrows: String::new(alloc),
            marks: String::new(alloc),
            labels: String::new(alloc),
        }
    }
}

/// A title.
fn add_title(alloc: Global, out: &mut String, title: &str) -> Result<(), AllocError>
    ensures { OnOk result (string_bytes out.new ≡ string_bytes out.old ++ render (said Title title.now)) }
{
    let title = plain(alloc, title)?;
    let text = format!(in alloc; "<title>{title}</title>")?;
    out.push_str(text.as_str())
}

/// A style.
fn add_style(alloc: Global, out: &mut String, style: &str) -> Result<(), AllocError>
    ensures { OnOk result (string_bytes out.new ≡ string_bytes out.old ++ render (said Style style.now)) }
{
    let style = plain(alloc, style)?;
    let text = format!(in alloc; "<style>{style}</style>")?;
    out.push_str(text.as_str())
}

/// Definitions, whose text is given.
fn add_definitions(alloc: Global, out: &mut String, definitions: &str) -> Result<(), AllocError>
    ensures { (known : Xml) → definitions.now ≡ render known
        → OnOk result (string_bytes out.new ≡ string_bytes out.old ++ render (Holding Definitions known Nothing)) }
{
    let text = format!(in alloc; "<defs>{definitions}</defs>")?;
    out.push_str(text.as_str())
}

/// Layers, from the lowest on.
fn add_layers(out: &mut String, layers: &Layers) -> Result<(), AllocError>
    ensures { (d : Drawn) → AreDrawn layers.now d → OnOk result (string_bytes out.new ≡ string_bytes out.old ++ render (layers_of d)) }
{
    out.push_str(layers.rules.as_str())?;
    out.push_str(layers.bands.as_str())?;
    out.push_str(layers.arrows.as_str())?;
    out.push_str(layers.marks.as_str())?;
    out.push_str(layers.labels.as_str())?;
    Ok(())
}

/// What is in a drawing.
fn contents(alloc: Global, sheet: &Sheet<'_>, layers: &Layers) -> Result<String, AllocError>
    ensures { (known : Xml) (d : Drawn) → sheet.now.definitions.now ≡ render known → AreDrawn layers.now d → IfOk result (λ text.
        string_bytes text ≡ render (contents sheet.now.size.0 sheet.now.size.1 sheet.now.title.now sheet.now.style.now known d)) }
{
    let mut out = String::new(alloc);
    let area = Area {
        corner: (0, 0),
        size: sheet.size,
    };
    add_title(alloc, &mut out, sheet.title)?;
    add_style(alloc, &mut out, sheet.style)?;
    add_definitions(alloc, &mut out, sheet.definitions)?;
    add_rectangle(alloc, &mut out, area, "bg")?;
    add_layers(&mut out, layers)?;
    Ok(out)
}

/// A drawing of layers on a sheet.
pub fn drawing(alloc: Global, sheet: &Sheet<'_>, layers: &Layers) -> Result<String, AllocError>
    ensures { (known : Xml) (d : Drawn) → sheet.now.definitions.now ≡ render known → AreDrawn layers.now d → IfOk result (λ text.
        string_bytes text ≡ render (drawing sheet.now.size.0 sheet.now.size.1 sheet.now.title.now sheet.now.style.now known d)) }
{
    let inside = contents(alloc, sheet, layers)?;
    let (width, height) = sheet.size;
    let tail = format!(in alloc; " viewBox=\"0 0 {width} {height}\" role=\"img\">{inside}</svg>")?;
    let text = format!(in alloc;
        "<svg xmlns=\"http://www.w3.org/2000/svg\" width=\"{width}\" height=\"{height}\"{tail}"
    )?;
    Ok(text)
}

/// Elements are rendered as well-formed XML, whichever they are, and a drawing as a document.
pub fn well_formed()
    ensures content { (x : Xml) → IsContent (render x) }
    ensures document { (width height : ℕ) (title style : List ℕ) (known : Xml) (d : Drawn) → IsDocument (render (drawing width height title style known d)) }
{}
