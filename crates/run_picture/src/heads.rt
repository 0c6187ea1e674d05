//! What is drawn above a run, and what its classes look like.

ghost use Rattle.std.specs.Prelude.{◌≡◌, ◌++◌, IfOk, OnOk, string_bytes};
ghost use Rattle.xml_text.specs.Xml.{render};
ghost use Rattle.run_picture.specs.Heads.{IsRendered, counted, counts_words, events_words, kind_key, run_words};

use std::alloc::{AllocError, Global};
use xml_text::{add_arrow_head, add_words};

/// The rules of both light and dark.
pub(crate) const STYLE: &str = "text{font:11px ui-sans-serif,system-ui,'DejaVu Sans',sans-serif}\
.m{font:10px ui-monospace,'DejaVu Sans Mono',monospace}.h{font-size:15px;font-weight:600}\
.e{text-anchor:end}.c{text-anchor:middle}.s{font-size:10px}.b{font-weight:600}\
.rule,.lane{stroke-width:1;fill:none}.lane{stroke-width:2}.a{fill:none;stroke-width:2}.s-prepare,.s-promise{stroke-width:1.4}\
.again{stroke-dasharray:6 3}.weak{stroke-dasharray:2 3}.halo{stroke-width:4;paint-order:stroke;stroke-linejoin:round}\
.x{fill:none;stroke-width:2}.ring,.start{stroke-width:2}\
.h-prepare{marker-end:url(#h-prepare)}.h-promise{marker-end:url(#h-promise)}.h-accept{marker-end:url(#h-accept)}\
.h-voted{marker-end:url(#h-voted)}.h-higher{marker-end:url(#h-higher)}.h-known{marker-end:url(#h-known)}\
.h-output{marker-end:url(#h-output)}\
.bg{fill:#ffffff}text{fill:#1f2328}.mute{fill:#656d76}.rule{stroke:#e8ecf0}.lane{stroke:#8c959f}.halo{stroke:#ffffff}\
.bad{fill:#c1121f}.sbad{stroke:#c1121f}.ring{fill:#ffffff;stroke:#c1121f}.start{fill:#ffffff;stroke:#008763}\
.f-prepare{fill:#0072b2}.s-prepare{stroke:#0072b2}.f-promise{fill:#008763}.s-promise{stroke:#008763}\
.f-accept{fill:#c75000}.s-accept{stroke:#c75000}.f-voted{fill:#8f2f68}.s-voted{stroke:#8f2f68}\
.f-higher{fill:#7a6200}.s-higher{stroke:#7a6200}.f-known{fill:#4d5d8a}.s-known{stroke:#4d5d8a}\
.f-output{fill:#7f4f24}.s-output{stroke:#7f4f24}.f-ask{fill:#1f2328}\
.lead{fill:#ffe08a}.prep{fill:#d6ebfa}.down{fill:#d8dee4}.chosen{stroke:#e3b100;stroke-width:2}\
@media(prefers-color-scheme:dark){\
.bg{fill:#0d1117}text{fill:#e6edf3}.mute{fill:#8d96a0}.rule{stroke:#21262d}.lane{stroke:#6e7681}.halo{stroke:#0d1117}\
.bad{fill:#ff6b6b}.sbad{stroke:#ff6b6b}.ring{fill:#0d1117;stroke:#ff6b6b}.start{fill:#0d1117;stroke:#2ccf9f}\
.f-prepare{fill:#58b5ee}.s-prepare{stroke:#58b5ee}.f-promise{fill:#2ccf9f}.s-promise{stroke:#2ccf9f}\
.f-accept{fill:#ff9145}.s-accept{stroke:#ff9145}.f-voted{fill:#e99ac8}.s-voted{stroke:#e99ac8}\
.f-higher{fill:#e8d94a}.s-higher{stroke:#e8d94a}.f-known{fill:#a9b8e8}.s-known{stroke:#a9b8e8}\
.f-output{fill:#d8a26a}.s-output{stroke:#d8a26a}.f-ask{fill:#e6edf3}\
.lead{fill:#5c4a00}.prep{fill:#12304a}.down{fill:#30363d}.chosen{stroke:#9a7b00}}";

/// The heads of all arrows.
pub(crate) fn heads(alloc: Global) -> Result<String, AllocError>
    ensures { IfOk result (λ text. IsRendered (string_bytes text)) }
{
    let mut out = String::new(alloc);
    add_arrow_head(alloc, &mut out, "h-prepare", "f-prepare")?;
    add_arrow_head(alloc, &mut out, "h-promise", "f-promise")?;
    add_arrow_head(alloc, &mut out, "h-accept", "f-accept")?;
    add_arrow_head(alloc, &mut out, "h-voted", "f-voted")?;
    add_arrow_head(alloc, &mut out, "h-higher", "f-higher")?;
    add_arrow_head(alloc, &mut out, "h-known", "f-known")?;
    add_arrow_head(alloc, &mut out, "h-output", "f-output")?;
    Ok(out)
}

/// A kind in the legend: its name, in its colour.
fn add_kind(alloc: Global, out: &mut String, x: u64, kind: &str) -> Result<(), AllocError>
    ensures { OnOk result (string_bytes out.new ≡ string_bytes out.old ++ render (kind_key x kind.now)) }
{
    let class = format!(in alloc; "b f-{kind}")?;
    add_words(alloc, out, (x, 92), class.as_str(), kind)
}

/// The kinds of arrows, from the left on.
pub(crate) fn kinds(alloc: Global) -> Result<String, AllocError>
    ensures { IfOk result (λ text. IsRendered (string_bytes text)) }
{
    let mut out = String::new(alloc);
    add_kind(alloc, &mut out, 16, "prepare")?;
    add_kind(alloc, &mut out, 86, "promise")?;
    add_kind(alloc, &mut out, 156, "accept")?;
    add_kind(alloc, &mut out, 216, "voted")?;
    add_kind(alloc, &mut out, 270, "higher")?;
    add_kind(alloc, &mut out, 326, "known")?;
    add_kind(alloc, &mut out, 382, "output")?;
    Ok(out)
}

/// So many of what has a name, which is in the singular for one.
#[tactic(auto, unfolding(crate::specs::Heads::counted))]
fn counted(alloc: Global, count: u64, name: &str) -> Result<String, AllocError>
    ensures { IfOk result (λ text. string_bytes text ≡ counted count name.now) }
{
    if count == 1 {
        return format!(in alloc; "{count} {name}");
    }
    format!(in alloc; "{count} {name}s")
}

/// How many nodes, modems, events and letters there are, in words.
#[tactic(auto, unfolding(crate::specs::Heads::run_words))]
fn run_words(
    alloc: Global,
    members: &str,
    modems: &str,
    events: &str,
    letters: &str,
) -> Result<String, AllocError>
    ensures { IfOk result (λ text. string_bytes text ≡ run_words members.now modems.now events.now letters.now) }
{
    format!(in alloc; "A run of {members} and {modems}: {events} from the top down, {letters}")
}

/// How many events there are, or which of them are drawn: from a number on, and before another one.
#[tactic(auto, unfolding(crate::specs::Heads::events_words))]
fn events_words(alloc: Global, span: (usize, usize), events: usize) -> Result<String, AllocError>
    ensures { IfOk result (λ text. string_bytes text ≡ events_words span events) }
{
    let (from, end) = span;
    if from == 0 && events <= end {
        return counted(alloc, events as u64, "event");
    }
    let last = end.saturating_sub(1);
    format!(in alloc; "events {from} to {last} of {events}")
}

/// How many nodes, modems, events and letters there are, and which events are drawn.
#[derive(Clone, Copy)]
pub(crate) struct Counts {
    pub members: u64,
    pub modems: u64,
    pub span: (usize, usize),
    pub events: usize,
    pub letters: usize,
}

/// These in words.
pub(crate) fn add_counts(alloc: Global, out: &mut String, counts: Counts) -> Result<(), AllocError>
    ensures { OnOk result (string_bytes out.new
        ≡ string_bytes out.old ++ render (counts_words counts.members counts.modems counts.span counts.events counts.letters)) }
{
    let Counts {
        members,
        modems,
        span,
        events,
        letters,
    } = counts;
    let members = counted(alloc, members, "node")?;
    let modems = counted(alloc, modems, "modem")?;
    let events = events_words(alloc, span, events)?;
    let letters = counted(alloc, letters as u64, "letter")?;
    let (members, modems) = (members.as_str(), modems.as_str());
    let words = run_words(alloc, members, modems, events.as_str(), letters.as_str())?;
    add_words(alloc, out, (16, 26), "h", words.as_str())
}
