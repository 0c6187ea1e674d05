//! What the classes of the picture of MAPs look like.

ghost use Rattle.std.specs.Prelude.{IfOk, string_bytes};
ghost use Rattle.map_picture.specs.Pictures.{IsRendered};

use std::alloc::{AllocError, Global};
use xml_text::{Pattern, add_pattern};

/// The rules of both light and dark.
pub(crate) const STYLE: &str = "text{font:11px ui-sans-serif,system-ui,'DejaVu Sans',sans-serif}\
.h{font-size:15px;font-weight:600}.e{text-anchor:end}.m{text-anchor:middle}.s{font-size:10px}.b{font-weight:600}\
.open{fill:url(#open)}.opening{fill:url(#opening)}.frame{fill:none;stroke-width:1}.ask{stroke-width:1}.tick{stroke-width:1}.ring{stroke-width:2}\
.g0{fill:#0072b2}.g1{fill:#e69f00}.g2{fill:#56b4e9}.g3{fill:#009e73}.g4{fill:#f0e442}.g5{fill:#d55e00}.g6{fill:#cc79a7}\
.k{fill:#000000}.bg{fill:#ffffff}text{fill:#1f2328}.mute{fill:#656d76}.frame{stroke:#8c959f}.hatch{stroke:#c8ced5}\
.due{fill:#656d76}.missed{fill:#c1121f}.ask{stroke:#656d76}.tick{stroke:#8c959f}.sent{fill:#1f2328}.ring{fill:#ffffff;stroke:#c1121f}.bad{fill:#c1121f}\
@media(prefers-color-scheme:dark){\
.bg{fill:#0d1117}text{fill:#e6edf3}.mute{fill:#8d96a0}.frame{stroke:#6e7681}.hatch{stroke:#3a424c}\
.due{fill:#8d96a0}.missed{fill:#ff6b6b}.ask{stroke:#8d96a0}.tick{stroke:#6e7681}.sent{fill:#e6edf3}.ring{fill:#0d1117;stroke:#ff6b6b}.bad{fill:#ff6b6b}\
.k{fill:#000000}}";

/// What minislots that are open to all are filled with: free ones, and openings for first ranging.
pub(crate) fn patterns(alloc: Global) -> Result<String, AllocError>
    ensures { IfOk result (λ text. IsRendered (string_bytes text)) }
{
    let free = Pattern {
        id: "open",
        size: 6,
        steps: "M-1 7L7 -1",
        class: "hatch",
    };
    let opening = Pattern {
        id: "opening",
        size: 6,
        steps: "M-1 7L7 -1M-1 -1L7 7",
        class: "hatch",
    };
    let mut out = String::new(alloc);
    add_pattern(alloc, &mut out, &free)?;
    add_pattern(alloc, &mut out, &opening)?;
    Ok(out)
}
