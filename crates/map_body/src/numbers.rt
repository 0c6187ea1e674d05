//! The limits of MAP bodies, as numbers.

ghost use Rattle.std.specs.Prelude.{◌≡◌, ℕ, ◌<◌, ◌≤◌, ◌↔◌, List, length};
ghost use Rattle.map_body.specs.declared.element.Element.{Element};
ghost use Rattle.map_body.specs.declared.fault.MapFault.TheVariants.{TooMany};
ghost use Rattle.map_body.specs.Body.{Body};
ghost use Rattle.map_body.specs.Layout.{IsBody};
ghost use Rattle.map_body.specs.Rules.{FitsElement, MakingFault};
ghost use Rattle.map_body.specs.Sids.{nobody, everybody};

/// A body has at most 255 elements and 1,036 bytes. A SID and an offset have 14 bits, an IUC has 4.
pub fn limits()
    ensures elements { (es : List Element) → MakingFault es TooMany ↔ (255 < length es) }
    ensures bodies { (bytes : List ℕ) (map : Body) → IsBody bytes map → (length map.elements ≤ 255) × (length bytes ≤ 1036) }
    ensures fields { (e : Element) → FitsElement e ↔ (e.sid ≤ 16383) × (e.iuc ≤ 15) × (e.offset ≤ 16383) }
    ensures sids { (nobody ≡ 0) × (everybody ≡ 16383) }
{}
