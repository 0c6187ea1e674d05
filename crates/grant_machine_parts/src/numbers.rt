//! The limits of a cut, in digits.

ghost use Rattle.std.specs.Prelude.{◌≡◌};
ghost use Rattle.grant_machine_parts.specs.Placing.{most_placements};
ghost use Rattle.grant_machine_parts.specs.declared.placing.TheConstants.{MOST_GAPS};
ghost use Rattle.grant_machine_parts.specs.declared.chains.TheConstants.{PRIORITIES, MOST_CHAINED};

/// The numbers that are set here: a MAP has at most 60 placements, with 61 gaps round them, and requests have eight
/// priorities, of which 255 stand in chains.
pub fn limits()
    ensures placements { most_placements ≡ 60 }
    ensures gaps { MOST_GAPS ≡ 61 }
    ensures priorities { PRIORITIES ≡ 8 }
    ensures chained { MOST_CHAINED ≡ 255 }
{}
