//! The law of one owner.

ghost use Rattle.std.specs.Prelude.{◌≡◌, ℕ, List};
ghost use Rattle.grant_machine.specs.declared.output.Output.{Output};
ghost use Rattle.grant_machine.specs.Owner.{Owns};
ghost use Rattle.modem.specs.Held.{Hearing, Held};
ghost use Rattle.modem.specs.Owner.{AreSoundOutputs, HeardFrom};

/// What a modem holds that heard outputs of one schedule, it owns, whatever it missed, heard again or heard out of
/// order; so modems of two ids hold no minislot both.
pub fn one_owner()
    ensures held { (outputs : List Output) (hearings : List Hearing) (id ch m sid : ℕ) → AreSoundOutputs outputs → HeardFrom outputs hearings
        → Held id hearings ch m sid → Owns outputs ch m id }
    ensures apart { (outputs : List Output) (hearings other_hearings : List Hearing) (id other ch m sid other_sid : ℕ) → AreSoundOutputs outputs
        → HeardFrom outputs hearings → HeardFrom outputs other_hearings
        → Held id hearings ch m sid → Held other other_hearings ch m other_sid → id ≡ other }
{}
