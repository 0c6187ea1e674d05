//! The limits of a modem, as numbers.

ghost use Rattle.std.specs.Prelude.{◌≡◌, ℕ, ◌+◌, ◌%◌, ◌^◌, ◌<◌, ◌≤◌, ◌↔◌, ◌⊎◌, List, [], ◌∷◌, Some, None, true, false};
ghost use Rattle.grant_machine.specs.declared.output.Output.TheVariants.{Map};
ghost use Rattle.modem.specs.declared.action.Action.{Action};
ghost use Rattle.modem.specs.declared.known.OwnLease.{OwnLease};
ghost use Rattle.modem.specs.declared.known.Progress.TheVariants.{Unsent};
ghost use Rattle.modem.specs.declared.known.Want.{Want};
ghost use Rattle.modem.specs.declared.types.WantFault.TheVariants.{BadSize};
ghost use Rattle.modem.specs.State.{State, Kept, KnownChannel, clock_of, is_recent};
ghost use Rattle.modem.specs.Held.{IsLate};
ghost use Rattle.modem.specs.Owner.{IsTimely};
ghost use Rattle.modem.specs.Wants.{is_own_now, want_refusal};
ghost use Rattle.modem.specs.Intervals.{lost};
ghost use Rattle.modem.specs.Ticks.{backoff_number};
ghost use Rattle.modem.specs.LetsGo.{old_intervals};
ghost use Rattle.modem.specs.NextEvent.{IsNext};

/// A request is for 1 to 255 minislots, and is given up at 16 tries. A back-off draws a number below 2^15. An interval
/// that began, or a lease that ended, 2^14 minislots before its channel's clock is old. A modem acts in minislots below
/// 2^63, and hears a MAP less than 2^31 minislots from its start.
pub fn limits()
    ensures sizes { (v : State) (ch sid n : ℕ) → is_own_now v ch sid ≡ true → want_refusal v ch sid n ≡ Some BadSize ↔ ((n < 1) ⊎ (255 < n)) }
    ensures tries { (w : Want) → lost w ≡ None ↔ (16 ≤ w.tries + 1) }
    ensures backoffs { (c : KnownChannel) (w : Want) (random : ℕ) → 15 ≤ c.backoff.0 → 15 ≤ c.backoff.1
        → backoff_number c w random (Unsent None) ≡ random % 32768 }
    ensures leases { (ch clock : ℕ) (l : OwnLease) → is_recent ch clock l ≡ false ↔ (l.channel ≡ ch) × (l.last + 16384 ≤ clock) }
    ensures intervals { (ch clock : ℕ) (k : Kept) → k.channel ≡ ch → old_intervals ch clock (k ∷ []) ≡ [] ↔ (clock < k.start + 16384) }
    ensures late { (v : State) (ch m : ℕ) → IsLate v ch m ↔ (clock_of v.channels ch < m + 16384) }
    ensures timely { (ch start len near : ℕ) (bytes : List ℕ) → IsTimely (Map ch start len bytes) near ↔ (near < start + 2 ^ 31) × (start < near + 2 ^ 31) }
    ensures minislots { (v : State) (c : KnownChannel) («from» slot : ℕ) (action : Action) → IsNext v c «from» slot action → slot < 2 ^ 63 }
{}
