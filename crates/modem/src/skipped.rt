//! The law of ticks that may be left out.

ghost use Rattle.std.specs.Prelude.{◌≡◌, ℕ, ◌+◌, List, Option, None};
ghost use Rattle.std.specs.List.{All};
ghost use Rattle.modem.specs.declared.types.Sending.{Sending};
ghost use Rattle.modem.specs.State.{State, KnownChannel};
ghost use Rattle.modem.specs.NextEvent.{QuietRun, TickAlike};

/// Ticks one after another at quiet minislots answer nothing, and the next tick answers and leaves the modem as if they
/// hadn't been.
pub fn quiet_ticks()
    ensures silent { (v w : State) (c d : KnownChannel) (ch m n : ℕ) (answers : List (Option Sending)) → QuietRun n v c ch m answers w d
        → All (λ s. s ≡ None) answers }
    ensures left_out { (v w : State) (c d : KnownChannel) (ch m n : ℕ) (answers : List (Option Sending)) → QuietRun n v c ch m answers w d
        → TickAlike v c w d (m + n) }
{}
