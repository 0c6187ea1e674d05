//! The next minislot at which something differs.

ghost use Rattle.std.specs.Prelude.{ℕ, ◌<◌, IfSome};
ghost use Rattle.modem.specs.Idle.{IsBefore};

/// Of two minislots, where they are there, the first.
pub(crate) fn sooner(one: Option<u64>, other: Option<u64>) -> Option<u64>
    ensures after { (at : ℕ) → IfSome one (λ n. at < n) → IfSome other (λ n. at < n) → IfSome result (λ n. at < n) }
    ensures before { (x : ℕ) → IsBefore result x → IsBefore one x × IsBefore other x }
{
    match (one, other) {
        (Some(a), Some(b)) => Some(a.min(b)),
        (None, _) => other,
        (_, None) => one,
    }
}
