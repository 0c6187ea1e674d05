//! The law of leases that ended long ago.

ghost use Rattle.std.specs.Prelude.{ℕ, List};
ghost use Rattle.modem.specs.declared.known.OwnLease.{OwnLease};
ghost use Rattle.modem.specs.State.{recent};
ghost use Rattle.modem.specs.OldLeases.{ServeAlike};

/// A modem that lets go of a channel's leases that ended 2^14 minislots or more before its clock goes on as one that
/// keeps them.
pub fn old_leases()
    ensures { (ch clock : ℕ) (leases : List OwnLease) → ServeAlike ch clock (recent ch clock leases) leases }
{}
