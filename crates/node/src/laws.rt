//! What follows from what a node's calls do.

ghost use Rattle.std.specs.Prelude.{◌≡◌, ℕ, List, length, min};
ghost use Rattle.ballots.specs.Rows.{rows_from};
ghost use Rattle.node.specs.CatchesUp.{CatchesUp};
ghost use Rattle.node.specs.Step.{first_known};

/// A member that takes all letters by which another told it what it has learned has learned that, where both agree.
pub fn catches_up()
    ensures { CatchesUp }
{}

/// How many places are told at once, in digits: all that are learned from one on, and no more than 64.
pub fn limits()
    ensures { (me n q : ℕ) (learned : List (ℕ × List ℕ)) → length (first_known me learned n q) ≡ min 64 (length (rows_from learned q)) }
{}
