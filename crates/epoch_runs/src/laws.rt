//! What holds of runs one behind the other.

ghost use Rattle.epoch_runs.specs.Runs.{EpochsFollowOneLog};

/// Epochs are one log: what nodes learned in each of them, each value by whichever node, is a beginning of the values
/// of all, and so each output that they give is the one at its number of all. At most one MAP of these covers a
/// minislot, which has at most one owner; and what a modem holds that heard only these outputs, it owns.
pub fn epochs_follow_one_log()
    ensures { EpochsFollowOneLog }
{}
