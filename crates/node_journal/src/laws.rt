//! What holds of legal journals.

ghost use Rattle.node_journal.specs.Legal.{LinesAreLegal};

/// Records of which journals are the lines are legal, as `node_worker` says: read as events they are a run of the
/// written world. So all that holds of every run holds of what the journals tell.
pub fn lines_are_legal()
    ensures { LinesAreLegal }
{}
