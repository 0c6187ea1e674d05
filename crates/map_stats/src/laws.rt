//! What holds of the sums over rows.

ghost use Rattle.map_stats.specs.Laws.{SumsAreOfRows};

/// What is told of a lease is the sums over its rows, which `draw` draws.
pub fn sums_are_of_rows()
    ensures { SumsAreOfRows }
{}
