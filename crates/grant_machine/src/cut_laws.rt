//! What holds of every cut by what it asks.

ghost use Rattle.grant_machine.specs.CutLaws.{MinislotsAreKept, NothingIsHeldBack, BackoffsAreTold};

/// As many minislots as a cut keeps are all modems' for requests, or as many as what comes at due times leaves, if
/// these are fewer.
pub fn minislots_are_kept()
    ensures { MinislotsAreKept }
{}

/// Where a cut keeps nothing, each request that has a first fit in its turn is granted.
pub fn nothing_is_held_back()
    ensures { NothingIsHeldBack }
{}

/// Each MAP tells the back-offs of its cut, or the channel's own, which stay.
pub fn backoffs_are_told()
    ensures { BackoffsAreTold }
{}
