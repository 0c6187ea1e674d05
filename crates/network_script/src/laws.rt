//! What holds of every run, whatever is lost, repeated and reordered, and whichever nodes crash and restart.

ghost use Rattle.network_script.specs.Headline.{CoversOnce, GaplessIsBeginning, HasOneSchedule, Headline, HeldIsOwned};
ghost use Rattle.network_script.specs.Headline.{HistoryIsLegal, HoldersAreOne, LearnedIsChosen, LearnedIsWritten};
ghost use Rattle.network_script.specs.Headline.{MapsAreOne, ModemsAreNamed, OfEveryRun, OwnersAreOne, ReleasedIsOutput};
ghost use Rattle.network_script.specs.Headline.{RunsJoin, SentByOwner, SentIsHeld, WithSchedule};
ghost use Rattle.network_script.specs.Examples.{IsRefused, LearnedOutlivesCrash, LeastBallots, OneLeader};
ghost use Rattle.network_script.specs.Examples.{ReleasesInOrder, TakesOver, TakesOverAfresh, ToldCatchesUp};
ghost use Rattle.network_script.specs.Examples.{TriesHigher, VoteOutlivesCrash};
ghost use Rattle.network_script.specs.Plain.{EachIsAnswered};
ghost use Rattle.network_script.specs.Counts.{FewFaults};

/// The voting history of every run is legal, and what a node learned, at any time of the run, is
/// chosen (Lamport, Paxos Made Simple).
pub fn votes_legal()
    ensures legal { OfEveryRun HistoryIsLegal }
    ensures learned { OfEveryRun LearnedIsChosen }
{}

/// What a node that is up has learned is, at any time of a run, what its learned rows hold: a restart gives all of it
/// back and nothing else.
pub fn learned_is_kept()
    ensures { OfEveryRun LearnedIsWritten }
{}

/// A run has one list of chosen values. Each node's gapless learned values are a beginning of it, each
/// released output is the one at its place of its outputs, and released MAPs of a channel that share a
/// minislot have equal bytes, since one MAP of its outputs at most covers a minislot.
pub fn one_schedule()
    ensures one { OfEveryRun HasOneSchedule }
    ensures gapless { OfEveryRun (WithSchedule GaplessIsBeginning) }
    ensures released { OfEveryRun (WithSchedule ReleasedIsOutput) }
    ensures maps { OfEveryRun MapsAreOne }
    ensures covers { OfEveryRun (WithSchedule CoversOnce) }
{}

/// The modems are known by their ids. What a modem holds, it owns by the outputs of the chosen values, and a minislot
/// has one owner at most, so modems of two ids hold no minislot both. Each unicast transmission is at a minislot that
/// its modem holds, and so is made by its one owner.
pub fn one_owner()
    ensures named { OfEveryRun ModemsAreNamed }
    ensures held { OfEveryRun (WithSchedule HeldIsOwned) }
    ensures owners { OfEveryRun (WithSchedule OwnersAreOne) }
    ensures holders { OfEveryRun HoldersAreOne }
    ensures sent { OfEveryRun SentIsHeld }
    ensures by_owner { OfEveryRun (WithSchedule SentByOwner) }
{}

/// For every script of deliveries, losses, repeats, reorderings, takeovers, crashes and restarts: no log
/// place has two chosen commands, every released MAP is the one that the chosen commands give its
/// minislots, and every unicast transmission is made by the minislot's one owner.
pub fn headline()
    ensures { Headline }
{}

/// A run may be cut in two.
pub fn runs_join()
    ensures { RunsJoin }
{}

/// In a world without modems each event can be answered, whatever happened before.
pub fn each_is_answered()
    ensures { EachIsAnswered }
{}

/// Runs of the definitions, computed: three nodes with one leader, a crash after values were learned,
/// takeovers, a crash after a vote and before a ballot, refused events, and a gap that is closed in two ways.
pub fn examples()
    ensures one_leader { OneLeader }
    ensures learned_outlives_crash { LearnedOutlivesCrash }
    ensures takes_over { TakesOver }
    ensures takes_over_afresh { TakesOverAfresh }
    ensures vote_outlives_crash { VoteOutlivesCrash }
    ensures tries_higher { TriesHigher }
    ensures is_refused { IsRefused }
    ensures releases_in_order { ReleasesInOrder }
    ensures told_catches_up { ToldCatchesUp }
    ensures least_ballots { LeastBallots }
{}

/// A run has no more faults of a node's store than its count of failures rose by, while that is below
/// its last value.
pub fn few_faults()
    ensures { FewFaults }
{}
