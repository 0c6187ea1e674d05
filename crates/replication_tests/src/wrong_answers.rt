//! Answers that the definitions exclude, whatever body would give them.

ghost use Rattle.replication_tests.specs.WrongAnswers.{AnswersAreWritten, HigherIsThePromise, NextBallotIsAbove};
ghost use Rattle.replication_tests.specs.WrongAnswers.{NoPromiseUpTo, NoVoteBelow};

/// An acceptor neither votes below its promise, nor promises what isn't above it, nor tells another ballot than the
/// promised one; a promise and a new vote are written.
pub fn of_acceptors()
    ensures below { NoVoteBelow }
    ensures promised { NoPromiseUpTo }
    ensures higher { HigherIsThePromise }
    ensures written { AnswersAreWritten }
{}

/// The least ballot above another is above it.
pub fn of_ballots()
    ensures { NextBallotIsAbove }
{}
