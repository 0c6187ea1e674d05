//! Promises and votes: each is written before it is answered (Lamport, Paxos Made Simple).

ghost use Rattle.std.specs.Prelude.{◌≡◌, ◌<◌, ◌≤◌, ◌⊎◌, max, IsTrue, Option, Some, IfSome, IfNone, IfOk, IfErr, OnOk};
ghost use Rattle.std.specs.Prelude.{OnErr};
ghost use Rattle.ballots.specs.Ballots.{number_of};
ghost use Rattle.acceptor.specs.Answers.{Prepares, Accepts, IsNewVote, IsOfBallot, MayHavePromised, MayHaveVoted};
ghost use Rattle.acceptor.specs.Content.{Content, Write, promised, after_write};
ghost use Rattle.acceptor.specs.Content.Write.{Votes as Casts};
ghost use Rattle.acceptor.specs.Found.{FindsSame, HasMade, Holds, Keeps, MayHaveMade};
ghost use Rattle.acceptor.specs.declared.records.RecordsFault.TheVariants.{OutOfMemory};
ghost use Rattle.acceptor.specs.Calls.{Accounts, KeepsTrust};
ghost use Rattle.acceptor.specs.Faults.{IsHarmless};

use crate::records::{Records, RecordsFault};
use ballots::{Ballot, Bytes, Cast, Place, Value, Votes};
use std::marker::Model;

/// What an acceptor answers to a ballot.
#[derive(Drop)]
pub enum Prepared {
    /// It takes part in no lower ballot. These are its votes from the place on.
    Promised(Votes),
    /// The ballot that it has promised, which isn't below.
    Higher(Ballot),
}

/// What an acceptor answers to a value.
#[derive(Drop)]
pub enum Accepted {
    /// It has voted in this ballot, now or before, for this value.
    Voted(Bytes),
    /// The ballot that it has promised, which is above.
    Higher(Ballot),
}

/// The first ballot, where it isn't below the other.
fn at_least(promised: Option<Ballot>, ballot: Ballot) -> Option<Ballot>
    ensures some { IfSome result (λ other. (ballot ≤ other) × (other ≡ number_of promised)) }
    ensures none { IfNone result (number_of promised < ballot) }
{
    let number = ballot.number();
    match promised {
        Some(other) if other.number() >= number => Some(other),
        _ => None,
    }
}

/// The first ballot, where it is above the other.
fn above(promised: Option<Ballot>, ballot: Ballot) -> Option<Ballot>
    ensures some { IfSome result (λ other. (ballot < other) × (other ≡ number_of promised)) }
    ensures none { IfNone result (number_of promised ≤ ballot) }
{
    let number = ballot.number();
    match promised {
        Some(other) if other.number() > number => Some(other),
        _ => None,
    }
}

/// The value of the vote, where it is of the ballot.
fn value_for(vote: Option<Cast>, ballot: Ballot) -> Option<Bytes>
    ensures some { IfSome result (λ value. vote ≡ Some record { ballot = ballot; value = value }) }
    ensures none { IfNone result (IsOfBallot vote ballot → ⊥) }
{
    let vote = vote?;
    if vote.ballot.number() != ballot.number() {
        return None;
    }
    Some(vote.value)
}

fn number(ballot: Option<Ballot>) -> u64
    ensures { result ≡ number_of ballot }
{
    match ballot {
        Some(ballot) => ballot.number(),
        None => 0,
    }
}

/// The greatest of the ballots that a node tried, promised or voted in, and 0 where there is none.
pub fn greatest_used<R: Records>(records: &mut R) -> Result<u64, RecordsFault>
    ensures value { IsTrue (R.is_honest records.new) → IfOk result (λ b. (c : Content) → Holds (R.may_find records.old) c → b ≡ max c.tried (promised c)) }
    ensures memory { IfErr result (λ e. e ≡ OutOfMemory → (mid : R) × R.finds_no_memory mid records.new × R.finds_no_ballot mid records.new) }
    ensures kept { IsTrue (R.is_honest records.new) → Keeps result (R.may_find records.old) (R.may_find records.new) }
    ensures trust { KeepsTrust R.is_honest R.is_clean records.old records.new }
    ensures account { Accounts R.count_of R.is_broken records.old result records.new }
{
    let tried = records.tried()?;
    let promised = records.promised()?;
    Ok(number(tried).max(number(promised)))
}

/// Promises to take part in no lower ballot, where the ballot is above the promise. The promise is written before it is
/// answered.
pub fn prepare<R: Records>(
    records: &mut R,
    ballot: Ballot,
    place: Place,
) -> Result<Prepared, RecordsFault>
    ensures ok { IsTrue (R.is_honest records.new) → IfOk result (λ answer. (c : Content) → Holds (R.may_find records.old) c
        → (write : Option Write) × Prepares c ballot place answer write × Holds (R.may_find records.new) (after_write c write)) }
    ensures harmless { IsTrue (R.is_honest records.new) → IfErr result (λ e. IsHarmless e → FindsSame (R.may_find records.old) (R.may_find records.new)) }
    ensures doubt { IsTrue (R.is_honest records.new)
        → OnErr result ((c : Content) → Holds (R.may_find records.old) c → MayHavePromised c ballot (R.may_find records.new)) }
    ensures memory { IsTrue (R.is_honest records.new) → IfErr result (λ e. e ≡ OutOfMemory → ((mid : R) × R.finds_no_memory mid records.new)
        ⊎ ((c : Content) → Holds (R.may_find records.old) c → promised c < ballot)) }
    ensures trust { KeepsTrust R.is_honest R.is_clean records.old records.new }
    ensures account { Accounts R.count_of R.is_broken records.old result records.new }
{
    let promised = records.promised()?;
    if let Some(other) = at_least(promised, ballot) {
        return Ok(Prepared::Higher(other));
    }
    let votes = records.votes_from(place)?;
    records.put_promised(ballot)?;
    Ok(Prepared::Promised(votes))
}

/// Votes for the value, where the ballot isn't below the promise and the place has no vote of the ballot. The vote is
/// written before it is answered. One that is there is answered again, and nothing is written.
pub fn accept<R: Records>(
    records: &mut R,
    ballot: Ballot,
    place: Place,
    value: Value,
) -> Result<Accepted, RecordsFault>
    ensures ok { IsTrue (R.is_honest records.new) → IfOk result (λ answer. (c : Content) → Holds (R.may_find records.old) c
        → (write : Option Write) × Accepts c ballot place value answer write × Holds (R.may_find records.new) (after_write c write)) }
    ensures harmless { IsTrue (R.is_honest records.new) → IfErr result (λ e. IsHarmless e → FindsSame (R.may_find records.old) (R.may_find records.new)) }
    ensures doubt { IsTrue (R.is_honest records.new)
        → OnErr result ((c : Content) → Holds (R.may_find records.old) c → MayHaveVoted c ballot place value (R.may_find records.new)) }
    ensures memory { IsTrue (R.is_honest records.new) → IfErr result (λ e. e ≡ OutOfMemory → ((mid : R) × R.finds_no_memory mid records.new)
        ⊎ ((c : Content) → Holds (R.may_find records.old) c → IsNewVote c ballot place)) }
    ensures trust { KeepsTrust R.is_honest R.is_clean records.old records.new }
    ensures account { Accounts R.count_of R.is_broken records.old result records.new }
{
    let promised = records.promised()?;
    if let Some(other) = above(promised, ballot) {
        return Ok(Accepted::Higher(other));
    }
    let vote = records.vote(place)?;
    if let Some(told) = value_for(vote, ballot) {
        return Ok(Accepted::Voted(told));
    }
    Ok(Accepted::Voted(vote_now(records, ballot, place, value)?))
}

/// Writes the vote, and then gives the value for the answer.
fn vote_now<R: Records>(
    records: &mut R,
    ballot: Ballot,
    place: Place,
    value: Value,
) -> Result<Bytes, RecordsFault>
    ensures told { IfOk result (λ told. told ≡ value) }
    ensures ok { IsTrue (R.is_honest records.new)
        → OnOk result (HasMade (R.may_find records.old) (R.may_find records.new) (Casts place record { ballot = ballot; value = value })) }
    ensures harmless { IsTrue (R.is_honest records.new) → IfErr result (λ e. IsHarmless e → FindsSame (R.may_find records.old) (R.may_find records.new)) }
    ensures doubt { IsTrue (R.is_honest records.new)
        → MayHaveMade (R.may_find records.old) (R.may_find records.new) (Casts place record { ballot = ballot; value = value }) }
    ensures trust { KeepsTrust R.is_honest R.is_clean records.old records.new }
    ensures account { Accounts R.count_of R.is_broken records.old result records.new }
{
    records.put_vote(place, ballot, &value)?;
    Ok(value.into_bytes())
}

/// A member as an acceptor: its records, which hold all that it may not forget.
#[derive(Drop)]
pub struct Acceptor<R: Records> {
    records: R,
}

impl<R: Records> Model for Acceptor<R> {
    ghost Value = { R };

    ghost view = { λ a. a.records };
}

impl<R: Records> Acceptor<R> {
    /// The acceptor over these records.
    pub fn new(records: R) -> Acceptor<R>
        ensures { result ≡ records }
    {
        Acceptor { records }
    }

    /// Promises to take part in no lower ballot, as `prepare` does over the records.
    pub fn prepare(&mut self, ballot: Ballot, place: Place) -> Result<Prepared, RecordsFault>
        ensures ok { IsTrue (R.is_honest self.new) → IfOk result (λ answer. (c : Content) → Holds (R.may_find self.old) c
            → (write : Option Write) × Prepares c ballot place answer write × Holds (R.may_find self.new) (after_write c write)) }
        ensures harmless { IsTrue (R.is_honest self.new) → IfErr result (λ e. IsHarmless e → FindsSame (R.may_find self.old) (R.may_find self.new)) }
        ensures doubt { IsTrue (R.is_honest self.new)
            → OnErr result ((c : Content) → Holds (R.may_find self.old) c → MayHavePromised c ballot (R.may_find self.new)) }
        ensures memory { IsTrue (R.is_honest self.new) → IfErr result (λ e. e ≡ OutOfMemory → ((mid : R) × R.finds_no_memory mid self.new)
            ⊎ ((c : Content) → Holds (R.may_find self.old) c → promised c < ballot)) }
        ensures trust { KeepsTrust R.is_honest R.is_clean self.old self.new }
        ensures account { Accounts R.count_of R.is_broken self.old result self.new }
    {
        prepare(&mut self.records, ballot, place)
    }

    /// Votes for the value, as `accept` does over the records.
    pub fn accept(
        &mut self,
        ballot: Ballot,
        place: Place,
        value: Value,
    ) -> Result<Accepted, RecordsFault>
        ensures ok { IsTrue (R.is_honest self.new) → IfOk result (λ answer. (c : Content) → Holds (R.may_find self.old) c
            → (write : Option Write) × Accepts c ballot place value answer write × Holds (R.may_find self.new) (after_write c write)) }
        ensures harmless { IsTrue (R.is_honest self.new) → IfErr result (λ e. IsHarmless e → FindsSame (R.may_find self.old) (R.may_find self.new)) }
        ensures doubt { IsTrue (R.is_honest self.new)
            → OnErr result ((c : Content) → Holds (R.may_find self.old) c → MayHaveVoted c ballot place value (R.may_find self.new)) }
        ensures memory { IsTrue (R.is_honest self.new) → IfErr result (λ e. e ≡ OutOfMemory → ((mid : R) × R.finds_no_memory mid self.new)
            ⊎ ((c : Content) → Holds (R.may_find self.old) c → IsNewVote c ballot place)) }
        ensures trust { KeepsTrust R.is_honest R.is_clean self.old self.new }
        ensures account { Accounts R.count_of R.is_broken self.old result self.new }
    {
        accept(&mut self.records, ballot, place, value)
    }

    /// The records, back from the acceptor.
    pub fn into_records(self) -> R
        ensures { result ≡ self }
    {
        self.records
    }
}
