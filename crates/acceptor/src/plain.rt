//! Records in memory.

ghost use Rattle.std.specs.Prelude.{◌≡◌, ℕ, max, Option, Some, None, IfOk, IfSome, IsOk, IsTrue, OnOk, OnErr, ◌↔◌, ◌⊎◌};
ghost use Rattle.ballots.specs.Limits.{IsPlace, IsValue};
ghost use Rattle.ballots.specs.Rows.{at, put, rows_from};
ghost use Rattle.ballots.specs.Ballots.{number_of};
ghost use Rattle.acceptor.specs.Content.{AreRowsFrom, AreValues, Content, IsSound, no_content, greatest, promised};
ghost use Rattle.acceptor.specs.Kept.{ballot_in, is_it, never_lie, no_failures, no_break};
ghost use Rattle.acceptor.specs.Calls.{Accounts, KeepsTrust};
ghost use Rattle.acceptor.specs.Faults.{BreaksByReopen, CountsFaults};
ghost use Rattle.acceptor.specs.Found.{AddsNothing, Holds, HoldsEither, Keeps};

use crate::records::{Records, RecordsFault};
use ballots::{Ballot, Bytes, Cast, Place, Value, Votes, higher};
use place_table::{Kept, Table};
use std::alloc::{AllocError, Global};
use std::marker::Model;

/// A vote as it is kept.
#[derive(Drop)]
struct Vote {
    ballot: Ballot,
    value: Kept,
}

impl Model for Vote {
    ghost use Rattle.ballots.specs.declared.letters.Cast.{Cast};

    ghost Value = { Cast };

    ghost view = { λ v. record { ballot = v.ballot; value = v.value } };
}

impl Vote {
    /// The vote, as a letter carries it.
    fn to_cast(&self, alloc: Global) -> Result<Cast, AllocError>
        ensures { IfOk result (λ cast. cast ≡ self.now) }
    {
        Ok(Cast {
            ballot: self.ballot,
            value: self.value.to_bytes(alloc)?,
        })
    }
}

/// Records that are lost with the process. They fail for memory alone.
#[derive(Drop)]
pub struct PlainRecords {
    alloc: Global,
    tried: Option<Ballot>,
    row: Option<Ballot>,
    votes: Table<Vote>,
    learned: Table<Kept>,
    // The greatest of the promised row and of all votes' ballots, so that no call looks through the votes for it.
    highest: Option<Ballot>,
}

impl Model for PlainRecords {
    ghost use Rattle.std.specs.Prelude.{◌≡◌, ℕ};
    ghost use Rattle.ballots.specs.Ballots.{number_of};
    ghost use Rattle.acceptor.specs.Content.{Content, IsSound, greatest};

    ghost Value = { Content };

    ghost view = { λ r. record { tried = number_of r.tried; row = number_of r.row; votes = r.votes.entries; learned = r.learned.entries } };

    ghost invariant = { λ r. (number_of r.highest ≡ greatest (number_of r.row) r.votes.entries)
        × IsSound record { tried = number_of r.tried; row = number_of r.row; votes = r.votes.entries; learned = r.learned.entries } };
}

impl PlainRecords {
    pub fn new(alloc: Global) -> PlainRecords
        ensures { result ≡ no_content }
    {
        PlainRecords {
            alloc,
            tried: None,
            row: None,
            votes: Table::new(alloc),
            learned: Table::new(alloc),
            highest: None,
        }
    }
}

/// The greatest of a ballot and those of the votes.
#[tactic(auto, using(crate::proofs::Greatest::greatest_max))]
fn greatest_of(ballot: Option<Ballot>, votes: &Table<Vote>) -> Option<Ballot>
    requires { AreRowsFrom 1 votes.now.entries }
    ensures { number_of result ≡ greatest (number_of ballot) votes.now.entries }
{
    let mut most = ballot;
    let mut next = 0;
    while let Some((at, vote)) = votes.next_from(next) {
        most = higher(most, vote.ballot);
        next = at + 1;
    }
    most
}

fn is_of(ballot: Option<Ballot>, number: u64) -> bool
    ensures { IsTrue result ↔ (number_of ballot ≡ number) }
{
    match ballot {
        Some(ballot) => ballot.number() == number,
        None => number == 0,
    }
}

/// The greatest ballot after `ballot` took the place of `replaced`, and none where a lower ballot took the place of the
/// greatest, so that only the votes can tell.
fn raised(highest: Option<Ballot>, replaced: Option<Ballot>, ballot: Ballot) -> Option<Ballot>
    ensures { IfSome result (λ b. (others : ℕ) → number_of highest ≡ max (number_of replaced) others → b ≡ max ballot others) }
{
    match highest {
        Some(was) if ballot.number() < was.number() => {
            if is_of(replaced, was.number()) {
                None
            } else {
                Some(was)
            }
        }
        _ => Some(ballot),
    }
}

/// The greatest ballot after `ballot` took the place of `replaced`.
fn highest_after(
    highest: Option<Ballot>,
    replaced: Option<Ballot>,
    ballot: Ballot,
    row: Option<Ballot>,
    votes: &Table<Vote>,
) -> Option<Ballot>
    requires { AreRowsFrom 1 votes.now.entries }
    ensures { (others : ℕ) → number_of highest ≡ max (number_of replaced) others → greatest (number_of row) votes.now.entries ≡ max ballot others
        → number_of result ≡ greatest (number_of row) votes.now.entries }
{
    if let Some(highest) = raised(highest, replaced, ballot) {
        return Some(highest);
    }
    greatest_of(row, votes)
}

fn copy_at(alloc: Global, votes: &Table<Vote>, place: Place) -> Result<Option<Cast>, AllocError>
    ensures { IfOk result (λ v. v ≡ at votes.now.entries place) }
{
    match votes.get(place.number()) {
        Some(vote) => Ok(Some(vote.to_cast(alloc)?)),
        None => Ok(None),
    }
}

fn copy_from(alloc: Global, votes: &Table<Vote>, place: Place) -> Result<Votes, AllocError>
    requires { AreRowsFrom 1 votes.now.entries }
    ensures { IfOk result (λ rows. rows ≡ rows_from votes.now.entries place) }
{
    let mut rows = Vec::new(alloc);
    let mut next = place.number();
    while let Some((at, vote)) = votes.next_from(next) {
        rows.push((at, vote.to_cast(alloc)?))?;
        next = at + 1;
    }
    Ok(Votes::new(rows))
}

/// Puts the vote, and gives the ballot of the one that stood there.
fn put_at(votes: &mut Table<Vote>, place: u64, vote: Vote) -> Result<Option<Ballot>, AllocError>
    ensures ok { OnOk result (votes.new.entries ≡ put votes.old.entries place vote) }
    ensures replaced { IfOk result (λ ballot. number_of ballot ≡ ballot_in (at votes.old.entries place)) }
    ensures err { OnErr result (votes.new.entries ≡ votes.old.entries) }
{
    match votes.insert(place, vote)? {
        Some(old) => Ok(Some(old.ballot)),
        None => Ok(None),
    }
}

/// The value of these bytes.
fn value_of(bytes: Bytes) -> Value
    requires { IsValue bytes }
    ensures { result ≡ bytes }
{
    Value::new(bytes).unwrap()
}

fn learned_at(
    alloc: Global,
    learned: &Table<Kept>,
    place: Place,
) -> Result<Option<Value>, AllocError>
    requires { AreValues learned.now.entries }
    ensures { IfOk result (λ v. v ≡ at learned.now.entries place) }
{
    match learned.get(place.number()) {
        Some(kept) => Ok(Some(value_of(kept.to_bytes(alloc)?))),
        None => Ok(None),
    }
}

/// The place of this number.
fn place_of(number: u64) -> Place
    requires { IsPlace number }
    ensures { result ≡ number }
{
    Place::new(number).unwrap()
}

fn all_learned_from(
    alloc: Global,
    learned: &Table<Kept>,
    place: Place,
) -> Result<Vec<(Place, Value)>, AllocError>
    requires rows { AreRowsFrom 1 learned.now.entries }
    requires values { AreValues learned.now.entries }
    ensures { IfOk result (λ rows. rows.items ≡ rows_from learned.now.entries place) }
{
    let mut rows = Vec::new(alloc);
    let mut next = place.number();
    while let Some((at, kept)) = learned.next_from(next) {
        let value = value_of(kept.to_bytes(alloc)?);
        rows.push((place_of(at), value))?;
        next = at + 1;
    }
    Ok(rows)
}

fn put_value(learned: &mut Table<Kept>, place: u64, value: Kept) -> Result<(), AllocError>
    ensures ok { OnOk result (learned.new.entries ≡ put learned.old.entries place value) }
    ensures err { OnErr result (learned.new.entries ≡ learned.old.entries) }
{
    learned.insert(place, value)?;
    Ok(())
}

impl Records for PlainRecords {
    ghost may_find = { is_it };

    ghost is_honest = { never_lie };

    ghost is_clean = { never_lie };

    ghost count_of = { no_failures };

    ghost is_broken = { no_break };

    ghost finds_no_memory = { λ _ _. Unit {0} };

    ghost finds_no_ballot = { λ _ _. ⊥ };

    ghost reopens = { λ old new. new ≡ old };

    fn failures(&self) -> u64 {
        0
    }

    fn tried(&mut self) -> Result<Option<Ballot>, RecordsFault>
        ensures no_memory { IsOk result }
        ensures value { IsTrue (never_lie self.new) → IfOk result (λ b. (c : Content) → Holds (is_it self.old) c → number_of b ≡ c.tried) }
        ensures kept { IsTrue (never_lie self.new) → Keeps result (is_it self.old) (is_it self.new) }
        ensures trust { KeepsTrust never_lie never_lie self.old self.new }
        ensures account { Accounts no_failures no_break self.old result self.new }
    {
        Ok(self.tried)
    }

    fn promised(&mut self) -> Result<Option<Ballot>, RecordsFault>
        ensures no_memory { IsOk result }
        ensures value { IsTrue (never_lie self.new) → IfOk result (λ b. (c : Content) → Holds (is_it self.old) c → number_of b ≡ promised c) }
        ensures kept { IsTrue (never_lie self.new) → Keeps result (is_it self.old) (is_it self.new) }
        ensures trust { KeepsTrust never_lie never_lie self.old self.new }
        ensures account { Accounts no_failures no_break self.old result self.new }
    {
        Ok(self.highest)
    }

    fn vote(&mut self, place: Place) -> Result<Option<Cast>, RecordsFault> {
        Ok(copy_at(self.alloc, &self.votes, place)?)
    }

    fn votes_from(&mut self, place: Place) -> Result<Votes, RecordsFault> {
        Ok(copy_from(self.alloc, &self.votes, place)?)
    }

    fn learned_row(&mut self, place: Place) -> Result<Option<Value>, RecordsFault> {
        Ok(learned_at(self.alloc, &self.learned, place)?)
    }

    fn learned_from(&mut self, place: Place) -> Result<Vec<(Place, Value)>, RecordsFault> {
        Ok(all_learned_from(self.alloc, &self.learned, place)?)
    }

    fn put_tried(&mut self, ballot: Ballot) -> Result<(), RecordsFault> {
        self.tried = Some(ballot);
        Ok(())
    }

    fn put_promised(&mut self, ballot: Ballot) -> Result<(), RecordsFault> {
        let replaced = self.row;
        self.row = Some(ballot);
        self.highest = highest_after(self.highest, replaced, ballot, self.row, &self.votes);
        Ok(())
    }

    fn put_vote(
        &mut self,
        place: Place,
        ballot: Ballot,
        value: &Value,
    ) -> Result<(), RecordsFault> {
        let value = Kept::copy_of(self.alloc, value.as_slice())?;
        let replaced = put_at(&mut self.votes, place.number(), Vote { ballot, value })?;
        self.highest = highest_after(self.highest, replaced, ballot, self.row, &self.votes);
        Ok(())
    }

    fn put_learned(&mut self, place: Place, value: &Value) -> Result<(), RecordsFault> {
        let value = Kept::copy_of(self.alloc, value.as_slice())?;
        Ok(put_value(&mut self.learned, place.number(), value)?)
    }

    fn reopen(&mut self) -> Result<(), RecordsFault>
        ensures no_memory { IsOk result }
        ensures ok { IsTrue (never_lie self.new)
            → OnOk result ((a b : Content) → HoldsEither (is_it self.old) a b → Holds (is_it self.new) a ⊎ Holds (is_it self.new) b) }
        ensures reopened { OnOk result (self.new ≡ self.old) }
        ensures kept { IsTrue (never_lie self.new) → AddsNothing (is_it self.old) (is_it self.new) }
        ensures trust { KeepsTrust never_lie never_lie self.old self.new }
        ensures count { CountsFaults result (no_failures self.old) (no_failures self.new) }
        ensures broken { BreaksByReopen result (no_break self.old) (no_break self.new) }
    {
        // All that was committed is there.
        Ok(())
    }
}
