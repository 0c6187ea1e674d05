//! Records in memory, and which of their calls fail.

ghost use Rattle.std.specs.Prelude.{◌≡◌, ℕ, IfSome, IfNone, Some, Err, true, false, ◌||◌, if◌then◌else◌};
ghost use Rattle.acceptor.specs.Content.{no_content};
ghost use Rattle.acceptor.specs.Faults.{BreaksBy, BreaksByReopen, CountsFaults};
ghost use Rattle.acceptor.specs.declared.records.RecordsFault.TheVariants.{Refused as FaultRefused};
ghost use Rattle.acceptor.specs.declared.records.RecordsFault.TheVariants.{Broken as FaultBroken};
ghost use Rattle.faulty_records.specs.State.{IsChosen, breaks, next};
ghost use Rattle.faulty_records.specs.declared.faulty.Failure.TheVariants.{BrokenUnwritten};

use acceptor::{PlainRecords, Records, RecordsFault};
use ballots::{Ballot, Cast, Place, Value, Votes};
use std::alloc::Global;

/// How a call fails.
#[derive(Clone, Copy, Debug, PartialEq, Eq)]
pub enum Failure {
    /// It is refused, and nothing changed.
    Refused,
    /// The records are broken, and the one write of the call, if it makes one, is there.
    BrokenWritten,
    /// The records are broken, and the one write of the call isn't there.
    BrokenUnwritten,
}

/// Which calls fail, and how. Reads, writes and reopens are counted together, from 1 on.
#[derive(Clone, Copy, Debug, PartialEq, Eq)]
pub struct Trouble {
    pub failure: Failure,
    /// The number of the first call that fails.
    pub first: u64,
    /// The number of the last one. None fails where it is below the first.
    pub last: u64,
}

impl Trouble {
    /// No call fails.
    pub fn none() -> Trouble
        ensures { (number : ℕ) → IsChosen result number → ⊥ }
    {
        Trouble {
            failure: Failure::Refused,
            first: 1,
            last: 0,
        }
    }
}

/// What came so far of calls and failures.
#[derive(Clone, Copy, Debug, PartialEq, Eq)]
pub struct Faults {
    pub trouble: Trouble,
    /// How many calls came. At 2^64 - 1 it stays, as does the next one.
    pub calls: u64,
    /// How many of them failed for another cause than memory.
    pub failures: u64,
    /// A reopen is waited for.
    pub is_broken: bool,
}

impl Faults {
    /// Counts a call, and tells how it is to fail if it is one of the chosen.
    fn count(&mut self) -> Option<Failure>
        ensures counted { self.new ≡ record self.old { calls = next self.old.calls } }
        ensures chosen { IfSome result (λ failure. IsChosen self.old.trouble (next self.old.calls) × (failure ≡ self.old.trouble.failure)) }
        ensures spared { IfNone result (IsChosen self.old.trouble (next self.old.calls) → ⊥) }
    {
        self.calls = self.calls.saturating_add(1);
        if self.trouble.first <= self.calls && self.calls <= self.trouble.last {
            return Some(self.trouble.failure);
        }
        None
    }

    /// Counts a call other than a reopen, and tells how it fails. While the records are broken each fails, and writes
    /// nothing.
    fn begin(&mut self) -> Option<Failure>
        ensures counted { self.new ≡ record self.old { calls = next self.old.calls } }
        ensures broken { self.old.is_broken ≡ true → result ≡ Some BrokenUnwritten }
        ensures whole { IfNone result (self.old.is_broken ≡ false) }
        ensures refused { IfSome result (λ failure. breaks failure ≡ false → self.old.is_broken ≡ false) }
    {
        let failure = self.count();
        if self.is_broken {
            return Some(Failure::BrokenUnwritten);
        }
        failure
    }

    /// Counts a failure, which may leave the records broken.
    fn fail<T>(&mut self, failure: Failure) -> Result<T, RecordsFault>
        ensures failed { self.new ≡ record self.old { failures = next self.old.failures; is_broken = self.old.is_broken || breaks failure } }
        ensures fault { result ≡ Err (if breaks failure then FaultBroken else FaultRefused) }
        ensures count { CountsFaults result self.old.failures self.new.failures }
        ensures broken { (breaks failure ≡ false → self.old.is_broken ≡ false) → BreaksBy result self.old.is_broken self.new.is_broken }
        ensures reopen { BreaksByReopen result self.old.is_broken self.new.is_broken }
    {
        self.failures = self.failures.saturating_add(1);
        match failure {
            Failure::Refused => Err(RecordsFault::Refused),
            Failure::BrokenWritten | Failure::BrokenUnwritten => {
                self.is_broken = true;
                Err(RecordsFault::Broken)
            }
        }
    }
}

/// Records that are lost with the process. The calls of the trouble fail, and while they are broken every call but a
/// reopen does; else they fail for memory alone.
#[derive(Drop)]
pub struct FaultyRecords {
    /// What is kept.
    pub plain: PlainRecords,
    pub faults: Faults,
}

impl FaultyRecords {
    /// Records with nothing in them.
    pub fn new(alloc: Global, trouble: Trouble) -> FaultyRecords
        ensures empty { result.plain ≡ no_content }
        ensures faults { result.faults ≡ record { trouble = trouble; calls = 0; failures = 0; is_broken = false } }
    {
        FaultyRecords {
            plain: PlainRecords::new(alloc),
            faults: Faults {
                trouble,
                calls: 0,
                failures: 0,
                is_broken: false,
            },
        }
    }
}

impl Records for FaultyRecords {
    ghost use Rattle.std.specs.Prelude.{◌≡◌, true};

    ghost may_find = { λ r c. c ≡ r.plain };

    ghost is_honest = { λ _. true };

    ghost is_clean = { λ _. true };

    ghost count_of = { λ r. r.faults.failures };

    ghost is_broken = { λ r. r.faults.is_broken };

    ghost finds_no_memory = { λ _ _. Unit {0} };

    ghost finds_no_ballot = { λ _ _. ⊥ };

    ghost reopens = { λ old new. new.plain ≡ old.plain };

    fn failures(&self) -> u64 {
        self.faults.failures
    }

    fn tried(&mut self) -> Result<Option<Ballot>, RecordsFault> {
        match self.faults.begin() {
            None => self.plain.tried(),
            Some(failure) => self.faults.fail(failure),
        }
    }

    fn promised(&mut self) -> Result<Option<Ballot>, RecordsFault> {
        match self.faults.begin() {
            None => self.plain.promised(),
            Some(failure) => self.faults.fail(failure),
        }
    }

    fn vote(&mut self, place: Place) -> Result<Option<Cast>, RecordsFault> {
        match self.faults.begin() {
            None => self.plain.vote(place),
            Some(failure) => self.faults.fail(failure),
        }
    }

    fn votes_from(&mut self, place: Place) -> Result<Votes, RecordsFault> {
        match self.faults.begin() {
            None => self.plain.votes_from(place),
            Some(failure) => self.faults.fail(failure),
        }
    }

    fn learned_row(&mut self, place: Place) -> Result<Option<Value>, RecordsFault> {
        match self.faults.begin() {
            None => self.plain.learned_row(place),
            Some(failure) => self.faults.fail(failure),
        }
    }

    fn learned_from(&mut self, place: Place) -> Result<Vec<(Place, Value)>, RecordsFault> {
        match self.faults.begin() {
            None => self.plain.learned_from(place),
            Some(failure) => self.faults.fail(failure),
        }
    }

    fn put_tried(&mut self, ballot: Ballot) -> Result<(), RecordsFault> {
        match self.faults.begin() {
            None => self.plain.put_tried(ballot),
            Some(Failure::BrokenWritten) => {
                self.plain.put_tried(ballot)?;
                self.faults.fail(Failure::BrokenWritten)
            }
            Some(failure) => self.faults.fail(failure),
        }
    }

    fn put_promised(&mut self, ballot: Ballot) -> Result<(), RecordsFault> {
        match self.faults.begin() {
            None => self.plain.put_promised(ballot),
            Some(Failure::BrokenWritten) => {
                self.plain.put_promised(ballot)?;
                self.faults.fail(Failure::BrokenWritten)
            }
            Some(failure) => self.faults.fail(failure),
        }
    }

    fn put_vote(
        &mut self,
        place: Place,
        ballot: Ballot,
        value: &Value,
    ) -> Result<(), RecordsFault> {
        match self.faults.begin() {
            None => self.plain.put_vote(place, ballot, value),
            Some(Failure::BrokenWritten) => {
                self.plain.put_vote(place, ballot, value)?;
                self.faults.fail(Failure::BrokenWritten)
            }
            Some(failure) => self.faults.fail(failure),
        }
    }

    fn put_learned(&mut self, place: Place, value: &Value) -> Result<(), RecordsFault> {
        match self.faults.begin() {
            None => self.plain.put_learned(place, value),
            Some(Failure::BrokenWritten) => {
                self.plain.put_learned(place, value)?;
                self.faults.fail(Failure::BrokenWritten)
            }
            Some(failure) => self.faults.fail(failure),
        }
    }

    fn reopen(&mut self) -> Result<(), RecordsFault> {
        if let Some(failure) = self.faults.count() {
            return self.faults.fail(failure);
        }
        self.faults.is_broken = false;
        Ok(())
    }
}
