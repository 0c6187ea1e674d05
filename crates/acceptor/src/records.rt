//! The stable content of a node, as a store of records.

ghost use Rattle.std.specs.Prelude.{◌≡◌, ◌⊎◌, ℕ, Bool, IsTrue, IfOk, IfErr, OnOk};
ghost use Rattle.ballots.specs.Ballots.{number_of};
ghost use Rattle.ballots.specs.Rows.{at, rows_from};
ghost use Rattle.acceptor.specs.Content.{Content, IsSound, promised};
ghost use Rattle.acceptor.specs.Content.Write.{Tries, Promises, Votes as Casts, Learns};
ghost use Rattle.acceptor.specs.Found.{Holds, HoldsEither, AddsNothing, FindsSame, Keeps};

use ballots::{Ballot, Cast, Place, Value, Votes};
use std::alloc::{AllocError, AllocFailed};
use thiserror::Error;

/// Why a call on records failed.
#[derive(Clone, Copy, Debug, PartialEq, Eq, Error)]
pub enum RecordsFault {
    /// The store failed, and nothing changed.
    #[error("Refused")]
    Refused,
    /// The store failed, and the one write of the call, if it makes one, is there or not. A reopen tells.
    #[error("Broken")]
    Broken,
    /// Memory was refused, and nothing changed.
    #[error("OutOfMemory")]
    OutOfMemory,
}

impl From<AllocError> for RecordsFault {
    ghost use Rattle.acceptor.specs.declared.records.RecordsFault.TheVariants.{OutOfMemory};

    ghost from_gives = { λ _ e. e ≡ OutOfMemory };

    fn from(_fault: AllocError) -> RecordsFault {
        RecordsFault::OutOfMemory
    }
}

impl<T: Drop> From<AllocFailed<T>> for RecordsFault {
    ghost use Rattle.acceptor.specs.declared.records.RecordsFault.TheVariants.{OutOfMemory};

    ghost from_gives = { λ _ e. e ≡ OutOfMemory };

    fn from(_fault: AllocFailed<T>) -> RecordsFault {
        RecordsFault::OutOfMemory
    }
}

/// What a node keeps over a crash: the last ballot that it tried, its promised row, one vote a place, and the value
/// that it learned of a place. A read changes nothing and a write changes its one row, committed before an `Ok`.
/// Refused and Broken come only in a call in which the count of failures rose. After a Broken one each call is Broken
/// until a `reopen` is Ok, which tells what is there. A write adds nothing but what may be found with it to what may be
/// found, also while that is more than one content. What is said of content stands where the records are honest after
/// the call. Honesty once lost isn't regained, and isn't lost while the store is clean.
pub trait Records {
    // What a reopen now may find.
    ghost may_find: { Self → Content → Type 0 };

    // The store has returned what was committed so far.
    ghost is_honest: { Self → Bool };

    // Nothing below has failed silently so far: a premise, which no code here can make false.
    ghost is_clean: { Self → Bool };

    // How many times the store has failed. At 2^64 - 1 it stays.
    ghost count_of: { Self → ℕ };

    // The store is broken, and waits for a reopen.
    ghost is_broken: { Self → Bool };

    // A read that finds no memory may lead from the first to the second.
    ghost finds_no_memory: { Self → Self → Type 0 };

    // The same of a read of the ballots.
    ghost finds_no_ballot: { Self → Self → Type 0 };

    // A reopen that is Ok leads from the first to the second.
    ghost reopens: { Self → Self → Type 0 };

    ghost use Rattle.acceptor.specs.Calls.{Accounts, KeepsTrust, Writes};
    ghost use Rattle.acceptor.specs.Faults.{BreaksByReopen, CountsFaults, IsHarmless};
    ghost use Rattle.acceptor.specs.declared.records.RecordsFault.TheVariants.{OutOfMemory};

    /// How many times the store has failed.
    fn failures(&self) -> u64
        ensures { result ≡ count_of self.now };

    /// The last ballot that the node tried to lead with, if there is one.
    fn tried(&mut self) -> Result<Option<Ballot>, RecordsFault>
        ensures value { IsTrue (is_honest self.new) → IfOk result (λ b. (c : Content) → Holds (may_find self.old) c → number_of b ≡ c.tried) }
        ensures memory { IfErr result (λ e. e ≡ OutOfMemory → finds_no_memory self.old self.new × finds_no_ballot self.old self.new) }
        ensures kept { IsTrue (is_honest self.new) → Keeps result (may_find self.old) (may_find self.new) }
        ensures trust { KeepsTrust is_honest is_clean self.old self.new }
        ensures account { Accounts count_of is_broken self.old result self.new };

    /// The greatest of the promised row and the ballots of all votes, if there is one.
    fn promised(&mut self) -> Result<Option<Ballot>, RecordsFault>
        ensures value { IsTrue (is_honest self.new) → IfOk result (λ b. (c : Content) → Holds (may_find self.old) c → number_of b ≡ promised c) }
        ensures memory { IfErr result (λ e. e ≡ OutOfMemory → finds_no_memory self.old self.new × finds_no_ballot self.old self.new) }
        ensures kept { IsTrue (is_honest self.new) → Keeps result (may_find self.old) (may_find self.new) }
        ensures trust { KeepsTrust is_honest is_clean self.old self.new }
        ensures account { Accounts count_of is_broken self.old result self.new };

    /// The vote at the place, if there is one.
    fn vote(&mut self, place: Place) -> Result<Option<Cast>, RecordsFault>
        ensures value { IsTrue (is_honest self.new) → IfOk result (λ v. (c : Content) → Holds (may_find self.old) c → v ≡ at c.votes place) }
        ensures memory { IfErr result (λ e. e ≡ OutOfMemory → finds_no_memory self.old self.new) }
        ensures kept { IsTrue (is_honest self.new) → Keeps result (may_find self.old) (may_find self.new) }
        ensures trust { KeepsTrust is_honest is_clean self.old self.new }
        ensures account { Accounts count_of is_broken self.old result self.new };

    /// The votes from the place on, by ascending place.
    fn votes_from(&mut self, place: Place) -> Result<Votes, RecordsFault>
        ensures value { IsTrue (is_honest self.new) → IfOk result (λ votes. (c : Content) → Holds (may_find self.old) c → votes ≡ rows_from c.votes place) }
        ensures memory { IfErr result (λ e. e ≡ OutOfMemory → finds_no_memory self.old self.new) }
        ensures sound { IsTrue (is_honest self.new) → OnOk result ((c : Content) → Holds (may_find self.old) c → IsSound c) }
        ensures kept { IsTrue (is_honest self.new) → Keeps result (may_find self.old) (may_find self.new) }
        ensures trust { KeepsTrust is_honest is_clean self.old self.new }
        ensures account { Accounts count_of is_broken self.old result self.new };

    /// The value that the node has learned of the place, if there is one.
    fn learned_row(&mut self, place: Place) -> Result<Option<Value>, RecordsFault>
        ensures value { IsTrue (is_honest self.new) → IfOk result (λ v. (c : Content) → Holds (may_find self.old) c → v ≡ at c.learned place) }
        ensures memory { IfErr result (λ e. e ≡ OutOfMemory → finds_no_memory self.old self.new) }
        ensures kept { IsTrue (is_honest self.new) → Keeps result (may_find self.old) (may_find self.new) }
        ensures trust { KeepsTrust is_honest is_clean self.old self.new }
        ensures account { Accounts count_of is_broken self.old result self.new };

    /// The values that the node has learned of places from the place on, by ascending place, also those behind a place
    /// of which it has learned none.
    fn learned_from(&mut self, place: Place) -> Result<Vec<(Place, Value)>, RecordsFault>
        ensures value { IsTrue (is_honest self.new)
            → IfOk result (λ rows. (c : Content) → Holds (may_find self.old) c → rows.items ≡ rows_from c.learned place) }
        ensures memory { IfErr result (λ e. e ≡ OutOfMemory → finds_no_memory self.old self.new) }
        ensures sound { IsTrue (is_honest self.new) → OnOk result ((c : Content) → Holds (may_find self.old) c → IsSound c) }
        ensures kept { IsTrue (is_honest self.new) → Keeps result (may_find self.old) (may_find self.new) }
        ensures trust { KeepsTrust is_honest is_clean self.old self.new }
        ensures account { Accounts count_of is_broken self.old result self.new };

    /// Writes the ballot that the node tries to lead with.
    fn put_tried(&mut self, ballot: Ballot) -> Result<(), RecordsFault>
        ensures writes { IsTrue (is_honest self.new) → Writes result (may_find self.old) (may_find self.new) (Tries ballot) }
        ensures trust { KeepsTrust is_honest is_clean self.old self.new }
        ensures account { Accounts count_of is_broken self.old result self.new };

    /// Writes the promised row.
    fn put_promised(&mut self, ballot: Ballot) -> Result<(), RecordsFault>
        ensures writes { IsTrue (is_honest self.new) → Writes result (may_find self.old) (may_find self.new) (Promises ballot) }
        ensures trust { KeepsTrust is_honest is_clean self.old self.new }
        ensures account { Accounts count_of is_broken self.old result self.new };

    /// Writes the vote at the place, over the one that is there.
    fn put_vote(&mut self, place: Place, ballot: Ballot, value: &Value) -> Result<(), RecordsFault>
        ensures writes { IsTrue (is_honest self.new)
            → Writes result (may_find self.old) (may_find self.new) (Casts place record { ballot = ballot; value = value.now }) }
        ensures trust { KeepsTrust is_honest is_clean self.old self.new }
        ensures account { Accounts count_of is_broken self.old result self.new };

    /// Writes the value that the node has learned of the place, over the one that is there.
    fn put_learned(&mut self, place: Place, value: &Value) -> Result<(), RecordsFault>
        ensures writes { IsTrue (is_honest self.new) → Writes result (may_find self.old) (may_find self.new) (Learns place value.now) }
        ensures trust { KeepsTrust is_honest is_clean self.old self.new }
        ensures account { Accounts count_of is_broken self.old result self.new };

    /// Opens the records again as a new run would. Of a write in doubt it keeps what it finds.
    fn reopen(&mut self) -> Result<(), RecordsFault>
        ensures ok { IsTrue (is_honest self.new)
            → OnOk result ((a b : Content) → HoldsEither (may_find self.old) a b → Holds (may_find self.new) a ⊎ Holds (may_find self.new) b) }
        ensures reopened { OnOk result (reopens self.old self.new) }
        ensures harmless { IsTrue (is_honest self.new) → IfErr result (λ e. IsHarmless e → FindsSame (may_find self.old) (may_find self.new)) }
        ensures kept { IsTrue (is_honest self.new) → AddsNothing (may_find self.old) (may_find self.new) }
        ensures honest { IsTrue (is_honest self.new) → IsTrue (is_honest self.old) }
        ensures trust { KeepsTrust is_honest is_clean self.old self.new }
        ensures count { CountsFaults result (count_of self.old) (count_of self.new) }
        ensures broken { BreaksByReopen result (is_broken self.old) (is_broken self.new) };
}
