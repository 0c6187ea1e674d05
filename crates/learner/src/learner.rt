//! A member as a learner.

ghost use Rattle.std.specs.Prelude.{◌≡◌, ◌≢◌, ◌↔◌, IsTrue, IsOk, IfOk, None, Some, Ok, OnOk, OnErr, OnSome, is_some};
ghost use Rattle.std.specs.Prelude.{option_copied};
ghost use Rattle.std.specs.Fn.{FnOnceReturnsAtMut};
ghost use Rattle.ballots.specs.Members.{member_count};
ghost use Rattle.ballots.specs.Rows.{at};
ghost use Rattle.learner.specs.Tally.{counts, groups_at, known, no_tally, put_voters, teaches, voters_in};

use crate::groups::Proposal;
use crate::open_places::OpenPlaces;
use ballots::{Ballot, Bytes, Members, NodeId};
use place_table::Table;
use std::alloc::{AllocError, Global};
use std::marker::Model;

/// Votes heard at places that aren't learned, and values learned.
#[derive(Drop)]
pub struct Learner {
    alloc: Global,
    counted: OpenPlaces,
    learned: Table<Bytes>,
}

impl Model for Learner {
    ghost use Rattle.learner.specs.Tally.{Tally};

    ghost Value = { Tally };

    ghost view = { λ l. record { counted = l.counted; learned = l.learned.entries } };
}

impl Learner {
    /// Nothing was heard.
    pub fn new(alloc: Global) -> Learner
        ensures { result ≡ no_tally }
    {
        Learner {
            alloc,
            counted: OpenPlaces::new(),
            learned: Table::new(alloc),
        }
    }

    /// Whether nothing is counted and nothing learned.
    pub fn is_empty(&self) -> bool
        ensures { IsTrue result ↔ (self.now ≡ no_tally) }
    {
        self.counted.is_empty() && self.learned.is_empty()
    }

    /// The value that is learned at a place.
    pub fn learned(&self, place: u64) -> Option<&Bytes>
        ensures { option_copied result ≡ at self.now.learned place }
    {
        self.learned.get(place)
    }

    /// The learned values by place.
    pub fn values(&self) -> &Table<Bytes>
        ensures { result.now.entries ≡ self.now.learned }
    {
        &self.learned
    }

    /// A value is known to be chosen at a place: where that isn't learned, learns it once `write` has written it down
    /// in `rows`, and answers what `write` gave. The room comes first: where memory is refused nothing is written.
    /// Where the write fails nothing is learned. Where the place is learned its value stays, `write` isn't called, and
    /// that takes no memory.
    pub fn learn_after<W, E, F: FnOnce(&mut W) -> Result<(), E>>(
        &mut self,
        place: u64,
        value: Bytes,
        rows: &mut W,
        write: F,
    ) -> Result<Result<(), E>, AllocError>
        requires callable { F.IsAlwaysCallable write }
        ensures written { at self.old.learned place ≡ None → IfOk result (λ written. FnOnceReturnsAtMut F.FnOnce write rows.old written rows.new) }
        ensures learned { IfOk result (λ written. OnOk written (self.new ≡ known self.old (at self.old.learned place) place value)) }
        ensures refused { IfOk result (λ written. OnErr written (self.new ≡ self.old)) }
        ensures again { at self.old.learned place ≢ None → result ≡ Ok (Ok tt) }
        ensures again_unwritten { at self.old.learned place ≢ None → rows.new ≡ rows.old }
        ensures err { OnErr result (self.new ≡ self.old) }
        ensures unwritten { OnErr result (rows.new ≡ rows.old) }
    {
        if self.learned.contains(place) {
            return Ok(Ok(()));
        }
        let written = self.learned.insert_after(place, value, rows, write)?;
        if written.is_ok() {
            self.counted.remove(place);
        }
        Ok(written)
    }

    /// A value is known to be chosen at a place. The first one stays, and a further one takes no memory.
    pub fn known(&mut self, place: u64, value: Bytes) -> Result<(), AllocError>
        ensures ok { OnOk result (self.new ≡ known self.old (at self.old.learned place) place value) }
        ensures again { at self.old.learned place ≢ None → IsOk result }
        ensures err { OnErr result (self.new ≡ self.old) }
    {
        self.learn_after(place, value, &mut (), |_nothing| Ok(()))?
    }

    /// A vote of a node was heard, and counts once for its ballot and value. Where with it a majority of the members
    /// has voted so, the value is given back: it is chosen (Lamport, Paxos Made Simple, section 2.3), nothing changed,
    /// and the caller learns it.
    pub fn voted(
        &mut self,
        members: Members,
        ballot: Ballot,
        place: u64,
        value: Bytes,
        from: NodeId,
    ) -> Result<Option<Bytes>, AllocError>
        ensures taught { IfOk result (λ taught. is_some taught ≡ teaches (member_count members) self.old (at self.old.learned place) ballot place value from) }
        ensures value { IfOk result (λ taught. OnSome taught (taught ≡ Some value)) }
        ensures unchanged { IfOk result (λ taught. OnSome taught (self.new ≡ self.old)) }
        ensures counted { IfOk result (λ taught. taught ≡ None → self.new ≡ counts self.old (at self.old.learned place) ballot place value from) }
        ensures learned { self.new.learned ≡ self.old.learned }
        ensures again { at self.old.learned place ≢ None → IsOk result }
        ensures err { OnErr result (self.new ≡ self.old) }
    {
        if self.learned.contains(place) {
            return Ok(None);
        }
        let proposal = Proposal { ballot, value };
        let voters = self.counted.voters(place, &proposal).with(from);
        if 2 * voters.count(members) > members.count() {
            return Ok(Some(proposal.value));
        }
        self.counted.put(self.alloc, place, proposal, voters)?;
        Ok(None)
    }
}
