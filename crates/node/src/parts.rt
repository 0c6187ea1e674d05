//! What a node is made of, and what its parts do with letters.

ghost use Rattle.std.specs.Prelude.{◌≡◌, ◌≢◌, ◌==◌, ◌&&◌, ◌++◌, ◌∷◌, [], ◌<◌, ◌≤◌, ◌↔◌, Ok, Err, length, true, false};
ghost use Rattle.std.specs.Prelude.{IsTrue, IfErr, IfOk, IsOk, None, OnErr, OnOk, ℕ, ◌⊎◌, take, vec_capacity, vec_len};
ghost use Rattle.ballots.specs.Ballots.{NoneAbove};
ghost use Rattle.ballots.specs.Limits.{IsPlace, IsValue, most_places};
ghost use Rattle.ballots.specs.Members.{member_count};
ghost use Rattle.ballots.specs.Rows.{at};
ghost use Rattle.ballots.specs.declared.letters.Note.TheVariants.{Voted as VotedNote};
ghost use Rattle.node.specs.Answers.{accepted_letters, WroteNothing};
ghost use Rattle.acceptor.specs.Calls.{Accounts, KeepsTrust};
ghost use Rattle.acceptor.specs.Content.{Content, no_content};
ghost use Rattle.acceptor.specs.Found.{Holds, Keeps};
ghost use Rattle.node.specs.Calls.{IsNothingNew, Kept, KeptByRestart, Restarts, StopsLast, TakesTurn, TellsFresh};
ghost use Rattle.node.specs.Calls.{answer, IsStop};
ghost use Rattle.node.specs.Calls.Cause.{Lead, Offer};
ghost use Rattle.node.specs.Releases.{Releases, outputs};
ghost use Rattle.node.specs.View.{Standing, values_from};
ghost use Rattle.proposer.specs.Faults.{IsOfLead, TellsSpent};
ghost use Rattle.proposer.specs.Turns as turn;
ghost use Rattle.proposer.specs.Turns.{IsNextBallot, is_counted};
ghost use Rattle.node.specs.Step.{Leads, accept, after_higher, are_votes, first_known, heed, is_sound, known, learns};
ghost use Rattle.node.specs.Step.{letter, letters_told, nothing, offer, prepare, promise, to_all, voted};

use crate::knowledge::Knowledge;
use crate::letters::{known_letters, one_letter, prepared_note};
use acceptor::{Accepted, Records, RecordsFault, accept, greatest_used, prepare};
use ballots::{Ballot, Bytes, Cast, Letter, NodeId, Note, Place, Value, Votes};
use map_release::Numbered;
use proposer::{NodeFault, Proposer, to_all};
use std::alloc::{AllocError, Global};

/// What a node is made of.
#[derive(Drop)]
pub(crate) struct Parts<R> {
    pub(crate) alloc: Global,
    pub(crate) records: R,
    pub(crate) proposer: Proposer,
    pub(crate) knowledge: Knowledge,
    pub(crate) is_down: bool,
}

/// The value of these bytes.
fn value_of(bytes: Bytes) -> Value
    requires { IsValue bytes }
    ensures { result ≡ bytes }
{
    Value::new(bytes).unwrap()
}

/// The place of this number.
fn place_of(number: u64) -> Place
    requires { IsPlace number }
    ensures { result ≡ number }
{
    Place::new(number).unwrap()
}

/// Whether no ballot was used, and no vote cast and no value learned.
fn is_nothing(used: u64, votes: &[(u64, Cast)], learned: &[(Place, Value)]) -> bool
    ensures { result ≡ (used == 0 && length votes.now == 0 && length learned.now == 0) }
{
    used == 0 && votes.is_empty() && learned.is_empty()
}

/// Whether records hold nothing.
fn hold_nothing<R: Records>(records: &mut R) -> Result<bool, RecordsFault>
    ensures value { IsTrue (R.is_honest records.new)
        → IfOk result (λ empty. (c : Content) → Holds (R.may_find records.old) c → IsTrue empty ↔ (c ≡ no_content)) }
    ensures kept { IsTrue (R.is_honest records.new) → Keeps result (R.may_find records.old) (R.may_find records.new) }
    ensures trust { KeepsTrust R.is_honest R.is_clean records.old records.new }
    ensures account { Accounts R.count_of R.is_broken records.old result records.new }
{
    let used = greatest_used(records)?;
    let votes = records.votes_from(place_of(1))?;
    let learned = records.learned_from(place_of(1))?;
    Ok(is_nothing(used, votes.rows(), learned.as_slice()))
}

impl<R: Records> Parts<R> {
    ghost use Rattle.node.specs.Sched.{Does, AfterStoreFault, IsUntouched, Stands, Stops, rest_of, view_over, who_of};

    /// The store failed.
    pub(crate) fn fail(&mut self, fault: RecordsFault) -> NodeFault
        ensures fails { AfterStoreFault self.old fault result self.new }
        ensures tells { IsStop result }
        ensures records { self.new.records ≡ self.old.records }
        ensures rest { rest_of self.new ≡ rest_of self.old }
    {
        self.stop(NodeFault::from(fault))
    }

    /// A fault came, which may be that the store is broken.
    fn stop(&mut self, fault: NodeFault) -> NodeFault
        ensures same { result ≡ fault }
        ensures stops { Stops self.old fault self.new }
        ensures rest { rest_of self.new ≡ rest_of self.old }
    {
        if let NodeFault::Down = fault {
            self.is_down = true;
        }
        fault
    }

    /// The letters before a Prepare's answer, with room for it.
    fn before_promise(&self, from: NodeId, place: Place) -> Result<Vec<Letter>, AllocError>
        ensures letters { IfOk result (λ letters. letters.items ≡ first_known self.now.proposer.id self.now.knowledge.tally.learned from place) }
        ensures room { IfOk result (λ letters. vec_len letters < vec_capacity letters) }
    {
        let me = self.proposer.id();
        let learned = self.knowledge.values();
        let mut letters = known_letters(self.alloc, me, from, place.number(), learned)?;
        letters.reserve(1)?;
        Ok(letters)
    }

    /// A Prepare comes.
    fn take_prepare(
        &mut self,
        from: NodeId,
        ballot: Ballot,
        place: Place,
    ) -> Result<Vec<Letter>, NodeFault>
        requires { self.old.is_down ≡ false }
        ensures trust { KeepsTrust R.is_honest R.is_clean self.old.records self.new.records }
        ensures err { OnErr result (rest_of self.new ≡ rest_of self.old) }
        ensures kept { Kept (who_of R.count_of R.is_broken self.old) result (who_of R.count_of R.is_broken self.new) }
        ensures tells { IfErr result IsStop }
        ensures done { IsTrue (R.is_honest self.new.records)
            → Does R.may_find self.old (λ view course. course ≡ Ok (prepare self.old.proposer.id view ballot place from)) result self.new }
    {
        let mut letters = self.before_promise(from, place)?;
        let answer = match prepare(&mut self.records, ballot, place) {
            Ok(answer) => answer,
            Err(fault) => return Err(self.fail(fault)),
        };
        let answer = Letter {
            from: self.proposer.id(),
            to: from,
            note: prepared_note(answer, ballot, place),
        };
        letters.push_reserved(answer);
        Ok(letters)
    }

    /// A Promise comes.
    fn take_promise(
        &mut self,
        from: NodeId,
        ballot: Ballot,
        place: u64,
        votes: &Votes,
    ) -> Result<Vec<Letter>, NodeFault>
        requires up { self.old.is_down ≡ false }
        requires sound { are_votes ballot place votes.now ≡ true }
        ensures trust { KeepsTrust R.is_honest R.is_clean self.old.records self.new.records }
        ensures err { OnErr result (rest_of self.new ≡ rest_of self.old) }
        ensures kept { Kept (who_of R.count_of R.is_broken self.old) result (who_of R.count_of R.is_broken self.new) }
        ensures tells { IfErr result IsStop }
        ensures done { IsTrue (R.is_honest self.new.records)
            → Does R.may_find self.old (λ view course. course
            ≡ Ok (promise (member_count self.old.proposer.members) self.old.proposer.id view view.role ballot place votes.now from)) result self.new }
        ensures no_memory { is_counted self.old.proposer.role ballot place from ≡ false → IsOk result }
    {
        Ok(self.proposer.promise(from, ballot, place, votes.rows())?)
    }

    /// The letters that tell all members of its vote for a value.
    fn voted_letters(
        &self,
        ballot: Ballot,
        place: Place,
        value: Bytes,
    ) -> Result<Vec<Letter>, AllocError>
        ensures { IfOk result (λ letters. letters.items ≡ to_all (member_count self.now.proposer.members) self.now.proposer.id (VotedNote ballot place value)) }
    {
        let me = self.proposer.id();
        let place = place.number();
        let note = Note::Voted {
            ballot,
            place,
            value,
        };
        to_all(self.alloc, self.proposer.members(), me, &note)
    }

    /// What a vote needs: its letters, and a copy of the value to keep.
    fn before_vote(
        &self,
        ballot: Ballot,
        place: Place,
        value: &Bytes,
    ) -> Result<(Vec<Letter>, Value), AllocError>
        requires { IsValue value.now }
        ensures { IfOk result (λ parts. (parts.0.items
            ≡ to_all (member_count self.now.proposer.members) self.now.proposer.id (VotedNote ballot place value.now)) × (parts.1 ≡ value.now)) }
    {
        let kept = value_of(value.copy(self.alloc)?);
        let letters = self.voted_letters(ballot, place, value.copy(self.alloc)?)?;
        Ok((letters, kept))
    }

    /// The letters of an acceptor's answer, where those of a vote for the value are ready.
    fn after_vote(
        &self,
        answer: Accepted,
        ready: Vec<Letter>,
        from: NodeId,
        ballot: Ballot,
        place: Place,
        value: &Bytes,
    ) -> Result<Vec<Letter>, AllocError>
        requires { ready.items ≡ to_all (member_count self.now.proposer.members) self.now.proposer.id (VotedNote ballot place value.now) }
        ensures ok { IfOk result (λ letters. letters.items
            ≡ accepted_letters (member_count self.now.proposer.members) self.now.proposer.id from ballot place answer) }
        ensures err { OnErr result (WroteNothing answer value.now) }
    {
        match answer {
            Accepted::Voted(told) => {
                if told.as_slice() == value.as_slice() {
                    return Ok(ready);
                }
                self.voted_letters(ballot, place, told)
            }
            Accepted::Higher(other) => one_letter(self.alloc, self.proposer.id(), from, other),
        }
    }

    /// An Accept comes.
    fn take_accept(
        &mut self,
        from: NodeId,
        ballot: Ballot,
        place: Place,
        value: &Bytes,
    ) -> Result<Vec<Letter>, NodeFault>
        requires up { self.old.is_down ≡ false }
        requires short { IsValue value.now }
        ensures trust { KeepsTrust R.is_honest R.is_clean self.old.records self.new.records }
        ensures err { OnErr result (rest_of self.new ≡ rest_of self.old) }
        ensures kept { Kept (who_of R.count_of R.is_broken self.old) result (who_of R.count_of R.is_broken self.new) }
        ensures tells { IfErr result IsStop }
        ensures done { IsTrue (R.is_honest self.new.records)
            → Does R.may_find self.old (λ view course. course
            ≡ Ok (accept (member_count self.old.proposer.members) self.old.proposer.id view ballot place value.now from)) result self.new }
    {
        let (letters, kept) = self.before_vote(ballot, place, value)?;
        let answer = match accept(&mut self.records, ballot, place, kept) {
            Ok(answer) => answer,
            Err(fault) => return Err(self.fail(fault)),
        };
        Ok(self.after_vote(answer, letters, from, ballot, place, value)?)
    }

    /// A value is learned at a place that isn't learned, once its row is written.
    fn learn(&mut self, place: Place, value: Value) -> Result<Vec<Letter>, NodeFault>
        requires up { self.old.is_down ≡ false }
        requires unlearned { at self.old.knowledge.tally.learned place ≡ None }
        ensures trust { KeepsTrust R.is_honest R.is_clean self.old.records self.new.records }
        ensures err { OnErr result (rest_of self.new ≡ rest_of self.old) }
        ensures kept { Kept (who_of R.count_of R.is_broken self.old) result (who_of R.count_of R.is_broken self.new) }
        ensures tells { IfErr result IsStop }
        ensures done { IsTrue (R.is_honest self.new.records)
            → Does R.may_find self.old (λ view course. course ≡ Ok (learns view place value)) result self.new }
    {
        let letters = Vec::new(self.alloc);
        match self
            .knowledge
            .learn(self.alloc, &mut self.records, place, &value)
        {
            Ok(()) => Ok(letters),
            Err(fault) => Err(self.stop(fault)),
        }
    }

    /// A vote was heard of.
    fn take_voted(
        &mut self,
        from: NodeId,
        ballot: Ballot,
        place: Place,
        value: &Bytes,
    ) -> Result<Vec<Letter>, NodeFault>
        requires up { self.old.is_down ≡ false }
        requires short { IsValue value.now }
        ensures trust { KeepsTrust R.is_honest R.is_clean self.old.records self.new.records }
        ensures err { OnErr result (rest_of self.new ≡ rest_of self.old) }
        ensures kept { Kept (who_of R.count_of R.is_broken self.old) result (who_of R.count_of R.is_broken self.new) }
        ensures tells { IfErr result IsStop }
        ensures done { IsTrue (R.is_honest self.new.records)
            → Does R.may_find self.old (λ view course. course
            ≡ Ok (voted (member_count self.old.proposer.members) view (at view.tally.learned place) ballot place value.now from)) result self.new }
        ensures no_memory { at self.old.knowledge.tally.learned place ≢ None → IsOk result }
    {
        if self.knowledge.learned(place.number()).is_some() {
            return Ok(Vec::new(self.alloc));
        }
        let members = self.proposer.members();
        let value = value.copy(self.alloc)?;
        let taught = self.knowledge.voted(members, ballot, place, value, from)?;
        match taught {
            Some(value) => self.learn(place, value_of(value)),
            None => Ok(Vec::new(self.alloc)),
        }
    }

    /// A value is known to be chosen.
    fn take_known(&mut self, place: Place, value: &Bytes) -> Result<Vec<Letter>, NodeFault>
        requires up { self.old.is_down ≡ false }
        requires short { IsValue value.now }
        ensures trust { KeepsTrust R.is_honest R.is_clean self.old.records self.new.records }
        ensures err { OnErr result (rest_of self.new ≡ rest_of self.old) }
        ensures kept { Kept (who_of R.count_of R.is_broken self.old) result (who_of R.count_of R.is_broken self.new) }
        ensures tells { IfErr result IsStop }
        ensures done { IsTrue (R.is_honest self.new.records)
            → Does R.may_find self.old (λ view course. course ≡ Ok (known view (at view.tally.learned place) place value.now)) result self.new }
        ensures no_memory { at self.old.knowledge.tally.learned place ≢ None → IsOk result }
    {
        if self.knowledge.learned(place.number()).is_some() {
            return Ok(Vec::new(self.alloc));
        }
        let value = value_of(value.copy(self.alloc)?);
        self.learn(place, value)
    }

    /// A higher ballot was heard of.
    fn take_higher(&mut self, ballot: Ballot) -> Result<Vec<Letter>, NodeFault>
        requires { self.old.is_down ≡ false }
        ensures trust { KeepsTrust R.is_honest R.is_clean self.old.records self.new.records }
        ensures kept { Kept (who_of R.count_of R.is_broken self.old) result (who_of R.count_of R.is_broken self.new) }
        ensures tells { IfErr result IsStop }
        ensures done { IsTrue (R.is_honest self.new.records)
            → Does R.may_find self.old (λ view course. course ≡ Ok (nothing (after_higher view ballot))) result self.new }
        ensures no_memory { IsOk result }
    {
        self.proposer.higher(ballot);
        Ok(Vec::new(self.alloc))
    }

    /// A value is offered to a node that is up.
    pub(crate) fn propose(&mut self, value: &[u8]) -> Result<Vec<Letter>, NodeFault>
        requires { self.old.is_down ≡ false }
        ensures trust { KeepsTrust R.is_honest R.is_clean self.old.records self.new.records }
        ensures err { OnErr result (rest_of self.new ≡ rest_of self.old) }
        ensures kept { Kept (who_of R.count_of R.is_broken self.old) result (who_of R.count_of R.is_broken self.new) }
        ensures done { IsTrue (R.is_honest self.new.records)
            → Does R.may_find self.old (λ view course. course
            ≡ offer (member_count self.old.proposer.members) self.old.proposer.id view view.role value.now) result self.new }
        ensures order { (c : Content) → StopsLast (member_count self.old.proposer.members) self.old.proposer.id (view_over self.old c)
            (Offer value.now) (answer result) }
        ensures turn { TakesTurn (turn.offer (member_count self.old.proposer.members) self.old.proposer.id self.old.proposer.role value.now) (answer result) }
    {
        self.proposer.offer(value)
    }

    /// A node that is up is asked to lead.
    pub(crate) fn lead_up(&mut self) -> Result<Vec<Letter>, NodeFault>
        requires { self.old.is_down ≡ false }
        ensures trust { KeepsTrust R.is_honest R.is_clean self.old.records self.new.records }
        ensures err { OnErr result (rest_of self.new ≡ rest_of self.old) }
        ensures kept { Kept (who_of R.count_of R.is_broken self.old) result (who_of R.count_of R.is_broken self.new) }
        ensures tells { IfErr result IsOfLead }
        ensures full { result ≡ Err NodeFault.LogFull ↔ most_places ≤ length (values_from 1 self.old.knowledge.tally.learned) }
        ensures done { IsTrue (R.is_honest self.new.records)
            → Does R.may_find self.old (λ view course. Leads (member_count self.old.proposer.members) self.old.proposer.id view course) result self.new }
        ensures order { IsTrue (R.is_honest self.new.records)
            → (c : Content) → StopsLast (member_count self.old.proposer.members) self.old.proposer.id (view_over self.old c) Lead (answer result) }
        ensures memory { IsTrue (R.is_honest self.new.records) → IfErr result (λ fault. fault ≡ NodeFault.OutOfMemory
            → ((mid : R) × R.finds_no_memory mid self.new.records × R.finds_no_ballot mid self.new.records)
            ⊎ ((b : ℕ) × IsNextBallot (R.may_find self.old.records) self.old.proposer.hint self.old.proposer.id b)) }
        ensures heard { length (values_from 1 self.old.knowledge.tally.learned) < most_places → NoneAbove self.old.proposer.hint self.old.proposer.id
            → result ≡ Err NodeFault.RoundsSpent }
        ensures spent { IsTrue (R.is_honest self.new.records) → (c : Content) → Holds (R.may_find self.old.records) c
            → length (values_from 1 self.old.knowledge.tally.learned) < most_places → NoneAbove (turn.limit c self.old.proposer.hint) self.old.proposer.id
            → TellsSpent ((mid : R) × R.finds_no_memory mid self.new.records × R.finds_no_ballot mid self.new.records) result }
    {
        let prefix = self.knowledge.prefix_len();
        match self.proposer.lead(&mut self.records, prefix) {
            Ok(letters) => Ok(letters),
            Err(fault) => Err(self.stop(fault)),
        }
    }

    /// What a letter that is heeded says.
    pub(crate) fn heed(&mut self, letter: &Letter) -> Result<Vec<Letter>, NodeFault>
        requires up { self.old.is_down ≡ false }
        requires sound { is_sound letter.now letter.now.note ≡ true }
        ensures trust { KeepsTrust R.is_honest R.is_clean self.old.records self.new.records }
        ensures err { OnErr result (rest_of self.new ≡ rest_of self.old) }
        ensures kept { Kept (who_of R.count_of R.is_broken self.old) result (who_of R.count_of R.is_broken self.new) }
        ensures tells { IfErr result IsStop }
        ensures done { IsTrue (R.is_honest self.new.records)
            → Does R.may_find self.old (λ view course. course
            ≡ Ok (heed (member_count self.old.proposer.members) self.old.proposer.id view letter.now.from letter.now.note)) result self.new }
        ensures no_memory { IsNothingNew self.old.proposer.role self.old.knowledge.tally.learned letter.now.from letter.now.note → IsOk result }
    {
        match &letter.note {
            Note::Prepare { ballot, place } => {
                self.take_prepare(letter.from, *ballot, place_of(*place))
            }
            Note::Promise {
                ballot,
                place,
                votes,
            } => self.take_promise(letter.from, *ballot, *place, votes),
            Note::Accept {
                ballot,
                place,
                value,
            } => self.take_accept(letter.from, *ballot, place_of(*place), value),
            Note::Voted {
                ballot,
                place,
                value,
            } => self.take_voted(letter.from, *ballot, place_of(*place), value),
            Note::Higher { ballot } => self.take_higher(*ballot),
            Note::Known { place, value } => self.take_known(place_of(*place), value),
        }
    }

    /// The letters that tell a node what is learned.
    pub(crate) fn told(&self, to: NodeId, place: u64) -> Result<Vec<Letter>, NodeFault>
        ensures tells { IfErr result (λ fault. fault ≡ NodeFault.OutOfMemory) }
        ensures letters { IfOk result (λ letters. letters.items
            ≡ letters_told (member_count self.now.proposer.members) self.now.proposer.id self.now.knowledge.tally.learned to place) }
        ensures no_memory { letters_told (member_count self.now.proposer.members) self.now.proposer.id self.now.knowledge.tally.learned to place ≡ []
            → IsOk result }
    {
        if to.number() >= self.proposer.members().count() {
            return Ok(Vec::new(self.alloc));
        }
        let me = self.proposer.id();
        let learned = self.knowledge.values();
        Ok(known_letters(self.alloc, me, to, place, learned)?)
    }

    /// Outputs are released by a node that is up.
    pub(crate) fn release_up(&mut self, now: u64) -> Result<Vec<Numbered>, NodeFault>
        requires { self.old.is_down ≡ false }
        ensures trust { KeepsTrust R.is_honest R.is_clean self.old.records self.new.records }
        ensures err { OnErr result (rest_of self.new ≡ rest_of self.old) }
        ensures kept { Kept (who_of R.count_of R.is_broken self.old) result (who_of R.count_of R.is_broken self.new) }
        ensures tells { IfErr result IsStop }
        ensures done { IsTrue (R.is_honest self.new.records) → (s : Standing) → Stands R.may_find self.old s
            → (t : Standing) × Releases s now (outputs result) t × Stands R.may_find self.new t }
    {
        Ok(self.knowledge.release(self.alloc, now)?)
    }

    /// Starts over its records, and reads what it had learned.
    pub(crate) fn start_over(&mut self) -> Result<(), NodeFault>
        ensures honesty { IsTrue (R.is_honest self.new.records) → IsTrue (R.is_honest self.old.records) }
        ensures trust { KeepsTrust R.is_honest R.is_clean self.old.records self.new.records }
        ensures err { OnErr result (rest_of self.new ≡ rest_of self.old) }
        ensures kept { KeptByRestart (who_of R.count_of R.is_broken self.old) result (who_of R.count_of R.is_broken self.new) }
        ensures tells { IfErr result IsStop }
        ensures done { IsTrue (R.is_honest self.new.records) → (s : Standing) → Stands R.may_find self.old s
            → (t : Standing) × Restarts s result t × Stands R.may_find self.new t }
        ensures reopened { OnOk result ((mid : R) × R.reopens self.old.records mid) }
    {
        if let Err(fault) = self.records.reopen() {
            return Err(self.fail(fault));
        }
        let knowledge = match Knowledge::read(self.alloc, &mut self.records) {
            Ok(knowledge) => knowledge,
            Err(fault) => return Err(self.fail(fault)),
        };
        self.proposer.restart();
        self.knowledge = knowledge;
        self.is_down = false;
        Ok(())
    }

    /// Whether it prepares and leads nothing, and has heard of nothing.
    fn is_untouched(&self) -> bool
        ensures { IsTrue result ↔ IsUntouched self.now }
    {
        if !self.proposer.is_untouched() {
            return false;
        }
        self.knowledge.is_empty()
    }

    /// Whether its records are empty and it is untouched.
    pub(crate) fn tells_fresh(&mut self) -> Result<bool, NodeFault>
        requires { self.old.is_down ≡ false }
        ensures trust { KeepsTrust R.is_honest R.is_clean self.old.records self.new.records }
        ensures rest { rest_of self.new ≡ rest_of self.old }
        ensures kept { Kept (who_of R.count_of R.is_broken self.old) result (who_of R.count_of R.is_broken self.new) }
        ensures tells { IfErr result IsStop }
        ensures done { IsTrue (R.is_honest self.new.records) → (s : Standing) → Stands R.may_find self.old s
            → (t : Standing) × TellsFresh s result t × Stands R.may_find self.new t }
        ensures untouched { IfOk result (λ fresh. IsTrue fresh → IsUntouched self.new) }
    {
        let is_empty = match hold_nothing(&mut self.records) {
            Ok(is_empty) => is_empty,
            Err(fault) => return Err(self.fail(fault)),
        };
        if !is_empty {
            return Ok(false);
        }
        Ok(self.is_untouched())
    }
}
