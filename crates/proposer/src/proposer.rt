//! What a proposer does in each turn.

ghost use Rattle.std.specs.Prelude.{◌≡◌, ◌⊎◌, ◌↔◌, ℕ, ◌+◌, ◌-◌, ◌<◌, ◌≤◌, max, false, IsTrue, IsOk, Some, None, Ok};
ghost use Rattle.std.specs.Prelude.{Err, IfOk, IfErr, OnOk, OnErr, is_ok, MatchOption};
ghost use Rattle.ballots.specs.Ballots.{NoneAbove};
ghost use Rattle.ballots.specs.Limits.{most_places};
ghost use Rattle.ballots.specs.Members.{member_count};
ghost use Rattle.acceptor.specs.Calls.{KeepsTrust};
ghost use Rattle.acceptor.specs.Content.{Content};
ghost use Rattle.acceptor.specs.Content.Write.{Tries};
ghost use Rattle.acceptor.specs.Found.{FindsSame, HasMade, Holds};
ghost use Rattle.proposer.specs.Bounds.{in_log};
ghost use Rattle.proposer.specs.Faults.{BreaksByStop, CountsStops, IsHarmlessStop, IsOfLead, TellsSpent};
ghost use Rattle.proposer.specs.Letters.{proposals};
ghost use Rattle.proposer.specs.Roles.{role_after};
ghost use Rattle.proposer.specs.Turns.{promise, after_promise, is_counted, stays, offer, tries, IsNextBallot};
ghost use Rattle.proposer.specs.Turns.{DeclinesToLead, MayHaveTried, limit};
ghost use Rattle.proposer.specs.declared.role.Role.TheVariants.{Idle};

use crate::fault::NodeFault;
use crate::letters::to_all;
use crate::promises::{Joined, Nodes};
use crate::role::{Role, higher};
use acceptor::{Records, greatest_used};
use ballots::{
    Ballot, Bytes, Cast, LONGEST_VALUE, Letter, MOST_PLACES, Members, NodeId, Note, least_above,
};
use std::alloc::{AllocError, Global};
use std::marker::Model;
use std::mem;

/// A member as a proposer: its role, and the greatest ballot that it heard of, or 0.
#[derive(Drop)]
pub struct Proposer {
    alloc: Global,
    id: NodeId,
    members: Members,
    role: Role,
    hint: u64,
}

impl Model for Proposer {
    ghost use Rattle.proposer.specs.Proposing.{Proposing};

    ghost Value = { Proposing };

    ghost view = { λ p. record { id = p.id; members = p.members; role = p.role; hint = p.hint } };
}

impl Proposer {
    /// A member that does nothing yet.
    pub fn new(alloc: Global, id: NodeId, members: Members) -> Proposer
        ensures id { result.id ≡ id }
        ensures members { result.members ≡ members }
        ensures role { result.role ≡ Idle }
        ensures hint { result.hint ≡ 0 }
    {
        Proposer {
            alloc,
            id,
            members,
            role: Role::Idle,
            hint: 0,
        }
    }

    /// Its number among the members.
    pub fn id(&self) -> NodeId
        ensures { result ≡ self.now.id }
    {
        self.id
    }

    pub fn members(&self) -> Members
        ensures { result ≡ self.now.members }
    {
        self.members
    }

    /// What it does: whether it prepares or leads a ballot, and which.
    pub fn role(&self) -> &Role
        ensures { result.now ≡ self.now.role }
    {
        &self.role
    }

    /// Whether it prepares and leads nothing, and has heard of nothing.
    pub fn is_untouched(&self) -> bool
        ensures { IsTrue result ↔ ((self.now.role ≡ Idle) × (self.now.hint ≡ 0)) }
    {
        let Role::Idle = &self.role else {
            return false;
        };
        self.hint == 0
    }

    /// It starts over, and does nothing yet.
    pub fn restart(&mut self)
        ensures { self.new ≡ record self.old { role = Idle; hint = 0 } }
    {
        self.role = Role::Idle;
        self.hint = 0;
    }

    /// A ballot was heard of, in an answer that refuses a lower one.
    pub fn higher(&mut self, ballot: Ballot)
        ensures { self.new ≡ record self.old { role = role_after self.old.role ballot; hint = max self.old.hint ballot } }
    {
        self.hint = self.hint.max(ballot.number());
        let role = mem::replace(&mut self.role, Role::Idle);
        self.role = higher(role, ballot);
    }

    /// A value is offered. A leader proposes it at its next place.
    pub fn offer(&mut self, value: &[u8]) -> Result<Vec<Letter>, NodeFault>
        ensures ok { IfOk result (λ letters. offer (member_count self.old.members) self.old.id self.old.role value.now
            ≡ Ok record { role = self.new.role; letters = letters.items }) }
        ensures declined { IfErr result (λ fault. (offer (member_count self.old.members) self.old.id self.old.role value.now ≡ Err fault)
            ⊎ ((fault ≡ NodeFault.OutOfMemory) × IsTrue (is_ok (offer (member_count self.old.members) self.old.id self.old.role value.now)))) }
        ensures unchanged { OnErr result (self.new ≡ self.old) }
        ensures rest { self.new ≡ record self.old { role = self.new.role } }
    {
        let (ballot, next) = match &self.role {
            Role::Idle => return Err(NodeFault::NotLeading),
            Role::Preparing { .. } => return Err(NodeFault::NotLeading),
            Role::Leading { ballot, next } => (*ballot, *next),
        };
        if value.len() > LONGEST_VALUE {
            return Err(NodeFault::ValueTooLong);
        }
        if next > MOST_PLACES {
            return Err(NodeFault::LogFull);
        }
        let note = Note::Accept {
            ballot,
            place: next,
            value: Bytes::new(Vec::from_slice(self.alloc, value)?),
        };
        let letters = to_all(self.alloc, self.members, self.id, &note)?;
        self.role = Role::Leading {
            ballot,
            next: next + 1,
        };
        Ok(letters)
    }

    /// The promises counted and the votes joined with those of one more promise, where it is one of the ballot that is
    /// prepared, and its node is new.
    fn counts(
        &self,
        from: NodeId,
        ballot: Ballot,
        place: u64,
        votes: &[(u64, Cast)],
    ) -> Result<Option<(Nodes, Joined)>, AllocError>
        ensures counted { IfOk result (λ counted. MatchOption counted
            (promise (member_count self.now.members) self.now.id self.now.role ballot place (in_log votes.now) from ≡ stays self.now.role)
            (λ both. promise (member_count self.now.members) self.now.id self.now.role ballot place (in_log votes.now) from
            ≡ after_promise (member_count self.now.members) self.now.id ballot place both.0 both.1)) }
        ensures uncounted { is_counted self.now.role ballot place from ≡ false → result ≡ Ok None }
    {
        let Role::Preparing {
            ballot: own,
            place: first,
            counted,
            joined,
        } = &self.role
        else {
            return Ok(None);
        };
        if own.number() != ballot.number() || *first != place || counted.contains(from) {
            return Ok(None);
        }
        let counted = counted.with(self.alloc, from)?;
        let joined = joined.with(self.alloc, votes)?;
        Ok(Some((counted, joined)))
    }

    /// Accept letters for the places from one on, before another.
    fn proposals(
        &self,
        ballot: Ballot,
        first: u64,
        next: u64,
        joined: &Joined,
    ) -> Result<Vec<Letter>, AllocError>
        ensures { IfOk result (λ letters. letters.items ≡ proposals (member_count self.now.members) self.now.id ballot joined.now first (next - first)) }
    {
        let mut letters = Vec::new(self.alloc);
        for place in first..next {
            let note = Note::Accept {
                ballot,
                place,
                value: joined.proposal(self.alloc, place)?,
            };
            letters.append(&mut to_all(self.alloc, self.members, self.id, &note)?)?;
        }
        Ok(letters)
    }

    /// A node promised the ballot, and reports its votes from the place on. With a majority the proposer leads: it
    /// proposes what was reported again, and the Noop command in gaps. A vote at a place beyond the log is passed over.
    /// A promise that isn't counted takes no memory.
    pub fn promise(
        &mut self,
        from: NodeId,
        ballot: Ballot,
        place: u64,
        votes: &[(u64, Cast)],
    ) -> Result<Vec<Letter>, AllocError>
        ensures ok { IfOk result (λ letters. promise (member_count self.old.members) self.old.id self.old.role ballot place (in_log votes.now) from
            ≡ record { role = self.new.role; letters = letters.items }) }
        ensures uncounted { is_counted self.old.role ballot place from ≡ false → IsOk result }
        ensures unchanged { OnErr result (self.new ≡ self.old) }
        ensures rest { self.new ≡ record self.old { role = self.new.role } }
    {
        let Some((counted, joined)) = self.counts(from, ballot, place, votes)? else {
            return Ok(Vec::new(self.alloc));
        };
        if 2 * counted.count(self.members) <= self.members.count() {
            self.role = Role::Preparing {
                ballot,
                place,
                counted,
                joined,
            };
            return Ok(Vec::new(self.alloc));
        }
        let next = joined.place_after(place);
        let letters = self.proposals(ballot, place, next, &joined)?;
        self.role = Role::Leading { ballot, next };
        Ok(letters)
    }

    /// Whether it has a ballot above those that it heard of.
    fn has_ballot(&self) -> bool
        ensures { IsTrue result ↔ (NoneAbove self.now.hint self.now.id → ⊥) }
    {
        least_above(self.hint, self.id).is_ok()
    }

    /// Tries its least ballot above those that it tried, promised or heard of, for the places after a prefix of the
    /// log: makes its letters, writes the ballot as tried, and then prepares it. `prefix` counts places. Where it heard
    /// of its last ballot it reads no records.
    pub fn lead<R: Records>(
        &mut self,
        records: &mut R,
        prefix: u64,
    ) -> Result<Vec<Letter>, NodeFault>
        ensures ok { IsTrue (R.is_honest records.new) → IfOk result (λ letters. (b : ℕ) × IsNextBallot (R.may_find records.old) self.old.hint self.old.id b
            × (tries (member_count self.old.members) self.old.id b (prefix + 1) ≡ record { role = self.new.role; letters = letters.items })
            × HasMade (R.may_find records.old) (R.may_find records.new) (Tries b)) }
        ensures room { OnOk result (prefix < most_places) }
        ensures full { result ≡ Err NodeFault.LogFull ↔ most_places ≤ prefix }
        ensures tells { IfErr result IsOfLead }
        ensures declined { IsTrue (R.is_honest records.new) → IfErr result (DeclinesToLead (R.may_find records.old) self.old.hint self.old.id prefix) }
        ensures harmless { IsTrue (R.is_honest records.new)
            → IfErr result (λ fault. IsHarmlessStop fault → FindsSame (R.may_find records.old) (R.may_find records.new)) }
        ensures doubt { IsTrue (R.is_honest records.new)
            → OnErr result (MayHaveTried (R.may_find records.old) (R.may_find records.new) self.old.hint self.old.id) }
        ensures trust { KeepsTrust R.is_honest R.is_clean records.old records.new }
        ensures memory { IsTrue (R.is_honest records.new) → IfErr result (λ fault. fault ≡ NodeFault.OutOfMemory
            → ((mid : R) × R.finds_no_memory mid records.new × R.finds_no_ballot mid records.new)
            ⊎ ((b : ℕ) × IsNextBallot (R.may_find records.old) self.old.hint self.old.id b)) }
        ensures heard { prefix < most_places → NoneAbove self.old.hint self.old.id → result ≡ Err NodeFault.RoundsSpent }
        ensures spent { IsTrue (R.is_honest records.new) → (c : Content) → Holds (R.may_find records.old) c → prefix < most_places
            → NoneAbove (limit c self.old.hint) self.old.id
            → TellsSpent ((mid : R) × R.finds_no_memory mid records.new × R.finds_no_ballot mid records.new) result }
        ensures count { CountsStops result (R.count_of records.old) (R.count_of records.new) }
        ensures broken { BreaksByStop result (R.is_broken records.old) (R.is_broken records.new) }
        ensures unchanged { OnErr result (self.new ≡ self.old) }
        ensures rest { self.new ≡ record self.old { role = self.new.role } }
    {
        if prefix >= MOST_PLACES {
            return Err(NodeFault::LogFull);
        }
        if !self.has_ballot() {
            return Err(NodeFault::RoundsSpent);
        }
        let used = greatest_used(records)?;
        let Ok(ballot) = least_above(used.max(self.hint), self.id) else {
            return Err(NodeFault::RoundsSpent);
        };
        let place = prefix + 1;
        let note = Note::Prepare { ballot, place };
        let letters = to_all(self.alloc, self.members, self.id, &note)?;
        records.put_tried(ballot)?;
        self.role = Role::Preparing {
            ballot,
            place,
            counted: Nodes::new(self.alloc),
            joined: Joined::new(self.alloc),
        };
        Ok(letters)
    }
}
