//! Votes at one place, by what they are for.

ghost use Rattle.std.specs.Prelude.{◌≡◌, ◌≤◌, ◌∷◌, Some, [], IfOk, OnOk, OnErr, refl, slice_set, true, unwrap_or};
ghost use Rattle.std.specs.BTreeMap.{insert_entry, is_at};
ghost use Rattle.std.specs.Map.{lookup};
ghost use Rattle.std.specs.Cmp.{eq_by_cmp_equiv, partial_equiv_from_equiv};
ghost use Rattle.std.specs.Ordering.{eq_by_cmp};
ghost use Rattle.ballots.specs.Members.{member_count};
ghost use Rattle.ballots.specs.Voting.{count_below};
ghost use Rattle.learner.specs.Proposals.{proposal_cmp, proposal_total, proposal_po};
ghost use Rattle.learner.specs.Tally.{is_voter, nobody};

use ballots::{Ballot, Bytes, Members, NodeId};
use std::alloc::{AllocError, Global};
use std::cmp::Ordering;
use std::collections::BTreeMap;
use std::marker::Model;

/// What is voted for: a value in a ballot.
#[derive(Drop)]
pub struct Proposal {
    pub ballot: Ballot,
    pub value: Bytes,
}

impl PartialEq for Proposal {
    ghost eq = { eq_by_cmp proposal_cmp };

    ghost laws = { partial_equiv_from_equiv (eq_by_cmp_equiv proposal_total) };

    fn eq(&self, other: &Proposal) -> bool {
        self.cmp(other) == Ordering::Equal
    }
}

impl Eq for Proposal {
    ghost laws = { eq_by_cmp_equiv proposal_total };
}

impl PartialOrd for Proposal {
    ghost partial_cmp = { λ one other. Some (proposal_cmp one other) };

    ghost laws = { proposal_po };

    fn partial_cmp(&self, other: &Proposal) -> Option<Ordering> {
        Some(self.cmp(other))
    }
}

impl Ord for Proposal {
    ghost cmp = { proposal_cmp };

    ghost total = { proposal_total };

    ghost matches_partial_cmp = { λ one other. refl };

    ghost matches_eq = { λ one other. refl };

    fn cmp(&self, other: &Proposal) -> Ordering {
        self.ballot
            .number()
            .cmp(&other.ballot.number())
            .then(self.value.as_slice().cmp(other.value.as_slice()))
    }
}

/// A set of nodes.
#[derive(Drop, Clone, Copy)]
pub(crate) struct Voters {
    voted: [bool; 5],
}

impl Model for Voters {
    ghost use Rattle.std.specs.Prelude.{◌≡◌, Bool, List, length};

    ghost Value = { List Bool };

    ghost view = { λ v. v.voted };

    ghost invariant = { λ v. length v.voted ≡ 5 };

    ghost inverse = { λ voted. record { voted = voted } };
}

impl Voters {
    pub(crate) fn none() -> Voters
        ensures { result ≡ nobody }
    {
        Voters { voted: [false; 5] }
    }

    /// These and one more.
    pub(crate) fn with(self, node: NodeId) -> Voters
        ensures { result ≡ slice_set self node true }
    {
        let Voters { mut voted } = self;
        voted[usize::from(node.number())] = true;
        Voters { voted }
    }

    /// How many of the members are among them.
    pub(crate) fn count(self, members: Members) -> u8
        ensures among { result ≡ count_below (is_voter self) (member_count members) }
        ensures fits { result ≤ member_count members }
    {
        let Voters { voted } = self;
        let mut count = 0;
        for node in 0..members.count() {
            if voted[usize::from(node)] {
                count += 1;
            }
        }
        count
    }
}

/// The proposals that were voted for at a place, each with its voters. Mostly it is one.
#[derive(Drop)]
pub(crate) enum Form {
    One { proposal: Proposal, voters: Voters },
    More(BTreeMap<Proposal, Voters>),
}

/// The proposals that were voted for at a place, each with its voters.
#[derive(Drop)]
pub(crate) struct Groups {
    form: Form,
}

impl Model for Groups {
    ghost use Rattle.learner.specs.Tally.{Groups};
    ghost use Rattle.learner.specs.Forms.{groups_of};

    ghost Value = { Groups };

    ghost view = { λ g. groups_of g.form };
}

/// A proposal again.
fn copied(alloc: Global, proposal: &Proposal) -> Result<Proposal, AllocError>
    ensures { IfOk result (λ copy. copy ≡ proposal.now) }
{
    Ok(Proposal {
        ballot: proposal.ballot,
        value: proposal.value.copy(alloc)?,
    })
}

/// A proposal with its voters, and then another with its voters put among them.
fn both(
    alloc: Global,
    first: &Proposal,
    first_voters: Voters,
    second: Proposal,
    second_voters: Voters,
) -> Result<BTreeMap<Proposal, Voters>, AllocError>
    ensures { IfOk result (λ rows. rows.entries ≡ insert_entry proposal_cmp ((first.now, first_voters) ∷ []) second second_voters) }
{
    let mut rows = BTreeMap::new(alloc);
    let copy = copied(alloc, first)?;
    rows.insert(copy, first_voters).map_err(AllocError::from)?;
    rows.insert(second, second_voters)
        .map_err(AllocError::from)?;
    Ok(rows)
}

impl Groups {
    /// One proposal, with its voters.
    pub(crate) fn one(proposal: Proposal, voters: Voters) -> Groups
        ensures { result ≡ insert_entry proposal_cmp [] proposal voters }
    {
        Groups {
            form: Form::One { proposal, voters },
        }
    }

    /// The voters for a proposal.
    pub(crate) fn voters(&self, proposal: &Proposal) -> Voters
        ensures { result ≡ unwrap_or (lookup (is_at (proposal_cmp proposal.now)) self.now) nobody }
    {
        match &self.form {
            Form::One {
                proposal: other,
                voters,
            } => {
                if proposal.cmp(other) != Ordering::Equal {
                    return Voters::none();
                }
                *voters
            }
            Form::More(rows) => match rows.get(proposal) {
                Some(voters) => *voters,
                None => Voters::none(),
            },
        }
    }

    /// Puts the voters for a proposal in place of those that it had.
    pub(crate) fn put(
        &mut self,
        alloc: Global,
        proposal: Proposal,
        voters: Voters,
    ) -> Result<(), AllocError>
        ensures ok { OnOk result (self.new ≡ insert_entry proposal_cmp self.old proposal voters) }
        ensures err { OnErr result (self.new ≡ self.old) }
    {
        match &mut self.form {
            Form::One {
                proposal: other,
                voters: counted,
            } => {
                if proposal.cmp(other) == Ordering::Equal {
                    *counted = voters;
                    return Ok(());
                }
                let rows = both(alloc, other, *counted, proposal, voters)?;
                self.form = Form::More(rows);
                Ok(())
            }
            Form::More(rows) => {
                rows.insert(proposal, voters).map_err(AllocError::from)?;
                Ok(())
            }
        }
    }
}
