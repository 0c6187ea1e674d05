//! The proposals that were voted for, by open place.

ghost use Rattle.std.specs.Prelude.{◌≡◌, ◌↔◌, [], ◌∷◌, IsTrue, OnOk, OnErr};
ghost use Rattle.std.specs.BTreeMap.{is_at};
ghost use Rattle.std.specs.Map.{remove_entry};
ghost use Rattle.std.specs.Ordering.{nat_cmp};
ghost use Rattle.ballots.specs.Rows.{put};
ghost use Rattle.learner.specs.OpenPlaces.{entries_of};
ghost use Rattle.learner.specs.Tally.{groups_at, put_voters, voters_in};

use crate::groups::{Groups, Proposal, Voters};
use std::alloc::{AllocError, Global};
use std::cmp::Ordering;
use std::collections::BTreeMap;
use std::marker::Model;
use std::mem;

/// The open places, each with the proposals that were voted for there. Mostly at most one is open.
#[derive(Drop)]
pub(crate) enum Form {
    Nothing,
    One { place: u64, groups: Groups },
    More(BTreeMap<u64, Groups>),
}

/// The places where votes are counted, each with the proposals that were voted for there. One takes no tree.
#[derive(Drop)]
pub(crate) struct OpenPlaces {
    form: Form,
}

impl Model for OpenPlaces {
    ghost use Rattle.std.specs.Prelude.{ℕ, ◌*◌, List};
    ghost use Rattle.learner.specs.OpenPlaces.{entries_of};
    ghost use Rattle.learner.specs.Tally.{Groups};

    ghost Value = { List (ℕ × Groups) };

    ghost view = { λ o. entries_of o.form };
}

/// Puts the voters for a proposal at a place in place of those that it had.
fn put_voters(
    alloc: Global,
    counted: &mut BTreeMap<u64, Groups>,
    place: u64,
    proposal: Proposal,
    voters: Voters,
) -> Result<(), AllocError>
    ensures ok { OnOk result (counted.new.entries ≡ put_voters counted.old.entries proposal.ballot place proposal.value voters) }
    ensures err { OnErr result (counted.new.entries ≡ counted.old.entries) }
{
    if let Some(groups) = counted.get_mut(&place) {
        return groups.put(alloc, proposal, voters);
    }
    counted
        .insert(place, Groups::one(proposal, voters))
        .map_err(AllocError::from)?;
    Ok(())
}

/// Two open places, and whether there was memory for the second.
fn both(
    alloc: Global,
    place: u64,
    groups: Groups,
    second: u64,
    second_groups: Groups,
) -> (Form, Result<(), AllocError>)
    ensures ok { OnOk result.1 (entries_of result.0 ≡ put ((place, groups) ∷ []) second second_groups) }
    ensures err { OnErr result.1 (entries_of result.0 ≡ (place, groups) ∷ []) }
{
    let mut rows = BTreeMap::new(alloc);
    if let Err(failed) = rows.insert(place, groups) {
        let (place, groups) = failed.value;
        return (Form::One { place, groups }, Err(AllocError));
    }
    let put = rows.insert(second, second_groups);
    if put.is_err() {
        return (Form::More(rows), Err(AllocError));
    }
    (Form::More(rows), Ok(()))
}

/// The open places with one put among them, and whether there was memory for it.
fn with_place(
    alloc: Global,
    form: Form,
    place: u64,
    groups: Groups,
) -> (Form, Result<(), AllocError>)
    ensures ok { OnOk result.1 (entries_of result.0 ≡ put (entries_of form) place groups) }
    ensures err { OnErr result.1 (entries_of result.0 ≡ entries_of form) }
{
    match form {
        Form::Nothing => (Form::One { place, groups }, Ok(())),
        Form::One {
            place: first,
            groups: first_groups,
        } => both(alloc, first, first_groups, place, groups),
        Form::More(mut rows) => {
            let put = rows.insert(place, groups);
            if put.is_err() {
                return (Form::More(rows), Err(AllocError));
            }
            (Form::More(rows), Ok(()))
        }
    }
}

impl OpenPlaces {
    /// No place is open.
    pub(crate) fn new() -> OpenPlaces
        ensures { result ≡ [] }
    {
        OpenPlaces {
            form: Form::Nothing,
        }
    }

    /// Whether no place is open.
    pub(crate) fn is_empty(&self) -> bool
        ensures { IsTrue result ↔ (self.now ≡ []) }
    {
        match &self.form {
            Form::Nothing => true,
            Form::One { .. } => false,
            Form::More(rows) => rows.is_empty(),
        }
    }

    /// The voters for a proposal at a place.
    pub(crate) fn voters(&self, place: u64, proposal: &Proposal) -> Voters
        ensures { result ≡ voters_in (groups_at self.now place) proposal.now.ballot proposal.now.value }
    {
        match &self.form {
            Form::Nothing => Voters::none(),
            Form::One {
                place: first,
                groups,
            } => {
                if place.cmp(first) != Ordering::Equal {
                    return Voters::none();
                }
                groups.voters(proposal)
            }
            Form::More(rows) => match rows.get(&place) {
                Some(groups) => groups.voters(proposal),
                None => Voters::none(),
            },
        }
    }

    /// Puts a place among the open ones.
    fn put_place(&mut self, alloc: Global, place: u64, groups: Groups) -> Result<(), AllocError>
        ensures ok { OnOk result (self.new ≡ put self.old place groups) }
        ensures err { OnErr result (self.new ≡ self.old) }
    {
        let form = mem::replace(&mut self.form, Form::Nothing);
        let (form, put) = with_place(alloc, form, place, groups);
        self.form = form;
        put
    }

    /// Puts the voters for a proposal at a place in place of those that it had.
    pub(crate) fn put(
        &mut self,
        alloc: Global,
        place: u64,
        proposal: Proposal,
        voters: Voters,
    ) -> Result<(), AllocError>
        ensures ok { OnOk result (self.new ≡ put_voters self.old proposal.ballot place proposal.value voters) }
        ensures err { OnErr result (self.new ≡ self.old) }
    {
        match &mut self.form {
            Form::Nothing => {
                let groups = Groups::one(proposal, voters);
                self.form = Form::One { place, groups };
                Ok(())
            }
            Form::One {
                place: first,
                groups,
            } => {
                if place.cmp(first) == Ordering::Equal {
                    return groups.put(alloc, proposal, voters);
                }
                self.put_place(alloc, place, Groups::one(proposal, voters))
            }
            Form::More(rows) => put_voters(alloc, rows, place, proposal, voters),
        }
    }

    /// Closes a place.
    pub(crate) fn remove(&mut self, place: u64)
        ensures { self.new ≡ remove_entry (is_at (nat_cmp place)) self.old }
    {
        match &mut self.form {
            Form::Nothing => {}
            Form::One { place: first, .. } => {
                if place.cmp(first) == Ordering::Equal {
                    self.form = Form::Nothing;
                }
            }
            Form::More(rows) => {
                rows.remove(&place);
                if rows.is_empty() {
                    self.form = Form::Nothing;
                }
            }
        }
    }
}
