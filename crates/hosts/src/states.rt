//! The states that a host keeps.

ghost use Rattle.std.specs.Prelude.{◌≡◌};

use ballots::{Members, NodeId};
use grant_machine::Machine;
use host_states::{StateHead, state_bytes};
use std::alloc::{AllocError, Global};
use std::marker::Model;

/// Whose states they are, and the states at the start of its own epoch and of the next one, as bytes. None is kept of
/// the first epoch, which starts without tables. That of the next one is there once its own one is full.
#[derive(Drop)]
pub(crate) struct States {
    alloc: Global,
    id: NodeId,
    members: Members,
    own: Option<Vec<u8>>,
    next: Option<Vec<u8>>,
}

impl Model for States {
    ghost use Rattle.std.specs.Option.{option_map};
    ghost use Rattle.ballots.specs.Members.{member_count};
    ghost use Rattle.hosts.specs.States.{StatesView};

    ghost Value = { StatesView };

    ghost view = { λ a. record {
      id = a.id;
      members = member_count a.members;
      own = option_map (λ bytes. bytes.items) a.own;
      next = option_map (λ bytes. bytes.items) a.next;
    } };
}

impl States {
    ghost use Rattle.std.specs.Prelude.{◌≡◌, ℕ, List, IfOk, Some, None, is_some};
    ghost use Rattle.std.specs.Option.{option_map};
    ghost use Rattle.ballots.specs.Members.{member_count};
    ghost use Rattle.hosts.specs.States.{IsMade, IsOwnState, IsStateOf, gone_on, head_in, no_states};

    /// A member at the start of the first epoch.
    pub(crate) fn new(alloc: Global, id: NodeId, members: Members) -> States
        ensures { result ≡ no_states id (member_count members) }
    {
        States {
            alloc,
            id,
            members,
            own: None,
            next: None,
        }
    }

    /// How many members there are.
    pub(crate) fn members(&self) -> u8
        ensures { result ≡ self.now.members }
    {
        self.members.count()
    }

    /// Whether the state at the start of the next epoch is there.
    pub(crate) fn has_next(&self) -> bool
        ensures { result ≡ is_some self.now.next }
    {
        self.next.is_some()
    }

    /// What is told beside tables at the start of an epoch with so many places, behind so many outputs.
    fn head(&self, epoch: u64, places: u64, before: u64) -> StateHead
        ensures { result ≡ head_in self.now epoch places before }
    {
        StateHead {
            epoch,
            places,
            before,
            id: self.id.number(),
            members: self.members.count(),
        }
    }

    /// The state of these tables at the start of an epoch.
    pub(crate) fn made(
        &self,
        epoch: u64,
        places: u64,
        before: u64,
        machine: &Machine,
    ) -> Result<Vec<u8>, AllocError>
        ensures { IfOk result (λ bytes. IsMade self.now epoch places before machine.now bytes.items) }
    {
        let head = self.head(epoch, places, before);
        state_bytes(self.alloc, &head, machine)
    }

    /// The state at the start of the next epoch, where it is there.
    pub(crate) fn next(&self) -> Option<&[u8]>
        ensures { option_map (λ bytes. bytes.now) result ≡ self.now.next }
    {
        match &self.next {
            Some(bytes) => Some(bytes.as_slice()),
            None => None,
        }
    }

    /// That at the start of its own epoch, where it is kept.
    pub(crate) fn own(&self) -> Option<&[u8]>
        ensures { option_map (λ bytes. bytes.now) result ≡ self.now.own }
    {
        match &self.own {
            Some(bytes) => Some(bytes.as_slice()),
            None => None,
        }
    }

    /// The state at the start of the next epoch is this one.
    pub(crate) fn set_next(&mut self, bytes: Vec<u8>)
        ensures { self.new ≡ record self.old { next = Some bytes.items } }
    {
        self.next = Some(bytes);
    }

    /// The state at the start of its own epoch is this one, and its own one isn't full.
    pub(crate) fn set_own(&mut self, bytes: Vec<u8>)
        ensures { self.new ≡ record self.old { own = Some bytes.items; next = None } }
    {
        self.own = Some(bytes);
        self.next = None;
    }

    /// The next epoch is its own one.
    pub(crate) fn go_on(&mut self)
        ensures { self.new ≡ gone_on self.old }
    {
        self.own = self.next.take();
    }

    /// The state at the start of its own epoch, of so many places. That of the first one is made here.
    pub(crate) fn state(&self, places: u64) -> Result<Vec<u8>, AllocError>
        ensures { (passed : List (List (List ℕ))) → IsOwnState self.now places passed self.now.own
            → IfOk result (λ bytes. IsStateOf self.now.id self.now.members places passed bytes.items) }
    {
        match &self.own {
            Some(bytes) => bytes.clone(),
            None => self.made(1, places, 0, &Machine::new(self.alloc)),
        }
    }
}
