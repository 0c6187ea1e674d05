//! A host.

ghost use Rattle.std.specs.Prelude.{◌≡◌, ◌↔◌, ◌+◌, ◌<◌, ◌≤◌, IsTrue, is_some};
ghost use Rattle.hosts.specs.New.{ArePlaces};
ghost use Rattle.epochs.specs.Scheduling.{most_applied};

use crate::acted::{Given, HostActed};
use crate::beyond::{act_within, is_up_if_any};
use crate::entering::{Opened, enter};
use crate::fault::{HostFault, JoinFault, unread};
use crate::opens::Opens;
use crate::starting::is_of_hosts;
use crate::states::States;
use crate::taking::take_up;
use crate::window::{Window, open_seat, open_window};
use epochs::{Scheduler, epochs_join, schedulers_follow_values, told_again};
use grant_machine::{Machine, Output};
use host_states::{StateHead, framed, one_spelling_of_states};
use node::{Node, NodeFault};
use row_bytes::read_rows;
use seats::{Asked, Seat};
use std::alloc::{AllocError, Global};
use std::mem;

/// The most places of an epoch that may count.
pub const MOST_EPOCH_PLACES: u64 = 999_000;

/// A member of each epoch of a log that goes on. It has the nodes of its own epoch, of the one before and of the one after,
/// and one scheduler, which takes the first places of each epoch, as many in each.
#[derive(Drop)]
pub struct Host<O: Opens> {
    pub(crate) alloc: Global,
    pub(crate) opens: O,
    pub(crate) places: u64,
    pub(crate) number: u64,
    pub(crate) taken: u64,
    pub(crate) cursor: u64,
    pub(crate) scheduler: Scheduler,
    pub(crate) states: States,
    pub(crate) before: Option<Seat<O::Node>>,
    pub(crate) own: Seat<O::Node>,
    pub(crate) after: Seat<O::Node>,
    ghost some: { 1 ≤ places },
    ghost first: { 1 ≤ number },
    ghost window: { IsTrue (is_some before) → 1 < number },
    ghost within: { taken ≤ places },
    ghost numbered: { number + taken ≤ scheduler.applied + 1 },
    ghost room: { scheduler.applied + places < most_applied + taken },
    ghost given: { cursor ≤ scheduler.applied },
    ghost who: { O.member opens ≡ (states.id, states.members) },
    ghost full: { IsTrue (is_some states.next) → taken ≡ places },
    ghost ready: { taken ≡ places → cursor ≡ scheduler.applied → IsTrue (is_some states.next) },
}

/// Whether an epoch may have so many places that count.
pub(crate) fn are_places(places: u64) -> bool
    ensures { IsTrue result ↔ ArePlaces places }
{
    1 <= places && places <= MOST_EPOCH_PLACES
}

impl<O: Opens> Host<O> {
    ghost use Rattle.std.specs.Prelude.{◌≡◌, ◌≢◌, None, ◌≤◌, ◌<◌, ◌↔◌, ◌+◌, ◌-◌, ◌^◌, ◌⊎◌, ℕ, true, IfErr, IfOk, IsTrue};
    ghost use Rattle.std.specs.Prelude.{MatchOption, MatchResult};
    ghost use Rattle.std.specs.Prelude.{OnErr, OnOk};
    ghost use Rattle.seats.specs.Acted.{ask_of};
    ghost use Rattle.hosts.specs.Acting.{ActsIn, IsAskedIn, IsRefusedSo, NodeActs};
    ghost use Rattle.hosts.specs.Joining.{Begins, CanJoin, IsOpenedFor, IsReadyFor, Joins, JoinsAs, StaysFor, lacked};
    ghost use Rattle.hosts.specs.Keeping.{HaveKept};
    ghost use Rattle.hosts.specs.New.{IsNoHost};
    ghost use Rattle.hosts.specs.Opening.{KeepsBeginnings, OpensAll};
    ghost use Rattle.hosts.specs.Shifting.{CanGoOn, GivesOut, GoesOn, IsReady, OpensNext, Prepares, Shifts, Stays, StoresNext};
    ghost use Rattle.hosts.specs.Shifting.{TakesOwn};
    ghost use Rattle.hosts.specs.States.{IsStateOf, no_states};
    ghost use Rattle.epochs.specs.Scheduling.{no_values};
    ghost use Rattle.proposer.specs.declared.fault.NodeFault.TheVariants.{OutOfMemory};
    ghost use Rattle.hosts.specs.Taking.{IsAllOf};
    ghost use Rattle.acceptor.specs.Content.{Content};
    ghost use Rattle.hosts.specs.Hosts.{AreMembers, IsHonest, KeepsTrust, SameHost, StandsAs, are_up, begins_of, member_of};
    ghost use Rattle.hosts.specs.Hosts.{has_before as has_before_lem, number_of, places_of};
    ghost use Rattle.hosts.specs.Starting.{IsAt};
    ghost use Rattle.hosts.specs.Views.{AreBegun, HostView, MovesIn, Releases, TellsAgain, opening};

    /// A host that has done nothing, of so many places in an epoch, 1 to 999,000.
    pub fn new(alloc: Global, opens: O, places: u64) -> Result<Host<O>, HostFault>
        ensures counts { MatchResult result (λ host. ArePlaces places) (IsNoHost O.may_fail places) }
        ensures places { IfOk result (λ host. places_of host ≡ places) }
        ensures member { IfOk result (λ host. member_of host ≡ O.member opens) }
        ensures members { IfOk result AreMembers }
        ensures kept { IfOk result HaveKept }
        ensures begins { IfOk result (λ host. (e : ℕ) (c : Content) → begins_of host e c → O.begins opens e c) }
        ensures opens { IfOk result (λ host. IsHonest host → (contents : ℕ → Content) × AreBegun (O.begins opens) 1 2 contents × StandsAs host (opening contents)) }
    {
        match Host::begun(alloc, opens, places) {
            Ok(host) => Ok(host),
            Err((fault, _)) => Err(fault),
        }
    }

    /// The same. Where there is no host, what opens nodes is given back.
    pub fn begun(alloc: Global, opens: O, places: u64) -> Result<Host<O>, (HostFault, O)>
        ensures counts { MatchResult result (λ host. ArePlaces places) (λ why. IsNoHost O.may_fail places why.0) }
        ensures places { IfOk result (λ host. places_of host ≡ places) }
        ensures member { IfOk result (λ host. member_of host ≡ O.member opens) }
        ensures members { IfOk result AreMembers }
        ensures kept { IfOk result HaveKept }
        ensures begins { IfOk result (λ host. (e : ℕ) (c : Content) → begins_of host e c → O.begins opens e c) }
        ensures opens { IfOk result (λ host. IsHonest host → (contents : ℕ → Content) × AreBegun (O.begins opens) 1 2 contents × StandsAs host (opening contents)) }
        ensures back { IfErr result (λ why. KeepsBeginnings O.member O.begins opens why.1) }
    {
        schedulers_follow_values();
        epochs_join();
        if !are_places(places) {
            return Err((HostFault::Places, opens));
        }
        let mut opens = opens;
        match open_window(&mut opens, 1, false) {
            Ok(window) => Ok(Host::at_first(alloc, opens, places, window)),
            Err(fault) => Err((HostFault::Node(fault), opens)),
        }
    }

    /// A host that has done nothing, whose nodes were opened.
    fn at_first(alloc: Global, opens: O, places: u64, window: Window<O::Node>) -> Host<O>
        requires few { ArePlaces places }
        requires none { window.before ≡ None }
        ensures opens { result.opens ≡ opens }
        ensures places { result.places ≡ places }
        ensures states { result.states ≡ no_states (O.member opens).0 (O.member opens).1 }
        ensures at { IsAt result 1 0 no_values window }
    {
        let states = States::new(alloc, opens.id(), opens.members());
        Host {
            alloc,
            opens,
            places,
            number: 1,
            taken: 0,
            cursor: 0,
            scheduler: Scheduler::new(alloc),
            states,
            before: window.before,
            own: window.own,
            after: window.after,
        }
    }

    /// The places of an epoch that count.
    pub fn places(&self) -> u64
        ensures { result ≡ places_of self.now }
    {
        self.places
    }

    /// The number of its epoch, from 1.
    pub fn number(&self) -> u64
        ensures { result ≡ number_of self.now }
    {
        self.number
    }

    /// Whether each of its nodes is up.
    pub fn is_up(&self) -> bool
        ensures { result ≡ are_up self.now }
    {
        self.own.is_up() && self.after.is_up() && is_up_if_any(&self.before)
    }

    /// Why who has so many places in an epoch may ask nothing of the node of an epoch, whatever it is. None where it may.
    pub fn refusal(&self, epoch: u64, places: u64) -> Option<HostActed>
        ensures { MatchOption result (IsAskedIn self.now epoch places) (IsRefusedSo self.now epoch places) }
    {
        if places != self.places {
            return Some(HostActed::OtherPlaces);
        }
        if epoch < self.number && !self.has_before(epoch) {
            return Some(HostActed::Gone);
        }
        if self.number + 1 < epoch {
            return Some(HostActed::Ahead);
        }
        None
    }

    /// Whether an epoch below its own one is the one before, and it has a node of that.
    fn has_before(&self, epoch: u64) -> bool
        requires { epoch < self.now.number }
        ensures { IsTrue result ↔ (epoch + 1 ≡ self.now.number) × IsTrue (has_before_lem self.now) }
    {
        epoch + 1 == self.number && self.before.is_some()
    }

    /// What is asked of the node of an epoch, by who has so many places in an epoch. The node does it where the epoch is
    /// the host's own one, the one before or the one after. An offer to a node that leads is refused where its next place
    /// is beyond those that count.
    pub fn act(&mut self, epoch: u64, places: u64, asked: Asked) -> HostActed
        ensures acts { ActsIn self.old epoch places (ask_of asked.entry) result self.new }
        ensures same { SameHost self.old self.new }
        ensures members { AreMembers self.old → AreMembers self.new }
        ensures trust { KeepsTrust self.old self.new }
        ensures moves { IsHonest self.new → AreMembers self.old → (v : HostView) → StandsAs self.old v
            → (v' : HostView) × MovesIn (member_of self.old).1 (member_of self.old).0 (places_of self.old) v epoch places (ask_of asked.entry)
            result v' × StandsAs self.new v' }
    {
        self.act_near(epoch, places, asked)
    }

    /// Goes on in the next epoch, where its own one is full and all of it was given. Then it takes up what its own epoch's
    /// node has learned, and gives all outputs that it didn't give before, in order, without the MAPs that end at `now` (in
    /// minislots) or before. Where it fails nothing is lost: the next release gives it.
    pub fn release(&mut self, now: u64) -> Given
        ensures same { SameHost self.old self.new }
        ensures members { AreMembers self.old → AreMembers self.new }
        ensures trust { KeepsTrust self.old self.new }
        ensures kept { HaveKept self.old → HaveKept self.new }
        ensures stores { number_of self.new ≢ number_of self.old → StoresNext self.old self.new }
        ensures moves { IsHonest self.new → (v : HostView) → StandsAs self.old v
            → (v' : HostView) × Releases (begins_of self.old) O.may_fail (places_of self.old) v now result v' × StandsAs self.new v' }
    {
        schedulers_follow_values();
        epochs_join();
        if let Err(fault) = self.go_on() {
            return Given::Failed(fault);
        }
        if self.take_up().is_err() {
            return Given::Failed(NodeFault::OutOfMemory);
        }
        self.give(now)
    }

    fn act_near(&mut self, epoch: u64, places: u64, asked: Asked) -> HostActed
        ensures acts { ActsIn self.old epoch places (ask_of asked.entry) result self.new }
    {
        if let Some(refused) = self.refusal(epoch, places) {
            return refused;
        }
        if epoch == self.number {
            return self.act_own(asked);
        }
        if epoch > self.number {
            return self.act_after(asked);
        }
        self.act_before(asked)
    }

    /// The node of its own epoch is asked.
    fn act_own(&mut self, asked: Asked) -> HostActed
        ensures { NodeActs self.old self.old.number (ask_of asked.entry) result self.new }
    {
        act_within(self.places, &mut self.own, asked)
    }

    /// The node of the next epoch is asked.
    fn act_after(&mut self, asked: Asked) -> HostActed
        ensures { NodeActs self.old (self.old.number + 1) (ask_of asked.entry) result self.new }
    {
        act_within(self.places, &mut self.after, asked)
    }

    /// The node of the epoch before is asked.
    fn act_before(&mut self, asked: Asked) -> HostActed
        requires { has_before_lem self.old ≡ true }
        ensures { (e : ℕ) → e + 1 ≡ self.old.number → NodeActs self.old e (ask_of asked.entry) result self.new }
    {
        let places = self.places;
        let Some(before) = &mut self.before else {
            return HostActed::Gone;
        };
        act_within(places, before, asked)
    }

    /// Whether its own epoch is full, all outputs up to its end were given, and those of the next one can be numbered.
    fn can_go_on(&self) -> bool
        ensures { IsTrue result ↔ CanGoOn self.now }
    {
        self.taken == self.places
            && self.cursor == self.scheduler.applied()
            && self.places < u64::MAX - self.scheduler.applied()
    }

    /// Goes on in the next epoch, where its own one is passed.
    fn go_on(&mut self) -> Result<(), NodeFault>
        ensures ok { OnOk result (GoesOn self.old self.new) }
        ensures err { OnErr result (CanGoOn self.old × Stays self.old self.new) }
        ensures fails { IfErr result O.may_fail }
    {
        if self.can_go_on() {
            self.shift()
        } else {
            Ok(())
        }
    }

    /// Opens the node behind the next epoch, and then keeps the state at the start of that.
    fn open_next(&mut self) -> Result<Seat<O::Node>, NodeFault>
        requires { CanGoOn self.old }
        ensures opens { IfOk result (λ seat. OpensNext self.old seat self.new) }
        ensures stays { Stays self.old self.new }
        ensures fails { IfErr result O.may_fail }
    {
        let opened = open_seat(&mut self.opens, self.number + 2)?;
        let Some(state) = self.states.next() else {
            unreachable!()
        };
        self.opens.keep_state(self.number + 1, state)?;
        Ok(opened)
    }

    /// Goes on in the next epoch.
    fn shift(&mut self) -> Result<(), NodeFault>
        requires { CanGoOn self.old }
        ensures ok { OnOk result (Shifts self.old self.new) }
        ensures err { OnErr result (Stays self.old self.new) }
        ensures fails { IfErr result O.may_fail }
    {
        let opened = self.open_next()?;
        let after = mem::replace(&mut self.after, opened);
        let own = mem::replace(&mut self.own, after);
        self.before = Some(own);
        self.states.go_on();
        self.number += 1;
        self.taken = 0;
        self.opens.let_go(self.number);
        Ok(())
    }

    /// Takes up what its own epoch's node has learned. Where that is all of the epoch, it makes the state at the start of
    /// the next one.
    fn take_up(&mut self) -> Result<(), AllocError>
        ensures takes { TakesOwn self.old self.new }
        ensures all { OnOk result (IsAllOf self.old.own self.old.places self.new.taken) }
        ensures ready { OnOk result (IsReady self.new) }
    {
        self.take_own()?;
        self.prepare()
    }

    /// Takes up what its own epoch's node has learned.
    fn take_own(&mut self) -> Result<(), AllocError>
        ensures takes { TakesOwn self.old self.new }
        ensures states { self.new.states ≡ self.old.states }
        ensures all { OnOk result (IsAllOf self.old.own self.old.places self.new.taken) }
    {
        take_up(&self.own, self.places, &mut self.taken, &mut self.scheduler)
    }

    /// Makes the state at the start of the next epoch, where its own one is full and it isn't there.
    fn prepare(&mut self) -> Result<(), AllocError>
        ensures keeps { Prepares self.old self.new }
        ensures ready { OnOk result (IsReady self.new) }
    {
        if self.taken < self.places || self.states.has_next() {
            return Ok(());
        }
        let (epoch, before) = (self.number + 1, self.scheduler.applied());
        let machine = self.scheduler.machine();
        let bytes = self.states.made(epoch, self.places, before, machine)?;
        self.states.set_next(bytes);
        Ok(())
    }

    /// Gives all outputs that wait.
    fn give(&mut self, now: u64) -> Given
        requires { IsReady self.old }
        ensures { GivesOut self.old now result self.new }
    {
        let outputs = self.scheduler.hand_out(now);
        self.cursor = self.scheduler.applied();
        Given::Outputs {
            outputs,
            epoch: self.number,
            place: self.taken + 1,
        }
    }
    /// The state at the start of its own epoch: the tables behind all values of the epochs before, how many outputs these
    /// had, and whose state it is. Only want of memory stops it.
    pub fn state(&self) -> Result<Vec<u8>, AllocError>
        ensures { (v : HostView) → StandsAs self.now v
            → IfOk result (λ bytes. IsStateOf (member_of self.now).0 (member_of self.now).1 (places_of self.now) v.passed bytes.items) }
    {
        self.states.state(self.places)
    }

    /// What modems need that begin anew: of each channel, in the order in which channels were set, its UCD Count, and then
    /// by SID each latest lease that isn't over when its next MAP begins. Each of these was an output of the values that it
    /// took up. Only want of memory stops it.
    pub fn again(&self) -> Result<Vec<Output>, AllocError>
        ensures { (v : HostView) → StandsAs self.now v → IfOk result (λ outputs. TellsAgain (places_of self.now) v outputs.items) }
    {
        told_again(self.alloc, self.scheduler.machine())
    }

    /// Goes to the start of the epoch of a state that a host has told, itself or another one, which has to be above its own
    /// one: it has the tables of the state, and takes no part any more in epochs before the one before that one. Of the
    /// outputs before the state it gives none any more, also of those that it took up; another host gives them. Where it
    /// fails nothing changes.
    pub fn join(&mut self, state: &[u8]) -> Result<(), JoinFault>
        ensures joins { OnOk result (Joins self.old state.now self.new) }
        ensures stays { IfErr result (λ fault. StaysFor self.old state.now fault self.new) }
        ensures same { SameHost self.old self.new }
        ensures members { AreMembers self.old → AreMembers self.new }
        ensures trust { KeepsTrust self.old self.new }
        ensures kept { HaveKept self.old → HaveKept self.new }
        ensures moves { IsHonest self.new → (v : HostView) → StandsAs self.old v → JoinsAs self.old v state.now result self.new }
    {
        schedulers_follow_values();
        epochs_join();
        one_spelling_of_states();
        self.join_state(state)
    }

    fn join_state(&mut self, state: &[u8]) -> Result<(), JoinFault>
        ensures joins { OnOk result (Joins self.old state.now self.new) }
        ensures stays { IfErr result (λ fault. StaysFor self.old state.now fault self.new) }
    {
        one_spelling_of_states();
        let Some((head, spelling)) = framed(state) else {
            return Err(JoinFault::NoState);
        };
        if !self.can_join(&head) {
            return Err(JoinFault::NoState);
        }
        match read_rows(self.alloc, spelling) {
            Ok(rows) => {
                let machine = Machine::opened(self.alloc, rows);
                self.begin(&head, machine)?;
                Ok(())
            }
            Err(why) => Err(unread(why)),
        }
    }

    /// Whether it can go on from a state with this head.
    fn can_join(&self, head: &StateHead) -> bool
        ensures { IsTrue result ↔ CanJoin self.now head.now }
    {
        is_of_hosts(self.states.members(), self.places, head) && self.number < head.epoch
    }

    /// Opens what it lacks of the epoch of a state, and then keeps its own state of that.
    fn ready_for(
        &mut self,
        head: &StateHead,
        machine: &Machine,
    ) -> Result<(Vec<u8>, Opened<O::Node>), NodeFault>
        requires { CanJoin self.old head.now }
        ensures ready { IfOk result (λ found. IsReadyFor self.old head.now machine.now found.0.items found.1 self.new) }
        ensures stays { Stays self.old self.new }
        ensures fails { IfErr result (λ fault. O.may_fail fault ⊎ (fault ≡ OutOfMemory)) }
    {
        let bytes = self
            .states
            .made(head.epoch, self.places, head.before, machine)?;
        let opened = self.open_for(head.epoch)?;
        self.opens.keep_state(head.epoch, bytes.as_slice())?;
        Ok((bytes, opened))
    }

    /// Goes to the start of an epoch.
    fn begin(&mut self, head: &StateHead, machine: Machine) -> Result<(), NodeFault>
        requires { CanJoin self.old head.now }
        ensures ok { OnOk result (Begins self.old self.new head.now machine) }
        ensures err { OnErr result (Stays self.old self.new) }
        ensures fails { IfErr result (λ fault. O.may_fail fault ⊎ (fault ≡ OutOfMemory)) }
    {
        let (bytes, opened) = self.ready_for(head, &machine)?;
        let gap = head.epoch - self.number;
        enter(
            gap,
            &mut self.before,
            &mut self.own,
            &mut self.after,
            opened,
        );
        self.states.set_own(bytes);
        self.scheduler = Scheduler::opened(self.alloc, machine, head.before);
        self.number = head.epoch;
        self.taken = 0;
        self.cursor = head.before;
        self.opens.let_go(head.epoch);
        Ok(())
    }

    /// Opens the nodes that it lacks of an epoch above its own, and of the one after that.
    fn open_for(&mut self, epoch: u64) -> Result<Opened<O::Node>, NodeFault>
        requires { (self.old.number < epoch) × (epoch < 2 ^ 64 - 1) }
        ensures opened { IfOk result (IsOpenedFor self.old epoch) }
        ensures opens { OnOk result (OpensAll O.opens_node self.old.opens (lacked self.old.number epoch) self.new.opens) }
        ensures stays { Stays self.old self.new }
        ensures fails { IfErr result O.may_fail }
    {
        let own = if epoch == self.number + 1 {
            None
        } else {
            Some(open_seat(&mut self.opens, epoch)?)
        };
        let after = open_seat(&mut self.opens, epoch + 1)?;
        Ok(Opened { own, after })
    }
}
