//! A host that starts at the epoch of a state.

ghost use Rattle.std.specs.Prelude.{◌≡◌, ◌↔◌, ◌⊎◌, ◌<◌, ℕ, List, is_some, IfErr, IfOk, IsTrue, MatchResult};
ghost use Rattle.std.specs.Prelude.{OnErr, OnOk, false};
ghost use Rattle.acceptor.specs.Content.{Content};
ghost use Rattle.ballots.specs.Members.{member_count};
ghost use Rattle.epochs.specs.Epochs.{AreFull};
ghost use Rattle.flow_state.specs.Rows.{Rows};
ghost use Rattle.host_states.specs.States.{IsFramed, IsState};
ghost use Rattle.host_states.specs.declared.head.StateHead.{StateHead as Head};
ghost use Rattle.hosts.specs.Hosts.{AreMembers, IsHonest, begins_of, member_of, number_of, places_of};
ghost use Rattle.hosts.specs.Joining.{IsOfHosts};
ghost use Rattle.hosts.specs.Keeping.{HaveKept};
ghost use Rattle.hosts.specs.New.{ArePlaces};
ghost use Rattle.hosts.specs.Opening.{KeepsBeginnings, OpensAll};
ghost use Rattle.hosts.specs.Starting.{CanStart, HasMade, IsAt, IsNoStart, IsNoStartBy, IsNoneToStart, IsWindow};
ghost use Rattle.hosts.specs.Starting.{KeepsOwn, StandsBehind, StartsBehind, StartsBy, StartsOver, StoresOwn, opened_in, starts_before};
ghost use Rattle.hosts.specs.Shifting.{Stays};
ghost use Rattle.epochs.specs.Scheduling.{begun_from};
ghost use Rattle.hosts.specs.States.{IsStateOf};
ghost use Rattle.proposer.specs.declared.fault.NodeFault.TheVariants.{OutOfMemory};
ghost use Rattle.proposer.specs.declared.fault.NodeFault.{NodeFault};
ghost use Rattle.hosts.specs.declared.fault.JoinFault.TheVariants.{Node};
ghost use Rattle.hosts.specs.declared.host.Host.{Host};

use crate::fault::{JoinFault, unread};
use crate::host::{Host, are_places};
use crate::opens::Opens;
use crate::states::States;
use crate::window::{Window, open_window};
use epochs::{Scheduler, epochs_join, schedulers_follow_values};
use grant_machine::Machine;
use host_states::{StateHead, framed, one_spelling_of_states};
use node::NodeFault;
use row_bytes::read_rows;
use std::alloc::Global;

/// Where a host starts.
#[derive(Drop)]
pub struct Start {
    /// What the state at which it starts tells beside tables.
    pub head: StateHead,
    /// A scheduler at the tables of the state.
    pub machine: Machine,
    /// Whether it has a node of the epoch before.
    pub has_before: bool,
}

/// Whether a state with this head is one of hosts of so many members and places.
pub(crate) fn is_of_hosts(members: u8, places: u64, head: &StateHead) -> bool
    ensures { IsTrue result ↔ IsOfHosts members places head.now }
{
    head.members == members
        && head.id < head.members
        && head.places == places
        && places < u64::MAX - head.before
        && head.epoch.checked_mul(places) == Some(head.before + places)
}

/// Whether a host of so many members and places can start from a state with this head.
fn can_start(members: u8, places: u64, head: &StateHead) -> bool
    ensures { IsTrue result ↔ CanStart members places head.now }
{
    are_places(places) && is_of_hosts(members, places, head)
}

/// The start that the bytes of a state are, for hosts of so many members and places. It is without the epoch before.
fn start_in(alloc: Global, members: u8, places: u64, state: &[u8]) -> Result<Start, JoinFault>
    ensures { MatchResult result (StartsBy members places state.now) (IsNoneToStart members places state.now) }
{
    one_spelling_of_states();
    let Some((head, spelling)) = framed(state) else {
        return Err(JoinFault::NoState);
    };
    if !can_start(members, places, &head) {
        return Err(JoinFault::NoState);
    }
    match read_rows(alloc, spelling) {
        Ok(rows) => Ok(Start {
            head,
            machine: Machine::opened(alloc, rows),
            has_before: false,
        }),
        Err(why) => Err(unread(why)),
    }
}

/// Makes the state of a start, as this member tells it, and opens the nodes.
fn open_start<O: Opens>(
    alloc: Global,
    opens: &mut O,
    start: &Start,
) -> Result<(States, Window<O::Node>), NodeFault>
    requires { CanStart (O.member opens.old).1 start.now.head.places start.now.head }
    ensures states { IfOk result (λ found. HasMade (O.member opens.old).0 (O.member opens.old).1 start.now found.0) }
    ensures opened { IfOk result (λ found. IsWindow O.Opens opens.old start.now.head.epoch (starts_before start.now) found.1) }
    ensures opens { OnOk result (OpensAll O.opens_node opens.old (opened_in start.now.head.epoch (starts_before start.now)) opens.new) }
    ensures fails { IfErr result (λ fault. O.may_fail fault ⊎ (fault ≡ OutOfMemory)) }
    ensures keeps { KeepsBeginnings O.member O.begins opens.old opens.new }
{
    let head = start.head;
    let mut states = States::new(alloc, opens.id(), opens.members());
    let bytes = states.made(head.epoch, head.places, head.before, &start.machine)?;
    states.set_own(bytes);
    let window = open_window(opens, head.epoch, start.has_before && 1 < head.epoch)?;
    Ok((states, window))
}

impl<O: Opens> Host<O> {
    /// A host that goes on from a state that it kept: it starts at its epoch with the tables of the state, and opens the
    /// nodes of that epoch, of the one after, and of the one before where it is to have that. Where there is no host,
    /// what opens nodes is given back: `NoState` comes exactly where the state isn't one of hosts of as many members and
    /// places, 1 to 999,000, and nothing was opened then.
    pub fn resumed(
        alloc: Global,
        opens: O,
        places: u64,
        start: Start,
    ) -> Result<Host<O>, (JoinFault, O)>
        ensures starts { MatchResult result (λ host. CanStart (O.member opens).1 places start.head) (λ why. IsNoStart O.Opens opens places start.head why.0 why.1) }
        ensures places { IfOk result (λ host. places_of host ≡ places) }
        ensures number { IfOk result (λ host. number_of host ≡ start.head.epoch) }
        ensures member { IfOk result (λ host. member_of host ≡ O.member opens) }
        ensures members { IfOk result AreMembers }
        ensures kept { IfOk result HaveKept }
        ensures begins { IfOk result (λ host. (e : ℕ) (c : Content) → begins_of host e c → O.begins opens e c) }
        ensures stands { IfOk result (λ host. IsHonest host → (passed : List (List (List ℕ))) → AreFull places passed → StartsBehind start places passed
            → StandsBehind (O.begins opens) places start.has_before passed host) }
    {
        schedulers_follow_values();
        epochs_join();
        if !can_start(opens.members().count(), places, &start.head) {
            return Err((JoinFault::NoState, opens));
        }
        Host::started(alloc, opens, start)
    }

    /// A host that has no state yet goes to the start of the epoch of a state that another host has told: it opens the
    /// nodes of that epoch and of the one after, keeps its own state of that, and lets go of what it doesn't need then.
    /// Where there is no host, what opens nodes is given back: `NoState` comes only where the bytes are no state of hosts
    /// of as many members and places, 1 to 999,000, and nothing was opened then.
    pub fn joined(
        alloc: Global,
        opens: O,
        places: u64,
        state: &[u8],
    ) -> Result<Host<O>, (JoinFault, O)>
        ensures starts { MatchResult result (λ host. (head : Head) × (rows : Rows) × IsState state.now head rows × CanStart (O.member opens).1 places head
            × KeepsOwn opens head rows host) (λ why. IsNoStartBy O.Opens opens places state.now why.0 why.1) }
        ensures places { IfOk result (λ host. places_of host ≡ places) }
        ensures member { IfOk result (λ host. member_of host ≡ O.member opens) }
        ensures members { IfOk result AreMembers }
        ensures kept { IfOk result HaveKept }
        ensures begins { IfOk result (λ host. (e : ℕ) (c : Content) → begins_of host e c → O.begins opens e c) }
        ensures stands { IfOk result (λ host. IsHonest host → (me : ℕ) (passed : List (List (List ℕ))) → AreFull places passed
            → IsStateOf me (O.member opens).1 places passed state.now → StandsBehind (O.begins opens) places false passed host) }
    {
        schedulers_follow_values();
        epochs_join();
        one_spelling_of_states();
        match start_in(alloc, opens.members().count(), places, state) {
            Ok(start) => Host::started_anew(alloc, opens, start),
            Err(fault) => Err((fault, opens)),
        }
    }

    /// The same of a state at which it can start. None is kept.
    fn started(alloc: Global, opens: O, start: Start) -> Result<Host<O>, (JoinFault, O)>
        requires { CanStart (O.member opens).1 start.head.places start.head }
        ensures over { IfOk result (StartsOver opens start) }
        ensures fails { IfErr result (λ why. IsNoStart O.Opens opens start.head.places start.head why.0 why.1) }
    {
        let mut opens = opens;
        match open_start(alloc, &mut opens, &start) {
            Ok((states, window)) => Ok(Host::over(alloc, opens, start, states, window)),
            Err(fault) => Err((JoinFault::Node(fault), opens)),
        }
    }

    /// A host at a start, whose nodes were opened, with its own state of that.
    fn over(
        alloc: Global,
        opens: O,
        start: Start,
        states: States,
        window: Window<O::Node>,
    ) -> Host<O>
        requires can { CanStart (O.member opens).1 start.head.places start.head }
        requires states { HasMade (O.member opens).0 (O.member opens).1 start states }
        requires before { IsTrue (is_some window.before) → 1 < start.head.epoch }
        ensures opens { result.opens ≡ opens }
        ensures places { result.places ≡ start.head.places }
        ensures states { result.states ≡ states }
        ensures at { IsAt result start.head.epoch start.head.before (begun_from start.machine start.head.before) window }
    {
        let head = start.head;
        Host {
            alloc,
            opens,
            places: head.places,
            number: head.epoch,
            taken: 0,
            cursor: head.before,
            scheduler: Scheduler::opened(alloc, start.machine, head.before),
            states,
            before: window.before,
            own: window.own,
            after: window.after,
        }
    }

    /// The same of a state of which it keeps its own one.
    fn started_anew(alloc: Global, opens: O, start: Start) -> Result<Host<O>, (JoinFault, O)>
        requires { CanStart (O.member opens).1 start.head.places start.head }
        ensures over { IfOk result (λ host. (mid : Host O O.Node O.Opens O.Node.Node) × StartsOver opens start mid × StoresOwn mid host) }
        ensures fails { IfErr result (λ why. IsNoStart O.Opens opens start.head.places start.head why.0 why.1) }
    {
        match Host::started(alloc, opens, start) {
            Ok(host) => host.with_own(),
            Err(why) => Err(why),
        }
    }

    /// The host, once its own state is kept.
    fn with_own(self) -> Result<Host<O>, (JoinFault, O)>
        requires { IsTrue (is_some self.states.own) }
        ensures stores { IfOk result (StoresOwn self) }
        ensures fails { IfErr result (λ why. (fault : NodeFault) × (why.0 ≡ Node fault) × O.may_fail fault × KeepsBeginnings O.member O.begins self.opens why.1) }
    {
        let mut host = self;
        match host.keep_own() {
            Ok(()) => Ok(host),
            Err(fault) => Err((JoinFault::Node(fault), host.into_opens())),
        }
    }

    /// Keeps its own state, and lets go of what isn't needed then.
    fn keep_own(&mut self) -> Result<(), NodeFault>
        requires { IsTrue (is_some self.old.states.own) }
        ensures stores { OnOk result (StoresOwn self.old self.new) }
        ensures stays { Stays self.old self.new }
        ensures fails { IfErr result O.may_fail }
    {
        let Some(state) = self.states.own() else {
            unreachable!()
        };
        self.opens.keep_state(self.number, state)?;
        self.opens.let_go(self.number);
        Ok(())
    }

    /// What opens nodes, where the host is let go.
    fn into_opens(self) -> O
        ensures { result ≡ self.opens }
    {
        let Host { opens, .. } = self;
        opens
    }
}
