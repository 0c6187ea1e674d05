//! A host whose nodes keep what they did by commits.

ghost use Rattle.std.specs.Prelude.{◌≡◌, false, true, IfErr, MatchOption, OnErr, OnOk};
ghost use Rattle.hosts.specs.Hosts.{AreMembers, KeepsTrust, SameHost, StandsAs, are_up};
ghost use Rattle.hosts.specs.Keeping.{FailsIfAny, FailsInSeat, FailsToKeep, HasKeptIfAny, HaveKept};
ghost use Rattle.hosts.specs.Keeping.{HaveKeptBelow, IsDownIn, IsDownNode, IsSameSeat};
ghost use Rattle.hosts.specs.Keeping.{KeepsSeat, NoneOrBoth, RelatesSeats};
ghost use Rattle.hosts.specs.Views.{HostView};
ghost use Rattle.seats.specs.Occupant.{is_up, node_of};

use crate::beyond::is_up_if_any;
use crate::host::Host;
use crate::opens::Opens;
use node::NodeFault;
use seats::Seat;

/// Whether something that a node did waits to be kept, if there is one.
fn waits_if_any<O: Opens>(seat: &Option<Seat<O::Node>>) -> bool
    ensures { result ≡ false → HasKeptIfAny O.Opens seat.now }
{
    match seat {
        Some(seat) => O::waits(seat.node()),
        None => false,
    }
}

fn is_full_if_any<O: Opens>(seat: &Option<Seat<O::Node>>) -> bool {
    match seat {
        Some(seat) => O::is_full(seat.node()),
        None => false,
    }
}

/// A node keeps what it did, where something waits.
fn keep_seat<O: Opens>(seat: &mut Seat<O::Node>) -> Result<(), NodeFault>
    ensures keeps { OnOk result (KeepsSeat O.Opens seat.old seat.new) }
    ensures same { IsSameSeat seat.old seat.new }
    ensures fails { IfErr result (λ why. FailsInSeat O.Opens why seat.old seat.new) }
{
    if !O::waits(seat.node()) {
        return Ok(());
    }
    O::keep(seat)
}

/// The same, if there is one.
fn keep_if_any<O: Opens>(seat: &mut Option<Seat<O::Node>>) -> Result<(), NodeFault>
    ensures keeps { OnOk result (NoneOrBoth (KeepsSeat O.Opens) seat.old seat.new) }
    ensures same { NoneOrBoth IsSameSeat seat.old seat.new }
    ensures fails { IfErr result (λ why. FailsIfAny O.Opens why seat.old seat.new) }
{
    match seat {
        Some(seat) => keep_seat::<O>(seat),
        None => Ok(()),
    }
}

impl<O: Opens> Host<O> {
    /// Whether something that one of its nodes did waits to be kept.
    pub fn waits(&self) -> bool
        ensures { result ≡ false → HaveKept self.now }
    {
        waits_if_any::<O>(&self.before) || O::waits(self.own.node()) || O::waits(self.after.node())
    }

    /// Whether one of its nodes is to do no more before it keeps what it did.
    pub fn is_full(&self) -> bool {
        is_full_if_any::<O>(&self.before)
            || O::is_full(self.own.node())
            || O::is_full(self.after.node())
    }

    /// The epoch of a node that is down, if one is.
    pub fn crashed(&self) -> Option<u64>
        ensures { MatchOption result (are_up self.now ≡ true) (IsDownIn self.now) }
    {
        if !self.own.is_up() {
            return Some(self.number);
        }
        if !self.after.is_up() {
            return Some(self.number + 1);
        }
        if !is_up_if_any(&self.before) {
            return Some(self.number - 1);
        }
        None
    }

    /// A node that is down, if one is, and its epoch, where the host is let go.
    pub fn into_crashed(self) -> Option<(u64, O::Node)>
        ensures { MatchOption result (are_up self ≡ true) (λ fallen. IsDownNode self fallen.0 fallen.1) }
    {
        let Host {
            number,
            before,
            own,
            after,
            ..
        } = self;
        if !own.is_up() {
            return Some((number, own.into_node()));
        }
        if !after.is_up() {
            return Some((number + 1, after.into_node()));
        }
        let Some(before) = before else {
            return None;
        };
        if before.is_up() {
            return None;
        }
        Some((number - 1, before.into_node()))
    }

    /// Its nodes keep what they did, from the lowest epoch on: where one of them fails to, its epoch and why. That node is
    /// down then, and those of the epochs below have kept what they did.
    pub fn keep(&mut self) -> Result<(), (u64, NodeFault)>
        ensures keeps { OnOk result (RelatesSeats (KeepsSeat O.Opens) self.old self.new) }
        ensures kept { OnOk result (HaveKept self.new) }
        ensures up { OnOk result (are_up self.new ≡ are_up self.old) }
        ensures stands { OnOk result ((v : HostView) → StandsAs self.old v → StandsAs self.new v) }
        ensures nodes { RelatesSeats IsSameSeat self.old self.new }
        ensures same { SameHost self.old self.new }
        ensures members { AreMembers self.old → AreMembers self.new }
        ensures trust { KeepsTrust self.old self.new }
        ensures down { OnErr result (are_up self.new ≡ false) }
        ensures fails { IfErr result (λ why. FailsToKeep self.old why.0 why.1 self.new) }
        ensures below { IfErr result (λ why. HaveKeptBelow why.0 self.new) }
    {
        self.keep_each()
    }

    fn keep_each(&mut self) -> Result<(), (u64, NodeFault)>
        ensures keeps { OnOk result (RelatesSeats (KeepsSeat O.Opens) self.old self.new) }
        ensures nodes { RelatesSeats IsSameSeat self.old self.new }
        ensures down { OnErr result (are_up self.new ≡ false) }
        ensures fails { IfErr result (λ why. FailsToKeep self.old why.0 why.1 self.new) }
        ensures below { IfErr result (λ why. HaveKeptBelow why.0 self.new) }
    {
        if let Err(why) = keep_if_any::<O>(&mut self.before) {
            return Err((self.number - 1, why));
        }
        if let Err(why) = keep_seat::<O>(&mut self.own) {
            return Err((self.number, why));
        }
        if let Err(why) = keep_seat::<O>(&mut self.after) {
            return Err((self.number + 1, why));
        }
        Ok(())
    }
}
