//! The nodes of three epochs, as they are opened.

ghost use Rattle.std.specs.Prelude.{◌≡◌, ◌<◌, ◌≤◌, ◌-◌, ◌^◌, true, IfErr, IfOk, OnOk};
ghost use Rattle.hosts.specs.Opened.{IsOpened};
ghost use Rattle.hosts.specs.Opening.{KeepsBeginnings, OpensAll};
ghost use Rattle.hosts.specs.Starting.{IsOpenedBefore, IsWindow, opened_before, opened_in};

use crate::opens::Opens;
use node::{Node, NodeFault};
use seats::Seat;

/// The nodes of an epoch, of the one after and, where it is there, of the one before.
#[derive(Drop)]
pub(crate) struct Window<N: Node> {
    pub before: Option<Seat<N>>,
    pub own: Seat<N>,
    pub after: Seat<N>,
}

/// Opens the node of an epoch.
pub(crate) fn open_seat<O: Opens>(opens: &mut O, epoch: u64) -> Result<Seat<O::Node>, NodeFault>
    ensures opened { IfOk result (IsOpened O.Opens opens.old epoch) }
    ensures opens { OnOk result (O.opens_node opens.old epoch opens.new) }
    ensures fails { IfErr result O.may_fail }
    ensures keeps { KeepsBeginnings O.member O.begins opens.old opens.new }
{
    Ok(Seat::new(opens.open(epoch)?))
}

/// Opens the node of the epoch before one, where it is to be there.
fn open_before<O: Opens>(
    opens: &mut O,
    epoch: u64,
    has_before: bool,
) -> Result<Option<Seat<O::Node>>, NodeFault>
    requires { has_before ≡ true → 1 < epoch }
    ensures opened { IfOk result (IsOpenedBefore O.Opens opens.old epoch has_before) }
    ensures opens { OnOk result (OpensAll O.opens_node opens.old (opened_before epoch has_before) opens.new) }
    ensures fails { IfErr result O.may_fail }
    ensures keeps { KeepsBeginnings O.member O.begins opens.old opens.new }
{
    if !has_before {
        return Ok(None);
    }
    Ok(Some(open_seat(opens, epoch - 1)?))
}

/// Opens the nodes of an epoch, of the one after, and of the one before, where that is to be there.
pub(crate) fn open_window<O: Opens>(
    opens: &mut O,
    epoch: u64,
    has_before: bool,
) -> Result<Window<O::Node>, NodeFault>
    requires some { has_before ≡ true → 1 < epoch }
    requires few { epoch < 2 ^ 64 - 1 }
    ensures opened { IfOk result (IsWindow O.Opens opens.old epoch has_before) }
    ensures opens { OnOk result (OpensAll O.opens_node opens.old (opened_in epoch has_before) opens.new) }
    ensures fails { IfErr result O.may_fail }
    ensures keeps { KeepsBeginnings O.member O.begins opens.old opens.new }
{
    let before = open_before(opens, epoch, has_before)?;
    let own = open_seat(opens, epoch)?;
    let after = open_seat(opens, epoch + 1)?;
    Ok(Window { before, own, after })
}
