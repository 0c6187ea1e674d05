//! A node that keeps what it did by commits, and such a node in its seat.

ghost use Rattle.std.specs.Prelude.{◌≡◌, false, IfErr, OnErr, OnOk};
ghost use Rattle.proposer.specs.declared.fault.NodeFault.{NodeFault as Why};
ghost use Rattle.seats.specs.Keeping.{IsSameNode};

use crate::seat::Seat;
use node::{Node, NodeFault};

/// A node that keeps what it did by commits. What it answers is to go out only once that is kept.
pub trait Keeps: Node {
    // A crash leaves all that it did.
    ghost has_kept: { Self → Type 0 };

    // From the first on a commit failed so, and it was the second then.
    ghost fails_to_keep: { Self → Why → Self → Type 0 };

    /// Whether something that it did waits for a commit.
    fn waits(&self) -> bool
        ensures { result ≡ false → has_kept self.now };

    /// Whether it is to do no more before one.
    fn is_full(&self) -> bool;

    /// Keeps what it did.
    fn keep(&mut self) -> Result<(), NodeFault>
        ensures kept { OnOk result (has_kept self.new) }
        ensures same { IsSameNode Self.Node self.old self.new }
        ensures fails { IfErr result (λ why. fails_to_keep self.old why self.new) };
}

impl<N: Keeps> Seat<N> {
    ghost use Rattle.std.specs.Prelude.{◌≡◌, false, IfErr, OnErr, OnOk};
    ghost use Rattle.seats.specs.Keeping.{IsSameNode};
    ghost use Rattle.seats.specs.Occupant.{is_up, node_of};

    /// The node keeps what it did. Where that fails it crashes.
    pub fn keep(&mut self) -> Result<(), NodeFault>
        ensures kept { OnOk result (N.has_kept (node_of self.new)) }
        ensures same { IsSameNode N.Node (node_of self.old) (node_of self.new) }
        ensures up { OnOk result (is_up self.new ≡ is_up self.old) }
        ensures down { OnErr result (is_up self.new ≡ false) }
        ensures fails { IfErr result (λ why. N.fails_to_keep (node_of self.old) why (node_of self.new)) }
    {
        let kept = self.node.keep();
        if kept.is_err() {
            self.up = false;
        }
        kept
    }
}
