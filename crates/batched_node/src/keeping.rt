//! What the calls did is kept by commits: their writes are stored together.

ghost use Rattle.std.specs.Prelude.{◌≡◌, false};
ghost use Rattle.seats.specs.Occupant.{is_up};

use crate::seat::BatchedSeat;
use ballots::Bytes;
use kept_node::WriteStore;
use node::{Node, NodeFault};
use node_lines::LineFault;
use node_service::{Keeper, Reply, request_of};
use seats::{Acted, Asked, PlainNode, Seat};
use std::alloc::Global;

/// The node crashes, if it is up.
fn crash(seat: &mut Seat<PlainNode>)
    ensures { is_up seat.new ≡ false }
{
    let _crashed = seat.act(Asked::Crash);
}

impl<W: WriteStore> Keeper for BatchedSeat<W> {
    ghost use Rattle.std.specs.Prelude.{◌≡◌, ◌<◌, false, vec_capacity};
    ghost use Rattle.acceptor.specs.declared.records.RecordsFault.{RecordsFault};
    ghost use Rattle.batched_node.specs.Noted.{IsAllNoted, RepliesBy, fault_of};
    ghost use Rattle.kept_node.specs.Noted.{FailsToStore, HasRoom, IsKept};
    ghost use Rattle.seats.specs.Occupant.{is_up, node_of, who_of};

    type Reply = Reply;

    ghost up = { λ b. is_up b.seat };

    ghost replies = { λ old came given new. RepliesBy old.seat came given new.seat × (new.noted.store ≡ old.noted.store) };

    ghost has_noted = { λ b. IsAllNoted W.WriteStore b.noted (who_of b.seat) (node_of b.seat).parts.records × (0 < vec_capacity b.noted.waiting) };

    ghost is_apart = { λ line. false };

    ghost has_room = { λ b. HasRoom b.noted };

    ghost has_kept = { λ b. IsKept W.WriteStore b.noted.store (node_of b.seat).parts.records };

    ghost commits = { λ old new. new.seat ≡ old.seat };

    ghost fails = { λ old given new. (why : RecordsFault) × (given ≡ fault_of why)
        × FailsToStore W.WriteStore why old.noted.store new.noted.store (node_of old.seat).parts.records };

    ghost may_tell = { λ told given. false };

    ghost leaves = { λ b given. ⊥ };

    fn can_act(&self) -> bool {
        self.seat.is_up()
    }

    fn is_apart(&self, line: &Bytes) -> bool {
        false
    }

    fn reply_to(&mut self, alloc: Global, line: Result<Bytes, LineFault>) -> Reply {
        match request_of(alloc, line) {
            Ok(asked) => Reply::Acted(self.obey(&asked)),
            Err(why) => Reply::Refused(why),
        }
    }

    fn waits(&self) -> bool {
        self.noted.waits()
    }

    fn is_full(&self) -> bool {
        self.noted.is_full()
    }

    fn may_tell(told: &Reply, reply: &Reply) -> bool {
        false
    }

    fn commit(&mut self) -> Result<(), Reply> {
        let id = self.seat.node().id();
        match self.noted.store_waiting(id) {
            Ok(()) => Ok(()),
            Err(fault) => {
                crash(&mut self.seat);
                Err(Reply::Acted(Acted::Fault(NodeFault::from(fault))))
            }
        }
    }
}
