//! Where the nodes of epochs come from.

ghost use Rattle.std.specs.Prelude.{◌≡◌, ◌<◌, ℕ, List, IfErr, IfOk, IsTrue, OnErr, OnOk, false};
ghost use Rattle.acceptor.specs.Content.{Content, no_content};
ghost use Rattle.acceptor.specs.Found.{Holds};
ghost use Rattle.ballots.specs.Members.{member_count};
ghost use Rattle.proposer.specs.declared.fault.NodeFault.{NodeFault as Why};
ghost use Rattle.seats.specs.Keeping.{IsSameNode};
ghost use Rattle.seats.specs.Occupant.{is_up, node_of};
ghost use Rattle.hosts.specs.Opening.{IsOpenedAt, KeepsBeginnings};

use acceptor::{PlainRecords, Records};
use ballots::{Members, NodeId};
use node::{Node, NodeFault, SchedNode};
use seats::Seat;
use std::alloc::Global;
use std::marker::PhantomData;

/// Opens the nodes of epochs, each the same member of as many, and keeps the states at the starts of epochs.
pub trait Opens: Drop {
    /// A node of an epoch.
    type Node: Node;

    // The number of its nodes, and of how many each is one.
    ghost member: { Self → ℕ × ℕ };

    // What the records of an epoch's node may hold where it is opened.
    ghost begins: { Self → ℕ → Content → Type 0 };

    // A node may fail to open so, and a state not be kept.
    ghost may_fail: { Why → Type 0 };

    // The node of an epoch was opened from the first on, and it was the second then.
    ghost opens_node: { Self → ℕ → Self → Type 0 };

    // The state at the start of an epoch was kept so, of these bytes.
    ghost keeps_state: { Self → ℕ → List ℕ → Self → Type 0 };

    // What isn't needed where the state of this epoch counts was let go so.
    ghost lets_go: { Self → ℕ → Self → Type 0 };

    // A crash leaves all that a node did.
    ghost has_kept: { Self.Node → Type 0 };

    // From the first on a node failed so to keep what it did, and it was the second then.
    ghost fails_to_keep: { Self.Node → Why → Self.Node → Type 0 };

    /// The number of its nodes.
    fn id(&self) -> NodeId
        ensures { result ≡ (member self.now).0 };

    /// Of how many each is one.
    fn members(&self) -> Members
        ensures { member_count result ≡ (member self.now).1 };

    /// The node of an epoch, which is up.
    fn open(&mut self, epoch: u64) -> Result<Self::Node, NodeFault>
        ensures opened { IfOk result (IsOpenedAt Self.Node.who Self.Node.honest Self.Node.stands (member self.old) (begins self.old epoch)) }
        ensures sure { IfOk result (λ node. IsTrue (Self.Node.clean node) → IsTrue (Self.Node.honest node)) }
        ensures kept { IfOk result has_kept }
        ensures opens { OnOk result (opens_node self.old epoch self.new) }
        ensures fails { IfErr result may_fail }
        ensures keeps { KeepsBeginnings member begins self.old self.new };

    /// Keeps the state at the start of an epoch, which counts from then on.
    fn keep_state(&mut self, epoch: u64, state: &[u8]) -> Result<(), NodeFault>
        ensures kept { OnOk result (keeps_state self.old epoch state.now self.new) }
        ensures fails { IfErr result may_fail }
        ensures keeps { KeepsBeginnings member begins self.old self.new };

    /// Lets go of what isn't needed where the state of this epoch counts. What stays is let go the next time.
    fn let_go(&mut self, epoch: u64)
        ensures gone { lets_go self.old epoch self.new }
        ensures keeps { KeepsBeginnings member begins self.old self.new };

    /// Whether something that a node did waits to be kept.
    fn waits(node: &Self::Node) -> bool
        ensures { result ≡ false → has_kept node.now };

    /// Whether a node is to do no more before that.
    fn is_full(node: &Self::Node) -> bool;

    /// A node keeps what it did. Where that fails it crashes.
    fn keep(seat: &mut Seat<Self::Node>) -> Result<(), NodeFault>
        ensures kept { OnOk result (has_kept (node_of seat.new)) }
        ensures same { IsSameNode Self.Node.Node (node_of seat.old) (node_of seat.new) }
        ensures up { OnOk result (is_up seat.new ≡ is_up seat.old) }
        ensures down { OnErr result (is_up seat.new ≡ false) }
        ensures fails { IfErr result (λ why. fails_to_keep (node_of seat.old) why (node_of seat.new)) };
}

/// Records that can begin anew.
pub trait NewRecords: Records {
    /// Records that hold nothing.
    fn new_records(alloc: Global) -> Self
        ensures holds { Holds (Self.Records.may_find result) no_content }
        ensures sure { IsTrue (Self.Records.is_clean result) → IsTrue (Self.Records.is_honest result) };
}

impl NewRecords for PlainRecords {
    fn new_records(alloc: Global) -> PlainRecords {
        PlainRecords::new(alloc)
    }
}

/// Nodes over records that hold nothing, in each epoch. Nothing that they do waits, and no state is kept.
#[derive(Drop)]
pub struct NewNodes<R> {
    alloc: Global,
    id: NodeId,
    members: Members,
    of: PhantomData<R>,
    ghost one_of_them: { id < member_count members },
}

/// Nodes with records in memory.
pub type PlainOpens = NewNodes<PlainRecords>;

impl<R: NewRecords> NewNodes<R> {
    ghost use Rattle.std.specs.Prelude.{◌≡◌, ◌<◌, ◌≤◌, MatchOption};
    ghost use Rattle.hosts.specs.New.{new_member};

    /// The nodes of this number, which has to be below how many there are.
    pub fn new(alloc: Global, id: NodeId, members: Members) -> Option<NewNodes<R>>
        ensures { MatchOption result (member_count members ≤ id)
            (λ opens. (id < member_count members) × (new_member opens ≡ (id, member_count members))) }
    {
        if members.count() <= id.number() {
            return None;
        }
        Some(NewNodes {
            alloc,
            id,
            members,
            of: PhantomData,
        })
    }
}

impl<R: NewRecords + Drop> Opens for NewNodes<R> {
    ghost use Rattle.hosts.specs.New.{new_member};

    type Node = SchedNode<R>;

    ghost member = { λ opens. new_member opens };

    ghost begins = { λ _ _ content. content ≡ no_content };

    ghost may_fail = { λ _. ⊥ };

    ghost opens_node = { λ old _ new. new ≡ old };

    ghost keeps_state = { λ old _ _ new. new ≡ old };

    ghost lets_go = { λ old _ new. new ≡ old };

    ghost has_kept = { λ _. Unit {0} };

    ghost fails_to_keep = { λ _ _ _. ⊥ };

    fn id(&self) -> NodeId {
        self.id
    }

    fn members(&self) -> Members {
        self.members
    }

    fn open(&mut self, epoch: u64) -> Result<SchedNode<R>, NodeFault> {
        let records = R::new_records(self.alloc);
        Ok(SchedNode::new(self.alloc, self.id, self.members, records))
    }

    fn keep_state(&mut self, epoch: u64, state: &[u8]) -> Result<(), NodeFault> {
        Ok(())
    }

    fn let_go(&mut self, epoch: u64) {}

    fn waits(node: &SchedNode<R>) -> bool {
        false
    }

    fn is_full(node: &SchedNode<R>) -> bool {
        false
    }

    fn keep(seat: &mut Seat<SchedNode<R>>) -> Result<(), NodeFault> {
        Ok(())
    }
}
