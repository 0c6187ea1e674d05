//! Where the databases of a host's epochs are.

ghost use Rattle.std.specs.Prelude.{◌≡◌, ◌<◌, ℕ, Bool, Option, IfOk};
ghost use Rattle.std.specs.Result.{result_err};
ghost use Rattle.acceptor.specs.Content.{Content};
ghost use Rattle.ballots.specs.Members.{member_count};
ghost use Rattle.folder_hosts.specs.Databases.{KeepsDatabases};
ghost use Rattle.stored_nodes.specs.Starts.{HasStartedBeside};
ghost use Rattle.stored_nodes.specs.declared.start.StartFault.{StartFault as Why};

use ballots::{Members, NodeId};
use kept_node::WriteStore;
use node::Node;
use seats::PlainNode;
use stored_nodes::StartFault;

/// Opens the databases of a host's epochs, each of the same node as one of as many.
pub trait Databases: Drop {
    /// Where the writes of a node are stored.
    type Store: WriteStore;

    // The number of the nodes, and of how many each is one.
    ghost member: { Self → ℕ × ℕ };

    // A node that is new or goes on may begin over this content in the database of this epoch.
    ghost begins: { Self → ℕ → Bool → Content → Type 0 };

    // On the first the database of this epoch was opened, as a new one or one that is there, or that failed so, and it
    // was the second then.
    ghost opens: { Self → ℕ → Bool → Option Why → Self → Type 0 };

    // A look at the database of this epoch may tell so why no new node begins over it, or that one does.
    ghost tells: { Self → ℕ → Option Why → Type 0 };

    /// The number of the nodes.
    fn id(&self) -> NodeId
        ensures { result ≡ (member self.now).0 };

    /// Of how many each is one.
    fn members(&self) -> Members
        ensures { member_count result ≡ (member self.now).1 };

    /// The node of an epoch in memory beside the records of its database: a new one, where that holds nothing, or one
    /// that goes on over what it holds.
    fn open(&mut self, epoch: u64, is_new: bool) -> Result<(PlainNode, Self::Store), StartFault>
        ensures started { IfOk result (λ r. HasStartedBeside ⟦<PlainNode as Node>⟧.who ⟦<PlainNode as Node>⟧.stands (Self.Store.honest r.1)
            (Self.Store.may_find r.1) (begins self.old epoch) (member self.old).1 (member self.old).0 is_new r.0) }
        ensures some { 0 < (member self.old).1 }
        ensures opens { opens self.old epoch is_new (result_err result) self.new }
        ensures keeps { KeepsDatabases member begins self.old self.new };

    /// Refuses the database of an epoch where it holds anything, or isn't of these nodes. It stays as it is.
    fn refuse_used(&self, epoch: u64) -> Result<(), StartFault>
        ensures { tells self.now epoch (result_err result) };
}
