//! A node over its records.

ghost use Rattle.std.specs.Prelude.{◌≡◌, ◌<◌, false, IsTrue};
ghost use Rattle.ballots.specs.Members.{member_count};
ghost use Rattle.acceptor.specs.Content.{Content};
ghost use Rattle.acceptor.specs.Found.{Holds};
ghost use Rattle.node.specs.Sched.{Stands, rest_of, who_of};
ghost use Rattle.node.specs.View.{Standing, made};
ghost use Rattle.node.specs.View.Standing.{Running};

use crate::heeded::is_heeded;
use crate::knowledge::Knowledge;
use crate::node::Node;
use crate::parts::Parts;
use acceptor::Records;
use ballots::{Bytes, Letter, Members, NodeId};
use map_release::Numbered;
use proposer::{NodeFault, Proposer, Role};
use std::alloc::Global;

/// A node of the scheduler over its records. While these are honest there is a standing that it may be in.
#[derive(Drop)]
pub struct SchedNode<R: Records> {
    parts: Parts<R>,
    ghost somewhere: { IsTrue (R.is_honest parts.records) → ∥ ((s : Standing) × Stands R.may_find parts s) ∥₁ },
}

impl<R: Records + Drop> SchedNode<R> {
    /// A node over these records, with a member's number, that has read none of them: of what they hold as learned a
    /// restart tells it. Where they are honest they hold some content, and so aren't in doubt of a write.
    pub fn new(alloc: Global, id: NodeId, members: Members, records: R) -> SchedNode<R>
        requires member { id < member_count members }
        requires certain { IsTrue (R.is_honest records) → ∥ ((c : Content) × Holds (R.may_find records) c) ∥₁ }
        ensures who { ⟦<SchedNode<R> as Node>⟧.who result
            ≡ record { id = id; members = member_count members; failures = R.count_of records; broken = R.is_broken records; down = false } }
        ensures honest { ⟦<SchedNode<R> as Node>⟧.honest result ≡ R.is_honest records }
        ensures clean { ⟦<SchedNode<R> as Node>⟧.clean result ≡ R.is_clean records }
        ensures stands { (c : Content) → Holds (R.may_find records) c → ⟦<SchedNode<R> as Node>⟧.stands result (Running (made c)) }
    {
        SchedNode {
            parts: Parts {
                alloc,
                records,
                proposer: Proposer::new(alloc, id, members),
                knowledge: Knowledge::new(alloc),
                is_down: false,
            },
        }
    }
}

impl<R: Records + Drop> Node for SchedNode<R> {
    ghost use Rattle.std.specs.Prelude.{Option};

    ghost who = { λ n. who_of R.count_of R.is_broken n.parts };

    ghost honest = { λ n. R.is_honest n.parts.records };

    ghost clean = { λ n. R.is_clean n.parts.records };

    ghost stands = { λ n s. Stands R.may_find n.parts s };

    ghost role = { λ n. n.parts.proposer.role };

    ghost values = { λ n. n.parts.knowledge.tally.learned };

    ghost rest = { λ n. rest_of n.parts };

    ghost found_no_memory = { λ n. (mid : R) × R.finds_no_memory mid n.parts.records × R.finds_no_ballot mid n.parts.records };

    ghost reopens = { λ old _. (mid : R) × R.reopens old.parts.records mid };

    fn id(&self) -> NodeId {
        self.parts.proposer.id()
    }

    fn members(&self) -> Members {
        self.parts.proposer.members()
    }

    fn failures(&self) -> u64 {
        self.parts.records.failures()
    }

    fn role(&self) -> &Role {
        self.parts.proposer.role()
    }

    fn learned(&self, place: u64) -> Option<&Bytes> {
        self.parts.knowledge.learned(place)
    }

    fn receive(&mut self, letter: &Letter) -> Result<Vec<Letter>, NodeFault> {
        if self.parts.is_down {
            return Err(NodeFault::Down);
        }
        if !is_heeded(
            self.parts.proposer.members(),
            self.parts.proposer.id(),
            letter,
        ) {
            return Ok(Vec::new(self.parts.alloc));
        }
        self.parts.heed(letter)
    }

    fn lead(&mut self) -> Result<Vec<Letter>, NodeFault> {
        if self.parts.is_down {
            return Err(NodeFault::Down);
        }
        self.parts.lead_up()
    }

    fn offer(&mut self, value: &[u8]) -> Result<Vec<Letter>, NodeFault> {
        if self.parts.is_down {
            return Err(NodeFault::Down);
        }
        self.parts.propose(value)
    }

    fn tell(&self, to: NodeId, place: u64) -> Result<Vec<Letter>, NodeFault> {
        if self.parts.is_down {
            return Err(NodeFault::Down);
        }
        self.parts.told(to, place)
    }

    fn release(&mut self, now: u64) -> Result<Vec<Numbered>, NodeFault> {
        if self.parts.is_down {
            return Err(NodeFault::Down);
        }
        self.parts.release_up(now)
    }

    fn restart(&mut self) -> Result<(), NodeFault> {
        self.parts.start_over()
    }

    fn is_fresh(&mut self) -> Result<bool, NodeFault> {
        if self.parts.is_down {
            return Err(NodeFault::Down);
        }
        self.parts.tells_fresh()
    }
}
