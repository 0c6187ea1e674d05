//! Whose a database of version 3 or 4 is.

ghost use Rattle.std.specs.Prelude.{◌≡◌, IfNone, IfSome};
ghost use Rattle.ballots.specs.Members.{member_count};
ghost use Rattle.acceptor_store_parts.specs.Owned.{IsOwner, owner_bytes, version_for};

use crate::Version;
use ballots::{Members, NodeId};

/// A node, and the members that it is one of.
#[derive(Clone, Copy, Debug, Drop, PartialEq, Eq)]
pub struct Owner {
    pub node: NodeId,
    pub members: Members,
}

/// The version of the tables that records of this owner, or of none, are served from.
pub fn version_of_owner(owner: Option<Owner>) -> Version
    ensures { result ≡ version_for owner }
{
    match owner {
        None => Version::Second,
        Some(_) => Version::Fourth,
    }
}

/// The bytes that stand for the owner: its node's number, and how many members there are.
pub fn bytes_of(owner: Owner) -> [u8; 2]
    ensures { result ≡ owner_bytes owner }
{
    [owner.node.number(), owner.members.count()]
}

/// The owner that these bytes stand for, if they are any's.
pub fn owner_of(bytes: &[u8]) -> Option<Owner>
    ensures some { IfSome result (λ owner. bytes.now ≡ owner_bytes owner) }
    ensures fits { IfSome result IsOwner }
    ensures none { IfNone result ((owner : Owner) → IsOwner owner → bytes.now ≡ owner_bytes owner → ⊥) }
{
    if bytes.len() != 2 {
        return None;
    }
    let node = NodeId::new(bytes[0])?;
    let members = Members::of(bytes[1])?;
    Some(Owner { node, members })
}
