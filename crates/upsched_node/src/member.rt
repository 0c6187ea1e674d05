//! The member that words name.

ghost use Rattle.std.specs.Prelude.{ℕ, MatchOption};
ghost use Rattle.ballots.specs.declared.members.Members.{Members};
ghost use Rattle.upsched_node.specs.Member.{NamesMember};

use ballots::{Members, NodeId};
use upsched_ends::{digit_of, members_of};

/// The member that these words name, and of how many: each word is one digit, the second 3 or 5, and the first a number
/// below that.
pub fn member_of(number: &str, members: &str) -> Option<(NodeId, Members)>
    ensures { MatchOption result ((id : ℕ) (count : Members) → ¬ NamesMember number.now members.now id count)
        (λ named. NamesMember number.now members.now named.0 named.1) }
{
    let members = members_of(members)?;
    let number = digit_of(number)?;
    if number >= members.count() {
        return None;
    }
    let id = NodeId::new(number)?;
    Some((id, members))
}
