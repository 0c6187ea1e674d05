//! Letters to all members.

ghost use Rattle.std.specs.Prelude.{◌≡◌, IfOk};
ghost use Rattle.ballots.specs.Members.{member_count};
ghost use Rattle.proposer.specs.Letters.{to_all};

use ballots::{Letter, Members, NodeId, Note};
use std::alloc::{AllocError, Global};

/// One letter to each member, its sender too, by ascending number.
pub fn to_all(
    alloc: Global,
    members: Members,
    from: NodeId,
    note: &Note,
) -> Result<Vec<Letter>, AllocError>
    ensures { IfOk result (λ letters. letters.items ≡ to_all (member_count members) from note.now) }
{
    let mut letters = Vec::with_capacity(alloc, usize::from(members.count()))?;
    for number in 0..members.count() {
        if let Some(to) = NodeId::new(number) {
            letters.push(Letter {
                from,
                to,
                note: note.copy(alloc)?,
            })?;
        }
    }
    Ok(letters)
}
