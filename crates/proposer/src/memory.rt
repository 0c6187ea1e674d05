//! A lead over records in memory.

ghost use Rattle.std.specs.Prelude.{◌≡◌, ◌<◌, Err};
ghost use Rattle.ballots.specs.Ballots.{NoneAbove};
ghost use Rattle.ballots.specs.Limits.{most_places};
ghost use Rattle.proposer.specs.Turns.{limit};

use crate::fault::NodeFault;
use crate::proposer::Proposer;
use acceptor::PlainRecords;
use ballots::Letter;

/// Where the log has room and no ballot is left, a lead over records in memory is answered by RoundsSpent, and so takes
/// no memory.
pub fn lead_without_ballots(
    proposer: &mut Proposer,
    records: &mut PlainRecords,
    prefix: u64,
) -> Result<Vec<Letter>, NodeFault>
    requires room { prefix < most_places }
    requires spent { NoneAbove (limit records.old proposer.old.hint) proposer.old.id }
    ensures { result ≡ Err NodeFault.RoundsSpent }
{
    proposer.lead(records, prefix)
}
