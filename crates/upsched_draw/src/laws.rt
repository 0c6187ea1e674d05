//! What holds of the commands that nodes have learned, whatever is lost, repeated and reordered, and whichever nodes
//! crash.

ghost use Rattle.network_script.specs.Headline.{OfEveryRun};
ghost use Rattle.upsched_draw.specs.Learned.{MostAreChosen, MostAreOne};

use network_script::{headline, votes_legal};

/// The most that a node has learned after a run are the commands of chosen values, and those of one list, whichever
/// node has learned them.
pub fn most_learned_is_one()
    ensures chosen { OfEveryRun MostAreChosen }
    ensures one { OfEveryRun MostAreOne }
{
    votes_legal();
    headline();
}
