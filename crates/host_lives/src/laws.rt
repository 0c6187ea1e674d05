//! What holds of hosts that are processes.

ghost use Rattle.host_lives.specs.Batches.{BeginningsAreLives, KeptLinesAreDone, KeptLinesAreLives, KeptLinesGoOn};
ghost use Rattle.host_lives.specs.Lives.{HostsAreOneLog, HostsOfOneLifeAreOneLog};
ghost use Rattle.host_lives.specs.Served.{LifeIsLived, ServingIsLiving, ServingNewIsLiving};
ghost use Rattle.host_lives.specs.Starting.{StartsLife, StartsNew};

use epoch_runs::epochs_follow_one_log;
use hosts::{Host, Opens};
use node_service::{Lines, Outbox};

/// Let processes read lines and reply as hosts with as many places in an epoch. Each lives from its beginning over
/// records that hold nothing on. It may be killed and begin again over what it left, as often as it likes, behind the
/// epochs that it had passed, or behind a state that it was given. And let there be an order in which each letter of an
/// epoch was sent in that epoch before it came, and each state was told before a host went to it, or began again behind
/// it. Then what they did in each epoch is a run of fresh nodes, in which those of a host that began again crashed and
/// restarted, and these runs are one log. Each output that a host printed is the one at its number of it: with one
/// number goes one output, and at most one MAP that was printed covers a minislot. Each state that was told is one of
/// this log, and so is each output that was told again. The same holds of hosts that live once.
pub fn hosts_are_one_log()
    ensures lives { HostsAreOneLog }
    ensures once { HostsOfOneLifeAreOneLog }
{
    epochs_follow_one_log();
}

/// What `host_service::serve_host` says of a host that stood somewhere, whose nodes begin over what its records hold,
/// is that it has lived so from there; and of a new host over records that hold nothing, that it has lived its one life
/// so.
pub fn serving_is_living<P: Opens, I: Lines, O: Outbox>()
    ensures from { ServingIsLiving P.begins P.may_fail I.Lines O.Outbox }
    ensures new { ServingNewIsLiving P.begins P.may_fail I.Lines O.Outbox }
    ensures lived { LifeIsLived }
{}

/// Records of some epochs kept what came of lines that a host did together, and those of others didn't, as it was
/// killed: a host did the lines that were kept, and no other. So lives that end with such lines are lives that end with
/// those that were kept, also where the host begins again behind them; and what lives begin with are lives.
pub fn kept_lines_are_lives()
    ensures done { KeptLinesAreDone }
    ensures lives { KeptLinesAreLives }
    ensures on { KeptLinesGoOn }
    ensures beginnings { BeginningsAreLives }
{}

/// A host that started behind full epochs, or anew, and whose nodes begin over what its records hold, stands where a
/// life begins.
pub fn starting_is_living<P: Opens>(host: &Host<P>)
    ensures life { StartsLife host.now }
    ensures new { StartsNew host.now }
{}
