//! Values that a scheduler takes from a node.

ghost use Rattle.std.specs.Prelude.{◌≡◌, ◌+◌, ◌<◌, ◌≤◌, OnOk};
ghost use Rattle.epochs.specs.Scheduling.{most_applied};
ghost use Rattle.hosts.specs.Taking.{IsAllOf, TakesFrom};

use epochs::Scheduler;
use node::Node;
use seats::Seat;
use std::alloc::AllocError;

/// Applies what a node that is up has learned behind the first places, of which so many were taken before, one after
/// another, up to the first place that it lacks or the last that counts.
pub(crate) fn take_up<N: Node>(
    seat: &Seat<N>,
    places: u64,
    taken: &mut u64,
    scheduler: &mut Scheduler,
) -> Result<(), AllocError>
    requires within { taken.old ≤ places }
    requires room { scheduler.old.applied + places < most_applied + taken.old }
    ensures takes { TakesFrom seat.now places taken.old scheduler.old taken.new scheduler.new }
    ensures all { OnOk result (IsAllOf seat.now places taken.new) }
{
    if !seat.is_up() {
        return Ok(());
    }
    for place in *taken..places {
        let Some(value) = seat.node().learned(place + 1) else {
            return Ok(());
        };
        if scheduler.apply(value.as_slice()).is_err() {
            return Err(AllocError);
        }
        *taken = place + 1;
    }
    Ok(())
}
