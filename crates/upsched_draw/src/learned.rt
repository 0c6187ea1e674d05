//! The commands that the nodes of a world have learned.

ghost use Rattle.std.specs.Prelude.{◌≡◌, ◌<◌, ◌≤◌, List, IfOk, length};
ghost use Rattle.std.specs.Option.{option_copied};
ghost use Rattle.network_script.specs.Seats.{AreStandings};
ghost use Rattle.node.specs.View.{Standing};
ghost use Rattle.seats.specs.Occupant.{Stands};
ghost use Rattle.upsched_draw.specs.Learned.{AreLearned, AreMostLearned, learned_at};

use ballots::Bytes;
use command_log::read_command;
use grant_machine::Command;
use node::Node;
use seats::Seat;
use std::alloc::{AllocError, Global};

/// As many commands as are drawn, and one: a log has no more places than a tenth of them.
const MANY: u64 = 10_000_000;

/// The value that a node in its seat has learned at a place. One that is down knows nothing.
fn learned_at<N: Node>(seat: &Seat<N>, place: u64) -> Option<&Bytes>
    ensures { (s : Standing) → Stands seat.now s → option_copied result ≡ learned_at s place }
{
    if !seat.is_up() {
        return None;
    }
    seat.node().learned(place)
}

/// The commands that a node in its seat has learned from place 1 on without a gap.
fn commands_of<N: Node>(alloc: Global, seat: &Seat<N>) -> Result<Vec<Command>, AllocError>
    ensures { IfOk result (λ commands. (s : Standing) → Stands seat.now s → AreLearned s commands.items) }
{
    let mut commands = Vec::new(alloc);
    for place in 1..MANY {
        let Some(value) = learned_at(seat, place) else {
            return Ok(commands);
        };
        commands.push(read_command(value.as_slice()).0)?;
    }
    Err(AllocError)
}

/// The longer of two lists of commands, the first of two that are as long.
fn longer(first: Vec<Command>, second: Vec<Command>) -> Vec<Command>
    ensures second { length first.items < length second.items → result.items ≡ second.items }
    ensures first { length second.items ≤ length first.items → result.items ≡ first.items }
{
    if first.len() < second.len() {
        second
    } else {
        first
    }
}

/// The commands of the node that has learned most of them from place 1 on without a gap.
pub(crate) fn most_learned<N: Node>(
    alloc: Global,
    seats: &[Seat<N>],
) -> Result<Vec<Command>, AllocError>
    ensures { IfOk result (λ commands. (nodes : List Standing) → AreStandings seats.now nodes → AreMostLearned nodes commands.items) }
{
    let mut most = Vec::new(alloc);
    for seat in seats {
        most = longer(most, commands_of(alloc, seat)?);
    }
    Ok(most)
}
