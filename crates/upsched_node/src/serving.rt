//! A member that serves.

ghost use Rattle.node.specs.View.{Standing};
ghost use Rattle.seats.specs.Occupant.{IsHonest, Stands, who_of};
ghost use Rattle.upsched_node.specs.Serving.{ServesAs};

use node::Node;
use node_service::{End, Input, Output, serve};
use seats::Seat;
use std::alloc::Global;

/// A node in its seat replies to each line that comes.
pub fn serve_member<N: Node, I: Input, O: Output>(
    alloc: Global,
    seat: &mut Seat<N>,
    input: &mut I,
    output: &mut O,
) -> End
    ensures { IsHonest seat.new → (s : Standing) → Stands seat.old s
        → ServesAs I.Input O.Output (who_of seat.old).members (who_of seat.old).id s result input.old output.old input.new output.new }
{
    serve(alloc, seat, input, output)
}
