//! A node that serves lines, and stores its writes together.

ghost use Rattle.batched_node.specs.Serves.{ServesBatchedAs};
ghost use Rattle.node.specs.View.{View};
ghost use Rattle.node.specs.View.Standing.{Running};
ghost use Rattle.seats.specs.Occupant.{Stands, who_of};

use crate::seat::BatchedSeat;
use kept_node::WriteStore;
use node_lines::Ahead;
use node_service::{BatchedEnd, Keeper, Lines, Outbox, serve_batched};
use std::alloc::Global;

/// A node replies to each line that comes. What lines that have come together write is stored together, and only then
/// the replies go out to those that wrote and to all behind them.
pub fn serve_batched_member<W: WriteStore, I: Lines + Ahead, O: Outbox>(
    alloc: Global,
    seat: &mut BatchedSeat<W>,
    input: &mut I,
    output: &mut O,
) -> BatchedEnd
    requires noted { ⟦<BatchedSeat<W> as Keeper>⟧.has_noted seat.old }
    requires room { ⟦<BatchedSeat<W> as Keeper>⟧.has_room seat.old }
    requires kept { ⟦<BatchedSeat<W> as Keeper>⟧.has_kept seat.old }
    ensures { (view : View) → Stands seat.old.seat (Running view)
        → ServesBatchedAs W.WriteStore I.Lines O.Outbox (who_of seat.old.seat).members (who_of seat.old.seat).id (Running view) result
        input.old output.old input.new output.new seat.new.noted.store }
{
    serve_batched(alloc, seat, input, output)
}
