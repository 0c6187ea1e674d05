//! What a cut reads of the rows, and writes back.

ghost use Rattle.std.specs.Prelude.{◌≡◌, not, map, Some, OnOk};
ghost use Rattle.std.specs.List.{list_any, AllByRecursion};
ghost use Rattle.grant_machine_parts.specs.Cutting.{is_grant_of};
ghost use Rattle.grant_machine_parts.specs.Granted.{AreNumbered};
ghost use Rattle.flow_state.specs.Rows.{Table, table_of};
ghost use Rattle.flow_state.specs.Changes.{TellsDue};
ghost use Rattle.grant_machine.specs.CutRows.{rank_in, rows_closed};

use flow_state::{ChannelTable, Flow, Flows, LAST_TIME, Waiting};
use grant_machine_parts::{Grants, Placement, Ranked, kind_priority};
use std::alloc::AllocError;

/// A request with the priority of its flow and the last minislot of the flow's lease.
fn rank(table: &ChannelTable, request: &Waiting) -> Ranked
    ensures { result ≡ rank_in table.now request.now }
{
    match table.flow_of(request.sid) {
        Some(flow) => Ranked {
            priority: kind_priority(flow.kind),
            last: flow.lease.last,
            request: *request,
        },
        None => Ranked {
            priority: 0,
            last: LAST_TIME,
            request: *request,
        },
    }
}

/// Puts the waiting requests, by arrival, with the priorities of their flows and the last minislots of their leases,
/// over what is there.
pub fn rank_requests(table: &ChannelTable, ranked: &mut Vec<Ranked>) -> Result<(), AllocError>
    ensures { OnOk result (ranked.new.items ≡ map (rank_in table.now) table.now.waiting) }
{
    ranked.clear();
    ranked.reserve(table.requests().len())?;
    for request in table.requests() {
        ranked.push_reserved(rank(table, request));
    }
    Ok(())
}

/// Closes a channel's MAP up to an end. It sets the next due times of flows, and takes the requests that are granted
/// out of those that wait. Flows whose leases end before are gone, with their requests. It takes no memory.
pub fn close(
    flows: &mut Flows,
    ch: u8,
    served: &[Flow],
    placements: &[Placement],
    end: u64,
    ack: u64,
)
    requires { (t : Table) → table_of flows.old ch ≡ Some t → AllByRecursion (TellsDue t) served.now }
    ensures { flows.new ≡ rows_closed flows.old ch served.now placements.now end ack }
{
    let grants = Grants::of(placements);
    flows.finish_cut(
        ch,
        served,
        |request: &Waiting| -> bool
            requires { AreNumbered grants placements.now }
            ensures { result ≡ not (list_any (is_grant_of request.now) placements.entry.now) }
        { !grants.have(placements, request) },
        end,
        ack,
    );
}
