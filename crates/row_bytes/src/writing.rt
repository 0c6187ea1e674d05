//! Writing tables, a field at a time.

ghost use Rattle.std.specs.Prelude.{◌≡◌, ◌++◌, ◌<◌, ◌^◌, All, IfOk, OnErr, OnOk, Some, length};
ghost use Rattle.std.specs.List.{AllByRecursion, flat_map, slice_get};
ghost use Rattle.flow_state.specs.Firm.{AreFirm};
ghost use Rattle.flow_state.specs.Rows.{Table};
ghost use Rattle.grant_machine.specs.Fits.{FitsKind};
ghost use Rattle.row_bytes.specs.Fits.{FitsLease, FitsFlow, FitsRequest, FitsRow, FitsSent, FitsTable};
ghost use Rattle.row_bytes.specs.Tables.{Spells};
ghost use Rattle.row_bytes.specs.Spelling.{flow_spelling, flows_spelling, lease_spelling, leases_spelling};
ghost use Rattle.row_bytes.specs.Spelling.{requests_spelling, number_2, number_4, number_8, request_spelling};
ghost use Rattle.row_bytes.specs.Spelling.{row_spelling, rows_spelling, sent_spelling, table_spelling};

use command_log::{put_kind, put_setting};
use flow_state::{ChannelRow, ChannelTable, Flow, FlowKind, Flows, Lease, Waiting};
use std::alloc::{AllocError, Global};

#[tactic(auto, unfolding(crate::specs::Spelling::number_2))]
fn put_u16(out: &mut Vec<u8>, n: u16) -> Result<(), AllocError>
    ensures { OnOk result (out.new.items ≡ out.old.items ++ number_2 n) }
{
    out.extend_from_slice(&n.to_be_bytes())?;
    Ok(())
}

#[tactic(auto, unfolding(crate::specs::Spelling::number_4))]
fn put_u32(out: &mut Vec<u8>, n: u32) -> Result<(), AllocError>
    ensures { OnOk result (out.new.items ≡ out.old.items ++ number_4 n) }
{
    out.extend_from_slice(&n.to_be_bytes())?;
    Ok(())
}

#[tactic(auto, unfolding(crate::specs::Spelling::number_8))]
fn put_u64(out: &mut Vec<u8>, n: u64) -> Result<(), AllocError>
    ensures { OnOk result (out.new.items ≡ out.old.items ++ number_8 n) }
{
    out.extend_from_slice(&n.to_be_bytes())?;
    Ok(())
}

fn put_lease(out: &mut Vec<u8>, lease: &Lease) -> Result<(), AllocError>
    ensures fits { OnOk result (FitsLease lease.now) }
    ensures spelled { OnOk result (out.new.items ≡ out.old.items ++ lease_spelling lease.now) }
{
    put_u32(out, lease.modem)?;
    put_u32(out, lease.tag)?;
    put_u64(out, lease.first)?;
    put_u64(out, lease.last)
}

fn put_sent(out: &mut Vec<u8>, sent: Option<u64>) -> Result<(), AllocError>
    ensures fits { OnOk result (FitsSent sent) }
    ensures spelled { OnOk result (out.new.items ≡ out.old.items ++ sent_spelling sent) }
{
    match sent {
        None => {
            out.extend_from_slice(&[0])?;
            Ok(())
        }
        Some(time) => {
            out.extend_from_slice(&[1])?;
            put_u64(out, time)
        }
    }
}

fn put_request(out: &mut Vec<u8>, request: &Waiting) -> Result<(), AllocError>
    ensures fits { OnOk result (FitsRequest request.now) }
    ensures spelled { OnOk result (out.new.items ≡ out.old.items ++ request_spelling request.now) }
{
    put_u16(out, request.sid)?;
    put_u16(out, request.n)?;
    put_u64(out, request.sent)
}

// A service fits the types of its fields.
fn kind_fits(kind: FlowKind)
    ensures { FitsKind kind }
{
    match kind {
        FlowKind::BestEffort(_) => {}
        FlowKind::Ugs { .. } => {}
        FlowKind::Poll { .. } => {}
        FlowKind::Station { .. } => {}
        FlowKind::Initial { .. } => {}
    }
}

fn put_flow(out: &mut Vec<u8>, flow: &Flow) -> Result<(), AllocError>
    ensures fits { OnOk result (FitsFlow flow.now) }
    ensures spelled { OnOk result (out.new.items ≡ out.old.items ++ flow_spelling flow.now) }
{
    kind_fits(flow.kind);
    put_u16(out, flow.lease.sid)?;
    put_kind(out, flow.kind)?;
    put_u64(out, flow.due)?;
    put_sent(out, flow.last_sent)
}

fn put_leases(out: &mut Vec<u8>, leases: &[Lease]) -> Result<(), AllocError>
    requires { length leases.now < 2 ^ 16 }
    ensures fits { OnOk result (All FitsLease leases.now) }
    ensures spelled { OnOk result (out.new.items ≡ out.old.items ++ leases_spelling leases.now) }
{
    put_u16(out, leases.len() as u16)?;
    for lease in leases {
        put_lease(out, lease)?;
    }
    Ok(())
}

fn put_flows(out: &mut Vec<u8>, flows: &[Flow]) -> Result<(), AllocError>
    requires { length flows.now < 2 ^ 16 }
    ensures fits { OnOk result (All FitsFlow flows.now) }
    ensures spelled { OnOk result (out.new.items ≡ out.old.items ++ flows_spelling flows.now) }
{
    put_u16(out, flows.len() as u16)?;
    for flow in flows {
        put_flow(out, flow)?;
    }
    Ok(())
}

fn put_requests(out: &mut Vec<u8>, requests: &[Waiting]) -> Result<(), AllocError>
    requires { length requests.now < 2 ^ 8 }
    ensures fits { OnOk result (All FitsRequest requests.now) }
    ensures spelled { OnOk result (out.new.items ≡ out.old.items ++ requests_spelling requests.now) }
{
    out.extend_from_slice(&[requests.len() as u8])?;
    for request in requests {
        put_request(out, request)?;
    }
    Ok(())
}

fn put_row(out: &mut Vec<u8>, row: &ChannelRow) -> Result<(), AllocError>
    ensures fits { OnOk result (FitsRow row.now) }
    ensures spelled { OnOk result (out.new.items ≡ out.old.items ++ row_spelling row.now) }
{
    put_setting(out, row.channel)?;
    put_u64(out, row.next_start)?;
    put_u64(out, row.ack)
}

/// Writes a table. Its flows are copied into `flows`, over what is there.
fn put_table(
    out: &mut Vec<u8>,
    flows: &mut Vec<Flow>,
    table: &ChannelTable,
) -> Result<(), AllocError>
    ensures fits { OnOk result (FitsTable table.now) }
    ensures spelled { OnOk result (out.new.items ≡ out.old.items ++ table_spelling table.now) }
{
    put_row(out, table.row())?;
    put_leases(out, table.leases())?;
    table.copy_flows(flows)?;
    put_flows(out, flows.as_slice())?;
    put_requests(out, table.requests())
}

/// Writes table number k.
fn put_table_at(
    out: &mut Vec<u8>,
    flows: &mut Vec<Flow>,
    rows: &Flows,
    k: usize,
) -> Result<(), AllocError>
    requires { k < length rows.now }
    ensures { (t : Table) → slice_get rows.now k ≡ Some t → OnOk result (FitsTable t × (out.new.items ≡ out.old.items ++ table_spelling t)) }
{
    let Some(table) = rows.table_at(k) else {
        unreachable!()
    };
    put_table(out, flows, table)
}

/// Writes each table.
fn put_tables(out: &mut Vec<u8>, flows: &mut Vec<Flow>, rows: &Flows) -> Result<(), AllocError>
    ensures fits { OnOk result (AllByRecursion FitsTable rows.now) }
    ensures spelled { OnOk result (out.new.items ≡ out.old.items ++ flat_map table_spelling rows.now) }
{
    for k in 0..rows.channels() {
        put_table_at(out, flows, rows, k)?;
    }
    Ok(())
}

fn tables_bytes(alloc: Global, rows: &Flows) -> Result<Vec<u8>, AllocError>
    requires { AreFirm rows.now }
    ensures { IfOk result (λ bytes. Spells bytes.items rows.now) }
{
    let mut bytes = Vec::new(alloc);
    let mut flows = Vec::new(alloc);
    put_u16(&mut bytes, rows.channels() as u16)?;
    put_tables(&mut bytes, &mut flows, rows)?;
    Ok(bytes)
}

/// Writes the bytes of tables that commands could leave behind what is there: they spell these. Where memory runs out,
/// what is there stays.
pub fn write_rows(rows: &Flows, out: &mut Vec<u8>) -> Result<(), AllocError>
    requires { AreFirm rows.now }
    ensures ok { OnOk result (out.new.items ≡ out.old.items ++ rows_spelling rows.now) }
    ensures spells { OnOk result (Spells (rows_spelling rows.now) rows.now) }
    ensures err { OnErr result (out.new.items ≡ out.old.items) }
{
    let bytes = tables_bytes(*out.allocator(), rows)?;
    out.extend_from_slice(bytes.as_slice())
}
