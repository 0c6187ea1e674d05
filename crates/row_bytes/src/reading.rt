//! Reading tables from left to right, each taken behind those before it as soon as it was read.

ghost use Rattle.std.specs.Prelude.{◌≡◌, ◌⊎◌, [], IfErr, IfOk, MatchResult, Err, Ok};
ghost use Rattle.flow_state.specs.Rows.{Rows};
ghost use Rattle.row_bytes.specs.Reading.{FailsReading, HasRow, whole_at};
ghost use Rattle.row_bytes.specs.Tables.{AreRead, Fails, FaultAt, HasTable, ReadsTables, Spells, TakesMemory};
ghost use Rattle.row_bytes.specs.Tables.{TakesTable, TakesWhole};

use crate::fault::RowsFault;
use crate::fields::{take_row, take_u16};
use crate::rows::{take_flows, take_leases, take_requests};
use flow_state::{Flows, NotAdopted, WholeTable};
use std::alloc::Global;

/// All that the bytes of a channel say.
#[tactic(auto, unfolding(crate::specs::Reading::whole_at))]
fn take_whole(alloc: Global, rest: &mut &[u8]) -> Result<WholeTable, RowsFault>
    ensures { TakesWhole (HasRow rest.old.now) result rest.new.now (whole_at rest.old.now) }
{
    let row = take_row(rest)?;
    let leases = take_leases(alloc, rest)?;
    let flows = take_flows(alloc, row.channel.id, leases.as_slice(), rest)?;
    let waiting = take_requests(alloc, rest)?;
    Ok(WholeTable {
        row,
        leases,
        flows,
        waiting,
    })
}

/// Takes a table behind the others.
fn take_table(alloc: Global, flows: &mut Flows, rest: &mut &[u8]) -> Result<(), RowsFault>
    ensures ok { IfOk result (λ _. TakesTable flows.old flows.new rest.new.now (whole_at rest.old.now)) }
    ensures fault { IfErr result (Fails (HasRow rest.old.now) (FaultAt flows.old (whole_at rest.old.now))) }
{
    let table = take_whole(alloc, rest)?;
    match flows.adopt(&table) {
        Ok(()) => Ok(()),
        Err(NotAdopted::NotFirm) => Err(RowsFault::NotFirm(table.row.channel.id)),
        Err(NotAdopted::OutOfMemory) => Err(RowsFault::OutOfMemory),
    }
}

/// Takes so many tables behind the others.
fn take_tables(
    alloc: Global,
    count: u16,
    flows: &mut Flows,
    rest: &mut &[u8],
) -> Result<(), RowsFault>
    ensures ok { IfOk result (λ _. ReadsTables count flows.old rest.old.now (Ok (flows.new, rest.new.now))) }
    ensures fault { IfErr result (Fails (HasTable count rest.old.now) (λ e. ReadsTables count flows.old rest.old.now (Err e))) }
{
    for _ in 0..count {
        take_table(alloc, flows, rest)?;
    }
    Ok(())
}

fn rows_in(alloc: Global, bytes: &[u8]) -> Result<Flows, RowsFault>
    ensures ok { IfOk result (λ rows. AreRead bytes.now (Ok rows)) }
    ensures fault { IfErr result (Fails (TakesMemory bytes.now) (λ e. AreRead bytes.now (Err e))) }
{
    let mut rest = bytes;
    let count = take_u16(&mut rest)?;
    let mut flows = Flows::new(alloc);
    take_tables(alloc, count, &mut flows, &mut rest)?;
    if !rest.is_empty() {
        return Err(RowsFault::Trailing);
    }
    Ok(flows)
}

/// The tables that bytes spell, all of the bytes. A fault is the first from left to right; that a table isn't one that
/// commands could leave is found at its end. Want of memory comes only where the bytes say that there are channels, and
/// tell the first of them without a fault up to its Ack Time. Rows are read one at a time, into memory for no more than
/// are there.
pub fn read_rows(alloc: Global, bytes: &[u8]) -> Result<Flows, RowsFault>
    ensures read { IfOk result (Spells bytes.now) }
    ensures spelled { (rows : Rows) → Spells bytes.now rows → MatchResult result (λ read. read ≡ rows)
        (λ e. (e ≡ RowsFault.OutOfMemory) × TakesMemory bytes.now) }
    ensures fault { IfErr result (Fails (TakesMemory bytes.now) (λ e. AreRead bytes.now (Err e))) }
{
    rows_in(alloc, bytes)
}
