//! What modems that begin anew are told once more.

ghost use Rattle.std.specs.Prelude.{◌≡◌, ◌<◌, ◌++◌, ℕ, List, IfOk, OnOk, Some, length, slice_get};
ghost use Rattle.std.specs.List.{Contains};
ghost use Rattle.flow_state.specs.Rows.{Table};
ghost use Rattle.grant_machine.specs.declared.output.Output.{Output as Told};
ghost use Rattle.command_log.specs.Values.{outputs_of_values};
ghost use Rattle.epochs.specs.Again.{again_of, leases_again, table_again};
ghost use Rattle.epochs.specs.Scheduling.{tables_after};

use crate::laws::rows_are_told;
use flow_state::{ChannelTable, Flows, Lease};
use grant_machine::{Machine, Output};
use std::alloc::{AllocError, Global};

/// Tells the leases of a channel that aren't over when its next MAP begins.
fn tell_leases(
    out: &mut Vec<Output>,
    ch: u8,
    next_start: u64,
    leases: &[Lease],
) -> Result<(), AllocError>
    ensures { OnOk result (out.new.items ≡ out.old.items ++ leases_again ch next_start leases.now) }
{
    for lease in leases {
        if next_start <= lease.last {
            out.push(Output::Assigned {
                modem: lease.modem,
                ch,
                sid: lease.sid,
                first: lease.first,
                last: lease.last,
            })?;
        }
    }
    Ok(())
}

fn tell_table(out: &mut Vec<Output>, table: &ChannelTable) -> Result<(), AllocError>
    ensures { OnOk result (out.new.items ≡ out.old.items ++ table_again table.now) }
{
    let row = table.row();
    let (ch, ucd, next_start) = (row.channel.id, row.channel.ucd, row.next_start);
    out.push(Output::ChannelSet { ch, ucd })?;
    tell_leases(out, ch, next_start, table.leases())
}

/// Tells table number k again.
fn tell_table_at(out: &mut Vec<Output>, rows: &Flows, k: usize) -> Result<(), AllocError>
    requires { k < length rows.now }
    ensures { (t : Table) → slice_get rows.now k ≡ Some t → OnOk result (out.new.items ≡ out.old.items ++ table_again t) }
{
    let Some(table) = rows.table_at(k) else {
        unreachable!()
    };
    tell_table(out, table)
}

fn tell_tables(out: &mut Vec<Output>, rows: &Flows) -> Result<(), AllocError>
    ensures { OnOk result (out.new.items ≡ out.old.items ++ again_of rows.now) }
{
    for k in 0..rows.channels() {
        tell_table_at(out, rows, k)?;
    }
    Ok(())
}

/// What modems need that begin anew: of each channel, in the order in which channels were set, its UCD Count, and then by
/// SID each latest lease that isn't over when its next MAP begins. Nothing of it is new: each was an output of the values
/// that the scheduler is behind. Only want of memory stops it.
pub fn told_again(alloc: Global, machine: &Machine) -> Result<Vec<Output>, AllocError>
    ensures outputs { IfOk result (λ outputs. outputs.items ≡ again_of machine.now) }
    ensures told { (values : List (List ℕ)) → machine.now ≡ tables_after values
        → IfOk result (λ outputs. (o : Told) → Contains outputs.items o → Contains (outputs_of_values values) o) }
{
    rows_are_told();
    let mut out = Vec::new(alloc);
    tell_tables(&mut out, machine.flows())?;
    Ok(out)
}
