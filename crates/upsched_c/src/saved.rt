//! A scheduler's tables as bytes, and a scheduler that goes on from them.

ghost use Rattle.std.specs.Prelude.{◌≡◌};
ghost use Rattle.upsched_c.specs.Codec.{written};
ghost use Rattle.upsched_c.specs.Handles.{held};
ghost use Rattle.upsched_c.specs.Machines.{AsMachine};
ghost use Rattle.upsched_c.specs.Saved.{AsksToSave, OpensSaved, Saves, SavesRows, channel_in};
ghost use Rattle.upsched_c.specs.Statuses.{Answers};

use crate::handle::{Handle, Held};
use crate::scheduler::Scheduler;
use crate::status::Status;
use row_bytes::{RowsFault, read_rows, write_rows};
use std::alloc::Global;
use upsched_c_parts::put_front;

fn put_tables(alloc: Global, scheduler: &Scheduler, out: &mut [u8], count: &mut usize) -> Status
    ensures { Saves scheduler.now (written out.old count.old) (written out.new count.new) result }
{
    let mut bytes = Vec::new(alloc);
    if write_rows(scheduler.flows(), &mut bytes).is_err() {
        return Status::OutOfMemory;
    }
    *count = bytes.len();
    if out.len() < bytes.len() {
        return Status::NoRoom;
    }
    put_front(&bytes, out);
    Status::Done
}

fn save(alloc: Global, value: &mut Held, out: &mut [u8], count: &mut usize) -> Status
    ensures { AsMachine SavesRows value.old (written out.old count.old) value.new (written out.new count.new) result }
{
    let Held::Machine(scheduler) = value else {
        return Status::OtherKind;
    };
    put_tables(alloc, scheduler, out, count)
}

fn save_in(alloc: Global, handle: &mut Handle, out: &mut [u8], count: &mut usize) -> Status
    ensures { AsksToSave (held handle.old) (written out.old count.old) (held handle.new) (written out.new count.new) result }
{
    let Some(mut value) = handle.take(alloc) else {
        return Status::Closed;
    };
    let status = save(alloc, &mut value, out, count);
    handle.put(value);
    status
}

/// Writes the bytes of a scheduler's tables into the front of the room for them, and their number.
#[unsafe(no_mangle)]
pub extern "C" fn upsched_c_machine_save(
    alloc: Global,
    handle: &mut Handle,
    out: &mut [u8],
    count: &mut usize,
) -> i32
    ensures { Answers result (AsksToSave (held handle.old) (written out.old count.old) (held handle.new) (written out.new count.new)) }
{
    save_in(alloc, handle, out, count).number()
}

/// The channel of a fault that has one, else this one.
fn channel_in(fault: RowsFault, other: u8) -> u8
    ensures { result ≡ channel_in fault other }
{
    match fault {
        RowsFault::NotFirm(ch) => ch,
        _ => other,
    }
}

fn open_saved(alloc: Global, handle: &mut Handle, bytes: &[u8], ch: &mut u8) -> Status
    ensures { OpensSaved bytes.now (held handle.old) ch.old (held handle.new) ch.new result }
{
    if let Some(before) = handle.take(alloc) {
        handle.put(before);
        return Status::Open;
    }
    let rows = match read_rows(alloc, bytes) {
        Ok(rows) => rows,
        Err(RowsFault::OutOfMemory) => return Status::OutOfMemory,
        Err(fault) => {
            *ch = channel_in(fault, *ch);
            return Status::Rows(fault);
        }
    };
    let Ok(value) = Box::new(alloc, Held::Machine(Scheduler::opened(alloc, rows))) else {
        return Status::OutOfMemory;
    };
    handle.put(value);
    Status::Done
}

/// Opens a handle with the scheduler whose tables the bytes spell. Of tables that no commands could leave, the channel
/// is told.
#[unsafe(no_mangle)]
pub extern "C" fn upsched_c_machine_open_saved(
    alloc: Global,
    handle: &mut Handle,
    bytes: &[u8],
    ch: &mut u8,
) -> i32
    ensures { Answers result (OpensSaved bytes.now (held handle.old) ch.old (held handle.new) ch.new) }
{
    open_saved(alloc, handle, bytes, ch).number()
}
