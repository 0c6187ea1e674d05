//! The scheduler behind a handle.

ghost use Rattle.std.specs.Prelude.{[]};
ghost use Rattle.upsched_c.specs.Commands.{command_value};
ghost use Rattle.upsched_c.specs.Handles.{held, Opens};
ghost use Rattle.upsched_c.specs.Machines.{Applies, AsksByBytes, AsksMachine, AsMachine, IsReading, told};
ghost use Rattle.upsched_c.specs.Statuses.{Answers};

use crate::command::{CommandFields, command_of};
use crate::handle::{Handle, Held};
use crate::handle_calls::open;
use crate::scheduler::Scheduler;
use crate::status::Status;
use command_log::read_command;
use grant_machine::Command;
use std::alloc::Global;
use upsched_c_parts::{OutputFields, output_fields, put_body};

/// Opens a handle with a scheduler that has no channel.
#[unsafe(no_mangle)]
pub extern "C" fn upsched_c_machine_open(alloc: Global, handle: &mut Handle) -> i32
    ensures { Answers result (Opens (Held.Machine []) (held handle.old) (held handle.new)) }
{
    open(alloc, handle, Held::Machine(Scheduler::new(alloc))).number()
}

fn apply(
    value: &mut Held,
    command: Option<Command>,
    output: &mut OutputFields,
    body: &mut [u8; 1036],
) -> Status
    ensures { AsMachine (Applies command) value.old (told output.old body.old) value.new (told output.new body.new) result }
{
    let Held::Machine(scheduler) = value else {
        return Status::OtherKind;
    };
    let Some(command) = command else {
        return Status::BadField;
    };
    let Ok(answer) = scheduler.apply(command) else {
        return Status::OutOfMemory;
    };
    *output = output_fields(&answer);
    put_body(&answer, body);
    Status::Done
}

fn apply_to(
    alloc: Global,
    handle: &mut Handle,
    command: Option<Command>,
    output: &mut OutputFields,
    body: &mut [u8; 1036],
) -> Status
    ensures { AsksMachine command (held handle.old) (told output.old body.old) (held handle.new) (told output.new body.new) result }
{
    let Some(mut value) = handle.take(alloc) else {
        return Status::Closed;
    };
    let status = apply(&mut value, command, output, body);
    handle.put(value);
    status
}

/// Applies the command that the fields are.
#[unsafe(no_mangle)]
pub extern "C" fn upsched_c_machine_apply(
    alloc: Global,
    handle: &mut Handle,
    command: &CommandFields,
    output: &mut OutputFields,
    body: &mut [u8; 1036],
) -> i32
    ensures { Answers result (AsksMachine (command_value command.now) (held handle.old) (told output.old body.old) (held handle.new)
        (told output.new body.new)) }
{
    apply_to(alloc, handle, command_of(command), output, body).number()
}

fn reading(bytes: &[u8]) -> Option<Command>
    ensures { IsReading bytes.now result }
{
    let (command, is_one) = read_command(bytes);
    if is_one { Some(command) } else { None }
}

/// Applies the command that the bytes spell.
#[unsafe(no_mangle)]
pub extern "C" fn upsched_c_machine_apply_bytes(
    alloc: Global,
    handle: &mut Handle,
    command: &[u8],
    output: &mut OutputFields,
    body: &mut [u8; 1036],
) -> i32
    ensures { Answers result (AsksByBytes command.now (held handle.old) (told output.old body.old) (held handle.new) (told output.new body.new)) }
{
    apply_to(alloc, handle, reading(command), output, body).number()
}
