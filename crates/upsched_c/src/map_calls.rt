//! A MAP behind a handle: its body is read once, and many modems hear it.

ghost use Rattle.std.specs.Prelude.{◌≡◌, ℕ, None, Some};
ghost use Rattle.upsched_c.specs.Handles.{held};
ghost use Rattle.upsched_c.specs.Maps.{OpensMap};
ghost use Rattle.upsched_c.specs.Modems.{AsksModem, AsModem, HearsHeld};
ghost use Rattle.upsched_c.specs.Statuses.{Answers};

use crate::handle::{Handle, Held};
use crate::sending::heard_number;
use crate::status::Status;
use map_body::{MapFault, decode};
use minislot_time::Slot;
use std::alloc::Global;

fn open_map(alloc: Global, handle: &mut Handle, bytes: &[u8]) -> Status
    ensures { OpensMap bytes.now (held handle.old) (held handle.new) result }
{
    if let Some(before) = handle.take(alloc) {
        handle.put(before);
        return Status::Open;
    }
    let body = match decode(alloc, bytes) {
        Ok(body) => body,
        Err(MapFault::OutOfMemory) => return Status::OutOfMemory,
        Err(fault) => return Status::Map(fault),
    };
    let Ok(value) = Box::new(alloc, Held::Map(body)) else {
        return Status::OutOfMemory;
    };
    handle.put(value);
    Status::Done
}

/// Opens a handle with the MAP whose body the bytes are.
#[unsafe(no_mangle)]
pub extern "C" fn upsched_c_map_open(alloc: Global, handle: &mut Handle, bytes: &[u8]) -> i32
    ensures { Answers result (OpensMap bytes.now (held handle.old) (held handle.new)) }
{
    open_map(alloc, handle, bytes).number()
}

fn hear_held(value: &mut Held, map: &Held, near: u64, heard: &mut u32) -> Status
    ensures { AsModem (HearsHeld (Some map.now) near) value.old heard.old value.new heard.new result }
{
    let Held::Modem(modem) = value else {
        return Status::OtherKind;
    };
    let Held::Map(body) = map else {
        return Status::OtherKind;
    };
    let Some(near) = Slot::new(near) else {
        return Status::BadField;
    };
    let Ok(answer) = modem.hear_body(body, near) else {
        return Status::OutOfMemory;
    };
    *heard = heard_number(answer);
    Status::Done
}

// What is answered where the MAP's handle is closed: another kind than a modem comes first.
fn without_map(value: &Held) -> Status
    ensures { (near heard : ℕ) → AsModem (HearsHeld None near) value.now heard value.now heard result }
{
    match value {
        Held::Modem(_) => Status::Closed,
        Held::Machine(_) => Status::OtherKind,
        Held::Map(_) => Status::OtherKind,
    }
}

fn hear_held_by(
    alloc: Global,
    handle: &mut Handle,
    map: &mut Handle,
    near: u64,
    heard: &mut u32,
) -> Status
    ensures heard { AsksModem (HearsHeld (held map.old) near) (held handle.old) heard.old (held handle.new) heard.new result }
    ensures map { held map.new ≡ held map.old }
{
    let Some(mut value) = handle.take(alloc) else {
        return Status::Closed;
    };
    let Some(body) = map.take(alloc) else {
        let status = without_map(&value);
        handle.put(value);
        return status;
    };
    let status = hear_held(&mut value, &body, near, heard);
    map.put(body);
    handle.put(value);
    status
}

/// Hears an open MAP near a time, as its body is heard.
#[unsafe(no_mangle)]
pub extern "C" fn upsched_c_modem_hear_open_map(
    alloc: Global,
    handle: &mut Handle,
    map: &mut Handle,
    near: u64,
    heard: &mut u32,
) -> i32
    ensures heard { Answers result (AsksModem (HearsHeld (held map.old) near) (held handle.old) heard.old (held handle.new) heard.new) }
    ensures map { held map.new ≡ held map.old }
{
    hear_held_by(alloc, handle, map, near, heard).number()
}
