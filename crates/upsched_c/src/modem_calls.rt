//! A modem behind a handle.

ghost use Rattle.std.specs.Prelude.{◌≡◌};
ghost use Rattle.modem.specs.State.{new_modem};
ghost use Rattle.upsched_c.specs.Handles.{held, Opens};
ghost use Rattle.upsched_c.specs.Modems.{AsksModem, AsModem, HearsNoMap, HearsBody, TakesWant, TellsClock, TellsNext};
ghost use Rattle.upsched_c.specs.Modems.{TicksAt};
ghost use Rattle.upsched_c.specs.Statuses.{Answers};

use crate::handle::{Handle, Held};
use crate::handle_calls::open;
use crate::sending::{EventFields, SendingFields, event_fields, heard_number, sending_fields};
use crate::status::Status;
use grant_machine::Output;
use minislot_time::Slot;
use modem::{Modem, WantFault};
use std::alloc::Global;

/// Opens a handle with a modem that has heard nothing.
#[unsafe(no_mangle)]
pub extern "C" fn upsched_c_modem_open(alloc: Global, handle: &mut Handle, id: u32) -> i32
    ensures { Answers result (Opens (Held.Modem (new_modem id)) (held handle.old) (held handle.new)) }
{
    open(alloc, handle, Held::Modem(Modem::new(alloc, id))).number()
}

fn listen(value: &mut Held, output: &Output, heard: &mut u32) -> Status
    ensures { AsModem (HearsNoMap output.now) value.old heard.old value.new heard.new result }
{
    let Held::Modem(modem) = value else {
        return Status::OtherKind;
    };
    let Some(near) = Slot::new(0) else {
        return Status::BadField;
    };
    let Ok(answer) = modem.hear(output, near) else {
        return Status::OutOfMemory;
    };
    *heard = heard_number(answer);
    Status::Done
}

fn listen_by(alloc: Global, handle: &mut Handle, output: &Output, heard: &mut u32) -> Status
    ensures { AsksModem (HearsNoMap output.now) (held handle.old) heard.old (held handle.new) heard.new result }
{
    let Some(mut value) = handle.take(alloc) else {
        return Status::Closed;
    };
    let status = listen(&mut value, output, heard);
    handle.put(value);
    status
}

/// Hears that a channel is set.
#[unsafe(no_mangle)]
pub extern "C" fn upsched_c_modem_hear_channel(
    alloc: Global,
    handle: &mut Handle,
    ch: u8,
    ucd: u8,
    heard: &mut u32,
) -> i32
    ensures { Answers result (AsksModem (HearsNoMap (Output.ChannelSet ch ucd)) (held handle.old) heard.old (held handle.new) heard.new) }
{
    listen_by(alloc, handle, &Output::ChannelSet { ch, ucd }, heard).number()
}

/// Hears that a SID is a modem's, from a first minislot to a last one.
#[unsafe(no_mangle)]
pub extern "C" fn upsched_c_modem_hear_assigned(
    alloc: Global,
    handle: &mut Handle,
    modem: u32,
    ch: u8,
    sid: u16,
    first: u64,
    last: u64,
    heard: &mut u32,
) -> i32
    ensures { Answers result (AsksModem (HearsNoMap (Output.Assigned modem ch sid first last)) (held handle.old) heard.old (held handle.new) heard.new) }
{
    let output = Output::Assigned {
        modem,
        ch,
        sid,
        first,
        last,
    };
    listen_by(alloc, handle, &output, heard).number()
}

fn hear_body(value: &mut Held, body: &[u8], near: u64, heard: &mut u32) -> Status
    ensures { AsModem (HearsBody body.now near) value.old heard.old value.new heard.new result }
{
    let Held::Modem(modem) = value else {
        return Status::OtherKind;
    };
    let Some(near) = Slot::new(near) else {
        return Status::BadField;
    };
    let Ok(answer) = modem.hear_map(body, near) else {
        return Status::OutOfMemory;
    };
    *heard = heard_number(answer);
    Status::Done
}

fn hear_body_by(
    alloc: Global,
    handle: &mut Handle,
    body: &[u8],
    near: u64,
    heard: &mut u32,
) -> Status
    ensures { AsksModem (HearsBody body.now near) (held handle.old) heard.old (held handle.new) heard.new result }
{
    let Some(mut value) = handle.take(alloc) else {
        return Status::Closed;
    };
    let status = hear_body(&mut value, body, near, heard);
    handle.put(value);
    status
}

/// Hears the body of a MAP near a time.
#[unsafe(no_mangle)]
pub extern "C" fn upsched_c_modem_hear_map(
    alloc: Global,
    handle: &mut Handle,
    body: &[u8],
    near: u64,
    heard: &mut u32,
) -> i32
    ensures { Answers result (AsksModem (HearsBody body.now near) (held handle.old) heard.old (held handle.new) heard.new) }
{
    hear_body_by(alloc, handle, body, near, heard).number()
}

fn want(value: &mut Held, ch: u8, sid: u16, minislots: u16) -> Status
    ensures { AsModem (TakesWant ch sid minislots) value.old tt value.new tt result }
{
    let Held::Modem(modem) = value else {
        return Status::OtherKind;
    };
    match modem.want(ch, sid, minislots) {
        Ok(()) => Status::Done,
        Err(WantFault::OutOfMemory) => Status::OutOfMemory,
        Err(fault) => Status::Want(fault),
    }
}

fn want_by(alloc: Global, handle: &mut Handle, ch: u8, sid: u16, minislots: u16) -> Status
    ensures { AsksModem (TakesWant ch sid minislots) (held handle.old) tt (held handle.new) tt result }
{
    let Some(mut value) = handle.take(alloc) else {
        return Status::Closed;
    };
    let status = want(&mut value, ch, sid, minislots);
    handle.put(value);
    status
}

/// Takes a want of so many minislots for a SID of the modem's.
#[unsafe(no_mangle)]
pub extern "C" fn upsched_c_modem_want(
    alloc: Global,
    handle: &mut Handle,
    ch: u8,
    sid: u16,
    minislots: u16,
) -> i32
    ensures { Answers result (AsksModem (TakesWant ch sid minislots) (held handle.old) tt (held handle.new) tt) }
{
    want_by(alloc, handle, ch, sid, minislots).number()
}

fn tick(value: &mut Held, ch: u8, slot: u64, random: u64, sending: &mut SendingFields) -> Status
    ensures { AsModem (TicksAt ch slot random) value.old sending.old value.new sending.new result }
{
    let Held::Modem(modem) = value else {
        return Status::OtherKind;
    };
    let Some(slot) = Slot::new(slot) else {
        return Status::BadField;
    };
    let Ok(sent) = modem.tick(ch, slot, random) else {
        return Status::TimeBack;
    };
    *sending = sending_fields(sent);
    Status::Done
}

fn tick_by(
    alloc: Global,
    handle: &mut Handle,
    ch: u8,
    slot: u64,
    random: u64,
    sending: &mut SendingFields,
) -> Status
    ensures { AsksModem (TicksAt ch slot random) (held handle.old) sending.old (held handle.new) sending.new result }
{
    let Some(mut value) = handle.take(alloc) else {
        return Status::Closed;
    };
    let status = tick(&mut value, ch, slot, random, sending);
    handle.put(value);
    status
}

/// What the modem sends at a minislot of a channel.
#[unsafe(no_mangle)]
pub extern "C" fn upsched_c_modem_tick(
    alloc: Global,
    handle: &mut Handle,
    ch: u8,
    slot: u64,
    random: u64,
    sending: &mut SendingFields,
) -> i32
    ensures { Answers result (AsksModem (TicksAt ch slot random) (held handle.old) sending.old (held handle.new) sending.new) }
{
    tick_by(alloc, handle, ch, slot, random, sending).number()
}

fn tell_next(value: &Held, ch: u8, from: u64, event: &mut EventFields) -> Status
    ensures { AsModem (TellsNext ch from) value.now event.old value.now event.new result }
{
    let Held::Modem(modem) = value else {
        return Status::OtherKind;
    };
    let Some(from) = Slot::new(from) else {
        return Status::BadField;
    };
    let Some(found) = modem.next_event(ch, from) else {
        return Status::Absent;
    };
    *event = event_fields(&found);
    Status::Done
}

fn tell_next_by(
    alloc: Global,
    handle: &mut Handle,
    ch: u8,
    from: u64,
    event: &mut EventFields,
) -> Status
    ensures { AsksModem (TellsNext ch from) (held handle.old) event.old (held handle.new) event.new result }
{
    let Some(value) = handle.take(alloc) else {
        return Status::Closed;
    };
    let status = tell_next(&value, ch, from, event);
    handle.put(value);
    status
}

/// The first minislot of a channel, from one on, whose tick answers something or changes more than the clock.
#[unsafe(no_mangle)]
pub extern "C" fn upsched_c_modem_next(
    alloc: Global,
    handle: &mut Handle,
    ch: u8,
    from: u64,
    event: &mut EventFields,
) -> i32
    ensures { Answers result (AsksModem (TellsNext ch from) (held handle.old) event.old (held handle.new) event.new) }
{
    tell_next_by(alloc, handle, ch, from, event).number()
}

fn tell_clock(value: &Held, ch: u8, clock: &mut u64) -> Status
    ensures { AsModem (TellsClock ch) value.now clock.old value.now clock.new result }
{
    let Held::Modem(modem) = value else {
        return Status::OtherKind;
    };
    let Some(at) = modem.clock(ch) else {
        return Status::Absent;
    };
    *clock = at;
    Status::Done
}

fn tell_clock_by(alloc: Global, handle: &mut Handle, ch: u8, clock: &mut u64) -> Status
    ensures { AsksModem (TellsClock ch) (held handle.old) clock.old (held handle.new) clock.new result }
{
    let Some(value) = handle.take(alloc) else {
        return Status::Closed;
    };
    let status = tell_clock(&value, ch, clock);
    handle.put(value);
    status
}

/// The modem's clock on a channel that it knows: no tick before this minislot is taken.
#[unsafe(no_mangle)]
pub extern "C" fn upsched_c_modem_clock(
    alloc: Global,
    handle: &mut Handle,
    ch: u8,
    clock: &mut u64,
) -> i32
    ensures { Answers result (AsksModem (TellsClock ch) (held handle.old) clock.old (held handle.new) clock.new) }
{
    tell_clock_by(alloc, handle, ch, clock).number()
}
