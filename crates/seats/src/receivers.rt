//! The modems of a world, and what they sent.

ghost use Rattle.std.specs.Prelude.{◌≡◌, ◌≢◌, ℕ, ◌<◌, ◌++◌, ◌↔◌, [], false, IsTrue, List, vec_len, vec_capacity};
ghost use Rattle.modem.specs.State.{channel_of};
ghost use Rattle.modem.specs.Owner.{IsTimely};
ghost use Rattle.seats.specs.Receiver.{Receiver};
ghost use Rattle.seats.specs.Modems.{HearsOutput, Wants, ComesTo, ModemNext, sent_at};
ghost use Rattle.seats.specs.Receiving.{IsReceiver, IsBefore};
ghost use Rattle.world_events.specs.declared.event.Event.TheVariants as event;
ghost use Rattle.seats.specs.declared.answer.Answer.TheVariants.{Refused};
ghost use Rattle.world_events.specs.declared.refusal.EventRefusal.TheVariants.{OutOfMemory};
ghost use Rattle.seats.specs.declared.answer.ReleasedOutput.{ReleasedOutput};
ghost use Rattle.seats.specs.StoreFaults.{is_store_fault};

use crate::answer::{Answer, ReleasedOutput, Transmission};
use grant_machine::Output;
use minislot_time::Slot;
use modem::{Modem, WantFault};
use std::alloc::Global;
use world_events::EventRefusal;

// Whether an output is no MAP, or one that starts less than 2^31 minislots before or after.
fn is_timely(output: &Output, near: Slot) -> bool
    ensures { IsTrue result ↔ IsTimely output.now near }
{
    match output {
        Output::Map {
            ch: _,
            start,
            len: _,
            bytes: _,
        } => {
            let start = start.get();
            let near = near.get();
            near < start + (1 << 31) && start < near + (1 << 31)
        }
        Output::Nothing => true,
        Output::Refused(_) => true,
        Output::ChannelSet { ch: _, ucd: _ } => true,
        Output::Assigned {
            modem: _,
            ch: _,
            sid: _,
            first: _,
            last: _,
        } => true,
    }
}

/// A modem hears an output near a minislot time.
pub fn hear_near(modem: &mut Modem, output: &Output, near: Slot) -> Answer
    ensures hears { (r : Receiver) → IsReceiver modem.old r → (after : Receiver) × HearsOutput r output.now near result after × IsReceiver modem.new after }
    ensures quiet { is_store_fault result ≡ false }
{
    if !is_timely(output, near) {
        return Answer::Refused(EventRefusal::TooOld);
    }
    match modem.hear(output, near) {
        Ok(heard) => Answer::Heard(heard),
        Err(_) => Answer::Refused(EventRefusal::OutOfMemory),
    }
}

/// A modem wants to send a request of `n` minislots.
pub fn ask(modem: &mut Modem, ch: u8, sid: u16, n: u16) -> Answer
    ensures wants { (r : Receiver) → IsReceiver modem.old r → (after : Receiver) × Wants r ch sid n result after × IsReceiver modem.new after }
    ensures quiet { is_store_fault result ≡ false }
{
    match modem.want(ch, sid, n) {
        Ok(()) => Answer::Finished,
        Err(WantFault::OutOfMemory) => Answer::Refused(EventRefusal::OutOfMemory),
        Err(fault) => Answer::WantRefused(fault),
    }
}

// Whether a minislot is before the modem's clock on the channel.
fn is_past(modem: &Modem, ch: u8, slot: Slot) -> bool
    ensures { IsTrue result ↔ IsBefore slot (channel_of modem.now.channels ch) }
{
    match modem.clock(ch) {
        Some(clock) => slot.get() < clock,
        None => false,
    }
}

/// A modem comes to a minislot of a channel. It takes no memory.
pub fn tick_at(modem: &mut Modem, ch: u8, slot: Slot, random: u64) -> Answer
    ensures comes { (r : Receiver) → IsReceiver modem.old r
        → (after : Receiver) × ComesTo r slot random (channel_of modem.old.channels ch) result after × IsReceiver modem.new after }
    ensures memory { result ≢ Refused OutOfMemory }
    ensures quiet { is_store_fault result ≡ false }
{
    match modem.tick(ch, slot, random) {
        Ok(sending) => Answer::Ticked(sending),
        Err(_) => Answer::Refused(EventRefusal::TimeBack),
    }
}

// Notes what modem m sent where it was answered so, for which there is room.
fn note(transmissions: &mut Vec<Transmission>, m: usize, ch: u8, slot: Slot, answer: Answer)
    requires { vec_len transmissions.old < vec_capacity transmissions.old }
    ensures { (random : ℕ) → transmissions.new.items ≡ transmissions.old.items ++ sent_at (event.Tick m ch slot random) answer }
{
    if let Answer::Ticked(Some(sending)) = answer {
        let _noted = transmissions.push(Transmission {
            modem: m,
            channel: ch,
            slot,
            sending,
        });
    }
}

// Modem m comes to a minislot. Its clock is asked first, and then room is taken for what it may send.
fn come_to(
    modem: &mut Modem,
    transmissions: &mut Vec<Transmission>,
    m: usize,
    ch: u8,
    slot: Slot,
    random: u64,
) -> Answer
    ensures comes { (r : Receiver) → IsReceiver modem.old r
        → (after : Receiver) × ComesTo r slot random (channel_of modem.old.channels ch) result after × IsReceiver modem.new after }
    ensures sent { transmissions.new.items ≡ transmissions.old.items ++ sent_at (event.Tick m ch slot random) result }
    ensures quiet { is_store_fault result ≡ false }
{
    if is_past(modem, ch, slot) {
        return Answer::Refused(EventRefusal::TimeBack);
    }
    if transmissions.reserve(1).is_err() {
        return Answer::Refused(EventRefusal::OutOfMemory);
    }
    let answer = tick_at(modem, ch, slot, random);
    note(transmissions, m, ch, slot, answer);
    answer
}

/// The modems of a world, and what they sent.
#[derive(Drop)]
pub struct Receivers {
    modems: Vec<Modem>,
    transmissions: Vec<Transmission>,
}

impl Receivers {
    ghost use Rattle.seats.specs.Receiving.{Hold, AreNew, new_receivers, sent_by};

    /// These modems, which have heard nothing, and nothing sent.
    pub fn new(alloc: Global, modems: Vec<Modem>) -> Receivers
        requires { AreNew modems.items }
        ensures holds { Hold result (new_receivers modems.items) }
        ensures sent { sent_by result ≡ [] }
    {
        Receivers {
            modems,
            transmissions: Vec::new(alloc),
        }
    }

    /// What the modems sent, in order.
    pub fn transmissions(&self) -> &[Transmission]
        ensures { result.now ≡ sent_by self.now }
    {
        &self.transmissions
    }

    /// Modem m hears output i near a minislot time.
    pub fn hear(&mut self, outputs: &[ReleasedOutput], m: usize, i: usize, near: Slot) -> Answer
        ensures next { (modems : List Receiver) → Hold self.old modems
            → (after : List Receiver) × ModemNext modems outputs.now (event.Hear m i near) result after × Hold self.new after }
        ensures sent { sent_by self.new ≡ sent_by self.old ++ sent_at (event.Hear m i near) result }
        ensures quiet { is_store_fault result ≡ false }
    {
        if self.modems.len() <= m {
            return Answer::Refused(EventRefusal::NoModem);
        }
        if outputs.len() <= i {
            return Answer::Refused(EventRefusal::NoOutput);
        }
        let released = &outputs[i];
        let modem = &mut self.modems[m];
        hear_near(modem, &released.numbered.output, near)
    }

    /// Modem m wants to send a request of n minislots.
    pub fn want(&mut self, m: usize, ch: u8, sid: u16, n: u16) -> Answer
        ensures next { (modems : List Receiver) (outputs : List ReleasedOutput) → Hold self.old modems
            → (after : List Receiver) × ModemNext modems outputs (event.Want m ch sid n) result after × Hold self.new after }
        ensures sent { sent_by self.new ≡ sent_by self.old ++ sent_at (event.Want m ch sid n) result }
        ensures quiet { is_store_fault result ≡ false }
    {
        if m >= self.modems.len() {
            return Answer::Refused(EventRefusal::NoModem);
        }
        let modem = &mut self.modems[m];
        ask(modem, ch, sid, n)
    }

    /// Modem m comes to a minislot of a channel.
    pub fn tick(&mut self, m: usize, ch: u8, slot: Slot, random: u64) -> Answer
        ensures next { (modems : List Receiver) (outputs : List ReleasedOutput) → Hold self.old modems
            → (after : List Receiver) × ModemNext modems outputs (event.Tick m ch slot random) result after × Hold self.new after }
        ensures sent { sent_by self.new ≡ sent_by self.old ++ sent_at (event.Tick m ch slot random) result }
        ensures quiet { is_store_fault result ≡ false }
    {
        if m >= self.modems.len() {
            return Answer::Refused(EventRefusal::NoModem);
        }
        let modem = &mut self.modems[m];
        come_to(modem, &mut self.transmissions, m, ch, slot, random)
    }
}
