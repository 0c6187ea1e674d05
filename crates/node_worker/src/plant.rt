//! The records of all nodes, in one order.

ghost use Rattle.std.specs.Prelude.{◌≡◌, ◌≢◌, ◌↔◌, [], ◌∷◌, ◌++◌, length, ℕ, IfOk, IfErr, OnOk, OnErr, IsOk, IsTrue};
ghost use Rattle.std.specs.Prelude.{List, ◌≤◌, ◌<◌, ◌⊎◌};
ghost use Rattle.ballots.specs.Members.{member_count};
ghost use Rattle.world_events.specs.declared.event.Event.TheVariants as event;
ghost use Rattle.seats.specs.declared.answer.Answer.TheVariants.{Refused};
ghost use Rattle.world_events.specs.declared.refusal.EventRefusal.TheVariants as refusal;
ghost use Rattle.seats.specs.declared.answer.ReleasedOutput.{ReleasedOutput};
ghost use Rattle.seats.specs.Receiver.{Receiver};
ghost use Rattle.seats.specs.Modems.{ModemNext};
ghost use Rattle.seats.specs.Receiving.{AreNew, AreReceivers};
ghost use Rattle.node_worker.specs.KeptView.{AreTrusted, SameNode};
ghost use Rattle.node_worker.specs.Steps.{DoneBy, Recorded};
ghost use Rattle.node_worker.specs.declared.entry.Done.{Done as Noted};
ghost use Rattle.node_worker.specs.Runs.{AreLegal, IsModemEvent, IsOfModem, IsSilent, IsTick, Listened, SendsAsOwner};
ghost use Rattle.node_worker.specs.Places.{IsPlaceOf};
ghost use Rattle.node_worker.specs.Legal.{entries_of, letters_of, outputs_of, Comes, Begins, IsSound, MayRecord};

use crate::entry::{Cause, Done, Entry, Record};
use crate::kept::{Kept, WorkFault};
use crate::outputs::{OutputPlace, output_at};
use crate::sent::{LetterPlace, was_sent};
use ballots::Members;
use minislot_time::Slot;
use modem::Modem;
use node::Node;
use seats::{Answer, OutOfMemory, ask, hear_near, tick_at};
use std::alloc::Global;
use std::marker::{Model, PhantomData};
use world_events::{Event, EventRefusal};

/// The records of all nodes, in one order, and modems that hear what was released. It names the type of the
/// nodes, since what a lock holds is known by its type alone.
#[derive(Drop)]
pub struct Plant<N: Node> {
    members: Members,
    room: usize,
    records: Vec<Record>,
    modems: Vec<Modem>,
    // For the node of each number, where its last letter was found: the search for the next begins there. What is found
    // doesn't hang on it.
    last_letters: [LetterPlace; 5],
    // Where the last output that a modem heard was found: the search for the next begins there.
    last_output: OutputPlace,
    of: PhantomData<N>,
}

impl<N: Node> Model for Plant<N> {
    ghost use Rattle.node_worker.specs.PlantView.{PlantView};

    ghost Value = { PlantView };

    ghost use Rattle.ballots.specs.Members.{member_count};
    ghost use Rattle.std.specs.Prelude.{◌≤◌};
    ghost use Rattle.node_worker.specs.KeptView.{AreTrusted};
    ghost use Rattle.node_worker.specs.Legal.{IsSound, outputs_of};
    ghost use Rattle.node_worker.specs.Runs.{Listened};
    ghost use Rattle.node_worker.specs.Places.{IsPlaceOf};

    ghost view = { λ p. record { members = member_count p.members; room = p.room; records = p.records.items; modems = p.modems.items } };

    ghost invariant = { λ p. (p.room ≤ p.records.cap) × (AreTrusted N.honest → IsSound (member_count p.members) p.records.items)
        × Listened (outputs_of p.records.items) p.modems.items × IsPlaceOf p.records.items p.last_output.record p.last_output.before };
}

impl<N: Node> Plant<N> {
    /// A plant of these members, with room for so many records.
    pub fn new(
        alloc: Global,
        members: Members,
        modems: Vec<Modem>,
        room: usize,
    ) -> Result<Plant<N>, OutOfMemory>
        requires { AreNew modems.items }
        ensures { IfOk result (λ p. p ≡ record { members = member_count members; room = room; records = []; modems = modems.items }) }
    {
        let records = Vec::with_capacity(alloc, room)?;
        Ok(Plant {
            members,
            room,
            records,
            modems,
            last_letters: [LetterPlace {
                record: 0,
                letter: 0,
            }; 5],
            last_output: OutputPlace {
                record: 0,
                before: 0,
            },
            of: PhantomData,
        })
    }

    /// The records, in order. The modems have heard what they released. Where each node of this type has returned what
    /// its store committed, whoever holds the plant has a legal one.
    pub fn records(&self) -> &[Record]
        ensures records { result.now ≡ self.now.records }
        ensures legal { AreTrusted N.honest → AreLegal self.now.members self.now.records self.now.modems }
        ensures listened { Listened (outputs_of self.now.records) self.now.modems }
    {
        self.records.as_slice()
    }

    /// Whether it is of these members, and has so many modems.
    pub(crate) fn is_of(&self, members: Members, modems: usize) -> bool
        ensures { IsTrue result ↔ (self.now.members ≡ member_count members) × (length self.now.modems ≡ modems) }
    {
        self.members.count() == members.count() && self.modems.len() == modems
    }

    /// Puts what a node did last. It takes no memory, and gives back what may not be recorded.
    pub fn record(&mut self, kept: &Kept<N>, done: Done) -> Result<(), Done>
        ensures may { IsOk result ↔ MayRecord self.old kept.now done }
        ensures ok { OnOk result (self.new ≡ record self.old { records = self.old.records ++ done ∷ [] }) }
        ensures err { IfErr result (λ d. (d ≡ done) × (self.new ≡ self.old)) }
    {
        if self.records.len() >= self.room
            || done.node != kept.id()
            || done.node.number() >= self.members.count()
            || kept.members().count() != self.members.count()
            || !is_next(self.records.as_slice(), &done, kept.entries())
            || !has_come(
                self.records.as_slice(),
                &done,
                &mut self.last_letters[usize::from(done.node.number())],
            )
        {
            return Err(done);
        }
        self.records.push_reserved(done);
        Ok(())
    }

    /// A modem hears an output that a record released, wants to send, or comes to a minislot, which takes no memory.
    /// Where it sends by a grant or at a poll, it is the minislot's one owner, if the records are sound.
    pub fn modem_step(&mut self, event: &Event) -> Answer
        requires { IsModemEvent event.now }
        ensures same { self.new ≡ record self.old { modems = self.new.modems } }
        ensures next { (rs : List Receiver) → AreReceivers self.old.modems rs
            → (after : List Receiver) × ModemNext rs (outputs_of self.old.records) event.now result after × AreReceivers self.new.modems after }
        ensures memory { IsTick event.now → result ≢ Refused refusal.OutOfMemory }
        ensures owner { AreTrusted N.honest → SendsAsOwner self.new.members self.new.records self.new.modems event.now result }
        ensures sound { (members : ℕ) → IsSound members self.new.records → SendsAsOwner members self.new.records self.new.modems event.now result }
    {
        go_on(
            &mut self.modems,
            self.records.as_slice(),
            event,
            &mut self.last_output,
        )
    }
}

/// Has a kept node do one thing, and records it.
pub fn step<N: Node>(
    kept: &mut Kept<N>,
    plant: &mut Plant<N>,
    cause: Cause,
) -> Result<Result<(), Done>, WorkFault>
    ensures same { SameNode kept.old kept.new }
    ensures honest { IsTrue kept.new.honest → IsTrue kept.old.honest }
    ensures trusted { AreTrusted N.honest → IsTrue kept.new.honest }
    ensures worked { IfOk result (λ told. (d : Noted) × DoneBy kept.old cause d kept.new × Recorded plant.old kept.new d told plant.new) }
    ensures room { IsOk result → length kept.old.entries < kept.old.quota }
    ensures full { IfErr result (λ e. e ≡ WorkFault.Full ↔ length kept.old.entries ≡ kept.old.quota) }
    ensures err { OnErr result ((kept.new ≡ kept.old) × (plant.new ≡ plant.old)) }
{
    match kept.work(cause) {
        Ok(done) => Ok(plant.record(kept, done)),
        Err(fault) => Err(fault),
    }
}

// A modem's event.
pub(crate) fn go_on(
    modems: &mut Vec<Modem>,
    records: &[Record],
    event: &Event,
    place: &mut OutputPlace,
) -> Answer
    requires event { IsModemEvent event.now }
    requires place { IsPlaceOf records.now place.old.record place.old.before }
    ensures next { (rs : List Receiver) → AreReceivers modems.old.items rs
        → (after : List Receiver) × ModemNext rs (outputs_of records.now) event.now result after × AreReceivers modems.new.items after }
    ensures memory { IsTick event.now → result ≢ Refused refusal.OutOfMemory }
    ensures within { (modems.new.items ≡ modems.old.items) × IsSilent result ⊎ IsOfModem (length (outputs_of records.now)) event.now }
    ensures place { IsPlaceOf records.now place.new.record place.new.before }
{
    match event {
        Event::Hear(m, i, near) => hear(modems, records, *m, *i, *near, place),
        Event::Want(m, ch, sid, n) => want(modems, *m, *ch, *sid, *n),
        Event::Tick(m, ch, slot, random) => tick(modems, *m, *ch, *slot, *random),
        _ => Answer::Refused(EventRefusal::NoModem),
    }
}

// Modem m hears output i near a minislot time.
fn hear(
    modems: &mut Vec<Modem>,
    records: &[Record],
    m: usize,
    i: usize,
    near: Slot,
    place: &mut OutputPlace,
) -> Answer
    requires { IsPlaceOf records.now place.old.record place.old.before }
    ensures next { (rs : List Receiver) → AreReceivers modems.old.items rs
        → (after : List Receiver) × ModemNext rs (outputs_of records.now) (event.Hear m i near) result after × AreReceivers modems.new.items after }
    ensures within { (modems.new.items ≡ modems.old.items) × IsSilent result ⊎ i < length (outputs_of records.now) }
    ensures place { IsPlaceOf records.now place.new.record place.new.before }
{
    if modems.len() <= m {
        return Answer::Refused(EventRefusal::NoModem);
    }
    let Some(output) = output_at(records, i, place) else {
        return Answer::Refused(EventRefusal::NoOutput);
    };
    let modem = &mut modems[m];
    hear_near(modem, output, near)
}

// Modem m wants to send a request of n minislots.
fn want(modems: &mut Vec<Modem>, m: usize, ch: u8, sid: u16, n: u16) -> Answer
    ensures next { (rs : List Receiver) (outputs : List ReleasedOutput) → AreReceivers modems.old.items rs
        → (after : List Receiver) × ModemNext rs outputs (event.Want m ch sid n) result after × AreReceivers modems.new.items after }
{
    if m >= modems.len() {
        return Answer::Refused(EventRefusal::NoModem);
    }
    let modem = &mut modems[m];
    ask(modem, ch, sid, n)
}

// Modem m comes to a minislot of a channel.
fn tick(modems: &mut Vec<Modem>, m: usize, ch: u8, slot: Slot, random: u64) -> Answer
    ensures next { (rs : List Receiver) (outputs : List ReleasedOutput) → AreReceivers modems.old.items rs
        → (after : List Receiver) × ModemNext rs outputs (event.Tick m ch slot random) result after × AreReceivers modems.new.items after }
    ensures memory { result ≢ Refused refusal.OutOfMemory }
{
    if m >= modems.len() {
        return Answer::Refused(EventRefusal::NoModem);
    }
    let modem = &mut modems[m];
    tick_at(modem, ch, slot, random)
}

// Whether the node's records and this one begin its entries.
pub(crate) fn is_next(records: &[Record], done: &Done, entries: &[Entry]) -> bool
    ensures { IsTrue result ↔ Begins (entries_of done.now.node records.now ++ done.now.entry ∷ []) entries.now }
{
    let mut rest = entries;
    for record in records {
        if record.node == done.node {
            let Some((first, tail)) = rest.split_first() else {
                return false;
            };
            if !record.entry.is_same(first) {
                return false;
            }
            rest = tail;
        }
    }
    match rest.split_first() {
        Some((first, _)) => done.entry.is_same(first),
        None => false,
    }
}

// Whether a received letter is to the node and was sent. The search for it begins at a place.
pub(crate) fn has_come(records: &[Record], done: &Done, place: &mut LetterPlace) -> bool
    ensures { IsTrue result ↔ Comes (letters_of records.now) done.now.node done.now.entry.cause }
{
    match done.entry.cause() {
        Cause::Letter(letter) => letter.to == done.node && was_sent(records, letter, place),
        Cause::Ask(_) => true,
    }
}
