//! Nodes and modems, what they sent and what was released, one event at a time.

ghost use Rattle.std.specs.Prelude.{◌≡◌, ◌++◌, false, is_ok, All, OnOk, OnErr, IfOk};
ghost use Rattle.seats.specs.Acted.{ask_of, letters_of as letters_given, outputs_of as outputs_given};
ghost use Rattle.seats.specs.Acts.{kept_of};
ghost use Rattle.network_script.specs.Next.{taking as taking_lem};
ghost use Rattle.network_script.specs.World.{released_by};
ghost use Rattle.network_script.specs.Seats.{IsNumbered, AreSeated};

use ballots::Letter;
use map_release::Numbered;
use modem::Modem;
use node::Node;
use seats::{
    Acted, Answer, Asked, OutOfMemory, Receivers, ReleasedOutput, Report, Seat, Transmission,
};
use std::alloc::{AllocError, Global};
use world_events::{Event, EventRefusal};

/// What node `k` released, each with its number.
fn with_node(
    alloc: Global,
    k: usize,
    released: Vec<Numbered>,
) -> Result<Vec<ReleasedOutput>, AllocError>
    ensures { IfOk result (λ outputs. outputs.items ≡ released_by k released.items) }
{
    let mut outputs = Vec::new(alloc);
    for numbered in released {
        outputs.push(ReleasedOutput { node: k, numbered })?;
    }
    Ok(outputs)
}

/// Adds what node `k` released, all of it or nothing.
fn add_outputs(
    alloc: Global,
    outputs: &mut Vec<ReleasedOutput>,
    k: usize,
    released: Vec<Numbered>,
) -> Result<(), AllocError>
    ensures ok { OnOk result (outputs.new.items ≡ outputs.old.items ++ released_by k released.items) }
    ensures err { OnErr result (outputs.new.items ≡ outputs.old.items) }
{
    let mut more = with_node(alloc, k, released)?;
    outputs.append(&mut more)
}

/// Keeps what node `k` gave, all of it or nothing.
fn keep(
    alloc: Global,
    letters: &mut Vec<Letter>,
    outputs: &mut Vec<ReleasedOutput>,
    k: usize,
    acted: Acted,
) -> Result<(), AllocError>
    ensures sent { letters.new.items ≡ letters.old.items ++ kept_of (is_ok result) (letters_given acted) }
    ensures released { outputs.new.items ≡ outputs.old.items ++ released_by k (kept_of (is_ok result) (outputs_given acted)) }
{
    match acted {
        Acted::Sent(mut sent) => letters.append(&mut sent),
        Acted::Released(released) => add_outputs(alloc, outputs, k, released),
        Acted::Finished => Ok(()),
        Acted::Refused(_) => Ok(()),
        Acted::Fault(_) => Ok(()),
    }
}

/// What a letter asks, that is taken before a crash or is not.
fn taking(letter: &Letter, crashes: bool) -> Asked<'_>
    ensures { ask_of result ≡ taking_lem crashes letter.now }
{
    if crashes {
        Asked::ReceiveThenCrash(letter)
    } else {
        Asked::Receive(letter)
    }
}

/// A seat for each node, in order.
fn seated<N: Node>(alloc: Global, nodes: Vec<N>) -> Result<Vec<Seat<N>>, AllocError>
    requires { All (λ node. (N.who node).down ≡ false) nodes.items }
    ensures { IfOk result (λ seats. AreSeated nodes.items seats.items) }
{
    let mut seats = Vec::new(alloc);
    for node in nodes {
        seats.push(Seat::new(node))?;
    }
    Ok(seats)
}

/// A world: its nodes, by number, every letter that was ever sent, what the nodes released, and its modems with what
/// they sent.
#[derive(Drop)]
pub struct World<N: Node> {
    seats: Vec<Seat<N>>,
    letters: Vec<Letter>,
    outputs: Vec<ReleasedOutput>,
    receivers: Receivers,
    alloc: Global,
    ghost numbered: { IsNumbered seats.items },
}

impl<N: Node> World<N> {
    ghost use Rattle.std.specs.Prelude.{◌≡◌, [], length, map, All, IfOk};
    ghost use Rattle.network_script.specs.World.{opening};
    ghost use Rattle.network_script.specs.Seats.{AreSeated};
    ghost use Rattle.seats.specs.Receiving.{AreNew, Hold, new_receivers};
    ghost use Rattle.seats.specs.Fresh.{AreFresh};
    ghost use Rattle.network_script.specs.Worlds.{AreHonest, StandsFor, letters_of, outputs_of, receivers_of, seats_of};
    ghost use Rattle.network_script.specs.Worlds.{transmissions_of};

    /// The opening world of these nodes and modems.
    pub fn new(alloc: Global, nodes: Vec<N>, modems: Vec<Modem>) -> Result<World<N>, OutOfMemory>
        requires nodes { AreFresh N.who N.honest N.stands nodes.items }
        requires modems { AreNew modems.items }
        ensures seated { IfOk result (λ world. AreSeated nodes.items (seats_of world)) }
        ensures opens { IfOk result (λ world. AreHonest world → StandsFor world (opening (length nodes.items) (map (λ modem. modem.id) modems.items))) }
        ensures nothing { IfOk result (λ world. (letters_of world ≡ []) × (outputs_of world ≡ []) × (transmissions_of world ≡ [])
            × Hold (receivers_of world) (new_receivers modems.items)) }
    {
        let seats = seated(alloc, nodes)?;
        Ok(World {
            seats,
            letters: Vec::new(alloc),
            outputs: Vec::new(alloc),
            receivers: Receivers::new(alloc, modems),
            alloc,
        })
    }
}

impl<N: Node> World<N> {
    ghost use Rattle.std.specs.Prelude.{◌≡◌, length, IfOk, OnErr};
    ghost use Rattle.network_script.specs.Asking.{Asks, Delivers, HappensTo};
    ghost use Rattle.network_script.specs.Counts.{CountRun, counts};
    ghost use Rattle.network_script.specs.Next.{Goes};
    ghost use Rattle.network_script.specs.Outward.{SeenAll};
    ghost use Rattle.network_script.specs.Seats.{AllKeepTrust, AreStandings};
    ghost use Rattle.network_script.specs.World.{Written};
    ghost use Rattle.network_script.specs.Worlds.{AreHonest, StandsFor, letters_of, node_count, outputs_of, seats_of};
    ghost use Rattle.network_script.specs.Worlds.{transmissions_of};

    /// Node `k`, if there is one, does what it is asked, and what it gives is kept.
    fn ask(&mut self, k: usize, asked: Asked) -> Answer
        ensures { Asks self.old k (ask_of asked.entry) result self.new }
    {
        if k >= self.seats.len() {
            return Answer::Refused(EventRefusal::NoNode);
        }
        let alloc = self.alloc;
        let seat = &mut self.seats[k];
        let acted = seat.act(asked);
        let told = acted.told();
        let kept = keep(alloc, &mut self.letters, &mut self.outputs, k, acted);
        seat.settle(told, kept)
    }

    /// Letter `i`, if there is one, comes to the node that it is to, which crashes then or does not.
    fn deliver(&mut self, i: usize, crashes: bool) -> Answer
        ensures { Delivers self.old i (taking_lem crashes) result self.new }
    {
        if i >= self.letters.len() {
            return Answer::Refused(EventRefusal::NoLetter);
        }
        let letter = &self.letters[i];
        let k = usize::from(letter.to.number());
        if k >= self.seats.len() {
            return Answer::Refused(EventRefusal::NoNode);
        }
        let alloc = self.alloc;
        let seat = &mut self.seats[k];
        let acted = seat.act(taking(letter, crashes));
        let told = acted.told();
        let kept = keep(alloc, &mut self.letters, &mut self.outputs, k, acted);
        seat.settle(told, kept)
    }

    /// One event.
    fn happen(&mut self, event: &Event) -> Answer
        ensures { HappensTo self.old event.now result self.new }
    {
        match event {
            Event::Lead(k) => self.ask(*k, Asked::Lead),
            Event::Offer(k, value) => self.ask(*k, Asked::Offer(value.as_slice())),
            Event::Tell(k, to, place) => self.ask(*k, Asked::Tell(to, *place)),
            Event::Deliver(i) => self.deliver(*i, false),
            Event::DeliverThenCrash(i) => self.deliver(*i, true),
            Event::Crash(k) => self.ask(*k, Asked::Crash),
            Event::Restart(k) => self.ask(*k, Asked::Restart),
            Event::Release(k, now) => self.ask(*k, Asked::Release(*now)),
            Event::Hear(m, i, near) => self.receivers.hear(&self.outputs, *m, *i, *near),
            Event::Want(m, ch, sid, n) => self.receivers.want(*m, *ch, *sid, *n),
            Event::Tick(m, ch, slot, random) => self.receivers.tick(*m, *ch, *slot, *random),
        }
    }

    /// The events one after another. Room for their answers is taken first; later nothing stops a run.
    pub fn run(&mut self, events: &[Event]) -> Result<Report, OutOfMemory>
        ensures honesty { AreHonest self.new → AreHonest self.old }
        ensures trust { AllKeepTrust (seats_of self.old) (seats_of self.new) }
        ensures run { IfOk result (λ report. AreHonest self.new → (w : Written) → StandsFor self.old w →
            (w' : Written) × Goes (length w.nodes) w events.now report w' × StandsFor self.new w') }
        ensures members { node_count self.new ≡ node_count self.old }
        ensures counted { IfOk result (λ report. CountRun (counts self.old) events.now report (counts self.new)) }
        ensures seen { IfOk result (λ report. SeenAll self.old events.now report self.new) }
        ensures err { OnErr result (self.new ≡ self.old) }
    {
        let mut answers = Vec::with_capacity(self.alloc, events.len())?;
        for event in events {
            let answer = self.happen(event);
            let _ = answers.push(answer);
        }
        Ok(Report::new(answers))
    }

    /// Its nodes, each in its seat, by number.
    pub fn seats(&self) -> &[Seat<N>]
        ensures items { result.now ≡ seats_of self.now }
        ensures written { (w : Written) → StandsFor self.now w → AreStandings result.now w.nodes }
    {
        self.seats.as_slice()
    }

    /// Every letter that was ever sent, in order.
    pub fn letters(&self) -> &[Letter]
        ensures items { result.now ≡ letters_of self.now }
        ensures written { (w : Written) → StandsFor self.now w → result.now ≡ w.letters }
    {
        self.letters.as_slice()
    }

    /// Every output that a node released, in order.
    pub fn outputs(&self) -> &[ReleasedOutput]
        ensures items { result.now ≡ outputs_of self.now }
        ensures written { (w : Written) → StandsFor self.now w → result.now ≡ w.outputs }
    {
        self.outputs.as_slice()
    }

    /// What the modems sent, in order.
    pub fn transmissions(&self) -> &[Transmission]
        ensures items { result.now ≡ transmissions_of self.now }
        ensures written { (w : Written) → StandsFor self.now w → result.now ≡ w.transmissions }
    {
        self.receivers.transmissions()
    }
}
