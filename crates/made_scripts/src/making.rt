//! A script is made by running it, each event chosen by what came before.

use crate::chances::Chances;
use crate::plant::Plant;
use crate::stage::{Coming, Stage};
use crate::wishes::Wishes;
use ballots::{Bytes, NodeId};
use command_log::command_bytes;
use grant_machine::Command;
use minislot_time::Slot;
use script_text::Script;
use seats::{Answer, OutOfMemory};
use std::alloc::Global;
use world_events::Event;

/// How often the chief is offered a value. Before the last two times no letter is lost.
const ATTEMPTS: usize = 4;

/// After so many commands there is a calm, in which no letter is lost.
const COMMANDS_BETWEEN_CALMS: usize = 16;

/// In how many cases of a hundred a node that crashed restarts before the next command.
const RESTARTS: u8 = 25;

/// What is known of a node.
#[derive(Clone, Copy)]
struct Standing {
    is_up: bool,
    /// Outputs up to this place were released since it started.
    released: u64,
}

/// A script in the making.
#[derive(Drop)]
struct Making<'a> {
    alloc: Global,
    wishes: Wishes<'a>,
    chances: Chances,
    stage: Stage,
    plant: Plant<'a>,
    nodes: Vec<Standing>,
    /// The node that is offered the commands.
    chief: usize,
    /// Whether it was asked to lead, and no offer failed since.
    leads: bool,
    /// Whether no letter is lost.
    is_calm: bool,
    /// How many commands were taken.
    taken: u64,
}

/// Behind a command so many letters at most are left to come.
const MOST_LEFT: usize = 30;

/// Which part of `total` is due at this step of so many: the parts of all steps make the whole.
fn share(total: u32, step: usize, steps: usize) -> u64 {
    if steps == 0 {
        return 0;
    }
    let total = u128::from(total);
    let before = total * step as u128 / steps as u128;
    let behind = total * (step as u128 + 1) / steps as u128;
    u64::try_from(behind.saturating_sub(before)).unwrap_or(0)
}

/// How many takeovers come before the command of this index of so many: none before the first one.
fn takeovers_before(takeovers: u32, index: usize, count: usize) -> u64 {
    if index == 0 {
        0
    } else {
        share(takeovers, index - 1, count.saturating_sub(1))
    }
}

/// The nodes of so many members, before anything.
fn standings(alloc: Global, count: u8) -> Result<Vec<Standing>, OutOfMemory> {
    let mut nodes = Vec::new(alloc);
    for _ in 0..count {
        nodes.push(Standing {
            is_up: true,
            released: 0,
        })?;
    }
    Ok(nodes)
}

impl<'a> Making<'a> {
    fn new(alloc: Global, wishes: &Wishes<'a>, start: Slot) -> Result<Making<'a>, OutOfMemory> {
        Ok(Making {
            alloc,
            wishes: *wishes,
            chances: Chances::new(wishes.seed),
            stage: Stage::new(alloc, wishes.members, wishes.modems)?,
            plant: Plant::new(alloc, wishes.modems, start),
            nodes: standings(alloc, wishes.members.count())?,
            chief: 0,
            leads: false,
            is_calm: false,
            taken: 0,
        })
    }

    fn is_up(&self, k: usize) -> bool {
        match self.nodes.get(k) {
            Some(node) => node.is_up,
            None => false,
        }
    }

    fn released(&self, k: usize) -> u64 {
        match self.nodes.get(k) {
            Some(node) => node.released,
            None => 0,
        }
    }

    fn set(&mut self, k: usize, is_up: bool, released: u64) {
        if let Some(node) = self.nodes.get_mut(k) {
            *node = Standing { is_up, released };
        }
    }

    /// Node k restarts, where it is down.
    fn start(&mut self, k: usize) -> Result<(), OutOfMemory> {
        if !self.is_up(k) {
            self.stage.happen(Event::Restart(k))?;
            self.set(k, true, 0);
        }
        Ok(())
    }

    fn start_all(&mut self) -> Result<(), OutOfMemory> {
        for k in 0..self.nodes.len() {
            self.start(k)?;
        }
        Ok(())
    }

    /// Some of the nodes that are down restart.
    fn start_some(&mut self) -> Result<(), OutOfMemory> {
        for k in 0..self.nodes.len() {
            if self.chances.percent(RESTARTS) {
                self.start(k)?;
            }
        }
        Ok(())
    }

    /// Whether a letter is lost.
    fn is_lost(&mut self) -> bool {
        let lose = if self.is_calm { 0 } else { self.wishes.lose };
        self.chances.percent(lose)
    }

    /// Whether the letter comes again.
    fn comes_again(&mut self, coming: Coming) -> bool {
        let repeat = if coming.is_repeat {
            0
        } else {
            self.wishes.repeat
        };
        self.chances.percent(repeat)
    }

    /// Whether the node that a letter is to is up.
    fn is_met(&self, letter: usize) -> bool {
        match self.stage.addressee(letter) {
            Some(to) => self.is_up(to),
            None => false,
        }
    }

    /// The letter comes, unless it is lost or the node that it is to is down.
    fn deliver(&mut self, coming: Coming) -> Result<(), OutOfMemory> {
        if self.is_lost() {
            return Ok(());
        }
        if !self.is_met(coming.letter) {
            return Ok(());
        }
        self.stage.happen(Event::Deliver(coming.letter))?;
        if self.comes_again(coming) {
            self.stage.is_to_come(coming.letter, true)?;
        }
        Ok(())
    }

    /// One of the letters that are to come, where there is one.
    fn pick(&mut self) -> Option<Coming> {
        let place = self.chances.below(self.stage.coming());
        self.stage.take(place)
    }

    /// Letters come, in any order, until no more than so many are to come.
    fn settle(&mut self, left: usize) -> Result<(), OutOfMemory> {
        for _ in 0..u64::MAX {
            if self.stage.coming() <= left {
                break;
            }
            let Some(coming) = self.pick() else {
                break;
            };
            self.deliver(coming)?;
        }
        Ok(())
    }

    /// All letters that are to come do so, and none is lost.
    fn settle_calmly(&mut self) -> Result<(), OutOfMemory> {
        let was_calm = self.is_calm;
        self.is_calm = true;
        self.settle(0)?;
        self.is_calm = was_calm;
        Ok(())
    }

    /// The chief is asked to lead, and letters come.
    fn lead(&mut self, calmly: bool) -> Result<(), OutOfMemory> {
        self.start(self.chief)?;
        self.stage.happen(Event::Lead(self.chief))?;
        self.leads = true;
        if calmly {
            self.settle_calmly()
        } else {
            self.settle(0)
        }
    }

    /// The chief is offered the command once, and leads first where it doesn't.
    fn offer(&mut self, command: &Command, calmly: bool) -> Result<bool, OutOfMemory> {
        if !self.leads {
            self.lead(calmly)?;
        }
        let value = Bytes::new(command_bytes(self.alloc, command)?);
        match self.stage.happen(Event::Offer(self.chief, value))? {
            Answer::Sent(_) => {
                self.taken = self.taken.saturating_add(1);
                Ok(true)
            }
            _ => {
                self.leads = false;
                Ok(false)
            }
        }
    }

    /// The chief is offered the command until it takes it.
    fn offer_often(&mut self, command: &Command) -> Result<(), OutOfMemory> {
        for attempt in 0..ATTEMPTS {
            if self.offer(command, attempt + 2 >= ATTEMPTS)? {
                break;
            }
        }
        Ok(())
    }

    /// The next node is the chief. Where nothing is ever lost, it first hears of all that was sent.
    fn take_over(&mut self) -> Result<(), OutOfMemory> {
        if self.wishes.lose == 0 && self.wishes.crashes == 0 {
            self.settle_calmly()?;
        }
        self.chief = self.behind(self.chief);
        self.leads = false;
        Ok(())
    }

    /// The next node's number.
    fn behind(&self, k: usize) -> usize {
        if k < self.nodes.len().saturating_sub(1) {
            k + 1
        } else {
            0
        }
    }

    fn count_down(&self) -> usize {
        self.nodes.iter().filter(|node| !node.is_up).count()
    }

    /// Node k crashed.
    fn note_crash(&mut self, k: usize) {
        self.set(k, false, 0);
        if k == self.chief {
            self.leads = false;
        }
    }

    /// The first node from this number on that is up.
    fn up_from(&self, first: usize) -> usize {
        let mut k = first;
        for _ in 0..self.nodes.len() {
            if self.is_up(k) {
                break;
            }
            k = self.behind(k);
        }
        k
    }

    /// A node that is up crashes, the first from this number on.
    fn crash_from(&mut self, first: usize) -> Result<(), OutOfMemory> {
        let k = self.up_from(first);
        self.stage.happen(Event::Crash(k))?;
        self.note_crash(k);
        Ok(())
    }

    /// Whether half of the nodes would be down with one more.
    fn are_many_down(&self) -> bool {
        self.count_down().saturating_add(1) >= self.nodes.len().div_ceil(2)
    }

    /// A node crashes, by itself or behind a letter. Fewer than half of the nodes are down at once.
    fn crash(&mut self) -> Result<(), OutOfMemory> {
        if self.are_many_down() {
            self.start_all()?;
        }
        if self.chances.percent(50) {
            self.crash_behind_any()
        } else {
            let first = self.chances.below(self.nodes.len());
            self.crash_from(first)
        }
    }

    /// A node crashes behind one of the letters that are to come, or by itself where none is.
    fn crash_behind_any(&mut self) -> Result<(), OutOfMemory> {
        match self.pick() {
            Some(coming) => self.crash_behind(coming.letter),
            None => self.crash_from(0),
        }
    }

    /// The node to which the letter is takes it and crashes. Where it is down another one crashes.
    fn crash_behind(&mut self, letter: usize) -> Result<(), OutOfMemory> {
        let to = self.stage.addressee(letter).unwrap_or(0);
        if !self.is_up(to) {
            return self.crash_from(0);
        }
        self.stage.happen(Event::DeliverThenCrash(letter))?;
        self.note_crash(to);
        Ok(())
    }

    /// Node k releases what it can, and the modems hear what is new.
    fn release(&mut self, k: usize) -> Result<(), OutOfMemory> {
        let first = self.stage.outputs().len();
        if let Answer::Released(count) = self.stage.happen(Event::Release(k, 0))? {
            self.set(k, true, self.released(k).saturating_add(count as u64));
        }
        self.plant
            .hear_from(&mut self.stage, &mut self.chances, first)
    }

    /// Each node that is up releases what it can.
    fn release_all(&mut self) -> Result<(), OutOfMemory> {
        for k in 0..self.nodes.len() {
            if self.is_up(k) {
                self.release(k)?;
            }
        }
        Ok(())
    }

    /// The node that released most.
    fn foremost(&self) -> usize {
        let mut foremost = 0;
        for k in 0..self.nodes.len() {
            if self.released(k) > self.released(foremost) {
                foremost = k;
            }
        }
        foremost
    }

    /// Whether a node that is up lacks a place of those that were taken, or that another one released.
    fn lacks(&self) -> bool {
        let whole = self.taken.max(self.released(self.foremost()));
        self.nodes
            .iter()
            .any(|node| node.is_up && node.released < whole)
    }

    /// Node `from` tells node k what that lacks, 64 places at a time.
    fn tell(&mut self, from: usize, k: usize) -> Result<(), OutOfMemory> {
        let Some(to) = NodeId::new((k % 5) as u8) else {
            return Ok(());
        };
        for _ in 0..u64::MAX {
            if !self.tell_some(from, k, to)? {
                break;
            }
        }
        Ok(())
    }

    /// Whether node k lacks what node `from` released.
    fn lags(&self, k: usize, from: usize) -> bool {
        self.is_up(k) && self.released(k) < self.released(from)
    }

    /// Node `from` tells node k the next 64 places, where that lacks some, and whether it released more then.
    fn tell_some(&mut self, from: usize, k: usize, to: NodeId) -> Result<bool, OutOfMemory> {
        if !self.lags(k, from) {
            return Ok(false);
        }
        let known = self.released(k);
        self.stage
            .happen(Event::Tell(from, to, known.saturating_add(1)))?;
        self.settle_calmly()?;
        self.release(k)?;
        Ok(self.released(k) > known)
    }

    /// The chief leads anew, so that what was lost is proposed again, and those that lack places are told them.
    fn mend(&mut self) -> Result<(), OutOfMemory> {
        self.lead(true)?;
        self.release_all()?;
        let from = self.foremost();
        for k in 0..self.nodes.len() {
            self.tell(from, k)?;
        }
        Ok(())
    }

    /// All letters come, nodes release what they can, and what was lost is mended.
    fn be_calm(&mut self) -> Result<(), OutOfMemory> {
        self.settle_calmly()?;
        self.release_all()?;
        if self.lacks() {
            self.mend()?;
        }
        Ok(())
    }

    fn crash_often(&mut self, count: u64) -> Result<(), OutOfMemory> {
        for _ in 0..count {
            self.crash()?;
        }
        Ok(())
    }

    /// What comes before the command of this index and with it.
    fn step(&mut self, index: usize, count: usize, command: &Command) -> Result<(), OutOfMemory> {
        self.start_some()?;
        self.crash_often(share(self.wishes.crashes, index, count))?;
        if takeovers_before(self.wishes.takeovers, index, count) > 0 {
            self.take_over()?;
        }
        self.offer_often(command)?;
        let left = self.chances.below(MOST_LEFT);
        self.settle(left)?;
        if index % COMMANDS_BETWEEN_CALMS == COMMANDS_BETWEEN_CALMS - 1 {
            self.be_calm()?;
        }
        Ok(())
    }

    /// What comes behind the commands: all nodes are up, all letters come, and all that can be released is.
    fn end(&mut self, count: usize) -> Result<(), OutOfMemory> {
        if count == 0 {
            self.lead(false)?;
            self.crash_often(u64::from(self.wishes.crashes))?;
        }
        self.start_all()?;
        self.be_calm()
    }
}

/// A script of these wishes, whose nodes are offered these commands in order. What comes of it is to be read off a run
/// of it: nothing is promised here. The same commands and wishes make the same script. The only fault is want of
/// memory.
pub fn made_script(
    alloc: Global,
    commands: &[Command],
    wishes: &Wishes<'_>,
) -> Result<Script, OutOfMemory> {
    let Some(start) = Slot::new(0) else {
        unreachable!();
    };
    let modems = Vec::from_slice(alloc, wishes.modems)?;
    let mut making = Making::new(alloc, wishes, start)?;
    for (index, command) in commands.iter().enumerate() {
        making.step(index, commands.len(), command)?;
    }
    making.end(commands.len())?;
    let Making { stage, .. } = making;
    Ok(Script {
        members: wishes.members,
        modems,
        events: stage.into_events(),
    })
}
