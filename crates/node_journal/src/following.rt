//! Journals that are followed side by side: each goes on as far as the letters that came to it were sent.

ghost use Rattle.std.specs.Prelude.{◌≡◌, ◌↔◌, ◌<◌, ◌≤◌, Contains, IfErr, IfOk, IfSome, IsTrue, IsOk, OnOk, MatchOption};
ghost use Rattle.std.specs.Prelude.{length};
ghost use Rattle.ballots.specs.Members.{member_count};
ghost use Rattle.node_journal.specs.Following.{AreEnded, AreStill, IsReached, IsWaitingAt, IsWhyOfLetter, StandsAt};
ghost use Rattle.node_journal.specs.Following.{StopsSo, TearsOne};
ghost use Rattle.node_journal.specs.Legal.{AreLegalJournals};

use crate::follower::{Follower, Step};
use crate::replies::Guesses;
use crate::sent::Sent;
use crate::tear::Why;
use ballots::{Bytes, Letter, Members, NodeId};
use seats::OutOfMemory;
use std::alloc::Global;

/// Where a journal doesn't go on: its number, how many bytes of it were followed, how many lines without a reply they
/// have, whether it reads a letter there that didn't come, and why it doesn't go on.
#[derive(Clone, Copy, Debug)]
pub(crate) struct Stop {
    pub(crate) journal: usize,
    pub(crate) place: usize,
    pub(crate) doubts: usize,
    pub(crate) waits: bool,
    pub(crate) why: Why,
}

/// Why a follower doesn't go on for now.
#[derive(Clone, Copy, Debug, PartialEq, Eq)]
enum Rest {
    /// Its journal is at its end, or waits for a letter.
    Stays,
    Torn,
}

/// What a round came to.
enum Round {
    /// Some of the followers went on.
    Moved,
    /// None did.
    Stays,
    /// This journal doesn't go on.
    Torn(usize),
}

/// Why a journal doesn't go on with a letter that didn't come.
fn why_of_letter(members: Members, me: NodeId, letter: &Letter) -> Why
    ensures { IsWhyOfLetter members me letter.now result }
{
    if letter.to != me || letter.from.number() >= members.count() {
        Why::NoLine
    } else {
        Why::Unsent(letter.from)
    }
}

/// Whether a letter came that a node reads: it is to the node, and was sent.
fn has_come(me: NodeId, sent: &Sent, letter: &Letter) -> bool
    ensures { IsTrue result ↔ ((letter.now.to ≡ me) × Contains sent.now letter.now) }
{
    letter.to == me && sent.holds(letter)
}

/// How many lines a text has.
fn line_count(text: &[u8]) -> usize {
    text.iter().filter(|byte| **byte == b'\n').count()
}

/// The followers of the journals of so many members, by number, and the letters that they sent so far.
#[derive(Drop)]
pub(crate) struct Following {
    pub(crate) alloc: Global,
    pub(crate) members: Members,
    pub(crate) followers: Vec<Follower>,
    pub(crate) sent: Sent,
    pub(crate) guesses: Vec<Guesses>,
}

impl Following {
    /// Each stands at the beginning of its journal. Lines without a reply are taken as these say.
    fn begin(
        alloc: Global,
        members: Members,
        journals: &[Bytes],
        skips: &[Vec<bool>],
    ) -> Result<Following, OutOfMemory>
        requires { length journals.now ≡ member_count members }
        ensures reached { IfOk result (IsReached journals.now) }
        ensures members { IfOk result (λ x. x.members ≡ members) }
    {
        let mut followers = Vec::new(alloc);
        let mut guesses = Vec::new(alloc);
        for number in 0..members.count() {
            let Some(id) = NodeId::new(number) else {
                return Err(OutOfMemory);
            };
            let k = usize::from(number);
            let lines = line_count(journals[k].as_slice());
            let skipped = match skips.get(k) {
                Some(skipped) => Vec::from_slice(alloc, skipped)?,
                None => Vec::new(alloc),
            };
            followers.push(Follower::new(alloc, id, members, lines)?)?;
            guesses.push(Guesses::new(skipped))?;
        }
        Ok(Following {
            alloc,
            members,
            followers,
            sent: Sent::new(alloc),
            guesses,
        })
    }

    /// One step of a follower. None where it goes on.
    fn step(&mut self, journals: &[Bytes], k: usize) -> Result<Option<Rest>, OutOfMemory>
        requires reached { IsReached journals.now self.old }
        requires within { k < length journals.now }
        ensures reached { OnOk result (IsReached journals.now self.new) }
        ensures members { self.new.members ≡ self.old.members }
    {
        let text = journals[k].as_slice();
        let Some(guesses) = self.guesses.get_mut(k) else {
            return Err(OutOfMemory);
        };
        let follower = &mut self.followers[k];
        match follower.step(self.alloc, text, &self.sent, guesses)? {
            Step::Did(letters) => {
                self.sent.add_all(letters)?;
                Ok(None)
            }
            Step::Moved => Ok(None),
            Step::Waits => Ok(Some(Rest::Stays)),
            Step::Ends => Ok(Some(Rest::Stays)),
            Step::Torn => Ok(Some(Rest::Torn)),
        }
    }

    /// A follower goes on as far as it can.
    fn go_on(&mut self, journals: &[Bytes], k: usize) -> Result<Rest, OutOfMemory>
        requires reached { IsReached journals.now self.old }
        requires within { k < length journals.now }
        ensures reached { OnOk result (IsReached journals.now self.new) }
        ensures members { self.new.members ≡ self.old.members }
    {
        for _ in 0..u64::MAX {
            if let Some(rest) = self.step(journals, k)? {
                return Ok(rest);
            }
        }
        Ok(Rest::Torn)
    }

    /// How far all were followed.
    fn length(&self) -> usize {
        let mut sum = 0usize;
        for follower in &self.followers {
            sum = sum.saturating_add(follower.place);
        }
        sum
    }

    /// Each of the first so many followers goes on as far as it can, one after another.
    fn go_round(&mut self, journals: &[Bytes], count: usize) -> Result<Round, OutOfMemory>
        requires reached { IsReached journals.now self.old }
        requires within { count ≤ length journals.now }
        ensures reached { OnOk result (IsReached journals.now self.new) }
        ensures members { self.new.members ≡ self.old.members }
        ensures torn { IfOk result (TearsOne count) }
    {
        let before = self.length();
        for k in 0..count {
            if self.go_on(journals, k)? == Rest::Torn {
                return Ok(Round::Torn(k));
            }
        }
        Ok(if self.length() > before {
            Round::Moved
        } else {
            Round::Stays
        })
    }

    /// Rounds of the first so many, until one of their journals is torn or none goes on. Which one is torn.
    fn go_all(&mut self, journals: &[Bytes], count: usize) -> Result<Option<usize>, OutOfMemory>
        requires reached { IsReached journals.now self.old }
        requires within { count ≤ length journals.now }
        ensures reached { OnOk result (IsReached journals.now self.new) }
        ensures members { self.new.members ≡ self.old.members }
        ensures torn { IfOk result (λ torn. IfSome torn (λ k. k < count)) }
    {
        for _ in 0..u64::MAX {
            match self.go_round(journals, count)? {
                Round::Moved => {}
                Round::Stays => return Ok(None),
                Round::Torn(k) => return Ok(Some(k)),
            }
        }
        Ok(None)
    }

    /// Rounds of all, and behind a journal that is torn of those before it alone. The first one that is torn.
    fn first_torn(&mut self, journals: &[Bytes]) -> Result<Option<usize>, OutOfMemory>
        requires { IsReached journals.now self.old }
        ensures reached { OnOk result (IsReached journals.now self.new) }
        ensures members { self.new.members ≡ self.old.members }
        ensures torn { IfOk result (λ torn. IfSome torn (λ k. k < length journals.now)) }
    {
        let mut first = None;
        let mut count = journals.len();
        for _ in 0..journals.len() {
            let Some(k) = self.go_all(journals, count)? else {
                return Ok(first);
            };
            first = Some(k);
            count = k;
        }
        Ok(first)
    }

    /// The first journal that isn't followed to its end.
    fn first_left(&self, journals: &[Bytes]) -> Option<usize>
        requires { IsReached journals.now self.now }
        ensures legal { MatchOption result (AreLegalJournals self.now.members journals.now) (λ k. k < length journals.now) }
        ensures ended { IfSome result (AreEnded journals.now self.now) }
    {
        for k in 0..journals.len() {
            if !self.followers[k].has_followed(journals[k].as_slice()) {
                return Some(k);
            }
        }
        None
    }

    /// How many lines without a reply were followed of a journal.
    fn doubts(&self, k: usize) -> usize {
        match self.guesses.get(k) {
            Some(guesses) => guesses.doubts,
            None => 0,
        }
    }

    /// Where a journal waits, if it does: it reads a letter that didn't come.
    fn waiting(&self, journals: &[Bytes], k: usize) -> Result<Option<Stop>, OutOfMemory>
        requires reached { IsReached journals.now self.now }
        requires within { k < length journals.now }
        ensures { IfOk result (λ found. IfSome found (IsWaitingAt journals.now self.now k)) }
    {
        let follower = &self.followers[k];
        let Some(letter) = follower.letter_at(self.alloc, journals[k].as_slice())? else {
            return Ok(None);
        };
        if has_come(follower.id, &self.sent, &letter) {
            return Ok(None);
        }
        Ok(Some(Stop {
            journal: k,
            place: follower.place,
            doubts: self.doubts(k),
            waits: true,
            why: why_of_letter(self.members, follower.id, &letter),
        }))
    }

    /// Whether a journal is followed to its end, or waits, where that is asked.
    fn stands_still(&self, journals: &[Bytes], k: usize, asked: bool) -> Result<bool, OutOfMemory>
        requires reached { IsReached journals.now self.now }
        requires within { k < length journals.now }
        ensures { IfOk result (λ still. IsTrue still → StandsAt journals.now self.now k asked) }
    {
        if self.followers[k].has_followed(journals[k].as_slice()) {
            return Ok(true);
        }
        if !asked {
            return Ok(true);
        }
        Ok(self.waiting(journals, k)?.is_some())
    }

    /// Whether each of the first so many journals does.
    fn all_stand_still(&self, journals: &[Bytes], count: usize) -> Result<bool, OutOfMemory>
        requires { IsReached journals.now self.now }
        ensures { IfOk result (λ still. IsTrue still → AreStill journals.now self.now count) }
    {
        for k in 0..journals.len() {
            if !self.stands_still(journals, k, k < count)? {
                return Ok(false);
            }
        }
        Ok(true)
    }

    /// Where a journal waits for a letter that doesn't come, and those before it are at their ends.
    fn stop_waiting(&self, journals: &[Bytes], k: usize) -> Result<Stop, OutOfMemory>
        requires reached { IsReached journals.now self.now }
        requires within { k < length journals.now }
        requires ended { AreEnded journals.now self.now k }
        ensures { IfOk result (StopsSo self.now.members journals.now) }
    {
        if !self.all_stand_still(journals, journals.len())? {
            return Err(OutOfMemory);
        }
        match self.waiting(journals, k)? {
            Some(stop) => Ok(stop),
            None => Err(OutOfMemory),
        }
    }

    /// Where a journal is torn, and those before it stand still.
    fn stop_torn(&self, journals: &[Bytes], k: usize) -> Result<Stop, OutOfMemory>
        requires reached { IsReached journals.now self.now }
        requires within { k < length journals.now }
        ensures { IfOk result (StopsSo self.now.members journals.now) }
    {
        if !self.all_stand_still(journals, k)? {
            return Err(OutOfMemory);
        }
        let follower = &self.followers[k];
        let Some(why) = follower.why else {
            return Err(OutOfMemory);
        };
        Ok(Stop {
            journal: k,
            place: follower.place,
            doubts: self.doubts(k),
            waits: false,
            why,
        })
    }
}

/// Follows the journals to their ends. Lines without a reply are taken as these say.
pub(crate) fn follow_all(
    alloc: Global,
    members: Members,
    journals: &[Bytes],
    skips: &[Vec<bool>],
) -> Result<Result<(), Stop>, OutOfMemory>
    requires { length journals.now ≡ member_count members }
    ensures legal { IfOk result (λ found. IsOk found → AreLegalJournals members journals.now) }
    ensures stop { IfOk result (λ found. IfErr found (StopsSo members journals.now)) }
{
    let mut following = Following::begin(alloc, members, journals, skips)?;
    if let Some(k) = following.first_torn(journals)? {
        return Ok(Err(following.stop_torn(journals, k)?));
    }
    match following.first_left(journals) {
        Some(k) => Ok(Err(following.stop_waiting(journals, k)?)),
        None => Ok(Ok(())),
    }
}
