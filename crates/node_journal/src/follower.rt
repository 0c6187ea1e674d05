//! A node that does again what its journal tells.

ghost use Rattle.std.specs.Prelude.{◌≡◌, ◌≤◌, ◌<◌, ◌+◌, ◌^◌, ◌∷◌, ◌++◌, [], ℕ, List, IfOk, IfSome, IsTrue, OnOk};
ghost use Rattle.std.specs.Prelude.{length, drop};
ghost use Rattle.ballots.specs.Members.{member_count};
ghost use Rattle.ballots.specs.declared.letters.Letter.{Letter as Sending};
ghost use Rattle.node_journal.specs.Following.{IsCrashPart, IsDoubtOf, IsFollowed, IsHalf, IsOfLife, IsQuiet};
ghost use Rattle.node_journal.specs.Following.{IsWholeCrash, SamePlace, Steps, Works, WorksAs};
ghost use Rattle.node_journal.specs.Tears.{GoesOn, GoesOtherwise, IsAtLetter};
ghost use Rattle.node_journal.specs.declared.tear.Why.TheVariants as whys;
ghost use Rattle.node_journal.specs.Turns.{cause_of as cause_of_lem, crash_entry, restart_entry};
ghost use Rattle.node_journal.specs.declared.phase.Phase.TheVariants as phase;
ghost use Rattle.node_lines.specs.Input.{IsLine};
ghost use Rattle.node_lines.specs.Lines.{Asks};
ghost use Rattle.node_lines.specs.declared.request.Request.{Request as Asked};
ghost use Rattle.node_service.specs.Incoming.{IsTurnedAway};
ghost use Rattle.node_worker.specs.KeptView.{IsReplay};
ghost use Rattle.node_worker.specs.Legal.{Comes};

use crate::phase::Phase;
use crate::replies::{
    Course, CrashPart, Guesses, acted_of, cause_of, head_bytes, letters_out, reply_bytes,
    what_is_asked,
};
use crate::sent::Sent;
use crate::tear::Why;
use crate::texts::{
    begins_life, common, goes_on, goes_on_otherwise, goes_on_with_life, split_line, written_part,
};
use acceptor::PlainRecords;
use ballots::{Letter, Members, NodeId};
use node::SchedNode;
use node_lines::{LineFault, Request};
use node_service::{Incoming, Reply};
use node_worker::{Ask, Cause, Kept};
use seats::{Acted, OutOfMemory, PlainNode};
use std::alloc::Global;

/// What a step came to.
#[derive(Drop)]
pub(crate) enum Step {
    /// The node did something, and these letters went out.
    Did(Vec<Letter>),
    /// The journal goes on, and the node did nothing.
    Moved,
    /// A letter comes that wasn't sent yet.
    Waits,
    /// The journal is at its end.
    Ends,
    /// The journal doesn't go on as the node does.
    Torn,
}

/// A step that goes over so many bytes of the first lines of a life.
fn step_over(count: usize) -> Step
    ensures { IsQuiet result }
{
    if count > 0 { Step::Moved } else { Step::Torn }
}

/// Why a journal is torn that has another byte than the reply behind so many of its bytes.
fn why_of_reply(after: &[u8], reply: &[u8], count: usize) -> Option<Why>
    ensures { IfSome result (λ why. (why ≡ whys.OtherReply) × GoesOtherwise after.now count reply.now count) }
{
    if goes_on_otherwise(after, reply, count) {
        Some(Why::OtherReply)
    } else {
        None
    }
}

/// Why a journal is torn where a life has to begin behind the reply that the node crashed.
fn why_of_crash(after: &[u8], part: CrashPart) -> Option<Why>
    ensures { IfSome result (λ why. (why ≡ whys.NoLine) × IsTrue part.is_whole × GoesOn after.now part.count) }
{
    if part.is_whole && goes_on(after, part.count) {
        Some(Why::NoLine)
    } else {
        None
    }
}

/// A node with records in memory, and how far its journal is followed.
#[derive(Drop)]
pub(crate) struct Follower {
    pub(crate) id: NodeId,
    pub(crate) members: Members,
    pub(crate) kept: Kept<PlainNode>,
    pub(crate) place: usize,
    pub(crate) phase: Phase,
    /// Why its journal is torn, if it doesn't go on here.
    pub(crate) why: Option<Why>,
}

impl Follower {
    /// A node that holds nothing, at the beginning of a journal of so many lines at most.
    pub(crate) fn new(
        alloc: Global,
        id: NodeId,
        members: Members,
        lines: usize,
    ) -> Result<Follower, OutOfMemory>
        requires { id < member_count members }
        ensures followed { IfOk result (λ f. (text : List ℕ) → IsFollowed text f) }
        ensures node { IfOk result (λ f. (f.id ≡ id) × (f.members ≡ members)) }
        ensures nothing { IfOk result (λ f. f.kept.entries ≡ []) }
    {
        let records = PlainRecords::new(alloc);
        let node: PlainNode = SchedNode::new(alloc, id, members, records);
        Ok(Follower {
            id,
            members,
            kept: Kept::new(alloc, node, lines)?,
            place: 0,
            phase: Phase::Unborn,
            why: None,
        })
    }

    /// So many more bytes of the journal are followed, and it stands so then.
    fn go(&mut self, count: usize, phase: Phase, why: Option<Why>) -> Result<(), OutOfMemory>
        ensures { OnOk result (self.new ≡ record self.old { place = self.old.place + count; phase = phase; why = why }) }
    {
        let Some(place) = self.place.checked_add(count) else {
            return Err(OutOfMemory);
        };
        self.place = place;
        self.phase = phase;
        self.why = why;
        Ok(())
    }

    /// The node does something.
    fn work(&mut self, cause: Cause) -> Result<Acted, OutOfMemory>
        ensures { IfOk result (λ acted. Works cause self.old acted self.new) }
    {
        let Ok(done) = self.kept.work(cause) else {
            return Err(OutOfMemory);
        };
        match acted_of(done.entry) {
            Some(acted) => Ok(acted),
            None => Err(OutOfMemory),
        }
    }

    /// The node crashes.
    fn crash(&mut self) -> Result<(), OutOfMemory>
        ensures { OnOk result (WorksAs crash_entry self.old self.new) }
    {
        match self.work(Cause::Ask(Ask::Crash))? {
            Acted::Finished => Ok(()),
            _ => Err(OutOfMemory),
        }
    }

    /// The node starts again.
    fn restart(&mut self) -> Result<(), OutOfMemory>
        ensures { OnOk result (WorksAs restart_entry self.old self.new) }
    {
        match self.work(Cause::Ask(Ask::Restart))? {
            Acted::Finished => Ok(()),
            _ => Err(OutOfMemory),
        }
    }

    /// Why the journal is torn behind so many bytes of the first lines of a life.
    fn why_of_life(&self, rest: &[u8], count: usize) -> Option<Why>
        ensures { IsOfLife self.now rest.now count result }
    {
        if count == 0 && self.place > 0 {
            return self.why;
        }
        if goes_on(rest, count) {
            Some(Why::NoLine)
        } else {
            None
        }
    }

    /// Where no life goes on and the node holds nothing.
    fn begin(&mut self, alloc: Global, text: &[u8]) -> Result<Step, OutOfMemory>
        requires followed { IsFollowed text.now self.old }
        requires phase { self.old.phase ≡ phase.Unborn }
        ensures { IfOk result (λ step. (sent : List Sending) → Steps text.now sent self.old step self.new) }
    {
        let head = head_bytes(alloc, &Reply::Fresh(self.id, self.members))?;
        let rest = &text[self.place..];
        let count = written_part(rest, &head);
        if count == head.len() {
            self.go(count, Phase::Up, None)?;
            return Ok(Step::Moved);
        }
        let why = self.why_of_life(rest, count);
        self.go(count, Phase::Cut, why)?;
        Ok(step_over(count))
    }

    /// Where the node crashed.
    fn start_again(&mut self, alloc: Global, text: &[u8]) -> Result<Step, OutOfMemory>
        requires followed { IsFollowed text.now self.old }
        requires phase { self.old.phase ≡ phase.Down }
        ensures { IfOk result (λ step. (sent : List Sending) → Steps text.now sent self.old step self.new) }
    {
        let head = head_bytes(alloc, &Reply::Restarted(self.id, self.members))?;
        let rest = &text[self.place..];
        let count = written_part(rest, &head);
        if count == head.len() {
            self.restart()?;
            self.go(count, Phase::Up, None)?;
            return Ok(Step::Did(Vec::new(alloc)));
        }
        let why = self.why_of_life(rest, count);
        self.go(count, Phase::Down, why)?;
        Ok(step_over(count))
    }

    /// Whether a text goes on with a life of a node that holds nothing, and not with one that goes on over what it
    /// left. Where it ends within what both have in common, it does.
    fn begins_anew(&self, alloc: Global, text: &[u8]) -> Result<bool, OutOfMemory> {
        let anew = head_bytes(alloc, &Reply::Fresh(self.id, self.members))?;
        let again = head_bytes(alloc, &Reply::Restarted(self.id, self.members))?;
        let count = common(text, &anew);
        Ok(count > 0 && count >= common(text, &again))
    }

    /// Where a life is at its end.
    fn end(&mut self, alloc: Global, text: &[u8]) -> Result<Step, OutOfMemory>
        requires followed { IsFollowed text.now self.old }
        requires phase { self.old.phase ≡ phase.Cut }
        ensures { IfOk result (λ step. (sent : List Sending) → Steps text.now sent self.old step self.new) }
    {
        let begins = self.begins_anew(alloc, &text[self.place..])?;
        let why = self.why;
        if begins && self.kept.entries().is_empty() {
            self.go(0, Phase::Unborn, why)?;
            return Ok(Step::Moved);
        }
        self.crash()?;
        self.go(0, Phase::Down, why)?;
        Ok(Step::Did(Vec::new(alloc)))
    }

    /// A line is refused, or the life ends within the refusal.
    fn refuse(
        &mut self,
        alloc: Global,
        text: &[u8],
        line: &[u8],
        after: &[u8],
        why: LineFault,
    ) -> Result<Step, OutOfMemory>
        requires followed { IsFollowed text.now self.old }
        requires phase { self.old.phase ≡ phase.Up }
        requires text { drop self.old.place text.now ≡ line.now ++ 10 ∷ after.now }
        requires line { IsLine line.now }
        requires refused { IsTurnedAway line.now why }
        ensures { IfOk result (λ step. (sent : List Sending) → Steps text.now sent self.old step self.new) }
    {
        let reply = reply_bytes(alloc, &Reply::Refused(why))?;
        let count = written_part(after, &reply);
        if count == reply.len() {
            self.go(line.len() + 1 + count, Phase::Up, None)?;
            return Ok(Step::Moved);
        }
        let why = why_of_reply(after, &reply, count);
        self.go(line.len() + 1 + count, Phase::Cut, why)?;
        Ok(Step::Moved)
    }

    /// A line that asks something isn't obeyed, and the life ends behind these bytes of a reply that the node crashed.
    fn leave(
        &mut self,
        text: &[u8],
        line: &[u8],
        after: &[u8],
        part: CrashPart,
    ) -> Result<Step, OutOfMemory>
        requires followed { IsFollowed text.now self.old }
        requires phase { self.old.phase ≡ phase.Up }
        requires text { drop self.old.place text.now ≡ line.now ++ 10 ∷ after.now }
        requires line { IsLine line.now }
        requires asks { (asked : Asked) × Asks line.now asked }
        requires part { IsCrashPart after.now part }
        ensures { IfOk result (λ step. (sent : List Sending) → Steps text.now sent self.old step self.new) }
    {
        let why = why_of_crash(after, part);
        self.go(line.len() + 1 + part.count, Phase::Cut, why)?;
        Ok(Step::Moved)
    }

    /// A line is obeyed, and the life ends behind these bytes of the reply that the store broke.
    fn obey_and_stop(
        &mut self,
        alloc: Global,
        text: &[u8],
        line: &[u8],
        after: &[u8],
        asked: Request,
        part: CrashPart,
    ) -> Result<Step, OutOfMemory>
        requires followed { IsFollowed text.now self.old }
        requires phase { self.old.phase ≡ phase.Up }
        requires text { drop self.old.place text.now ≡ line.now ++ 10 ∷ after.now }
        requires line { IsLine line.now }
        requires asks { Asks line.now asked }
        requires part { IsDoubtOf after.now part.count }
        requires whole { IsTrue part.is_whole → IsWholeCrash after.now part.count }
        ensures { IfOk result (λ step. (sent : List Sending) → Comes sent self.old.id (cause_of_lem asked) → Steps text.now sent self.old step self.new) }
    {
        let acted = self.work(cause_of(asked))?;
        let why = why_of_crash(after, part);
        self.go(line.len() + 1 + part.count, Phase::Cut, why)?;
        Ok(Step::Did(letters_out(alloc, Reply::Acted(acted))))
    }

    /// A line is obeyed, and replied to in whole or in part.
    fn obey(
        &mut self,
        alloc: Global,
        text: &[u8],
        line: &[u8],
        after: &[u8],
        asked: Request,
    ) -> Result<Step, OutOfMemory>
        requires followed { IsFollowed text.now self.old }
        requires phase { self.old.phase ≡ phase.Up }
        requires text { drop self.old.place text.now ≡ line.now ++ 10 ∷ after.now }
        requires line { IsLine line.now }
        requires asks { Asks line.now asked }
        ensures { IfOk result (λ step. (sent : List Sending) → Comes sent self.old.id (cause_of_lem asked) → Steps text.now sent self.old step self.new) }
    {
        let acted = self.work(cause_of(asked))?;
        let reply = Reply::Acted(acted);
        let bytes = reply_bytes(alloc, &reply)?;
        let count = written_part(after, &bytes);
        if count == bytes.len() {
            self.go(line.len() + 1 + count, Phase::Up, None)?;
            return Ok(Step::Did(letters_out(alloc, reply)));
        }
        let _entries = self.kept.entries();
        let why = why_of_reply(after, &bytes, count);
        self.go(line.len() + 1 + count, Phase::Cut, why)?;
        Ok(Step::Did(letters_out(alloc, reply)))
    }

    /// Whether what is asked may come: a letter to the node that was sent.
    fn may_come(&self, asked: &Request, sent: &Sent) -> Result<bool, OutOfMemory>
        ensures { IfOk result (λ may. IsTrue may → Comes sent.now self.now.id (cause_of_lem asked.now)) }
    {
        match asked {
            Request::Letter(letter) => Ok(letter.to == self.id && sent.has(letter)?),
            _ => Ok(true),
        }
    }

    /// A line asks something that may come.
    fn answer_sent(
        &mut self,
        alloc: Global,
        text: &[u8],
        line: &[u8],
        after: &[u8],
        asked: Request,
        guesses: &mut Guesses,
    ) -> Result<Step, OutOfMemory>
        requires followed { IsFollowed text.now self.old }
        requires phase { self.old.phase ≡ phase.Up }
        requires text { drop self.old.place text.now ≡ line.now ++ 10 ∷ after.now }
        requires line { IsLine line.now }
        requires asks { Asks line.now asked }
        ensures { IfOk result (λ step. (sent : List Sending) → Comes sent self.old.id (cause_of_lem asked) → Steps text.now sent self.old step self.new) }
    {
        match guesses.course(alloc, after)? {
            Course::Left(part) => self.leave(text, line, after, part),
            Course::Stopped(part) => self.obey_and_stop(alloc, text, line, after, asked, part),
            Course::Obeyed => self.obey(alloc, text, line, after, asked),
        }
    }

    /// A line asks something.
    fn answer(
        &mut self,
        alloc: Global,
        text: &[u8],
        line: &[u8],
        after: &[u8],
        asked: Request,
        sent: &Sent,
        guesses: &mut Guesses,
    ) -> Result<Step, OutOfMemory>
        requires followed { IsFollowed text.now self.old }
        requires phase { self.old.phase ≡ phase.Up }
        requires text { drop self.old.place text.now ≡ line.now ++ 10 ∷ after.now }
        requires line { IsLine line.now }
        requires asks { Asks line.now asked }
        ensures { IfOk result (λ step. Steps text.now sent.now self.old step self.new) }
    {
        let may = self.may_come(&asked, sent)?;
        if may {
            self.answer_sent(alloc, text, line, after, asked, guesses)
        } else {
            Ok(Step::Waits)
        }
    }

    /// The life ends behind so many bytes of a line.
    fn stop(&mut self, text: &[u8], count: usize) -> Result<Step, OutOfMemory>
        requires followed { IsFollowed text.now self.old }
        requires phase { self.old.phase ≡ phase.Up }
        requires half { IsHalf (drop self.old.place text.now) count }
        ensures { IfOk result (λ step. (sent : List Sending) → Steps text.now sent self.old step self.new) }
    {
        self.go(count, Phase::Cut, None)?;
        Ok(Step::Moved)
    }

    /// Where a life goes on with a line.
    fn take_line(
        &mut self,
        alloc: Global,
        text: &[u8],
        line: &[u8],
        after: &[u8],
        sent: &Sent,
        guesses: &mut Guesses,
    ) -> Result<Step, OutOfMemory>
        requires followed { IsFollowed text.now self.old }
        requires phase { self.old.phase ≡ phase.Up }
        requires text { drop self.old.place text.now ≡ line.now ++ 10 ∷ after.now }
        requires line { IsLine line.now }
        ensures { IfOk result (λ step. Steps text.now sent.now self.old step self.new) }
    {
        match what_is_asked(alloc, line, after)? {
            Incoming::Asks(asked) => self.answer(alloc, text, line, after, asked, sent, guesses),
            Incoming::Refused(why) => self.refuse(alloc, text, line, after, why),
            Incoming::End => Err(OutOfMemory),
        }
    }

    /// Where a life goes on.
    fn live(
        &mut self,
        alloc: Global,
        text: &[u8],
        sent: &Sent,
        guesses: &mut Guesses,
    ) -> Result<Step, OutOfMemory>
        requires followed { IsFollowed text.now self.old }
        requires phase { self.old.phase ≡ phase.Up }
        ensures { IfOk result (λ step. Steps text.now sent.now self.old step self.new) }
    {
        let rest = &text[self.place..];
        if begins_life(rest) {
            return self.stop(text, 0);
        }
        let Some((line, after)) = split_line(rest) else {
            return self.stop(text, rest.len());
        };
        if goes_on_with_life(after) {
            return self.stop(text, line.len());
        }
        self.take_line(alloc, text, line, after, sent, guesses)
    }

    /// The next that the journal tells, where these letters were sent.
    pub(crate) fn step(
        &mut self,
        alloc: Global,
        text: &[u8],
        sent: &Sent,
        guesses: &mut Guesses,
    ) -> Result<Step, OutOfMemory>
        requires { IsFollowed text.now self.old }
        ensures { IfOk result (λ step. Steps text.now sent.now self.old step self.new) }
    {
        if self.place >= text.len() {
            return Ok(Step::Ends);
        }
        match self.phase {
            Phase::Unborn => self.begin(alloc, text),
            Phase::Up => self.live(alloc, text, sent, guesses),
            Phase::Cut => self.end(alloc, text),
            Phase::Down => self.start_again(alloc, text),
        }
    }

    /// The letter that the journal tells next, if it does.
    pub(crate) fn letter_at(
        &self,
        alloc: Global,
        text: &[u8],
    ) -> Result<Option<Letter>, OutOfMemory>
        requires { IsFollowed text.now self.now }
        ensures { IfOk result (λ found. IfSome found (IsAtLetter self.now.id self.now.members text.now self.now.kept.entries self.now.place)) }
    {
        let Phase::Up = self.phase else {
            return Ok(None);
        };
        let Some((line, after)) = split_line(&text[self.place..]) else {
            return Ok(None);
        };
        match what_is_asked(alloc, line, after)? {
            Incoming::Asks(Request::Letter(letter)) => Ok(Some(letter)),
            _ => Ok(None),
        }
    }

    /// Whether the journal is followed to its end.
    pub(crate) fn has_followed(&self, text: &[u8]) -> bool
        ensures end { IsTrue result → self.now.place ≡ length text.now }
        ensures replay { IsReplay self.now.kept }
        ensures honest { IsTrue self.now.kept.honest }
    {
        let _entries = self.kept.entries();
        self.place == text.len()
    }
}
