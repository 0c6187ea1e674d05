//! What a node has learned, and what it releases of it.

ghost use Rattle.std.specs.Prelude.{◌≡◌, ◌+◌, ◌<◌, ◌≤◌, ◌↔◌, IfOk, IfErr, IsTrue, [], Some, None, OnOk, OnErr, OnSome};
ghost use Rattle.std.specs.Prelude.{is_some, option_copied, length};
ghost use Rattle.acceptor.specs.Calls.{KeepsTrust};
ghost use Rattle.acceptor.specs.Content.{Content};
ghost use Rattle.acceptor.specs.Content.Write.{Learns};
ghost use Rattle.acceptor.specs.Found.{FindsSame, HasMade, Holds, Keeps, MayHaveMade};
ghost use Rattle.acceptor.specs.Faults.{BreaksBy, CountsFaults};
ghost use Rattle.proposer.specs.Faults.{BreaksByStop, CountsStops, IsHarmlessStop};
ghost use Rattle.ballots.specs.Limits.{most_places};
ghost use Rattle.ballots.specs.Members.{member_count};
ghost use Rattle.ballots.specs.Rows.{at};
ghost use Rattle.learner.specs.Tally.{no_tally, counts, learn, teaches};
ghost use Rattle.command_log.specs.Values.{outputs_of_values, values_from};
ghost use Rattle.command_log.specs.View.{AreRows, IsLog};
ghost use Rattle.map_release.specs.Released.{released};
ghost use Rattle.node.specs.Calls.{IsStop};
ghost use Rattle.node.specs.Learned.{IsPart};

use crate::letters::prefix_len;
use acceptor::{Records, RecordsFault};
use ballots::{Ballot, Bytes, MOST_PLACES, Members, NodeId, Place, Value};
use command_log::{Log, LogFault};
use learner::Learner;
use map_release::{Numbered, Release};
use place_table::Table;
use proposer::NodeFault;
use std::alloc::{AllocError, Global};
use std::marker::Model;

/// What a node counted and learned, the log to which it applies that, how far it released, and of how many places from
/// the first on it told that they are learned.
#[derive(Drop)]
pub(crate) struct Knowledge {
    learner: Learner,
    log: Log,
    release: Release,
    prefix: u64,
}

impl Model for Knowledge {
    ghost use Rattle.node.specs.Learned.{Learned};
    ghost use Rattle.node.specs.Knows.{learned_of, IsKept};

    ghost Value = { Learned };

    ghost view = { learned_of };

    ghost invariant = { IsKept };
}

/// Applies the learned values that follow those of the log without a gap, each looked up once, and tells how many are
/// applied.
fn apply(log: &mut Log, learned: &Table<Bytes>) -> Result<u64, AllocError>
    requires rows { AreRows 1 learned.now.entries }
    requires part { IsPart log.old.learned learned.now.entries }
    ensures part { IsPart log.new.learned learned.now.entries }
    ensures log { OnOk result (IsLog log.new) }
    ensures all { OnOk result (at learned.now.entries (log.new.applied + 1) ≡ None) }
{
    for applied in log.prefix_len()..MOST_PLACES {
        let next = applied + 1;
        let Some(value) = learned.get(next) else {
            return Ok(log.prefix_len());
        };
        match log.learn(next, value.as_slice()) {
            Ok(()) => {}
            Err(LogFault::OutOfMemory) => return Err(AllocError),
            Err(LogFault::Contradiction) => unreachable!(),
            Err(LogFault::BeyondLimit) => unreachable!(),
        }
        log.advance()?;
    }
    Ok(log.prefix_len())
}

/// A learner of these values by place, each place's first one.
fn learner_of(alloc: Global, rows: Vec<(Place, Value)>) -> Result<Learner, AllocError>
    ensures rows { IfOk result (λ learner. AreRows 1 learner.learned) }
    ensures counted { IfOk result (λ learner. learner.counted ≡ []) }
    ensures same { IfOk result (λ learner. AreRows 1 rows.items → learner.learned ≡ rows.items) }
{
    let mut learner = Learner::new(alloc);
    for (place, value) in rows {
        learner.known(place.number(), value.into_bytes())?;
    }
    Ok(learner)
}

impl Knowledge {
    /// Nothing was learned.
    pub(crate) fn new(alloc: Global) -> Knowledge
        ensures { result ≡ record { tally = no_tally; cursor = 0 } }
    {
        Knowledge {
            learner: Learner::new(alloc),
            log: Log::new(alloc),
            release: Release::new(),
            prefix: 0,
        }
    }

    /// What the learned rows hold, and nothing counted or released.
    pub(crate) fn read<R: Records>(
        alloc: Global,
        records: &mut R,
    ) -> Result<Knowledge, RecordsFault>
        ensures value { IsTrue (R.is_honest records.new)
            → IfOk result (λ k. (c : Content) → Holds (R.may_find records.old) c
            → k ≡ record { tally = record { counted = []; learned = c.learned }; cursor = 0 }) }
        ensures kept { IsTrue (R.is_honest records.new) → Keeps result (R.may_find records.old) (R.may_find records.new) }
        ensures trust { KeepsTrust R.is_honest R.is_clean records.old records.new }
        ensures count { CountsFaults result (R.count_of records.old) (R.count_of records.new) }
        ensures broken { BreaksBy result (R.is_broken records.old) (R.is_broken records.new) }
    {
        let first = Place::new(1).unwrap();
        let rows = records.learned_from(first)?;
        let learner = learner_of(alloc, rows)?;
        let prefix = prefix_len(learner.values(), 0);
        Ok(Knowledge {
            learner,
            log: Log::new(alloc),
            release: Release::new(),
            prefix,
        })
    }

    /// Whether nothing was counted, learned or released.
    pub(crate) fn is_empty(&self) -> bool
        ensures { IsTrue result ↔ (self.now ≡ record { tally = no_tally; cursor = 0 }) }
    {
        if self.release.cursor() != 0 {
            return false;
        }
        self.learner.is_empty()
    }

    pub(crate) fn learned(&self, place: u64) -> Option<&Bytes>
        ensures { option_copied result ≡ at self.now.tally.learned place }
    {
        self.learner.learned(place)
    }

    /// The learned values by place.
    pub(crate) fn values(&self) -> &Table<Bytes>
        ensures values { result.now.entries ≡ self.now.tally.learned }
        ensures rows { AreRows 1 result.now.entries }
    {
        self.learner.values()
    }

    /// How many places from the first on are learned without a gap, as far as the last place. Those that it told of
    /// before aren't looked at again.
    pub(crate) fn prefix_len(&mut self) -> u64
        ensures same { self.new ≡ self.old }
        ensures below { result < most_places → result ≡ length (values_from 1 self.old.tally.learned) }
        ensures full { most_places ≤ result → most_places ≤ length (values_from 1 self.old.tally.learned) }
    {
        self.prefix = prefix_len(self.learner.values(), self.prefix);
        self.prefix
    }

    /// Learns a value at a place that isn't learned: makes the room, writes its row, and then keeps it.
    pub(crate) fn learn<R: Records>(
        &mut self,
        alloc: Global,
        records: &mut R,
        place: Place,
        value: &Value,
    ) -> Result<(), NodeFault>
        requires { at self.old.tally.learned place ≡ None }
        ensures learned { OnOk result (self.new ≡ record self.old { tally = learn self.old.tally place value.now }) }
        ensures unchanged { OnErr result (self.new ≡ self.old) }
        ensures stops { IfErr result IsStop }
        ensures ok { IsTrue (R.is_honest records.new) → OnOk result (HasMade (R.may_find records.old) (R.may_find records.new) (Learns place value.now)) }
        ensures harmless { IsTrue (R.is_honest records.new)
            → IfErr result (λ fault. IsHarmlessStop fault → FindsSame (R.may_find records.old) (R.may_find records.new)) }
        ensures doubt { IsTrue (R.is_honest records.new)
            → OnErr result (MayHaveMade (R.may_find records.old) (R.may_find records.new) (Learns place value.now)) }
        ensures trust { KeepsTrust R.is_honest R.is_clean records.old records.new }
        ensures count { CountsStops result (R.count_of records.old) (R.count_of records.new) }
        ensures broken { BreaksByStop result (R.is_broken records.old) (R.is_broken records.new) }
    {
        let kept = value.copy(alloc)?.into_bytes();
        self.learner
            .learn_after(place.number(), kept, records, |records: &mut R| {
                records.put_learned(place, value)
            })??;
        self.prefix = prefix_len(self.learner.values(), self.prefix);
        Ok(())
    }

    /// A vote was heard, and is counted. Where it teaches its value nothing changes, and the value is given back.
    pub(crate) fn voted(
        &mut self,
        members: Members,
        ballot: Ballot,
        place: Place,
        value: Bytes,
        from: NodeId,
    ) -> Result<Option<Bytes>, AllocError>
        ensures taught { IfOk result (λ taught. is_some taught
            ≡ teaches (member_count members) self.old.tally (at self.old.tally.learned place) ballot place value from) }
        ensures value { IfOk result (λ taught. OnSome taught (taught ≡ Some value)) }
        ensures unchanged { IfOk result (λ taught. OnSome taught (self.new ≡ self.old)) }
        ensures counted { IfOk result (λ taught. taught ≡ None
            → self.new ≡ record self.old { tally = counts self.old.tally (at self.old.tally.learned place) ballot place value from }) }
        ensures err { OnErr result (self.new ≡ self.old) }
    {
        self.learner
            .voted(members, ballot, place.number(), value, from)
    }

    /// The outputs of the gapless values behind the cursor, without the MAPs that end at `now` (in minislots) or
    /// before.
    pub(crate) fn release(&mut self, alloc: Global, now: u64) -> Result<Vec<Numbered>, AllocError>
        ensures released { IfOk result (λ outputs. outputs.items ≡ released now self.old.cursor (outputs_of_values (values_from 1 self.old.tally.learned))) }
        ensures ok { OnOk result (self.new ≡ record self.old { cursor = length (values_from 1 self.old.tally.learned) }) }
        ensures err { OnErr result (self.new ≡ self.old) }
    {
        apply(&mut self.log, self.learner.values())?;
        self.release.next(alloc, &self.log, now)
    }
}
