//! The modem core, which keeps one interval for each element that it was given, and lets go of those that have ended.

ghost use Rattle.std.specs.Prelude.{◌≡◌, ℕ, ◌+◌, ◌^◌, ◌<◌, ◌≤◌, ◌↔◌, map, max, None, Some, Ok, Err, OnOk, OnErr, IfOk};
ghost use Rattle.std.specs.Prelude.{IfErr, IfSome, IfNone, IsOkAnd, IsErr, List, Contains, Option, true, false, ◌∷◌};
ghost use Rattle.std.specs.Prelude.{◌++◌, [], ◌⊎◌, ◌==◌, MatchBool};
ghost use Rattle.std.specs.Option.{option_map};
ghost use Rattle.std.specs.List.{list_any};
ghost use Rattle.map_body.specs.Layout.{IsBody};
ghost use Rattle.modem.specs.State.{new_modem, channel_clock, channel_of, clock_of, has_lease, is_own_from, is_recent};
ghost use Rattle.modem.specs.State.{with_ucd, HasAt};
ghost use Rattle.modem.specs.Held.{HasHeard, Hearing, Held, unicast_sid};
ghost use Rattle.modem.specs.Hears.{Hears, HearsMap, IsDue, MayGrow, Passes, Takes, leases_heard};
ghost use Rattle.modem.specs.Wants.{is_own_now, is_want, lasting, want_refusal, new_want};
ghost use Rattle.modem.specs.Ticks.{Ticks, Counts};
ghost use Rattle.modem.specs.KeptIntervals.{kept_interval, ArePastOf, AreWindows, IsOfChannel};
ghost use Rattle.modem.specs.NextEvent.{Acts, AreQuiet, IsNext, grant};
ghost use Rattle.modem.specs.Idle.{SendsAt, SharesAt, IsIdle, HasSame, HasNoUnsent, IsBefore};
ghost use Rattle.modem.specs.LetsGo.{HasNoOld, HasFewOld, LetsGo, LetsGoAfter};
ghost use Rattle.modem.specs.Declined.{IsKnownTo, IsDeclined};

use crate::action::{Action, NextEvent};
use crate::edges::sooner;
use crate::kept::{self, KeptInterval, LIMIT, Windows};
use crate::known::{Channel, OwnLease, Progress, Want};
use crate::sight::{self, Sight};
use crate::span::{self, Span};
use crate::types::{Heard, Sending, TimeBack, WantFault};
use crate::wants::{self, Turn};
use crate::{channels, leases};
use grant_machine::Output;
use map_body::{Head, HeardMap, Iuc, MapBody, ack_time, body_near, decode, heard_near};
use minislot_time::Slot;
use std::alloc::{AllocError, Global};
use std::marker::Model;

/// A modem: it hears outputs, takes wants, and answers each tick with what it sends.
#[derive(Drop)]
pub struct Modem {
    id: u32,
    channels: Vec<Channel>,
    leases: Vec<OwnLease>,
    grants: Vec<KeptInterval>,
    open_to_all: Vec<KeptInterval>,
    wants: Vec<Want>,
    // What a tick needs to look at again only now and then, by channel.
    sights: Vec<Sight>,
    spans: Vec<Span>,
}

/// What a modem keeps of a channel: the intervals of its own SIDs, and those in which all may send a request.
#[derive(Clone, Copy)]
pub struct OfChannel<'a> {
    pub grants: &'a [KeptInterval],
    pub open_to_all: &'a [KeptInterval],
}

impl Model for Modem {
    ghost use Rattle.std.specs.Prelude.{map, length};
    ghost use Rattle.modem.specs.State.{State};
    ghost use Rattle.modem.specs.KeptIntervals.{kept_interval, AreKept};
    ghost use Rattle.modem.specs.Sights.{AreSights};
    ghost use Rattle.modem.specs.Spans.{AreSpans};

    ghost Value = { State };

    ghost view = { λ m. record {
      id = m.id;
      channels = m.channels.items;
      leases = m.leases.items;
      grants = map kept_interval m.grants.items;
      open_to_all = map kept_interval m.open_to_all.items;
      wants = m.wants.items;
    } };

    ghost invariant = { λ m. AreKept m.grants.items × AreKept m.open_to_all.items
        × AreSights (length m.channels.items) m.grants.items m.open_to_all.items m.sights.items
        × AreSpans m.leases.items m.wants.items m.spans.items };
}

impl Modem {
    /// A modem with this id, which has heard nothing.
    pub fn new(alloc: Global, id: u32) -> Modem
        ensures value { result ≡ new_modem id }
        ensures stands { HasHeard result [] }
    {
        Modem {
            id,
            channels: Vec::new(alloc),
            leases: Vec::new(alloc),
            grants: Vec::new(alloc),
            open_to_all: Vec::new(alloc),
            wants: Vec::new(alloc),
            sights: Vec::new(alloc),
            spans: Vec::new(alloc),
        }
    }

    /// The modem's clock on a channel that it knows: no tick before this minislot is taken.
    pub fn clock(&self, ch: u8) -> Option<u64>
        ensures { result ≡ option_map channel_clock (channel_of self.now.channels ch) }
    {
        match channels::find(self.channels.as_slice(), ch) {
            Some(channel) => Some(channel.clock),
            None => None,
        }
    }

    /// The intervals that the modem keeps of a channel, in the order of their starts. Some of them may have ended. It
    /// takes no memory.
    pub fn kept(&self, ch: u8) -> OfChannel<'_>
        ensures grants { IsOfChannel ch self.now.grants (map kept_interval result.grants.now) }
        ensures open_to_all { IsOfChannel ch self.now.open_to_all (map kept_interval result.open_to_all.now) }
    {
        OfChannel {
            grants: kept::of_channel(self.grants.as_slice(), ch),
            open_to_all: kept::of_channel(self.open_to_all.as_slice(), ch),
        }
    }

    /// The modem's wants, of all channels.
    pub fn wants(&self) -> &[Want]
        ensures { result.now ≡ self.now.wants }
    {
        self.wants.as_slice()
    }

    /// The leases that the modem keeps, of all channels. One that ended 2^14 minislots or more before its channel's
    /// clock goes as the modem hears a lease of its own, or a MAP of the channel that is Taken or Past.
    pub fn leases(&self) -> &[OwnLease]
        ensures { result.now ≡ self.now.leases }
    {
        self.leases.as_slice()
    }

    /// Takes a request of n minislots, 1 to 255, for a SID of which a lease ends at the channel's clock or later.
    /// Want of memory never comes in place of another refusal.
    pub fn want(&mut self, ch: u8, sid: u16, n: u16) -> Result<(), WantFault>
        ensures ok { OnOk result ((want_refusal self.old ch sid n ≡ None) × (self.new ≡ record self.old { wants = self.old.wants ++ new_want ch sid n ∷ [] })) }
        ensures declined { IfSome (want_refusal self.old ch sid n) (λ fault. result ≡ Err fault) }
        ensures err { IfErr result (λ e. (self.new ≡ self.old)
            × ((want_refusal self.old ch sid n ≡ Some e) ⊎ ((want_refusal self.old ch sid n ≡ None) × (e ≡ WantFault.OutOfMemory)))) }
        ensures stands { (hearings : List Hearing) → HasHeard self.old hearings → HasHeard self.new hearings }
    {
        if !self.is_own_now(ch, sid) {
            return Err(WantFault::NotMine);
        }
        if n < 1 || 255 < n {
            return Err(WantFault::BadSize);
        }
        if wants::has_want(self.wants.as_slice(), ch, sid) {
            return Err(WantFault::Waiting);
        }
        let want = Want {
            channel: ch,
            sid,
            n,
            tries: 0,
            progress: Progress::Unsent(None),
        };
        span::forget(&mut self.spans);
        match self.wants.push(want) {
            Ok(()) => Ok(()),
            Err(_) => Err(WantFault::OutOfMemory),
        }
    }

    // Whether a lease of the SID ends at the channel's clock or later.
    fn is_own_now(&self, ch: u8, sid: u16) -> bool
        ensures { result ≡ is_own_now self.now ch sid }
    {
        let clock = channels::clock_of(self.channels.as_slice(), ch);
        leases::is_own_from(self.leases.as_slice(), ch, sid, clock)
    }

    /// What the modem sends at a minislot of a channel: by the interval of its own that counts there, which is a grant,
    /// a ranging opportunity or a poll, else a request where all may send one (truncated binary exponential back-off;
    /// CM-SP-MULPIv3.1, upstream bandwidth allocation). It takes no memory. It costs the modem's channels and, where
    /// all may send a request, its wants.
    /// Where an interval or a lease begins or is over, and after a MAP, a lease or a want, it also costs the modem's
    /// leases, the logarithm of the intervals that it keeps, and what of them begins less than 2^14 minislots before;
    /// and, once for each interval that has ended, a constant for each channel.
    pub fn tick(&mut self, ch: u8, slot: Slot, random: u64) -> Result<Option<Sending>, TimeBack>
        ensures unknown { channel_of self.old.channels ch ≡ None → (result ≡ Ok None) × (self.new ≡ self.old) }
        ensures back { IfSome (channel_of self.old.channels ch) (λ c. slot < channel_clock c → IsErr result × (self.new ≡ self.old)) }
        ensures ticks { IfSome (channel_of self.old.channels ch)
            (λ c. channel_clock c ≤ slot → IsOkAnd result (λ sending. Ticks self.old c slot random sending self.new)) }
        ensures lets_go { IfSome (channel_of self.old.channels ch) (λ c. channel_clock c ≤ slot → HasFewOld self.new ch) }
        ensures held { IfOk result (λ sending. (hearings : List Hearing) (sid : ℕ) → HasHeard self.old hearings → unicast_sid sending ≡ Some sid
            → Held self.old.id hearings ch slot sid) }
        ensures stands { (hearings : List Hearing) → HasHeard self.old hearings → HasHeard self.new hearings }
    {
        let Some(channel) = channels::find(self.channels.as_slice(), ch) else {
            return Ok(None);
        };
        let at = slot.get();
        if at < channel.clock {
            return Err(TimeBack);
        }
        let count = self.channels.len();
        let grants = &mut self.grants;
        let shared = &mut self.open_to_all;
        let sight = sight::look(&mut self.sights, grants, shared, count, channel.id, at);
        let leases = self.leases.as_slice();
        let turn = Turn {
            channel,
            at,
            random,
            is_open: sight.is_open,
        };
        let sending = wants::send(&mut self.wants, leases, turn, sight.counted);
        span::keep_lasting(&mut self.spans, &mut self.wants, leases, channel.id, at);
        let clock = at + 1;
        channels::set(&mut self.channels, Channel { clock, ..channel });
        Ok(sending)
    }

    /// Hears an output near a time. Of a Map only the bytes are looked at. It takes memory only for a channel
    /// that wasn't known, for a new lease of its own, and for a map that is taken; every other answer is given
    /// however little there is. It costs the map's elements times the modem's SIDs and wants, and for each element that
    /// is kept the logarithm of what is kept, whatever was heard before.
    pub fn hear(&mut self, output: &Output, near: Slot) -> Result<Heard, AllocError>
        ensures ok { IfOk result (λ answer. Hears self.old output.now near answer self.new) }
        ensures err { OnErr result (self.new ≡ self.old) }
        ensures memory { IsErr result → MayGrow self.old output.now near }
        ensures lets_go { IfOk result (λ answer. LetsGo output.now answer self.new) }
        ensures stands { IfOk result (λ answer. (hearings : List Hearing) → HasHeard self.old hearings
            → HasHeard self.new (record { output = output.now; near = near; answer = answer } ∷ hearings)) }
    {
        match output {
            Output::Nothing => Ok(Heard::NotMine),
            Output::Refused(_) => Ok(Heard::NotMine),
            Output::ChannelSet { ch, ucd } => self.hear_channel(*ch, *ucd),
            Output::Assigned {
                modem,
                ch,
                sid,
                first,
                last,
            } => {
                let lease = OwnLease {
                    channel: *ch,
                    sid: *sid,
                    first: *first,
                    last: *last,
                };
                self.hear_assigned(*modem, lease)
            }
            Output::Map {
                ch: _,
                start: _,
                len: _,
                bytes,
            } => self.hear_map(bytes.as_slice(), near),
        }
    }

    fn hear_channel(&mut self, ch: u8, ucd: u8) -> Result<Heard, AllocError>
        ensures ok { IfOk result (λ answer. (answer ≡ Heard.Taken)
            × (self.new ≡ record self.old { channels = with_ucd self.old.channels ch ucd (channel_of self.old.channels ch) })) }
        ensures err { OnErr result (self.new ≡ self.old) }
        ensures memory { IsErr result → channel_of self.old.channels ch ≡ None }
    {
        match channels::find(self.channels.as_slice(), ch) {
            Some(channel) => {
                channels::set(&mut self.channels, Channel { ucd, ..channel });
                Ok(Heard::Taken)
            }
            None => {
                sight::add(&mut self.sights, ch)?;
                span::add(&mut self.spans, ch)?;
                self.channels.push(Channel {
                    id: ch,
                    ucd,
                    clock: 0,
                    backoff: (0, 0),
                })?;
                Ok(Heard::Taken)
            }
        }
    }

    fn hear_assigned(&mut self, modem: u32, lease: OwnLease) -> Result<Heard, AllocError>
        ensures ok { IfOk result (λ answer. MatchBool (modem == self.old.id)
            ((answer ≡ Heard.Taken) × (self.new ≡ record self.old { leases = leases_heard self.old lease }))
            ((answer ≡ Heard.NotMine) × (self.new ≡ self.old))) }
        ensures err { OnErr result (self.new ≡ self.old) }
        ensures memory { IsErr result → (modem ≡ self.old.id) × (has_lease self.old.leases lease ≡ false)
            × (is_recent lease.channel (clock_of self.old.channels lease.channel) lease ≡ true) }
    {
        if modem != self.id {
            return Ok(Heard::NotMine);
        }
        let clock = channels::clock_of(self.channels.as_slice(), lease.channel);
        span::forget(&mut self.spans);
        leases::add(&mut self.leases, lease, clock)?;
        Ok(Heard::Taken)
    }

    /// Hears the bytes of a map near a time, as `hear` does where an output has them. Nothing is read into memory but
    /// a map that is taken.
    pub fn hear_map(&mut self, bytes: &[u8], near: Slot) -> Result<Heard, AllocError>
        ensures ok { IfOk result (λ answer. HearsMap self.old bytes.now near answer self.new) }
        ensures err { OnErr result (self.new ≡ self.old) }
        ensures memory { IsErr result → IsDue self.old bytes.now near }
        ensures lets_go { IfOk result (λ answer. LetsGoAfter bytes.now answer self.new) }
        ensures stands { IfOk result (λ answer. (hearings : List Hearing) (ch start len : ℕ) → HasHeard self.old hearings
            → HasHeard self.new (record { output = Output.Map ch start len bytes.now; near = near; answer = answer } ∷ hearings)) }
    {
        let Some(heard) = heard_near(bytes, near) else {
            return Ok(Heard::Unreadable);
        };
        let HeardMap { head, start, stop } = heard;
        let channel = match self.due(head, stop, near) {
            Ok(channel) => channel,
            Err(answer) => return Ok(answer),
        };
        let alloc = *self.wants.allocator();
        let Ok(map) = decode(alloc, bytes) else {
            return Err(AllocError);
        };
        self.take(&map, start, channel, near)?;
        Ok(Heard::Taken)
    }

    /// Hears a map near a time, as `hear_map` hears its bytes. Many modems may hear a map that was read once.
    pub fn hear_body(&mut self, map: &MapBody, near: Slot) -> Result<Heard, AllocError>
        ensures ok { IfOk result (λ answer. (bytes : List ℕ) → IsBody bytes map.now → HearsMap self.old bytes near answer self.new) }
        ensures err { OnErr result (self.new ≡ self.old) }
        ensures memory { IsErr result → (bytes : List ℕ) → IsBody bytes map.now → IsDue self.old bytes near }
        ensures lets_go { IfOk result (λ answer. (answer ≡ Heard.Taken) ⊎ (answer ≡ Heard.Past) → HasNoOld self.new map.now.head.channel) }
        ensures stands { IfOk result (λ answer. (hearings : List Hearing) (ch start len : ℕ) (bytes : List ℕ) → IsBody bytes map.now
            → HasHeard self.old hearings → HasHeard self.new (record { output = Output.Map ch start len bytes; near = near; answer = answer } ∷ hearings)) }
    {
        let Some(heard) = body_near(map, near) else {
            return Ok(Heard::Unreadable);
        };
        let HeardMap { head, start, stop } = heard;
        let channel = match self.due(head, stop, near) {
            Ok(channel) => channel,
            Err(answer) => return Ok(answer),
        };
        self.take(map, start, channel, near)?;
        Ok(Heard::Taken)
    }

    // The channel of a map that is to be taken, or else the answer to the map. One that has ended moves the clock.
    fn due(&mut self, head: Head, stop: u64, near: Slot) -> Result<Channel, Heard>
        ensures due { IfOk result (λ c. IsKnownTo self.old head c × (max c.clock near < stop) × (self.new ≡ self.old)) }
        ensures other { IfErr result (λ answer. IsDeclined self.old head near stop answer self.new) }
    {
        let Some(channel) = channels::find(self.channels.as_slice(), head.channel) else {
            return Err(Heard::OtherUcd);
        };
        if channel.ucd != head.ucd {
            return Err(Heard::OtherUcd);
        }
        if stop <= channel.clock.max(near.get()) {
            self.pass(channel, near);
            return Err(Heard::Past);
        }
        Ok(channel)
    }

    // Moves the clock of a channel, and lets go of what has ended.
    fn pass(&mut self, channel: Channel, near: Slot)
        requires { channel_of self.old.channels channel.id ≡ Some channel }
        ensures passes { Passes self.old channel near self.new }
        ensures lets_go { HasNoOld self.new channel.id }
    {
        sight::forget(&mut self.sights);
        span::forget(&mut self.spans);
        let clock = channel.clock.max(near.get());
        kept::let_go(&mut self.grants, channel.id, clock);
        kept::let_go(&mut self.open_to_all, channel.id, clock);
        wants::keep_lasting(&mut self.wants, self.leases.as_slice(), channel.id, clock);
        leases::keep_recent(&mut self.leases, channel.id, clock);
        channels::set(&mut self.channels, Channel { clock, ..channel });
    }

    // Keeps what a map gives, lets go of what has ended, and lets the map decide wants. All that takes memory
    // comes first.
    fn take(
        &mut self,
        map: &MapBody,
        start: Slot,
        channel: Channel,
        near: Slot,
    ) -> Result<(), AllocError>
        requires { channel_of self.old.channels map.now.head.channel ≡ Some channel }
        ensures ok { OnOk result (Takes self.old channel near map.now start self.new) }
        ensures err { OnErr result (self.new ≡ self.old) }
        ensures lets_go { OnOk result (HasNoOld self.new map.now.head.channel) }
    {
        let alloc = *self.wants.allocator();
        let head = *map.head();
        let leases = self.leases.as_slice();
        let given = map.intervals(alloc)?;
        let heard = given.as_slice();
        let first = start.get();
        let own = kept::own(alloc, head.channel, first, heard, leases)?;
        let open = kept::shared(alloc, head.channel, first, heard)?;
        let ack = ack_time(head.ack, start);
        let wants = wants::decided(alloc, self.wants.as_slice(), map, first, heard, ack, leases)?;
        self.grants.reserve(own.len())?;
        self.open_to_all.reserve(open.len())?;
        sight::forget(&mut self.sights);
        span::forget(&mut self.spans);
        let clock = channel.clock.max(near.get());
        kept::add_all(&mut self.grants, own.as_slice());
        kept::add_all(&mut self.open_to_all, open.as_slice());
        kept::let_go(&mut self.grants, head.channel, clock);
        kept::let_go(&mut self.open_to_all, head.channel, clock);
        self.wants = wants;
        wants::keep_lasting(&mut self.wants, leases, channel.id, clock);
        leases::keep_recent(&mut self.leases, channel.id, clock);
        channels::set(
            &mut self.channels,
            Channel {
                clock,
                backoff: head.data_backoff,
                ..channel
            },
        );
        Ok(())
    }
}

impl Modem {
    /// The first minislot of a channel, from its clock and from `from` on, whose tick answers something or changes more
    /// than the clock, and what that tick does. None where no tick from there on does, or the channel isn't known. Each
    /// tick before it is quiet, and may be left out (`quiet_ticks`). It takes no memory. It costs what a tick looks at,
    /// for each interval and lease that begins or ends before.
    pub fn next_event(&self, ch: u8, from: Slot) -> Option<NextEvent>
        ensures unknown { channel_of self.now.channels ch ≡ None → result ≡ None }
        ensures next { IfSome result (λ e. IfSome (channel_of self.now.channels ch) (λ c. IsNext self.now c from e.slot e.action)) }
        ensures never { IfNone result (IfSome (channel_of self.now.channels ch) (λ c. AreQuiet self.now c from (2 ^ 63))) }
    {
        let channel = channels::find(self.channels.as_slice(), ch)?;
        let mut at = from.get().max(channel.clock);
        let mut near = self.windows_from(channel.id, at);
        while at < LIMIT {
            match self.action_at(channel, at, near) {
                Some(action) => return Some(NextEvent { slot: at, action }),
                None => {
                    let next = self.next_edge(channel.id, at, near)?;
                    near = self.windows_at(channel.id, next, near.own.past, near.open.past);
                    at = next;
                }
            }
        }
        None
    }

    // Where a look at a minislot finds its intervals, if so many of the first are known to be past.
    fn windows_at(&self, ch: u8, at: u64, past_grants: usize, past_open: usize) -> Windows
        requires past_grants { ArePastOf ch at past_grants self.now.grants }
        requires past_open { ArePastOf ch at past_open self.now.open_to_all }
        ensures { AreWindows ch at self.now result }
    {
        let own = kept::window_at(self.grants.as_slice(), ch, at, past_grants);
        let open = kept::window_at(self.open_to_all.as_slice(), ch, at, past_open);
        Windows { own, open }
    }

    // The same from what the channel's last sight knows to be past.
    fn windows_from(&self, ch: u8, at: u64) -> Windows
        ensures { AreWindows ch at self.now result }
    {
        let last = sight::find(self.sights.as_slice(), ch, at);
        self.windows_at(ch, at, last.past_grants, last.past_open)
    }

    // What a tick at a minislot does.
    fn action_at(&self, channel: Channel, at: u64, near: Windows) -> Option<Action>
        requires time { at < 2 ^ 63 }
        requires windows { AreWindows channel.id at self.now near }
        ensures some { IfSome result (Acts self.now channel at) }
        ensures none { IfNone result (IsIdle self.now channel.id at) }
    {
        match self.sending_at(channel.id, at, near) {
            Some(action) => Some(action),
            None => self.lease_end_at(channel.id, at),
        }
    }

    // What is sent, or may be, at a minislot.
    fn sending_at(&self, ch: u8, at: u64, near: Windows) -> Option<Action>
        requires { AreWindows ch at self.now near }
        ensures { (counted : Option (ℕ × ℕ)) × Counts self.now.grants ch at counted × SendsAt self.now ch at counted result }
    {
        match kept::counted_in(self.grants.as_slice(), ch, at, near.own) {
            Some((sid, iuc)) => self.sending_by(ch, at, near, sid, iuc),
            None => self.contention_at(ch, at, near),
        }
    }

    // The same by a SID and IUC that count.
    fn sending_by(&self, ch: u8, at: u64, near: Windows, sid: u16, iuc: Iuc) -> Option<Action>
        requires counts { HasAt self.now.grants ch at sid iuc }
        requires windows { AreWindows ch at self.now near }
        ensures { SendsAt self.now ch at (Some (sid, iuc)) result }
    {
        if iuc.lets_transmit() {
            let (first, last) = self.kept_at(ch, at, near, (sid, iuc))?;
            Some(Action::Grant {
                sid,
                iuc,
                first,
                last,
            })
        } else if iuc.lets_range() {
            let (first, last) = self.kept_at(ch, at, near, (sid, iuc))?;
            Some(Action::Ranging { sid, first, last })
        } else if iuc.lets_request() {
            let want = wants::unsent(self.wants.as_slice(), ch, sid)?;
            Some(Action::Poll { sid, n: want.n })
        } else {
            self.contention_at(ch, at, near)
        }
    }

    // The first minislot and the last of an interval of a SID and IUC that covers this one.
    fn kept_at(&self, ch: u8, at: u64, near: Windows, by: (u16, Iuc)) -> Option<(u64, u64)>
        requires { AreWindows ch at self.now near }
        ensures some { IfSome result (λ ends. (ends.0 ≤ at) × (at ≤ ends.1) × Contains self.now.grants (grant ch by.0 by.1 ends.0 ends.1)) }
        ensures none { IfNone result (¬ HasAt self.now.grants ch at by.0 by.1) }
    {
        let grants = self.grants.as_slice();
        let interval = kept::covering(grants, ch, at, near.own, by.0, by.1)?;
        Some((interval.start, interval.stop - 1))
    }

    // The unsent want that takes part in a minislot that is open to all.
    fn contention_at(&self, ch: u8, at: u64, near: Windows) -> Option<Action>
        requires { AreWindows ch at self.now near }
        ensures { SharesAt self.now ch at result }
    {
        if !kept::is_open_in(self.open_to_all.as_slice(), ch, at, near.open) {
            return None;
        }
        let wants = self.wants.as_slice();
        let want = wants::least_unsent(wants, self.leases.as_slice(), ch, at)?;
        Some(Action::Contention {
            sid: want.sid,
            n: want.n,
        })
    }

    // A want that goes after a minislot.
    fn lease_end_at(&self, ch: u8, at: u64) -> Option<Action>
        requires { at < 2 ^ 63 }
        ensures some { IfSome result (λ a. (sid : ℕ) × (a ≡ Action.LeaseEnd sid) × (list_any (is_want ch sid) self.now.wants ≡ true)
            × (is_own_from self.now.leases ch sid (at + 1) ≡ false)) }
        ensures none { IfNone result (lasting self.now.leases ch (at + 1) self.now.wants ≡ self.now.wants) }
    {
        let sid = wants::first_over(self.wants.as_slice(), self.leases.as_slice(), ch, at + 1)?;
        Some(Action::LeaseEnd { sid })
    }

    // The next minislot at which an interval that is open to all begins or is over. Where no want is unsent none
    // counts.
    fn next_open_edge(&self, ch: u8, at: u64, near: Windows) -> Option<u64>
        requires { AreWindows ch at self.now near }
        ensures after { IfSome result (λ n. at < n) }
        ensures same { (x : ℕ) → at ≤ x → x < 2 ^ 63 → IsBefore result x → HasSame self.now.open_to_all ch at x ⊎ HasNoUnsent self.now.wants ch }
    {
        if wants::has_unsent(self.wants.as_slice(), ch) {
            kept::next_edge_in(self.open_to_all.as_slice(), ch, at, near.open)
        } else {
            None
        }
    }

    // The next minislot at which something that a tick looks at is other than at this one.
    fn next_edge(&self, ch: u8, at: u64, near: Windows) -> Option<u64>
        requires time { at < 2 ^ 63 }
        requires windows { AreWindows ch at self.now near }
        ensures after { IfSome result (λ n. at < n) }
        ensures idle { (x : ℕ) → at ≤ x → x < 2 ^ 63 → IsBefore result x → IsIdle self.now ch at → IsIdle self.now ch x }
    {
        let own = kept::next_edge_in(self.grants.as_slice(), ch, at, near.own);
        let open = self.next_open_edge(ch, at, near);
        let lease = leases::next_edge(self.leases.as_slice(), ch, at);
        sooner(sooner(own, open), lease)
    }
}
