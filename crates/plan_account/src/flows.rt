//! What has happened to flows, by channel and SID.

ghost use Rattle.std.specs.Prelude.{◌≡◌, ℕ, unwrap_or, OnOk};
ghost use Rattle.std.specs.Ordering.{nat_cmp};
ghost use Rattle.std.specs.BTreeMap.{get};
ghost use Rattle.plan_account.specs.FlowsHeld.{past_at_step};
ghost use Rattle.plan_account.specs.Pasts.{no_reach};

use crate::deed::Deed;
use crate::happening::{Happening, key_of, left_by};
use crate::past::{FlowPast, next};
use crate::reach::{Left, Reach};
use crate::shown::ShownMap;
use map_body::{Element, Interval, Sid};
use std::alloc::{AllocError, Global};
use std::collections::BTreeMap;

/// A MAP that was cut: its channel, its first minislot, how many it has, and how many its cut kept free.
#[derive(Clone, Copy)]
struct Cut {
    ch: u8,
    start: u64,
    len: u16,
    keep: u16,
}

/// How many deeds were added, the MAPs of channels, and what has happened to flows, by channel and SID.
#[derive(Drop)]
pub struct Flows {
    pub(crate) count: u64,
    pub(crate) reaches: BTreeMap<u32, Reach>,
    pub(crate) pasts: BTreeMap<u32, FlowPast>,
}

/// The MAPs of a channel, none where there are none.
pub(crate) fn reach_in(reaches: &BTreeMap<u32, Reach>, channel: u32) -> Reach
    ensures { result ≡ unwrap_or (get nat_cmp reaches.now channel) no_reach }
{
    match reaches.get(&channel) {
        Some(reach) => *reach,
        None => Reach {
            maps: 0,
            start: 0,
            end: 0,
            left: Left {
                gap: 0,
                placed: 0,
                keep: 0,
            },
        },
    }
}

/// One happening more to the flow of a key, behind the MAPs of its channel.
fn happen(
    alloc: Global,
    pasts: &mut BTreeMap<u32, FlowPast>,
    reach: Reach,
    key: u32,
    happening: Happening,
) -> Result<(), AllocError>
    ensures { OnOk result ((q : ℕ) → get nat_cmp pasts.new q ≡ past_at_step q reach (get nat_cmp pasts.old q) key happening) }
{
    if let Some(past) = pasts.get_mut(&key) {
        return past.step(reach, happening);
    }
    let mut past = FlowPast::new(alloc, key);
    past.step(reach, happening)?;
    pasts.insert(key, past)?;
    Ok(())
}

impl Flows {
    ghost use Rattle.std.specs.Prelude.{◌≡◌, ℕ, ◌+◌, ◌<◌, ◌^◌, List, [], ◌∷◌, ◌++◌, flat_map, OnOk};
    ghost use Rattle.plan_account.specs.declared.deed.Deed.{Deed};
    ghost use Rattle.plan_account.specs.declared.happening.Happening.TheVariants.{Mapped};
    ghost use Rattle.plan_account.specs.Happenings.{key_of, given_by, left_by, waits_by, mapped, tells};
    ghost use Rattle.plan_account.specs.FlowsHeld.{HoldsFlows, Grows, IsOfFlow, since_in};

    /// Of no deed.
    pub fn new(alloc: Global) -> Flows
        ensures { HoldsFlows [] result }
    {
        Flows {
            count: 0,
            reaches: BTreeMap::new(alloc),
            pasts: BTreeMap::new(alloc),
        }
    }

    /// The lease of a SID: 0 while it has had one lease or none, else the first minislot of its last one.
    pub fn since(&self, ch: u8, sid: u16) -> u64
        ensures { result ≡ since_in self.now (key_of ch sid) }
    {
        match self.pasts.get(&key_of(ch, sid)) {
            Some(past) => past.since(),
            None => 0,
        }
    }

    fn add_one(&mut self, alloc: Global, key: u32, happening: Happening) -> Result<(), AllocError>
        requires { IsOfFlow happening }
        ensures { OnOk result (Grows ((key, happening) ∷ []) self.old self.new) }
    {
        let reach = reach_in(&self.reaches, key / (1 << 16));
        happen(alloc, &mut self.pasts, reach, key, happening)
    }

    fn add_interval(
        &mut self,
        alloc: Global,
        ch: u8,
        start: u64,
        interval: Interval,
    ) -> Result<(), AllocError>
        requires { start < 2 ^ 63 }
        ensures { OnOk result (Grows (given_by ch start interval) self.old self.new) }
    {
        if interval.sid == Sid::EVERYBODY {
            return Ok(());
        }
        let given = Happening::Given {
            at: start + u64::from(interval.from.get()),
            answers: interval.iuc.answers_request(),
        };
        self.add_one(alloc, key_of(ch, interval.sid.get()), given)
    }

    fn add_intervals(
        &mut self,
        alloc: Global,
        ch: u8,
        start: u64,
        found: &[Interval],
    ) -> Result<(), AllocError>
        requires { start < 2 ^ 63 }
        ensures { OnOk result (Grows (flat_map (given_by ch start) found.now) self.old self.new) }
    {
        for interval in found {
            self.add_interval(alloc, ch, start, *interval)?;
        }
        Ok(())
    }

    fn add_end(&mut self, ch: u8, start: u64, end: u64, left: Left) -> Result<(), AllocError>
        ensures { OnOk result (Grows ((key_of ch 0, Mapped start end left) ∷ []) self.old self.new) }
    {
        let channel = u32::from(ch);
        let Reach { maps, .. } = reach_in(&self.reaches, channel);
        let maps = next(maps)?;
        let reach = Reach {
            maps,
            start,
            end,
            left,
        };
        self.reaches.insert(channel, reach)?;
        Ok(())
    }

    fn add_element(&mut self, alloc: Global, ch: u8, element: Element) -> Result<(), AllocError>
        ensures { OnOk result (Grows (waits_by ch element) self.old self.new) }
    {
        if !element.iuc.answers_request() {
            return Ok(());
        }
        self.add_one(alloc, key_of(ch, element.sid.get()), Happening::Waits)
    }

    fn add_waiting(&mut self, alloc: Global, ch: u8, found: &[Element]) -> Result<(), AllocError>
        ensures { OnOk result (Grows (flat_map (waits_by ch) found.now) self.old self.new) }
    {
        for element in found {
            self.add_element(alloc, ch, *element)?;
        }
        Ok(())
    }

    #[tactic(auto, using(crate::proofs::Growing::grows_both))]
    fn add_map(&mut self, alloc: Global, cut: Cut, map: &ShownMap) -> Result<(), AllocError>
        requires { cut.start < 2 ^ 63 }
        ensures { OnOk result (Grows (mapped cut.ch cut.start cut.len cut.keep map.now) self.old self.new) }
    {
        let Cut {
            ch,
            start,
            len,
            keep,
        } = cut;
        let found = map.intervals();
        self.add_intervals(alloc, ch, start, found)?;
        self.add_end(ch, start, start + u64::from(len), left_by(keep, found))?;
        self.add_waiting(alloc, ch, map.waiting())?;
        Ok(())
    }

    fn add_told(&mut self, alloc: Global, command: u64, deed: &Deed) -> Result<(), AllocError>
        ensures { OnOk result (Grows (tells command deed.now) self.old self.new) }
    {
        match deed {
            Deed::Flow {
                ch,
                sid,
                modem,
                first,
                last,
                kind,
            } => {
                let leased = Happening::Leased {
                    command,
                    modem: *modem,
                    first: *first,
                    last: *last,
                    kind: *kind,
                };
                self.add_one(alloc, key_of(*ch, *sid), leased)
            }
            Deed::Drop { ch, sid } => self.add_one(alloc, key_of(*ch, *sid), Happening::Dropped),
            Deed::Request { ch, sid, n, sent } => {
                let asked = Happening::Asked {
                    command,
                    n: *n,
                    sent: *sent,
                };
                self.add_one(alloc, key_of(*ch, *sid), asked)
            }
            Deed::Map {
                ch,
                start,
                len,
                keep,
                map,
            } => {
                let cut = Cut {
                    ch: *ch,
                    start: start.get(),
                    len: *len,
                    keep: *keep,
                };
                self.add_map(alloc, cut, map)
            }
            Deed::Channel(_) => Ok(()),
            Deed::Other => Ok(()),
        }
    }

    /// Adds a deed. Where there is no memory, or a number would pass 2^64 - 1, it is AllocError.
    pub fn add(&mut self, alloc: Global, deed: &Deed) -> Result<(), AllocError>
        ensures { OnOk result ((ds : List Deed) → HoldsFlows ds self.old → HoldsFlows (ds ++ deed.now ∷ []) self.new) }
    {
        let command = next(self.count)?;
        self.add_told(alloc, command, deed)?;
        self.count = command;
        Ok(())
    }
}
