//! The tallies of the MAPs among deeds.

ghost use Rattle.std.specs.Prelude.{◌≡◌};
ghost use Rattle.map_stats.specs.Given.{sid_key};

use crate::tally::{SidTallies, Tallies, add, add_to_sid};
use map_body::{Interval, Sid};
use plan_account::{Deed, Flows, ShownMap};
use std::alloc::{AllocError, Global};
use std::collections::BTreeMap;

/// What the MAPs of deeds give, by key: of MAPs the channel, of intervals the channel and the use, and of those of
/// one SID the channel, the SID, its lease then, and the use.
#[derive(Drop)]
pub struct Stats {
    pub maps: Tallies,
    pub uses: Tallies,
    pub sids: SidTallies,
}

/// A use of a SID's lease as one number.
fn sid_key(ch: u8, sid: u16, since: u64, iuc: u8) -> u128
    ensures { result ≡ sid_key ch sid since iuc }
{
    let sid = u128::from(ch) * (1 << 14) + u128::from(sid);
    (sid * (1 << 64) + u128::from(since)) * 16 + u128::from(iuc)
}

impl Stats {
    ghost use Rattle.std.specs.Prelude.{◌≡◌, ℕ, List, [], ◌∷◌, ◌++◌, map, flat_map, fold, OnOk};
    ghost use Rattle.std.specs.Ordering.{nat_cmp};
    ghost use Rattle.std.specs.BTreeMap.{get};
    ghost use Rattle.plan_account.specs.declared.deed.Deed.{Deed};
    ghost use Rattle.plan_account.specs.FlowsHeld.{HoldsFlows, since_in};
    ghost use Rattle.map_stats.specs.Tallies.{tally_step};
    ghost use Rattle.map_stats.specs.Given.{use_given, sid_given};
    ghost use Rattle.map_stats.specs.Held.{Holds, AddsDeed, AddsIntervals};

    /// Of no deed.
    pub fn new(alloc: Global) -> Stats
        ensures { Holds [] result }
    {
        Stats {
            maps: BTreeMap::new(alloc),
            uses: BTreeMap::new(alloc),
            sids: BTreeMap::new(alloc),
        }
    }

    fn add_interval(
        &mut self,
        flows: &Flows,
        channel: u8,
        interval: Interval,
    ) -> Result<(), AllocError>
        ensures maps { self.new.maps ≡ self.old.maps }
        ensures uses { OnOk result ((q : ℕ) → get nat_cmp self.new.uses q ≡ tally_step q (get nat_cmp self.old.uses q) (use_given channel interval)) }
        ensures sids { OnOk result ((q : ℕ) → get nat_cmp self.new.sids q ≡ fold (tally_step q) (get nat_cmp self.old.sids q)
            (sid_given (since_in flows.now) channel interval)) }
    {
        let iuc = interval.iuc.get();
        let minislots = interval.to.get().saturating_sub(interval.from.get());
        let key = u32::from(channel) * 16 + u32::from(iuc);
        add(&mut self.uses, key, minislots)?;
        if interval.sid == Sid::EVERYBODY {
            return Ok(());
        }
        let sid = interval.sid.get();
        let key = sid_key(channel, sid, flows.since(channel, sid), iuc);
        add_to_sid(&mut self.sids, key, minislots)
    }

    fn add_intervals(
        &mut self,
        flows: &Flows,
        channel: u8,
        found: &[Interval],
    ) -> Result<(), AllocError>
        ensures maps { self.new.maps ≡ self.old.maps }
        ensures given { OnOk result (AddsIntervals (since_in flows.now) channel found.now self.old self.new) }
    {
        for interval in found {
            self.add_interval(flows, channel, *interval)?;
        }
        Ok(())
    }

    fn add_map(&mut self, flows: &Flows, ch: u8, len: u16, map: &ShownMap) -> Result<(), AllocError>
        ensures maps { OnOk result ((q : ℕ) → get nat_cmp self.new.maps q ≡ tally_step q (get nat_cmp self.old.maps q) (ch, len)) }
        ensures given { OnOk result (AddsIntervals (since_in flows.now) ch map.now.intervals self.old self.new) }
    {
        add(&mut self.maps, u32::from(ch), len)?;
        self.add_intervals(flows, ch, map.intervals())?;
        Ok(())
    }

    fn add_deed(&mut self, flows: &Flows, deed: &Deed) -> Result<(), AllocError>
        ensures { OnOk result (AddsDeed (since_in flows.now) deed.now self.old self.new) }
    {
        match deed {
            Deed::Map { ch, len, map, .. } => self.add_map(flows, *ch, *len, map),
            Deed::Channel(_) => Ok(()),
            Deed::Flow { .. } => Ok(()),
            Deed::Drop { .. } => Ok(()),
            Deed::Request { .. } => Ok(()),
            Deed::Other => Ok(()),
        }
    }

    /// Adds the MAP of a deed, if it is one. SIDs have the leases of these flows, which are those of the deeds before.
    /// Where there is no memory, or a number would pass 2^64 - 1, it is AllocError.
    pub fn add(&mut self, flows: &Flows, deed: &Deed) -> Result<(), AllocError>
        ensures { OnOk result ((ds : List Deed) → Holds ds self.old → HoldsFlows ds flows.now → Holds (ds ++ deed.now ∷ []) self.new) }
    {
        self.add_deed(flows, deed)
    }
}
