ghost use Rattle.std.specs.Prelude.{◌≡◌, ◌+◌, ◌≤◌, List, [], length, OnOk, OnErr};
ghost use Rattle.flow_state.specs.Limits.{last_sid};
ghost use Rattle.flow_state.specs.Rows.{Table, lease_of, free_sid, first_of, put_lease};
ghost use Rattle.flow_state.specs.StoredLeases.{next_of};

use crate::blocks::{BLOCK, first_end_at, first_over, put_at};
use crate::flow::Lease;
use crate::holders::{forget_before, is_after, later_end, lease_at, named_lease};
use crate::limits::LAST_SID;
use indexmap::IndexMap;
use std::alloc::{AllocError, Global};
use std::marker::Model;

/// The latest lease of each SID of a channel that was given. SIDs are given in order from 1, so the
/// lease of a SID stands at the place one below it. `names` has the place of the lease that was put last
/// for a modem and tag: that of each lease that ends after `unnamed_until`, so that it is found at once.
/// `first_ends` has a time for each block of places, before which none of its leases ends, so that a
/// block where none is over is passed over.
#[derive(Drop)]
pub struct Leases {
    latest: Vec<Lease>,
    names: IndexMap<(u32, u32), u16>,
    unnamed_until: Option<u64>,
    first_ends: Vec<u64>,
}

impl Model for Leases {
    ghost use Rattle.std.specs.Prelude.{List};
    ghost use Rattle.flow_state.specs.Rows.{Lease};

    ghost Value = { List Lease };

    ghost use Rattle.flow_state.specs.StoredLeases.{IsInOrder};

    ghost view = { λ a. a.latest.items };

    ghost invariant = { IsInOrder };
}

impl Leases {
    /// No SID was given.
    pub(crate) fn new(alloc: Global) -> Leases
        ensures { result ≡ [] }
    {
        Leases {
            latest: Vec::new(alloc),
            names: IndexMap::new(alloc),
            unnamed_until: None,
            first_ends: Vec::new(alloc),
        }
    }

    /// All of them, by SID.
    pub(crate) fn all(&self) -> &[Lease]
        ensures { result.now ≡ self.now }
    {
        &self.latest
    }

    /// The lease of modem and tag that isn't over, where the channel's next MAP begins at a start. All
    /// leases are looked through only where one that isn't named may not be over.
    pub(crate) fn lease_of(&self, modem: u32, tag: u32, start: u64) -> Option<Lease>
        ensures { (t : Table) → t.leases ≡ self.now → t.row.next_start ≡ start → result ≡ lease_of t modem tag }
    {
        if is_after(self.unnamed_until, start) {
            return named_lease(&self.latest, &self.names, modem, tag, start);
        }
        self.latest
            .iter()
            .find(|lease| lease.modem == modem && lease.tag == tag && !(lease.last < start))
            .copied()
    }

    /// The least SID that was never given or whose latest lease is over. None where all are leased.
    pub(crate) fn free_sid(&self, start: u64) -> Option<u16>
        ensures { (t : Table) → t.leases ≡ self.now → t.row.next_start ≡ start → result ≡ free_sid t }
    {
        match first_over(&self.latest, &self.first_ends, start) {
            Some(lease) => Some(lease.sid),
            None => self.next_sid(),
        }
    }

    /// The least SID that was never given. None where all were given.
    fn next_sid(&self) -> Option<u16>
        ensures { result ≡ next_of self.now }
    {
        let given = self.latest.len();
        if given < usize::from(LAST_SID) {
            Some(given as u16 + 1)
        } else {
            None
        }
    }

    /// The first minislot of a new lease of the SID.
    pub(crate) fn first_of(&self, sid: u16, start: u64) -> u64
        ensures { (t : Table) → t.leases ≡ self.now → t.row.next_start ≡ start → result ≡ first_of t sid }
    {
        if 1 <= sid && usize::from(sid) <= self.latest.len() {
            start
        } else {
            0
        }
    }

    /// Puts a lease over the one that its SID had, or behind the others where it has the next SID. On a
    /// failure nothing changes.
    pub(crate) fn put(&mut self, lease: Lease) -> Result<(), AllocError>
        requires some { 1 ≤ lease.sid }
        requires unicast { lease.sid ≤ last_sid }
        requires next { lease.sid ≤ length self.old + 1 }
        ensures ok { OnOk result (self.new ≡ put_lease lease self.old) }
        ensures err { OnErr result (self.new ≡ self.old) }
    {
        let place = lease.sid - 1;
        let at = usize::from(place);
        let block = at / BLOCK;
        self.latest.reserve(1)?;
        self.first_ends.reserve(1)?;
        let named = self.names.insert((lease.modem, lease.tag), place)?;
        self.unnamed_until = later_end(self.unnamed_until, &self.latest, named);
        let before = lease_at(&self.latest, at);
        forget_before(&mut self.names, place, before, lease);
        put_at(&mut self.latest, at, lease);
        let first_end = first_end_at(&self.latest, &self.first_ends, at);
        put_at(&mut self.first_ends, block, first_end);
        Ok(())
    }
}
