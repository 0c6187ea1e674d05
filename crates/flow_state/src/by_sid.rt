//! The flows of a channel by SID.

ghost use Rattle.std.specs.Prelude.{◌≡◌, filter, nat_le};
ghost use Rattle.std.specs.Map.{keys_of};
ghost use Rattle.std.specs.Option.{option_copied};
ghost use Rattle.flow_state.specs.StoredFlows.{place_of, there, flow_at, is_ended_flow};

use crate::flow::Flow;
use crate::limits::LAST_TIME;
use indexmap::IndexMap;
use std::alloc::{AllocError, Global};
use std::marker::Model;

/// The flows of a channel. A SID that has had a flow has the place one below it, which is empty where its flow is gone:
/// so a flow is found by its SID alone, and goes without a move of the others.
#[derive(Drop)]
pub struct FlowsBySid {
    places: IndexMap<u16, Option<Flow>>,
}

impl Model for FlowsBySid {
    ghost use Rattle.flow_state.specs.StoredFlows.{BySid};

    ghost Value = { BySid };

    ghost use Rattle.flow_state.specs.StoredFlows.{by_sid, IsBySid};

    ghost view = { by_sid };

    ghost invariant = { IsBySid };
}

impl FlowsBySid {
    ghost use Rattle.std.specs.Prelude.{◌≡◌, ◌≤◌, ◌<◌, ◌+◌, [], ◌∷◌, ◌++◌, map, filter, not, max, is_some, slice_get};
    ghost use Rattle.std.specs.Prelude.{None, nat_eq, nat_le, IsSome, OnOk, IfSome, IfNone};
    ghost use Rattle.std.specs.Map.{lookup, set_value, remove_entry};
    ghost use Rattle.std.specs.Option.{option_copied, option_map};
    ghost use Rattle.flow_state.specs.Limits.{last_sid};
    ghost use Rattle.flow_state.specs.StoredTable.{with_sent, with_next_due, EndFrom};

    /// No SID has had a flow.
    pub(crate) fn new(alloc: Global) -> FlowsBySid
        ensures none { result.entries ≡ [] }
        ensures sids { result.sids ≡ 0 }
    {
        FlowsBySid {
            places: IndexMap::new(alloc),
        }
    }

    /// Makes room for one more SID.
    pub(crate) fn reserve(&mut self) -> Result<(), AllocError>
        ensures room { OnOk result (0 < self.new.room) }
        ensures kept { self.new.entries ≡ self.old.entries }
        ensures sids { self.new.sids ≡ self.old.sids }
    {
        self.places.reserve(1)
    }

    /// Makes a place for a SID, the next one at most. It is empty where the SID is the next one.
    pub(crate) fn make_place(&mut self, sid: u16) -> Result<(), AllocError>
        requires unicast { (1 ≤ sid) × (sid ≤ last_sid) }
        requires next { sid ≤ self.old.sids + 1 }
        ensures made { OnOk result (sid ≤ self.new.sids) }
        ensures more { self.old.sids ≤ self.new.sids }
        ensures kept { self.new.entries ≡ self.old.entries }
    {
        if self.places.len() < usize::from(sid) {
            self.places.insert(sid, None)?;
        }
        Ok(())
    }

    /// The flow of a SID.
    pub(crate) fn get(&self, sid: u16) -> Option<&Flow>
        ensures { option_copied result ≡ lookup (nat_eq sid) self.now.entries }
    {
        flow_at(&self.places, place_of(sid))
    }

    /// Flow number k, by SID. It looks at the places of all SIDs up to its own.
    pub(crate) fn nth(&self, k: usize) -> Option<&Flow>
        ensures { option_copied result ≡ option_map (λ e. e.1) (slice_get self.now.entries k) }
    {
        let mut left = k;
        for place in 0..self.places.len() {
            if let Some(flow) = flow_at(&self.places, place) {
                if left == 0 {
                    return Some(flow);
                }
                left -= 1;
            }
        }
        None
    }

    /// Copies all flows, by SID, over what is there.
    pub(crate) fn copy_all(&self, copied: &mut Vec<Flow>) -> Result<(), AllocError>
        ensures { OnOk result (copied.new.items ≡ map (λ e. e.1) self.now.entries) }
    {
        copied.clear();
        for place in 0..self.places.len() {
            if let Some(flow) = flow_at(&self.places, place) {
                copied.push(*flow)?;
            }
        }
        Ok(())
    }

    /// Adds the flow of a SID that has none, the next one at most. There is room for one more SID.
    pub(crate) fn add(&mut self, sid: u16, flow: Flow)
        requires unicast { (1 ≤ sid) × (sid ≤ last_sid) }
        requires next { sid ≤ self.old.sids + 1 }
        requires room { 0 < self.old.room }
        requires new { lookup (nat_eq sid) self.old.entries ≡ None }
        ensures added { self.new.entries ≡ filter (λ e. nat_le e.0 sid) self.old.entries ++ (sid, flow) ∷ filter (λ e. not (nat_le e.0 sid)) self.old.entries }
        ensures sids { self.new.sids ≡ max self.old.sids sid }
    {
        let place = usize::from(sid - 1);
        if place < self.places.len() {
            self.places[place] = Some(flow);
        } else {
            let put = self.places.insert(sid, Some(flow));
            prove!(put.is_ok());
        }
    }

    /// Takes the flow of a SID out. False where it has none.
    pub(crate) fn remove(&mut self, sid: u16) -> bool
        ensures found { result ≡ is_some (lookup (nat_eq sid) self.old.entries) }
        ensures removed { self.new.entries ≡ remove_entry (nat_eq sid) self.old.entries }
        ensures sids { self.new.sids ≡ self.old.sids }
    {
        let found = self.get(sid).is_some();
        if found {
            self.places[place_of(sid)] = None;
        }
        found
    }

    /// Writes over the flow of a SID.
    fn write(&mut self, sid: u16, flow: Flow)
        requires { IsSome (lookup (nat_eq sid) self.old.entries) }
        ensures written { self.new.entries ≡ set_value (nat_eq sid) self.old.entries flow }
        ensures sids { self.new.sids ≡ self.old.sids }
    {
        self.places[place_of(sid)] = Some(flow);
    }

    /// Notes that a flow's last accepted request was sent at this time.
    pub(crate) fn note_sent(&mut self, sid: u16, sent: u64)
        ensures written { IfSome (lookup (nat_eq sid) self.old.entries) (λ f. self.new.entries ≡ set_value (nat_eq sid) self.old.entries (with_sent f sent)) }
        ensures absent { IfNone (lookup (nat_eq sid) self.old.entries) (self.new.entries ≡ self.old.entries) }
        ensures sids { self.new.sids ≡ self.old.sids }
    {
        if let Some(flow) = self.get(sid) {
            let last_sent = Some(sent);
            let noted = Flow { last_sent, ..*flow };
            self.write(sid, noted);
        }
    }

    /// Sets a flow's next due time. False where the SID has no flow.
    pub(crate) fn note_due(&mut self, sid: u16, due: u64) -> bool
        ensures found { result ≡ is_some (lookup (nat_eq sid) self.old.entries) }
        ensures written { IfSome (lookup (nat_eq sid) self.old.entries)
            (λ f. self.new.entries ≡ set_value (nat_eq sid) self.old.entries (with_next_due f due)) }
        ensures absent { IfNone (lookup (nat_eq sid) self.old.entries) (self.new.entries ≡ self.old.entries) }
        ensures sids { self.new.sids ≡ self.old.sids }
    {
        match self.get(sid) {
            Some(flow) => {
                let noted = Flow { due, ..*flow };
                self.write(sid, noted);
                true
            }
            None => false,
        }
    }

    /// Forgets the flows whose leases end before this time.
    pub(crate) fn forget_ended(&mut self, end: u64)
        ensures kept { self.new.entries ≡ filter (λ e. nat_le end e.1.lease.last) self.old.entries }
        ensures sids { self.new.sids ≡ self.old.sids }
    {
        empty_ended(&mut self.places, end);
    }

    /// The first minislot at which a lease of these flows ends, or a later flow's may: none ends before.
    pub(crate) fn first_end(&self) -> u64
        ensures { EndFrom result self.now.entries }
    {
        let mut first = LAST_TIME;
        for place in 0..self.places.len() {
            if let Some(flow) = flow_at(&self.places, place) {
                first = first.min(flow.lease.last);
            }
        }
        first
    }
}

/// The place of a SID. 0 has none.
pub(crate) fn place_of(sid: u16) -> usize
    ensures { result ≡ place_of sid }
{
    usize::from(sid.wrapping_sub(1))
}

/// The flow at a place.
fn flow_at(places: &IndexMap<u16, Option<Flow>>, place: usize) -> Option<&Flow>
    ensures { option_copied result ≡ flow_at places.now.entries place }
{
    match places.get_index(place) {
        Some((_, flow)) => flow.as_ref(),
        None => None,
    }
}

/// Is a flow at this place whose lease ends before a time?
fn has_ended(places: &IndexMap<u16, Option<Flow>>, place: usize, end: u64) -> bool
    ensures { result ≡ is_ended_flow end (flow_at places.now.entries place) }
{
    match flow_at(places, place) {
        Some(flow) => flow.lease.last < end,
        None => false,
    }
}

/// Empties the places of flows whose leases end before a time.
fn empty_ended(places: &mut IndexMap<u16, Option<Flow>>, end: u64)
    ensures kept { there places.new.entries ≡ filter (λ e. nat_le end e.1.lease.last) (there places.old.entries) }
    ensures keys { keys_of places.new.entries ≡ keys_of places.old.entries }
{
    for place in 0..places.len() {
        if has_ended(places, place, end) {
            places[place] = None;
        }
    }
}
