//! The names of leases: the place of the latest lease that was put for a modem and tag.

ghost use Rattle.std.specs.Prelude.{◌≡◌, ◌≢◌, ℕ, ◌==◌, ◌&&◌, find, slice_get, Some, None, IsTrue, IsFalse, false};
ghost use Rattle.std.specs.Option.{option_map_or};
ghost use Rattle.flow_state.specs.Rows.{Lease};
ghost use Rattle.flow_state.specs.StoredLeases.{AreNamedFrom, named, is_after, is_lease_from};

use crate::flow::Lease;
use indexmap::IndexMap;

/// The lease of modem and tag that doesn't end before a start, where all that don't are named.
pub(crate) fn named_lease(
    latest: &[Lease],
    names: &IndexMap<(u32, u32), u16>,
    modem: u32,
    tag: u32,
    start: u64,
) -> Option<Lease>
    requires { AreNamedFrom start names.now.entries latest.now }
    ensures { result ≡ find (is_lease_from start modem tag) latest.now }
{
    let place = *names.get(&(modem, tag))?;
    let lease = *latest.get(usize::from(place))?;
    if is_lease_from(lease, modem, tag, start) {
        Some(lease)
    } else {
        None
    }
}

/// Is it a lease of modem and tag that doesn't end before a start?
fn is_lease_from(lease: Lease, modem: u32, tag: u32, start: u64) -> bool
    ensures { result ≡ is_lease_from start modem tag lease }
{
    lease.modem == modem && lease.tag == tag && !(lease.last < start)
}

/// Does a time come after an end? After none it does.
pub(crate) fn is_after(end: Option<u64>, time: u64) -> bool
    ensures { result ≡ is_after end time }
{
    match end {
        Some(end) => end < time,
        None => true,
    }
}

/// The end of the lease at a place, where it comes after another end, else that one.
pub(crate) fn later_end(end: Option<u64>, latest: &[Lease], place: Option<u16>) -> Option<u64>
    ensures later { (n : ℕ) → IsTrue (is_after result n) → IsTrue (is_after end n) }
    ensures ended { (p : ℕ) (l : Lease) → place ≡ Some p → slice_get latest.now p ≡ Some l → IsFalse (is_after result l.last) }
{
    match place {
        Some(place) => match latest.get(usize::from(place)) {
            Some(lease) => match end {
                Some(other) => Some(lease.last.max(other)),
                None => Some(lease.last),
            },
            None => end,
        },
        None => end,
    }
}

/// The lease at a place.
pub(crate) fn lease_at(latest: &[Lease], place: usize) -> Option<Lease>
    ensures { result ≡ slice_get latest.now place }
{
    latest.get(place).copied()
}

/// Are they leases of one modem and tag?
fn have_one_holder(a: Lease, b: Lease) -> bool
    ensures { result ≡ ((a.modem == b.modem) && (a.tag == b.tag)) }
{
    a.modem == b.modem && a.tag == b.tag
}

/// Do the lease's modem and tag name the place?
fn name_place(names: &IndexMap<(u32, u32), u16>, lease: Lease, place: u16) -> bool
    ensures { result ≡ option_map_or (λ p. p == place) (named names.now.entries lease.modem lease.tag) false }
{
    match names.get(&(lease.modem, lease.tag)) {
        Some(named) => *named == place,
        None => false,
    }
}

/// Forgets the name of the lease that stood at a place, where the one put there has another.
fn forget_name(names: &mut IndexMap<(u32, u32), u16>, place: u16, before: Lease, lease: Lease)
    ensures own { named names.new.entries lease.modem lease.tag ≡ named names.old.entries lease.modem lease.tag }
    ensures kept { (m t p : ℕ) → named names.old.entries m t ≡ Some p → p ≢ place → named names.new.entries m t ≡ Some p }
    ensures fewer { (m t p : ℕ) → named names.new.entries m t ≡ Some p → named names.old.entries m t ≡ Some p }
    ensures gone { named names.new.entries before.modem before.tag ≡ Some place → (before.modem ≡ lease.modem) × (before.tag ≡ lease.tag) }
{
    if have_one_holder(before, lease) {
        return;
    }
    if name_place(names, before, place) {
        names.swap_remove(&(before.modem, before.tag));
    }
}

/// Forgets the name of the lease that stood at a place, if one did, where the one put there has
/// another.
pub(crate) fn forget_before(
    names: &mut IndexMap<(u32, u32), u16>,
    place: u16,
    before: Option<Lease>,
    lease: Lease,
)
    ensures own { named names.new.entries lease.modem lease.tag ≡ named names.old.entries lease.modem lease.tag }
    ensures kept { (m t p : ℕ) → named names.old.entries m t ≡ Some p → p ≢ place → named names.new.entries m t ≡ Some p }
    ensures fewer { (m t p : ℕ) → named names.new.entries m t ≡ Some p → named names.old.entries m t ≡ Some p }
    ensures gone { (b : Lease) → before ≡ Some b → named names.new.entries b.modem b.tag ≡ Some place → (b.modem ≡ lease.modem) × (b.tag ≡ lease.tag) }
{
    if let Some(before) = before {
        forget_name(names, place, before, lease);
    }
}
