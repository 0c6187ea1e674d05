//! Intervals that a modem keeps: one for each element that a map gave, in the order of their channels and,
//! of one channel, of their starts.

ghost use Rattle.std.specs.Prelude.{◌≡◌, ℕ, ◌+◌, ◌*◌, ◌<◌, ◌≤◌, ◌^◌, ◌↔◌, ◌⊎◌, List, ◌++◌, ◌∷◌, [], filter, map, take};
ghost use Rattle.std.specs.Prelude.{drop, true, false, length, vec_len, vec_capacity, ltb, leb};
ghost use Rattle.std.specs.Prelude.{IfOk, OnOk, IfSome, IfNone, Contains};
ghost use Rattle.std.specs.List.{All, list_any, filter_map, AllWithin};
ghost use Rattle.map_body.specs.Iucs as iucs;
ghost use Rattle.map_body.specs.Sids.{everybody};
ghost use Rattle.std.proofs.Common.{get_or};
ghost use Rattle.modem.specs.declared.kept.KeptInterval.{KeptInterval};
ghost use Rattle.modem.specs.LetsGo.{old_intervals};
ghost use Rattle.modem.specs.Sights.{FewOld};
ghost use Rattle.modem.specs.State.{Kept, HasAt, IsAt};
ghost use Rattle.modem.specs.Idle.{HasSame, IsBefore};
ghost use Rattle.modem.specs.KeptIntervals.{kept_interval, interval_of, place, place_of, AreKept, AreBefore, is_past};
ghost use Rattle.modem.specs.KeptIntervals.{ArePast, IsWindow, IsShort, is_live, covers, is_at, is_shared, piece};
ghost use Rattle.modem.specs.KeptIntervals.{covered, IsOfChannel, KeepsFrom};
ghost use Rattle.modem.specs.Ticks.{Counts, IsNotAfter};

use crate::edges::sooner;
use crate::known::OwnLease;
use crate::leases::is_of;
use map_body::{Interval, Iuc, Sid};
use std::alloc::{AllocError, Global};

/// An interval that covers a minislot began at most so many minislots before: an offset in a MAP has 14 bits.
pub(crate) const REACH: u64 = 0x3FFF;

/// The first number that is no minislot.
pub(crate) const LIMIT: u64 = 1 << 63;

/// Where a look at a minislot of a channel finds its intervals: `past` of the first are past there, and `begun` of the
/// first begin by then.
#[derive(Clone, Copy)]
pub(crate) struct Window {
    pub past: usize,
    pub begun: usize,
}

/// The same of a modem's grants, and of the intervals that are open to all.
#[derive(Clone, Copy)]
pub(crate) struct Windows {
    pub own: Window,
    pub open: Window,
}

/// An element's minislots of a channel that a modem keeps, from `start` up to `stop`.
#[derive(Clone, Copy, PartialEq, Eq)]
pub struct KeptInterval {
    pub channel: u8,
    pub sid: u16,
    pub iuc: Iuc,
    pub start: u64,
    pub stop: u64,
}

// Does it stand before a minislot of a channel, by channel and then by start?
fn begins_before(interval: &KeptInterval, ch: u8, at: u64) -> bool
    ensures { result ≡ ltb (place_of interval.now) (place ch at) }
{
    let start = interval.start;
    interval.channel < ch || interval.channel == ch && start < at
}

// The same, or at it.
fn begins_by(interval: &KeptInterval, ch: u8, at: u64) -> bool
    ensures { result ≡ leb (place_of interval.now) (place ch at) }
{
    let start = interval.start;
    interval.channel < ch || interval.channel == ch && start <= at
}

// How many stand before a minislot of a channel. It costs the logarithm of what is kept.
fn count_before(kept: &[KeptInterval], ch: u8, at: u64) -> usize
    requires { AreKept kept.now }
    ensures { AreBefore (place ch at) result kept.now }
{
    kept.partition_point(|k| begins_before(k, ch, at))
}

// Is it of a lower channel, or does it begin and is over by a minislot of the channel?
fn is_past(interval: &KeptInterval, ch: u8, at: u64) -> bool
    ensures { result ≡ is_past ch at interval.now }
{
    let stop = interval.stop;
    begins_by(interval, ch, at) && (interval.channel < ch || stop <= at)
}

// How many at the front are past, if so many are.
fn count_past(kept: &[KeptInterval], known: usize, ch: u8, at: u64) -> usize
    requires { ArePast ch at known kept.now }
    ensures order { known ≤ result }
    ensures past { ArePast ch at result kept.now }
{
    for i in known..kept.len() {
        if !is_past(&kept[i], ch, at) {
            return i;
        }
    }
    kept.len()
}

// How many stand at or before a minislot of a channel, if so many are past.
fn count_begun(kept: &[KeptInterval], past: usize, ch: u8, at: u64) -> usize
    requires kept { AreKept kept.now }
    requires past { ArePast ch at past kept.now }
    ensures order { past ≤ result }
    ensures begun { AreBefore (place ch at + 1) result kept.now }
{
    for i in past..kept.len() {
        if !begins_by(&kept[i], ch, at) {
            return i;
        }
    }
    kept.len()
}

// So many of the first are past, or where that is none, those that begin more than REACH before.
fn known_past(kept: &[KeptInterval], ch: u8, at: u64, past: usize) -> usize
    requires kept { AreKept kept.now }
    requires past { ArePast ch at past kept.now }
    ensures { ArePast ch at result kept.now }
{
    if past == 0 {
        count_before(kept, ch, at.saturating_sub(REACH))
    } else {
        past
    }
}

/// Where a look at a minislot finds its intervals, if so many of the first are known to be past. It costs those that
/// became past since, and those that begin by then and aren't past; where none is known to be, it costs what begins
/// less than 2^14 minislots before, and the logarithm of what is kept.
pub(crate) fn window_at(kept: &[KeptInterval], ch: u8, at: u64, past: usize) -> Window
    requires kept { AreKept kept.now }
    requires past { ArePast ch at past kept.now }
    ensures { IsWindow ch at kept.now result }
{
    let known = known_past(kept, ch, at, past);
    let past = count_past(kept, known, ch, at);
    let begun = count_begun(kept, past, ch, at);
    Window { past, begun }
}

// Those that may cover a minislot of a channel.
fn around(kept: &[KeptInterval], ch: u8, at: u64, window: Window) -> &[KeptInterval]
    requires { IsWindow ch at kept.now window }
    ensures same { (sid iuc : ℕ) → HasAt (map kept_interval result.now) ch at sid iuc ↔ HasAt (map kept_interval kept.now) ch at sid iuc }
    ensures part { (before count : ℕ) × (result.now ≡ take count (drop before kept.now)) }
{
    &kept[window.past..window.begun]
}

fn covers(interval: &KeptInterval, ch: u8, at: u64) -> bool
    ensures { result ≡ covers ch at (kept_interval interval.now) }
{
    interval.channel == ch && (interval.start <= at && at < interval.stop)
}

// Whether an interval counts before a SID and IUC.
fn comes_first(interval: &KeptInterval, sid: u16, iuc: u8) -> bool
    ensures first { result ≡ true → IsNotAfter (interval.now.sid, interval.now.iuc) sid iuc }
    ensures later { result ≡ false → IsNotAfter (sid, iuc) interval.now.sid interval.now.iuc }
{
    interval.sid < sid || interval.sid == sid && interval.iuc.get() < iuc
}

// What counts of intervals and one more.
fn first_at(
    ch: u8,
    at: u64,
    first: Option<(u16, Iuc)>,
    interval: &KeptInterval,
) -> Option<(u16, Iuc)>
    ensures { (kept : List Kept) → Counts kept ch at first → Counts (kept ++ kept_interval interval.now ∷ []) ch at result }
{
    if !covers(interval, ch, at) {
        return first;
    }
    let Some(best) = first else {
        return Some((interval.sid, interval.iuc));
    };
    if comes_first(interval, best.0, best.1.get()) {
        Some((interval.sid, interval.iuc))
    } else {
        Some(best)
    }
}

fn counted_of(kept: &[KeptInterval], ch: u8, at: u64) -> Option<(u16, Iuc)>
    ensures { Counts (map kept_interval kept.now) ch at result }
{
    let mut counted: Option<(u16, Iuc)> = None;
    for interval in kept {
        counted = first_at(ch, at, counted, interval);
    }
    counted
}

/// Of the intervals that cover a minislot, the SID and IUC that count.
pub(crate) fn counted_in(
    kept: &[KeptInterval],
    ch: u8,
    at: u64,
    window: Window,
) -> Option<(u16, Iuc)>
    requires { IsWindow ch at kept.now window }
    ensures { Counts (map kept_interval kept.now) ch at result }
{
    counted_of(around(kept, ch, at, window), ch, at)
}

fn is_at(interval: &KeptInterval, ch: u8, at: u64, sid: u16, iuc: Iuc) -> bool
    ensures { result ≡ is_at ch at sid iuc (kept_interval interval.now) }
{
    covers(interval, ch, at) && (interval.sid == sid && interval.iuc == iuc)
}

fn has_at(kept: &[KeptInterval], ch: u8, at: u64, sid: Sid, iuc: Iuc) -> bool
    ensures { result ≡ list_any (λ k. is_at ch at sid iuc (kept_interval k)) kept.now }
{
    kept.iter().any(|k| is_at(k, ch, at, sid.get(), iuc))
}

/// Whether a minislot is a request minislot that is open to all.
pub(crate) fn is_open_in(kept: &[KeptInterval], ch: u8, at: u64, window: Window) -> bool
    requires { IsWindow ch at kept.now window }
    ensures { (result ≡ true) ↔ HasAt (map kept_interval kept.now) ch at everybody iucs.request }
{
    has_at(
        around(kept, ch, at, window),
        ch,
        at,
        Sid::EVERYBODY,
        Iuc::REQUEST,
    )
}

fn is_live(interval: KeptInterval, ch: u8, clock: u64) -> bool
    ensures live { result ≡ is_live ch clock interval }
    ensures range { interval.start < 2 ^ 64 }
{
    !(interval.channel == ch) || clock < interval.stop
}

// Up to which place those from one on are of the channel and end at or before the clock.
fn ended(kept: &[KeptInterval], from: usize, ch: u8, clock: u64) -> usize
    requires { from ≤ length kept.now }
    ensures order { from ≤ result }
    ensures bound { result ≤ length kept.now }
    ensures ended { AllWithin (λ k. is_live ch clock k ≡ false) kept.now from result }
    ensures next { (d : KeptInterval) → result < length kept.now
        → (is_live ch clock (get_or kept.now result d) ≡ true) × ((get_or kept.now result d).start < 2 ^ 64) }
{
    for i in from..kept.len() {
        if is_live(kept[i], ch, clock) {
            return i;
        }
    }
    kept.len()
}

// Takes out those from one place up to another: what stands behind them moves down.
fn cut(kept: &mut Vec<KeptInterval>, from: usize, to: usize)
    requires order { from ≤ to }
    requires within { to ≤ vec_len kept.old }
    ensures { kept.new.items ≡ take from kept.old.items ++ drop to kept.old.items }
{
    if from < to {
        let len = kept.len();
        kept.copy_within(to..len, from);
        kept.truncate(len - (to - from));
    }
}

/// Lets go of the channel's intervals that end at or before the clock, up to the first that doesn't.
pub(crate) fn let_go(kept: &mut Vec<KeptInterval>, ch: u8, clock: u64)
    requires { AreKept kept.old.items }
    ensures kept { AreKept kept.new.items }
    ensures held { KeepsFrom (map kept_interval kept.old.items) ch clock (map kept_interval kept.new.items) }
    ensures none_old { (t : ℕ) → t ≤ clock + 1 → old_intervals ch t (map kept_interval kept.new.items) ≡ [] }
{
    let from = count_before(kept.as_slice(), ch, 0);
    let to = ended(kept.as_slice(), from, ch, clock);
    cut(kept, from, to);
}

// Whether a channel's intervals that began more than REACH before the clock, and so have ended, are many: of so
// many channels, one's share of half of what is kept. It costs the logarithm of what is kept, and a list in
// which no channel has many is at most twice what hasn't ended or began since.
fn has_many_old(kept: &[KeptInterval], ch: u8, clock: u64, channels: usize) -> bool
    requires { AreKept kept.now }
    ensures { result ≡ false → FewOld channels ch clock (map kept_interval kept.now) }
{
    let until = count_before(kept, ch, clock.saturating_sub(REACH));
    let old = until.saturating_sub(count_before(kept, ch, 0));
    old > 0 && kept.len() / old / 2 <= channels
}

/// Lets go of the channel's ended intervals where many will be old behind the minislot, so that what it costs over time
/// is constant for each interval and channel. Whether they were many.
pub(crate) fn let_go_of_many(kept: &mut Vec<KeptInterval>, ch: u8, at: u64, channels: usize) -> bool
    requires kept { AreKept kept.old.items }
    requires time { at < 2 ^ 63 }
    ensures kept { AreKept kept.new.items }
    ensures held { KeepsFrom (map kept_interval kept.old.items) ch at (map kept_interval kept.new.items) }
    ensures few { FewOld channels ch (at + 1) (map kept_interval kept.new.items) }
    ensures same { result ≡ false → kept.new.items ≡ kept.old.items }
{
    let is_many = has_many_old(kept.as_slice(), ch, at + 1, channels);
    if is_many {
        let_go(kept, ch, at);
    }
    is_many
}

// A channel's share, of so many, of half of what is kept.
fn few_of(len: usize, channels: usize) -> usize
    ensures share { 2 * (channels + 1) * result ≤ len }
    ensures bound { result ≤ len }
{
    if channels < len {
        len / 2 / (channels + 1)
    } else {
        0
    }
}

// The first minislot behind which an interval is old, if it is of the channel.
fn old_behind(interval: KeptInterval, ch: u8) -> u64
    ensures range { interval.start < 2 ^ 64 }
    ensures channel { interval.channel ≡ ch → result ≤ interval.start + 16383 }
    ensures limit { result < 2 ^ 64 }
{
    if interval.channel == ch {
        interval.start.saturating_add(REACH)
    } else {
        LIMIT
    }
}

/// Up to which minislot few of the channel's intervals are old: that at which one more than a channel's share of half
/// of what is kept is. It costs the logarithm of what is kept.
pub(crate) fn few_until(kept: &[KeptInterval], ch: u8, channels: usize) -> u64
    requires { AreKept kept.now }
    ensures { (m : ℕ) → m < result → FewOld channels ch (m + 1) (map kept_interval kept.now) }
{
    let next = count_before(kept, ch, 0) + few_of(kept.len(), channels);
    if next < kept.len() {
        old_behind(kept[next], ch)
    } else {
        LIMIT
    }
}

fn interval_of(ch: u8, start: u64, interval: Interval) -> KeptInterval
    requires { start < 2 ^ 63 }
    ensures same { result ≡ interval_of ch start interval }
    ensures short { IsShort result }
{
    KeptInterval {
        channel: ch,
        sid: interval.sid.get(),
        iuc: interval.iuc,
        start: start + u64::from(interval.from.get()),
        stop: start + u64::from(interval.to.get()),
    }
}

// How many stand at or before a minislot of a channel: where one is put that begins there. It is mostly the end.
fn place_for(kept: &[KeptInterval], ch: u8, start: u64) -> usize
    requires { AreKept kept.now }
    ensures { AreBefore (place ch start + 1) result kept.now }
{
    let len = kept.len();
    if len > 0 && begins_by(&kept[len - 1], ch, start) {
        return len;
    }
    kept.partition_point(|k| begins_by(k, ch, start))
}

// Adds one at its place, unless it has no minislot or stands there, as where a map is heard again.
fn add(kept: &mut Vec<KeptInterval>, interval: KeptInterval)
    requires kept { AreKept kept.old.items }
    requires short { IsShort interval }
    requires room { vec_len kept.old < vec_capacity kept.old }
    ensures kept { AreKept kept.new.items }
    ensures held { (ch m sid iuc : ℕ)
        → HasAt (map kept_interval kept.new.items) ch m sid iuc
        ↔ (HasAt (map kept_interval kept.old.items) ch m sid iuc ⊎ IsAt (kept_interval interval) ch m sid iuc) }
    ensures more { vec_len kept.new ≤ vec_len kept.old + 1 }
    ensures room { vec_capacity kept.old ≤ vec_capacity kept.new }
{
    if interval.stop <= interval.start {
        return;
    }
    let before = place_for(kept.as_slice(), interval.channel, interval.start);
    if before > 0 && kept[before - 1] == interval {
        return;
    }
    let _added = kept.insert(before, interval);
}

/// Adds intervals, for which there is room.
pub(crate) fn add_all(kept: &mut Vec<KeptInterval>, intervals: &[KeptInterval])
    requires kept { AreKept kept.old.items }
    requires short { All IsShort intervals.now }
    requires room { vec_len kept.old + length intervals.now ≤ vec_capacity kept.old }
    ensures kept { AreKept kept.new.items }
    ensures held { (at_ch m sid iuc : ℕ)
        → HasAt (map kept_interval kept.new.items) at_ch m sid iuc
        ↔ (HasAt (map kept_interval kept.old.items) at_ch m sid iuc ⊎ HasAt (map kept_interval intervals.now) at_ch m sid iuc) }
{
    for interval in intervals {
        add(kept, *interval);
    }
}

fn is_shared(interval: Interval) -> bool
    ensures { result ≡ is_shared interval }
{
    interval.sid == Sid::EVERYBODY && interval.iuc == Iuc::REQUEST
}

/// Of the intervals of a map that starts there those in which every modem may send a request, in 64-bit minislots.
pub(crate) fn shared(
    alloc: Global,
    ch: u8,
    start: u64,
    intervals: &[Interval],
) -> Result<Vec<KeptInterval>, AllocError>
    requires { start < 2 ^ 63 }
    ensures items { IfOk result (λ v. v.items ≡ map (interval_of ch start) (filter is_shared intervals.now)) }
    ensures short { IfOk result (λ v. All IsShort v.items) }
{
    let mut shared = Vec::new(alloc);
    for interval in intervals {
        if is_shared(*interval) {
            shared.push(interval_of(ch, start, *interval))?;
        }
    }
    Ok(shared)
}

// The part of an interval that a lease of its SID covers.
fn piece(lease: &OwnLease, interval: &KeptInterval) -> Option<KeptInterval>
    ensures { result ≡ piece interval.now lease.now }
{
    if !is_of(lease, interval.channel, interval.sid) {
        return None;
    }
    Some(KeptInterval {
        start: interval.start.max(lease.first),
        stop: interval.stop.min(lease.last.saturating_add(1)),
        ..*interval
    })
}

// Adds the part that a lease of its SID covers.
fn add_piece(
    covered: &mut Vec<KeptInterval>,
    interval: &KeptInterval,
    lease: &OwnLease,
) -> Result<(), AllocError>
    ensures { OnOk result (covered.new.items ≡ covered.old.items ++ filter_map (piece interval.now) (lease.now ∷ [])) }
{
    if let Some(piece) = piece(lease, interval) {
        covered.push(piece)?;
    }
    Ok(())
}

// Adds the parts that leases of its SID cover.
fn add_pieces(
    covered: &mut Vec<KeptInterval>,
    interval: &KeptInterval,
    leases: &[OwnLease],
) -> Result<(), AllocError>
    ensures { OnOk result (covered.new.items ≡ covered.old.items ++ filter_map (piece interval.now) leases.now) }
{
    for lease in leases {
        add_piece(covered, interval, lease)?;
    }
    Ok(())
}

/// Of the intervals of a map that starts there the parts that leases of their SIDs cover.
pub(crate) fn own(
    alloc: Global,
    ch: u8,
    start: u64,
    intervals: &[Interval],
    leases: &[OwnLease],
) -> Result<Vec<KeptInterval>, AllocError>
    requires { start < 2 ^ 63 }
    ensures items { IfOk result (λ v. v.items ≡ covered leases.now (map (interval_of ch start) intervals.now)) }
    ensures short { IfOk result (λ v. All IsShort v.items) }
{
    let mut own = Vec::new(alloc);
    for interval in intervals {
        let given = interval_of(ch, start, *interval);
        add_pieces(&mut own, &given, leases)?;
    }
    Ok(own)
}

/// Those of a channel, in the order of their starts.
pub(crate) fn of_channel(kept: &[KeptInterval], ch: u8) -> &[KeptInterval]
    requires { AreKept kept.now }
    ensures { IsOfChannel ch (map kept_interval kept.now) (map kept_interval result.now) }
{
    let from = count_before(kept, ch, 0);
    let to = place_for(kept, ch, u64::MAX);
    &kept[from..to]
}

fn start_in(interval: KeptInterval, ch: u8) -> Option<u64>
    ensures some { IfSome result (λ n. (interval.channel ≡ ch) × (n ≡ interval.start)) }
    ensures range { interval.start < 2 ^ 64 }
    ensures first { (x : ℕ) → IsBefore result x → interval.channel ≡ ch → x < interval.start }
{
    if interval.channel == ch {
        Some(interval.start)
    } else {
        None
    }
}

// The start of the first interval of a channel that begins after a minislot: what stands behind those that begin by
// then.
fn next_start(kept: &[KeptInterval], ch: u8, at: u64, begun: usize) -> Option<u64>
    requires kept { AreKept kept.now }
    requires begun { AreBefore (place ch at + 1) begun kept.now }
    ensures after { IfSome result (λ n. at < n) }
    ensures first { (x : ℕ) → x < 2 ^ 63 → IsBefore result x → All (λ k. k.channel ≡ ch → at < k.start → x < k.start) kept.now }
{
    if begun < kept.len() {
        start_in(kept[begun], ch)
    } else {
        None
    }
}

fn stop_of(interval: KeptInterval, ch: u8, at: u64) -> Option<u64>
    ensures after { IfSome result (λ n. at < n) }
    ensures stop { (x : ℕ) → IsBefore result x → interval.channel ≡ ch → interval.start ≤ at → at < interval.stop → x < interval.stop }
{
    if interval.channel == ch && (interval.start <= at && at < interval.stop) {
        Some(interval.stop)
    } else {
        None
    }
}

// The first minislot after one that a channel's intervals cover at which one of them doesn't.
fn least_stop(kept: &[KeptInterval], ch: u8, at: u64) -> Option<u64>
    ensures after { IfSome result (λ n. at < n) }
    ensures least { (x : ℕ) → IsBefore result x → All (λ k. k.channel ≡ ch → k.start ≤ at → at < k.stop → x < k.stop) kept.now }
{
    let mut least: Option<u64> = None;
    for interval in kept {
        least = sooner(least, stop_of(*interval, ch, at));
    }
    least
}

/// The next minislot of a channel at which one of its intervals begins, or one that covers `at` is over.
pub(crate) fn next_edge_in(kept: &[KeptInterval], ch: u8, at: u64, window: Window) -> Option<u64>
    requires kept { AreKept kept.now }
    requires window { IsWindow ch at kept.now window }
    ensures after { IfSome result (λ n. at < n) }
    ensures same { (x : ℕ) → at ≤ x → x < 2 ^ 63 → IsBefore result x → HasSame (map kept_interval kept.now) ch at x }
{
    sooner(
        next_start(kept, ch, at, window.begun),
        least_stop(around(kept, ch, at, window), ch, at),
    )
}

/// An interval of a SID and IUC that covers a minislot.
pub(crate) fn covering(
    kept: &[KeptInterval],
    ch: u8,
    at: u64,
    window: Window,
    sid: u16,
    iuc: Iuc,
) -> Option<KeptInterval>
    requires { IsWindow ch at kept.now window }
    ensures some { IfSome result (λ k. Contains kept.now k × IsAt (kept_interval k) ch at sid iuc) }
    ensures none { IfNone result (¬ HasAt (map kept_interval kept.now) ch at sid iuc) }
{
    let near = around(kept, ch, at, window);
    for interval in near {
        if is_at(interval, ch, at, sid, iuc) {
            return Some(*interval);
        }
    }
    None
}
