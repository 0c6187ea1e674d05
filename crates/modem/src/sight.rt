//! What a modem found when it looked at a channel. It holds up to the next minislot at which an interval begins, is
//! over or becomes old, so that few ticks have to look.

ghost use Rattle.std.specs.Prelude.{◌≡◌, ℕ, ◌+◌, ◌<◌, ◌≤◌, ◌^◌, ◌==◌, ◌↔◌, if◌then◌else◌, map, List, IfSome, OnOk};
ghost use Rattle.std.specs.Prelude.{OnErr};
ghost use Rattle.modem.specs.declared.kept.KeptInterval.{KeptInterval};
ghost use Rattle.modem.specs.Idle.{IsBefore};
ghost use Rattle.modem.specs.KeptIntervals.{kept_interval, AreKept, ArePast, KeepsFrom};
ghost use Rattle.modem.specs.Sights.{IsFew, AreSeen, IsSeen, Holds, AreSights, has_begun, with_sight, nowhere};
ghost use Rattle.modem.specs.Sights.{forgotten};

use crate::edges::sooner;
use crate::kept::{self, KeptInterval, LIMIT};
use map_body::Iuc;
use std::alloc::AllocError;

/// From the minislot `from` on, and before `until`: the SID and IUC that count on a channel, and whether a minislot is
/// open to all. Behind each minislot before `few_until` few of the channel's intervals are old. So many of the first
/// grants and of the first shared intervals are past at `from`.
#[derive(Clone, Copy)]
pub(crate) struct Sight {
    pub channel: u8,
    pub from: u64,
    pub until: u64,
    pub few_until: u64,
    pub past_grants: usize,
    pub past_open: usize,
    pub counted: Option<(u16, Iuc)>,
    pub is_open: bool,
}

// A sight of a channel that holds nowhere.
fn nowhere(ch: u8) -> Sight
    ensures { result ≡ nowhere ch }
{
    let counted: Option<(u16, Iuc)> = None;
    Sight {
        channel: ch,
        from: 0,
        until: 0,
        few_until: 0,
        past_grants: 0,
        past_open: 0,
        counted,
        is_open: false,
    }
}

/// Adds a sight of a channel, and lets all hold nowhere.
pub(crate) fn add(sights: &mut Vec<Sight>, ch: u8) -> Result<(), AllocError>
    ensures ok { OnOk result ((n : ℕ) (grants opens : List KeptInterval) → AreSights n grants opens sights.new.items) }
    ensures err { OnErr result (sights.new.items ≡ sights.old.items) }
{
    let counted: Option<(u16, Iuc)> = None;
    sights.reserve(1)?;
    sights.push_reserved(Sight {
        counted,
        ..nowhere(ch)
    });
    forget(sights);
    Ok(())
}

fn began(sight: &Sight, ch: u8, at: u64) -> bool
    ensures { result ≡ has_begun ch at sight.now }
{
    sight.channel == ch && sight.from <= at
}

/// The sight of a channel that began by a minislot, or one that holds nowhere.
pub(crate) fn find(sights: &[Sight], ch: u8, at: u64) -> Sight
    ensures channel { result.channel ≡ ch }
    ensures from { result.from ≤ at }
    ensures holds { (n : ℕ) (grants opens : List KeptInterval) → AreSights n grants opens sights.now → Holds n grants opens result }
{
    for sight in sights {
        if began(sight, ch, at) {
            return *sight;
        }
    }
    nowhere(ch)
}

fn chosen(sight: &Sight, row: &Sight) -> Sight
    ensures { result ≡ (if sight.now.channel == row.now.channel then row.now else sight.now) }
{
    if sight.channel == row.channel {
        *row
    } else {
        *sight
    }
}

#[tactic(auto, using(std::proofs::lemmas::List::Edits::map_over_more))]
fn set_in(sights: &mut [Sight], row: &Sight)
    ensures { sights.new ≡ with_sight row.now sights.old }
{
    for sight in sights.iter_mut() {
        *sight = chosen(sight, row);
    }
}

fn set(sights: &mut Vec<Sight>, row: &Sight)
    ensures { sights.new.items ≡ with_sight row.now sights.old.items }
{
    set_in(sights.as_mut_slice(), row);
}

#[tactic(auto, using(std::proofs::lemmas::List::Edits::map_over_more))]
fn forget_in(sights: &mut [Sight])
    ensures { sights.new ≡ map forgotten sights.old }
{
    for sight in sights.iter_mut() {
        *sight = nowhere(sight.channel);
    }
}

fn forget_all(sights: &mut Vec<Sight>)
    ensures { sights.new.items ≡ map forgotten sights.old.items }
{
    forget_in(sights.as_mut_slice());
}

/// Lets sights hold nowhere, where what they saw has changed.
pub(crate) fn forget(sights: &mut Vec<Sight>)
    ensures { (n : ℕ) (grants opens : List KeptInterval) → AreSights n grants opens sights.new.items }
{
    forget_all(sights);
}

/// The first number behind the minislots before a next one.
pub(crate) fn end_before(next: Option<u64>) -> u64
    ensures after { (at : ℕ) → at < 2 ^ 63 → IfSome next (λ n. at < n) → at < result }
    ensures before { (x : ℕ) → x < result → IsBefore next x × (x < 2 ^ 63) }
{
    match next {
        Some(next) => next.min(LIMIT),
        None => LIMIT,
    }
}

// What there is at a minislot, up to where it may differ, found from what the last sight of the channel knew.
fn anew(grants: &[KeptInterval], shared: &[KeptInterval], last: &Sight, at: u64) -> Sight
    requires grants { AreKept grants.now }
    requires opens { AreKept shared.now }
    requires time { at < 2 ^ 63 }
    requires past_grants { ArePast last.now.channel at last.now.past_grants grants.now }
    requires past_open { ArePast last.now.channel at last.now.past_open shared.now }
    ensures channel { result.channel ≡ last.now.channel }
    ensures seen { (n : ℕ) → IsFew n last.now.channel at (map kept_interval grants.now) (map kept_interval shared.now)
        → IsSeen n (map kept_interval grants.now) (map kept_interval shared.now) last.now.channel at result.counted result.is_open }
    ensures holds { (n : ℕ) → ((m : ℕ) → m < last.now.few_until → IsFew n last.now.channel m (map kept_interval grants.now) (map kept_interval shared.now))
        → Holds n grants.now shared.now result }
{
    let ch = last.channel;
    let own = kept::window_at(grants, ch, at, last.past_grants);
    let open = kept::window_at(shared, ch, at, last.past_open);
    let edge = sooner(
        kept::next_edge_in(grants, ch, at, own),
        kept::next_edge_in(shared, ch, at, open),
    );
    Sight {
        channel: ch,
        from: at,
        until: end_before(edge).min(last.few_until),
        few_until: last.few_until,
        past_grants: own.past,
        past_open: open.past,
        counted: kept::counted_in(grants, ch, at, own),
        is_open: kept::is_open_in(shared, ch, at, open),
    }
}

// Lets go of ended intervals where many of the channel are old, before the minislot is looked at.
fn let_go(
    sights: &mut Vec<Sight>,
    grants: &mut Vec<KeptInterval>,
    shared: &mut Vec<KeptInterval>,
    channels: usize,
    ch: u8,
    at: u64,
)
    requires time { at < 2 ^ 63 }
    requires known { AreSeen channels grants.old.items shared.old.items sights.old.items }
    ensures known { AreSeen channels grants.new.items shared.new.items sights.new.items }
    ensures grants_held { KeepsFrom (map kept_interval grants.old.items) ch at (map kept_interval grants.new.items) }
    ensures opens_held { KeepsFrom (map kept_interval shared.old.items) ch at (map kept_interval shared.new.items) }
    ensures few { IsFew channels ch at (map kept_interval grants.new.items) (map kept_interval shared.new.items) }
{
    let had_grants = kept::let_go_of_many(grants, ch, at, channels);
    let had_open = kept::let_go_of_many(shared, ch, at, channels);
    if had_grants || had_open {
        forget(sights);
    }
}

// The last sight, or where many may be old behind the minislot, one that holds nowhere, after they are let go of.
fn renewed(
    sights: &mut Vec<Sight>,
    grants: &mut Vec<KeptInterval>,
    shared: &mut Vec<KeptInterval>,
    channels: usize,
    last: Sight,
    at: u64,
) -> Sight
    requires time { at < 2 ^ 63 }
    requires known { AreSeen channels grants.old.items shared.old.items sights.old.items }
    requires from { last.from ≤ at }
    requires holds { Holds channels grants.old.items shared.old.items last }
    ensures known { AreSeen channels grants.new.items shared.new.items sights.new.items }
    ensures grants_held { KeepsFrom (map kept_interval grants.old.items) last.channel at (map kept_interval grants.new.items) }
    ensures opens_held { KeepsFrom (map kept_interval shared.old.items) last.channel at (map kept_interval shared.new.items) }
    ensures few { IsFew channels last.channel at (map kept_interval grants.new.items) (map kept_interval shared.new.items) }
    ensures channel { result.channel ≡ last.channel }
    ensures from { result.from ≤ at }
    ensures holds { Holds channels grants.new.items shared.new.items result }
{
    if at < last.few_until {
        return last;
    }
    let ch = last.channel;
    let_go(sights, grants, shared, channels, ch, at);
    let own = kept::few_until(grants.as_slice(), ch, channels);
    let open = kept::few_until(shared.as_slice(), ch, channels);
    Sight {
        few_until: own.min(open),
        ..nowhere(ch)
    }
}

/// What counts at a minislot of a channel, and whether it is open to all. Where the channel's sight holds there it
/// costs only the channels, else also what became past since the last look; and what a first look at the intervals
/// costs where no sight holds, or many intervals are old.
pub(crate) fn look(
    sights: &mut Vec<Sight>,
    grants: &mut Vec<KeptInterval>,
    shared: &mut Vec<KeptInterval>,
    channels: usize,
    ch: u8,
    at: u64,
) -> Sight
    requires time { at < 2 ^ 63 }
    requires known { AreSeen channels grants.old.items shared.old.items sights.old.items }
    ensures known { AreSeen channels grants.new.items shared.new.items sights.new.items }
    ensures grants_held { KeepsFrom (map kept_interval grants.old.items) ch at (map kept_interval grants.new.items) }
    ensures opens_held { KeepsFrom (map kept_interval shared.old.items) ch at (map kept_interval shared.new.items) }
    ensures seen { IsSeen channels (map kept_interval grants.new.items) (map kept_interval shared.new.items) ch at result.counted result.is_open }
{
    let last = find(sights.as_slice(), ch, at);
    if at < last.until {
        return last;
    }
    let known = renewed(sights, grants, shared, channels, last, at);
    let sight = anew(grants.as_slice(), shared.as_slice(), &known, at);
    set(sights, &sight);
    sight
}
