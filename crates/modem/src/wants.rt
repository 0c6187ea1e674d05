//! A modem's wants, over slices.

ghost use Rattle.std.specs.Prelude.{◌≡◌, ◌+◌, ◌-◌, ◌<◌, ◌==◌, ◌&&◌, if◌then◌else◌, List, [], ◌∷◌, ◌++◌, true, false};
ghost use Rattle.std.specs.Prelude.{IfOk, IfSome, IfNone, Option, Some, None};
ghost use Rattle.std.specs.List.{filter_map, list_any};
ghost use Rattle.modem.specs.declared.known.Want.{Want};
ghost use Rattle.modem.specs.State.{is_own_at, is_own_from};
ghost use Rattle.modem.specs.Wants.{is_want, is_unsent, is_unsent_on, unsent_of, with_want, leads, IsLeastUnsent};
ghost use Rattle.modem.specs.Wants.{own_wants, is_lasting, lasting};
ghost use Rattle.map_body.specs.Intervals.{intervals};
ghost use Rattle.modem.specs.Intervals.{is_granted, is_pending, is_acknowledged, lost, decided};
ghost use Rattle.modem.specs.Ticks.{backoff_number, Polls, Contends, SendsBy, Shares};

use crate::known::{Channel, OwnLease, Progress, Want};
use crate::leases::{is_own_at, is_own_from};
use crate::types::Sending;
use map_body::{Interval, Iuc, MapBody};
use std::alloc::{AllocError, Global};

fn is_of(want: &Want, ch: u8, sid: u16) -> bool
    ensures { result ≡ is_want ch sid want.now }
{
    want.channel == ch && want.sid == sid
}

fn is_unsent(progress: Progress) -> bool
    ensures { result ≡ is_unsent progress }
{
    match progress {
        Progress::Unsent(_) => true,
        Progress::Sent(_) => false,
    }
}

pub(crate) fn has_want(wants: &[Want], ch: u8, sid: u16) -> bool
    ensures { result ≡ list_any (is_want ch sid) wants.now }
{
    wants.iter().any(|w| is_of(w, ch, sid))
}

pub(crate) fn unsent(wants: &[Want], ch: u8, sid: u16) -> Option<Want>
    ensures { result ≡ unsent_of wants.now ch sid }
{
    for want in wants {
        if is_of(want, ch, sid) && is_unsent(want.progress) {
            return Some(*want);
        }
    }
    None
}

/// Whether a want of the channel isn't sent yet.
pub(crate) fn has_unsent(wants: &[Want], ch: u8) -> bool
    ensures { result ≡ list_any (is_unsent_on ch) wants.now }
{
    wants
        .iter()
        .any(|w| w.channel == ch && is_unsent(w.progress))
}

fn leads(ch: u8, least: &Option<Want>, want: &Want) -> bool
    ensures { result ≡ leads ch least.now want.now }
{
    if want.channel != ch || !is_unsent(want.progress) {
        return false;
    }
    match least {
        Some(best) if best.sid <= want.sid => false,
        _ => true,
    }
}

// The least of wants and one more, of those whose SIDs are the modem's.
fn lesser_own(leases: &[OwnLease], ch: u8, at: u64, least: Option<Want>, want: Want) -> Option<Want>
    ensures { (wants : List Want) → IsLeastUnsent (own_wants leases.now ch at wants) ch least
        → IsLeastUnsent (own_wants leases.now ch at (wants ++ want ∷ [])) ch result }
{
    if !leads(ch, &least, &want) {
        return least;
    }
    if is_own_at(leases, ch, want.sid, at) {
        Some(want)
    } else {
        least
    }
}

pub(crate) fn least_unsent(wants: &[Want], leases: &[OwnLease], ch: u8, at: u64) -> Option<Want>
    ensures { IsLeastUnsent (own_wants leases.now ch at wants.now) ch result }
{
    let mut least: Option<Want> = None;
    for want in wants {
        least = lesser_own(leases, ch, at, least, *want);
    }
    least
}

fn chosen(want: Want, row: Want) -> Want
    ensures { result ≡ (if is_want row.channel row.sid want then row else want) }
{
    if is_of(&want, row.channel, row.sid) {
        row
    } else {
        want
    }
}

#[tactic(auto, using(std::proofs::lemmas::List::Edits::map_over_more))]
fn set(wants: &mut [Want], row: Want)
    ensures { wants.new ≡ with_want row wants.old }
{
    for want in wants.iter_mut() {
        *want = chosen(*want, row);
    }
}

// The number of request minislots that an unsent want lets pass.
fn backoff_number(channel: Channel, want: Want, random: u64) -> u16
    ensures { result ≡ backoff_number channel want random want.progress }
{
    match want.progress {
        Progress::Unsent(Some(number)) => number,
        Progress::Unsent(None) => {
            let exponent = (u16::from(channel.backoff.0) + u16::from(want.tries))
                .min(u16::from(channel.backoff.1))
                .min(15);
            (random % (1u64 << exponent)) as u16
        }
        Progress::Sent(_) => 0,
    }
}

fn put(wants: &mut [Want], want: Want, progress: Progress)
    ensures { wants.new ≡ with_want (record want { progress = progress }) wants.old }
{
    set(wants, Want { progress, ..want });
}

/// A minislot of a channel at which a modem is asked: the number that is drawn there, and whether all may request in
/// it.
#[derive(Clone, Copy)]
pub(crate) struct Turn {
    pub channel: Channel,
    pub at: u64,
    pub random: u64,
    pub is_open: bool,
}

// The unsent want of the least SID that is the modem's there takes part in a request minislot.
fn share(wants: &mut [Want], leases: &[OwnLease], turn: Turn) -> Option<Sending>
    ensures { (least : Option Want) × IsLeastUnsent (own_wants leases.now turn.channel.id turn.«at» wants.old) turn.channel.id least
        × Contends wants.old turn.channel turn.«at» turn.random result wants.new least }
{
    let want = least_unsent(wants, leases, turn.channel.id, turn.at)?;
    let number = backoff_number(turn.channel, want, turn.random);
    if number == 0 {
        put(wants, want, Progress::Sent(turn.at));
        Some(Sending::Request(want.sid, want.n))
    } else {
        put(wants, want, Progress::Unsent(Some(number - 1)));
        None
    }
}

fn poll(wants: &mut [Want], channel: Channel, sid: u16, at: u64) -> Option<Sending>
    ensures { Polls wants.old sid at result wants.new (unsent_of wants.old channel.id sid) }
{
    let want = unsent(wants, channel.id, sid)?;
    put(wants, want, Progress::Sent(at));
    Some(Sending::Polled(sid, want.n))
}

/// What is sent at a minislot by the SID and IUC that count there, or in a request minislot.
pub(crate) fn send(
    wants: &mut Vec<Want>,
    leases: &[OwnLease],
    turn: Turn,
    counted: Option<(u16, Iuc)>,
) -> Option<Sending>
    ensures { SendsBy leases.now wants.old.items turn.channel turn.«at» turn.random turn.is_open result wants.new.items counted }
{
    let wants = wants.as_mut_slice();
    match counted {
        Some(interval) => send_by(wants, leases, turn, interval),
        None => send_shared(wants, leases, turn),
    }
}

// By an interval of the modem's: its SID and IUC.
fn send_by(wants: &mut [Want], leases: &[OwnLease], turn: Turn, by: (u16, Iuc)) -> Option<Sending>
    ensures { SendsBy leases.now wants.old turn.channel turn.«at» turn.random turn.is_open result wants.new (Some by) }
{
    let (sid, iuc) = by;
    if iuc.lets_transmit() {
        Some(Sending::Unicast(sid))
    } else if iuc.lets_range() {
        Some(Sending::Ranging(sid))
    } else if iuc.lets_request() {
        poll(wants, turn.channel, sid, turn.at)
    } else {
        send_shared(wants, leases, turn)
    }
}

fn send_shared(wants: &mut [Want], leases: &[OwnLease], turn: Turn) -> Option<Sending>
    ensures { Shares leases.now wants.old turn.channel turn.«at» turn.random turn.is_open result wants.new }
{
    if turn.is_open {
        share(wants, leases, turn)
    } else {
        None
    }
}

fn is_granted(map: &MapBody, heard: &[Interval], sid: u16) -> bool
    requires { heard.now ≡ intervals map.now.elements }
    ensures { result ≡ is_granted map.now.elements sid }
{
    heard.iter().any(|i| i.sid.get() == sid
        && (i.iuc.answers_request() && i.from.get() < i.to.get()))
}

fn is_pending(map: &MapBody, sid: u16) -> bool
    ensures { result ≡ is_pending map.now.elements sid }
{
    map.after_null()
        .iter()
        .any(|e| e.sid.get() == sid && e.iuc.answers_request())
}

fn is_acknowledged(want: &Want, ch: u8, ack: Option<u64>) -> bool
    ensures { result ≡ is_acknowledged ch ack want.now want.now.progress }
{
    let Some(ack) = ack else {
        return false;
    };
    match want.progress {
        Progress::Sent(at) => want.channel == ch && at < ack,
        Progress::Unsent(_) => false,
    }
}

fn lost(want: Want) -> Option<Want>
    ensures { result ≡ lost want }
{
    if want.tries >= 15 {
        return None;
    }
    let progress = Progress::Unsent(None);
    let tries = want.tries + 1;
    Some(Want {
        tries,
        progress,
        ..want
    })
}

fn decide(
    want: Want,
    map: &MapBody,
    start: u64,
    heard: &[Interval],
    ack: Option<u64>,
    leases: &[OwnLease],
) -> Option<Want>
    requires { heard.now ≡ intervals map.now.elements }
    ensures { result ≡ decided leases.now map.now start ack want }
{
    let ch = map.head().channel;
    if !is_acknowledged(&want, ch, ack) || !is_own_at(leases, ch, want.sid, start) {
        Some(want)
    } else if is_granted(map, heard, want.sid) {
        None
    } else if is_pending(map, want.sid) {
        Some(want)
    } else {
        lost(want)
    }
}

/// The wants after a map that starts there has decided them.
pub(crate) fn decided(
    alloc: Global,
    wants: &[Want],
    map: &MapBody,
    start: u64,
    heard: &[Interval],
    ack: Option<u64>,
    leases: &[OwnLease],
) -> Result<Vec<Want>, AllocError>
    requires { heard.now ≡ intervals map.now.elements }
    ensures { IfOk result (λ v. v.items ≡ filter_map (decided leases.now map.now start ack) wants.now) }
{
    let left = wants
        .iter()
        .filter_map(|w| decide(*w, map, start, heard, ack, leases))
        .collect(alloc)?;
    Ok(left)
}

fn is_lasting(want: &Want, leases: &[OwnLease], ch: u8, clock: u64) -> bool
    ensures { result ≡ is_lasting leases.now ch clock want.now }
{
    !(want.channel == ch) || is_own_from(leases, ch, want.sid, clock)
}

/// Lets go of the channel's wants whose leases have all ended before the clock.
pub(crate) fn keep_lasting(wants: &mut Vec<Want>, leases: &[OwnLease], ch: u8, clock: u64)
    ensures { wants.new.items ≡ lasting leases.now ch clock wants.old.items }
{
    wants.retain(|w| is_lasting(w, leases, ch, clock));
}

/// The SID of the first of the channel's wants whose leases have all ended before the clock.
pub(crate) fn first_over(wants: &[Want], leases: &[OwnLease], ch: u8, clock: u64) -> Option<u16>
    ensures some { IfSome result (λ sid. (list_any (is_want ch sid) wants.now ≡ true) × (is_own_from leases.now ch sid clock ≡ false)) }
    ensures none { IfNone result (lasting leases.now ch clock wants.now ≡ wants.now) }
{
    for want in wants {
        if !is_lasting(want, leases, ch, clock) {
            return Some(want.sid);
        }
    }
    None
}
