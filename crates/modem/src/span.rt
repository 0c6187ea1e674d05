//! Up to which minislot no want of a channel loses its last lease, so that few ticks look at the leases of all wants.

ghost use Rattle.std.specs.Prelude.{◌≡◌, ℕ, ◌+◌, ◌<◌, ◌^◌, map, true, false, List, if◌then◌else◌, ◌==◌, OnOk, OnErr};
ghost use Rattle.std.specs.List.{All};
ghost use Rattle.modem.specs.declared.known.OwnLease.{OwnLease};
ghost use Rattle.modem.specs.declared.known.Want.{Want};
ghost use Rattle.modem.specs.Wants.{is_lasting, lasting};
ghost use Rattle.modem.specs.Spans.{Stay, AreSpans, is_within, with_span, forgotten};

use crate::known::{OwnLease, Want};
use crate::sight::end_before;
use crate::{leases, wants};
use std::alloc::AllocError;

/// After a minislot from `from` on, and before `until`, all wants of the channel stay.
#[derive(Clone, Copy)]
pub(crate) struct Span {
    pub channel: u8,
    pub from: u64,
    pub until: u64,
}

fn is_at(span: &Span, ch: u8, at: u64) -> bool
    ensures { result ≡ is_within ch at span.now }
{
    span.channel == ch && (span.from <= at && at < span.until)
}

/// Adds a span of a channel, and leaves all without minislots.
pub(crate) fn add(spans: &mut Vec<Span>, ch: u8) -> Result<(), AllocError>
    ensures ok { OnOk result ((leases : List OwnLease) (wants : List Want) → AreSpans leases wants spans.new.items) }
    ensures err { OnErr result (spans.new.items ≡ spans.old.items) }
{
    spans.reserve(1)?;
    spans.push_reserved(Span {
        channel: ch,
        from: 0,
        until: 0,
    });
    forget(spans);
    Ok(())
}

// Whether all wants of the channel stay after a minislot.
fn all_stay(spans: &[Span], ch: u8, at: u64) -> bool
    ensures { result ≡ true → (leases : List OwnLease) (wants : List Want) → AreSpans leases wants spans.now
        → All (λ w. is_lasting leases ch (at + 1) w ≡ true) wants }
{
    for span in spans {
        if is_at(span, ch, at) {
            return true;
        }
    }
    false
}

fn chosen(span: Span, row: Span) -> Span
    ensures { result ≡ (if span.channel == row.channel then row else span) }
{
    if span.channel == row.channel {
        row
    } else {
        span
    }
}

#[tactic(auto, using(std::proofs::lemmas::List::Edits::map_over_more))]
fn set_in(spans: &mut [Span], row: Span)
    ensures { spans.new ≡ with_span row spans.old }
{
    for span in spans.iter_mut() {
        *span = chosen(*span, row);
    }
}

fn set(spans: &mut Vec<Span>, row: Span)
    ensures { spans.new.items ≡ with_span row spans.old.items }
{
    set_in(spans.as_mut_slice(), row);
}

#[tactic(auto, using(std::proofs::lemmas::List::Edits::map_over_more))]
fn forget_in(spans: &mut [Span])
    ensures { spans.new ≡ map forgotten spans.old }
{
    for span in spans.iter_mut() {
        span.until = 0;
    }
}

fn forget_all(spans: &mut Vec<Span>)
    ensures { spans.new.items ≡ map forgotten spans.old.items }
{
    forget_in(spans.as_mut_slice());
}

/// Leaves spans without minislots, where leases or wants have changed.
pub(crate) fn forget(spans: &mut Vec<Span>)
    ensures { (leases : List OwnLease) (wants : List Want) → AreSpans leases wants spans.new.items }
{
    forget_all(spans);
}

fn from_minislot(leases: &[OwnLease], ch: u8, at: u64) -> Span
    requires { at < 2 ^ 63 }
    ensures { (wants : List Want) → All (λ w. is_lasting leases.now ch (at + 1) w ≡ true) wants → Stay leases.now wants result }
{
    Span {
        channel: ch,
        from: at,
        until: end_before(leases::next_edge(leases, ch, at)),
    }
}

/// Lets go of the channel's wants whose leases have all ended by the end of a minislot. In a span it costs only the
/// channels.
pub(crate) fn keep_lasting(
    spans: &mut Vec<Span>,
    wants: &mut Vec<Want>,
    leases: &[OwnLease],
    ch: u8,
    at: u64,
)
    requires time { at < 2 ^ 63 }
    requires spans { AreSpans leases.now wants.old.items spans.old.items }
    ensures wants { wants.new.items ≡ lasting leases.now ch (at + 1) wants.old.items }
    ensures spans { AreSpans leases.now wants.new.items spans.new.items }
{
    if all_stay(spans.as_slice(), ch, at) {
        return;
    }
    wants::keep_lasting(wants, leases, ch, at + 1);
    set(spans, from_minislot(leases, ch, at));
}
