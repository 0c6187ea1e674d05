//! The axis of time of a channel.

ghost use Rattle.std.specs.Prelude.{◌≡◌, ◌<◌, ◌≤◌, ◌^◌};
ghost use Rattle.map_picture.specs.Axis.{at, coarse, is_bare, is_before, right, span_of, wide, with_map};

use plan_account::Deed;

/// A span of time: from its first minislot up to where it ends.
#[derive(Clone, Copy)]
pub(crate) struct Span {
    pub from: u64,
    pub to: u64,
}

/// Where the columns of a channel are: the right end of names, and the left end of its axis.
#[derive(Clone, Copy)]
pub(crate) struct Columns {
    pub names: u32,
    pub left: u32,
}

/// A span of time, and where it is drawn.
#[derive(Clone, Copy)]
pub(crate) struct Axis {
    pub columns: Columns,
    pub span: Span,
}

/// A channel, and the axis of its times.
#[derive(Clone, Copy)]
pub(crate) struct Page {
    pub ch: u8,
    pub axis: Axis,
}

/// Whether a span is that of a channel without a MAP.
pub(crate) fn is_bare(span: Span) -> bool
    ensures { result ≡ is_bare span }
{
    span.to < span.from
}

/// Whether a time is before the first MAP begins.
pub(crate) fn is_before(span: Span, t: u64) -> bool
    ensures { result ≡ is_before span t }
{
    !is_bare(span) && t < span.from
}

/// A part of a span: where the span is long, in units of 2^20 minislots.
fn coarse(span: u64, part: u64) -> u64
    requires { part ≤ span }
    ensures value { result ≡ coarse span part }
    ensures small { result < 2 ^ 50 }
{
    if span < 1 << 50 {
        part
    } else {
        part / (1 << 20)
    }
}

/// Where a time is.
#[tactic(auto, using(crate::proofs::Sizes::div_fits))]
pub(crate) fn at(axis: Axis, t: u64) -> u64
    ensures value { result ≡ at axis t }
    ensures small { result < 2 ^ 61 }
{
    let Span { from, to } = axis.span;
    let span = to.saturating_sub(from);
    let part = t.min(to).saturating_sub(from);
    u64::from(axis.columns.left) + coarse(span, part) * 768 / coarse(span, span).max(1)
}

/// How wide a stretch of time is.
pub(crate) fn wide(axis: Axis, from: u64, to: u64) -> u64
    ensures { result ≡ wide axis from to }
{
    at(axis, to).saturating_sub(at(axis, from)).max(2)
}

/// Where words begin, right of the axis.
pub(crate) fn right(columns: Columns) -> u64
    ensures value { result ≡ right columns }
    ensures small { result < 2 ^ 33 }
{
    u64::from(columns.left) + 776
}

/// A span with a MAP of the channel more.
fn with_map(ch: u8, span: Span, deed: &Deed) -> Span
    ensures { result ≡ with_map ch span deed.now }
{
    match deed {
        Deed::Map {
            ch: c,
            start,
            len,
            ..
        } => {
            if *c == ch {
                let (from, end) = (start.get(), start.get() + u64::from(*len));
                Span {
                    from: span.from.min(from),
                    to: span.to.max(end),
                }
            } else {
                span
            }
        }
        Deed::Channel(_) => span,
        Deed::Flow { .. } => span,
        Deed::Drop { .. } => span,
        Deed::Request { .. } => span,
        Deed::Other => span,
    }
}

/// The span of all MAPs of a channel.
pub(crate) fn span_of(deeds: &[Deed], ch: u8) -> Span
    ensures { result ≡ span_of deeds.now ch }
{
    let mut span = Span {
        from: 1 << 63,
        to: 0,
    };
    for deed in deeds {
        span = with_map(ch, span, deed);
    }
    span
}
