//! Why a cut is refused: the first of its limits that refuses.

ghost use Rattle.std.specs.Prelude.{◌≡◌, ◌≤◌};
ghost use Rattle.std.specs.Option.{option_map};
ghost use Rattle.flow_state.specs.Limits.{last_time};
ghost use Rattle.flow_state.specs.Reasons.{reason_refusal, why_on};
ghost use Rattle.flow_state.specs.Refusals.{on_table};
ghost use Rattle.grant_machine_parts.specs.Cutting.{fill_refusal};
ghost use Rattle.grant_machine.specs.Runs.{IsReached};
ghost use Rattle.grant_machine.specs.Why.{why_cut_backoff, why_times, why_kept, why_cut};

use flow_state::{ChannelRow, Field, Flows, LAST_TIME, MOST_MINISLOTS, Reason};
use grant_machine_parts::CutSettings;

/// Why a cut may not tell a back-off. (255, 255) stands for the channel's own.
fn why_cut_backoff(field: Field, pair: (u8, u8)) -> Option<Reason>
    ensures { result ≡ why_cut_backoff field pair }
{
    if pair.0 == 255 && pair.1 == 255 {
        None
    } else {
        Reason::backoff(field, pair.0, pair.1)
    }
}

/// Why a MAP may not be so long, or have such times.
fn why_times(settings: &CutSettings) -> Option<Reason>
    ensures { result ≡ why_times settings.now }
{
    let most = u64::from(MOST_MINISLOTS);
    Reason::outside(Field::Len, u64::from(settings.len), 1, most)
        .or(Reason::outside(Field::NotBefore, settings.not_before, 0, LAST_TIME))
        .or(Reason::outside(Field::Ack, settings.ack, 0, LAST_TIME))
}

/// Why a cut may not keep so many minislots, or tell such back-offs.
fn why_kept(settings: &CutSettings) -> Option<Reason>
    ensures { result ≡ why_kept settings.now }
{
    let most = u64::from(MOST_MINISLOTS);
    Reason::outside(Field::Keep, u64::from(settings.keep), 0, most)
        .or(why_cut_backoff(Field::Ranging, settings.ranging_backoff))
        .or(why_cut_backoff(Field::Data, settings.data_backoff))
}

/// Why a channel's next MAP may not be as a cut asks.
fn why_cut(row: &ChannelRow, settings: &CutSettings) -> Option<Reason>
    requires { row.now.next_start ≤ last_time }
    ensures { result ≡ why_cut row.now settings.now }
{
    if let Some(reason) = why_times(settings) {
        return Some(reason);
    }
    let end = row.next_start.max(settings.not_before) + u64::from(settings.len);
    Reason::outside(Field::End, end, 0, LAST_TIME).or(why_kept(settings))
}

/// Why a cut is refused.
pub fn why_cut_on(flows: &Flows, ch: u8, settings: &CutSettings) -> Option<Reason>
    requires { IsReached flows.now }
    ensures why { result ≡ why_on flows.now ch (λ t. why_cut t.row settings.now) }
    ensures refusal { option_map reason_refusal result ≡ on_table flows.now ch (λ t. fill_refusal t.row settings.now) }
{
    match flows.table(ch) {
        Some(table) => why_cut(table.row(), settings),
        None => Some(Reason::NoChannel { ch }),
    }
}
