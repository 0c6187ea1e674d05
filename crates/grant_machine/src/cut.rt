//! A cut: a channel's next MAP.

ghost use Rattle.std.specs.Prelude.{◌≡◌, ℕ, ◌+◌, ◌≤◌, [], None, length, map, max, is_none, IsOk, IsSome, IfOk, OnOk};
ghost use Rattle.std.specs.Prelude.{OnErr};
ghost use Rattle.std.specs.List.{AllByRecursion};
ghost use Rattle.map_body.specs.Layout.{layout};
ghost use Rattle.flow_state.specs.Limits.{last_time, most_minislots};
ghost use Rattle.flow_state.specs.Rows.{Table};
ghost use Rattle.flow_state.specs.View.{flow_view};
ghost use Rattle.grant_machine.specs.declared.output.Output.TheVariants as outputs;
ghost use Rattle.grant_machine_parts.specs.Cutting.{fill_span, fill_refusal, told_channel, end_of, ack_of};
ghost use Rattle.grant_machine_parts.specs.Cutting.{flows_served};
ghost use Rattle.grant_machine_parts.specs.Drawing.{head_of};
ghost use Rattle.grant_machine.specs.Steps.{cut_command, step, refusal_of};
ghost use Rattle.grant_machine.specs.Fits.{FitsCommand};
ghost use Rattle.grant_machine.specs.Runs.{IsReached};
ghost use Rattle.grant_machine_parts.specs.Lent.{IsLent, IsUnicast};
ghost use Rattle.grant_machine.specs.CutRows.{IsOfTable, IsReachedTable, due_ones};
ghost use Rattle.grant_machine.specs.Plans.{IsFilledBy, elements_in};

use crate::output::{MapBytes, Output};
use crate::rows::{close, rank_requests};
use flow_state::{
    Channel, ChannelRow, ChannelTable, Flow, Flows, LAST_TIME, MOST_MINISLOTS, Refusal,
};
use grant_machine_parts::{
    CutSettings, Filling, Ranked, Service, by_priority, drawing, place_requests, serve,
};
use map_body::{Element, lay_out};
use minislot_time::Slot;
use std::alloc::{AllocError, Global};

/// A channel's next MAP, filled; its flows that were due before its end, with their next due times; its requests by
/// priority.
#[derive(Drop)]
pub struct Draft {
    filling: Filling,
    flows: Vec<Flow>,
    ranked: Vec<Ranked>,
}

/// What cuts fill. Its room stays between them, so that a cut takes memory only for its MAP, and where more is
/// due or waits than before.
#[derive(Drop)]
pub struct Desk {
    filled: Draft,
    by_arrival: Vec<Ranked>,
    elements: Vec<Element>,
}

impl Desk {
    /// Nothing was cut. It takes no memory.
    pub fn new(alloc: Global) -> Desk {
        Desk {
            filled: Draft {
                filling: Filling::new(alloc),
                flows: Vec::new(alloc),
                ranked: Vec::new(alloc),
            },
            by_arrival: Vec::new(alloc),
            elements: Vec::new(alloc),
        }
    }
}

/// Where a channel's next MAP begins.
fn start_of(row: &ChannelRow, not_before: u64) -> u64
    ensures { result ≡ max row.now.next_start not_before }
{
    row.next_start.max(not_before)
}

/// May a channel's next MAP be as a cut asks?
fn is_within_limits(row: &ChannelRow, settings: &CutSettings) -> bool
    requires { row.now.next_start ≤ last_time }
    ensures { result ≡ is_none (fill_refusal row.now settings.now) }
{
    let start = start_of(row, settings.not_before);
    1 <= settings.len
        && settings.len <= MOST_MINISLOTS
        && settings.not_before <= LAST_TIME
        && settings.ack <= LAST_TIME
        && start + u64::from(settings.len) <= LAST_TIME
        && settings.are_within_limits()
}

/// Places unsolicited grants, then polls, then intervals of station and initial maintenance, then requests in their
/// order, each within its flow's lease.
fn place_all(
    channel: &Channel,
    settings: &CutSettings,
    filling: &mut Filling,
    flows: &mut [Flow],
    ranked: &[Ranked],
) -> Result<(), AllocError>
    requires empty { filling.old.placements ≡ [] }
    requires lent { AllByRecursion IsLent flows.old }
    requires unicast { AllByRecursion IsUnicast ranked.now }
    ensures span { filling.new.span ≡ filling.old.span }
    ensures placed { OnOk result ((t : Table) → IsOfTable t (end_of filling.old.span) channel.now flows.old ranked.now
        → filling.new.placements ≡ (fill_span t filling.old.span settings.now).placements) }
    ensures flows { OnOk result ((t : Table) → IsOfTable t (end_of filling.old.span) channel.now flows.old ranked.now
        → map flow_view flows.new ≡ due_ones t (end_of filling.old.span) (flows_served t filling.old.span)) }
    ensures lent { OnOk result (AllByRecursion IsLent flows.new) }
{
    serve(Service::Grants, channel, filling, flows)?;
    serve(Service::Polls, channel, filling, flows)?;
    serve(Service::Maintenance, channel, filling, flows)?;
    place_requests(filling, channel, settings.keep, ranked)?;
    Ok(())
}

/// Fills a channel's next MAP, which begins where the settings say.
fn fill(
    table: &ChannelTable,
    filled: &mut Draft,
    by_arrival: &mut Vec<Ranked>,
    settings: &CutSettings,
) -> Result<(), AllocError>
    requires reached { IsReachedTable table.now }
    requires short { settings.now.len ≤ most_minislots }
    requires early { settings.now.not_before + settings.now.len ≤ last_time }
    ensures { OnOk result (IsFilledBy table.now (record { start = settings.now.not_before; len = settings.now.len }) settings.now filled.new) }
{
    let start = settings.not_before;
    filled.filling.open(start, settings.len)?;
    table.copy_due(start + u64::from(settings.len), &mut filled.flows)?;
    rank_requests(table, by_arrival)?;
    by_priority(&mut filled.ranked, by_arrival)?;
    let channel = &table.row().channel;
    place_all(
        channel,
        settings,
        &mut filled.filling,
        &mut filled.flows,
        &filled.ranked,
    )?;
    Ok(())
}

/// The bytes of a filled MAP's body.
fn draw(
    alloc: Global,
    channel: &Channel,
    filled: &Draft,
    elements: &mut Vec<Element>,
    start: Slot,
    ack: Slot,
) -> Result<Vec<u8>, AllocError>
    requires unicast { AllByRecursion IsUnicast filled.now.ranked.items }
    requires few { length (elements_in channel.now filled.now) ≤ 255 }
    ensures { IfOk result (λ bytes. bytes.items ≡ layout (head_of channel.now start ack) (elements_in channel.now filled.now) 0) }
{
    drawing::draw(elements, channel, &filled.filling, &filled.ranked)?;
    let head = drawing::head_of(channel, start, ack);
    lay_out(alloc, &head, elements)
}

/// The Ack Time of a channel's next MAP, by where it begins.
fn ack_of(row: &ChannelRow, ack: u64, start: u64) -> u64
    ensures { result ≡ ack_of row.now ack start }
{
    row.ack.max(ack.min(start))
}

/// Makes a channel's next MAP, which begins where the settings say, no earlier than the last one ends, with their Ack
/// Time, and is within the limits.
fn make_map(
    table: &ChannelTable,
    desk: &mut Desk,
    alloc: Global,
    ch: u8,
    settings: &CutSettings,
) -> Result<Output, AllocError>
    requires reached { IsReachedTable table.now }
    requires begun { table.now.row.next_start ≤ settings.now.not_before }
    requires good { fill_refusal table.now.row settings.now ≡ None }
    ensures filled { OnOk result (IsFilledBy table.now (record { start = settings.now.not_before; len = settings.now.len }) settings.now desk.new.filled) }
    ensures output { IfOk result (λ output. output
        ≡ outputs.Map ch settings.now.not_before settings.now.len (layout
        (head_of (told_channel table.now.row.channel settings.now) settings.now.not_before settings.now.ack)
        (elements_in table.now.row.channel desk.new.filled) 0)) }
{
    fill(table, &mut desk.filled, &mut desk.by_arrival, settings)?;
    let start = Slot::new(settings.not_before).unwrap();
    let told = settings.told(&table.row().channel);
    let bytes = draw(
        alloc,
        &told,
        &desk.filled,
        &mut desk.elements,
        start,
        Slot::new(settings.ack).unwrap(),
    )?;
    Ok(Output::Map {
        ch,
        start,
        len: settings.len,
        bytes: MapBytes::new(bytes),
    })
}

/// Makes a channel's next MAP.
pub fn cut(
    flows: &mut Flows,
    desk: &mut Desk,
    alloc: Global,
    ch: u8,
    settings: CutSettings,
) -> Result<Output, AllocError>
    requires { IsReached flows.old }
    ensures output { IfOk result (λ output. output ≡ (step flows.old (cut_command ch settings)).output) }
    ensures declined { IsSome (refusal_of flows.old (cut_command ch settings)) → IsOk result }
    ensures fits { FitsCommand (cut_command ch settings) }
    ensures rows { OnOk result (flows.new ≡ (step flows.old (cut_command ch settings)).rows) }
    ensures err { OnErr result (flows.new ≡ flows.old) }
{
    let Some(table) = flows.table(ch) else {
        return Ok(Output::Refused(Refusal::NoChannel.number()));
    };
    let row = table.row();
    if !is_within_limits(row, &settings) {
        return Ok(Output::Refused(Refusal::BadValue.number()));
    }
    let not_before = start_of(row, settings.not_before);
    let ack = ack_of(row, settings.ack, not_before);
    let settled = CutSettings {
        not_before,
        ack,
        ..settings
    };
    let output = make_map(table, desk, alloc, ch, &settled)?;
    let filling = &desk.filled.filling;
    close(
        flows,
        ch,
        &desk.filled.flows,
        filling.placements(),
        filling.end(),
        ack,
    );
    Ok(output)
}
