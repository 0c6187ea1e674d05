//! Events and scripts as text.

ghost use Rattle.std.specs.Prelude.{◌≡◌, ◌++◌, IfOk, OnOk, string_bytes, flat_map};
ghost use Rattle.printed_scripts.specs.Texts.{comment, event_text, event_line, next_id, ids_text, head_text};
ghost use Rattle.printed_scripts.specs.Texts.{script_text};

use ballots::Members;
use command_words::value_text;
use script_text::Script;
use std::alloc::{AllocError, Global};
use world_events::Event;

/// The table of an event.
fn event_text(alloc: Global, event: &Event) -> Result<String, AllocError>
    ensures { IfOk result (λ text. string_bytes text ≡ event_text event.now) }
{
    match event {
        Event::Lead(k) => format!(in alloc; "{{ kind = \"lead\", node = {k} }}"),
        Event::Offer(k, value) => {
            let digits = hex::encode(alloc, value.as_slice())?;
            format!(in alloc; "{{ kind = \"offer\", node = {k}, value = \"{digits}\" }}")
        }
        Event::Tell(k, to, place) => {
            let to = to.number();
            format!(in alloc; "{{ kind = \"tell\", node = {k}, to = {to}, place = {place} }}")
        }
        Event::Deliver(i) => format!(in alloc; "{{ kind = \"deliver\", letter = {i} }}"),
        Event::DeliverThenCrash(i) => {
            format!(in alloc; "{{ kind = \"deliver_then_crash\", letter = {i} }}")
        }
        Event::Crash(k) => format!(in alloc; "{{ kind = \"crash\", node = {k} }}"),
        Event::Restart(k) => format!(in alloc; "{{ kind = \"restart\", node = {k} }}"),
        Event::Release(k, now) => {
            format!(in alloc; "{{ kind = \"release\", node = {k}, now = {now} }}")
        }
        Event::Hear(m, i, near) => {
            let near = near.get();
            format!(in alloc; "{{ kind = \"hear\", modem = {m}, output = {i}, near = {near} }}")
        }
        Event::Want(m, ch, sid, n) => {
            format!(in alloc; "{{ kind = \"want\", modem = {m}, ch = {ch}, sid = {sid}, n = {n} }}")
        }
        Event::Tick(m, ch, slot, random) => {
            let slot = slot.get();
            format!(in alloc;
                "{{ kind = \"tick\", modem = {m}, ch = {ch}, slot = {slot}, random = {random} }}"
            )
        }
    }
}

/// Above an offer, the command that its value spells, as a comment.
fn comment(alloc: Global, event: &Event) -> Result<String, AllocError>
    ensures { IfOk result (λ text. string_bytes text ≡ comment event.now) }
{
    let Event::Offer(_, value) = event else {
        return String::from_str(alloc, "");
    };
    let words = value_text(alloc, value)?;
    format!(in alloc; "  # {words}\n")
}

/// The line of an event, behind its comment.
fn event_line(alloc: Global, event: &Event) -> Result<String, AllocError>
    ensures { IfOk result (λ text. string_bytes text ≡ event_line event.now) }
{
    let comment = comment(alloc, event)?;
    let text = event_text(alloc, event)?;
    format!(in alloc; "{comment}  {text},\n")
}

/// Adds the ids behind the first one.
fn add_ids(alloc: Global, text: &mut String, ids: &[u32]) -> Result<(), AllocError>
    ensures { OnOk result (string_bytes text.new ≡ string_bytes text.old ++ flat_map next_id ids.now) }
{
    for id in ids {
        let next = format!(in alloc; ", {id}")?;
        text.push_str(next.as_str())?;
    }
    Ok(())
}

/// The ids of modems, between commas.
fn ids_text(alloc: Global, ids: &[u32]) -> Result<String, AllocError>
    ensures { IfOk result (λ text. string_bytes text ≡ ids_text ids.now) }
{
    let Some((first, rest)) = ids.split_first() else {
        return String::from_str(alloc, "");
    };
    let mut text = format!(in alloc; "{first}")?;
    add_ids(alloc, &mut text, rest)?;
    Ok(text)
}

/// What stands above the events.
fn head_text(alloc: Global, members: Members, modems: &[u32]) -> Result<String, AllocError>
    ensures { IfOk result (λ text. string_bytes text ≡ head_text members modems.now) }
{
    let count = members.count();
    let ids = ids_text(alloc, modems)?;
    format!(in alloc; "members = {count}\nmodems = [{ids}]\nevent = [\n")
}

/// The text of a script, an event a line. Above an offer is the command that its value spells, as a comment.
pub fn script_text(alloc: Global, script: &Script) -> Result<String, AllocError>
    ensures { IfOk result (λ text. string_bytes text ≡ script_text script.now.members script.now.modems.items script.now.events.items) }
{
    let mut text = head_text(alloc, script.members, script.modems.as_slice())?;
    for event in &script.events {
        let line = event_line(alloc, event)?;
        text.push_str(line.as_str())?;
    }
    text.push_str("]\n")?;
    Ok(text)
}
