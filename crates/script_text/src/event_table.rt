//! An event as a table of TOML.

ghost use Rattle.std.specs.Prelude.{◌≡◌, ℕ, List, Some, IfSome, IfOk, codes};
ghost use Rattle.toml.specs.View.{view};
ghost use Rattle.world_events.specs.declared.event.Event.{Event};
ghost use Rattle.script_text.specs.Fields.{HasText};
ghost use Rattle.script_text.specs.EventTable.{IsCommandBytes, IsHexBytes, OffersBytes, MeansEvent};

use crate::command_table::command_of;
use crate::fields::{node_at, slot_at, u8_at, u16_at, u64_at, usize_at};
use ballots::Bytes;
use command_log::command_bytes;
use hex::FromHexError;
use std::alloc::{AllocError, Global};
use toml::Value;
use world_events::Event;

fn release_of(table: &Value) -> Option<Event>
    requires { HasText (view table.now) (codes "kind") (codes "release") }
    ensures found { IfSome result (MeansEvent (view table.now)) }
    ensures only { (event : Event) → MeansEvent (view table.now) event → result ≡ Some event }
{
    Some(Event::Release(usize_at(table, "node")?, u64_at(table, "now")?))
}

fn tell_of(table: &Value) -> Option<Event>
    requires { HasText (view table.now) (codes "kind") (codes "tell") }
    ensures found { IfSome result (MeansEvent (view table.now)) }
    ensures only { (event : Event) → MeansEvent (view table.now) event → result ≡ Some event }
{
    Some(Event::Tell(
        usize_at(table, "node")?,
        node_at(table, "to")?,
        u64_at(table, "place")?,
    ))
}

fn hear_of(table: &Value) -> Option<Event>
    requires { HasText (view table.now) (codes "kind") (codes "hear") }
    ensures found { IfSome result (MeansEvent (view table.now)) }
    ensures only { (event : Event) → MeansEvent (view table.now) event → result ≡ Some event }
{
    Some(Event::Hear(
        usize_at(table, "modem")?,
        usize_at(table, "output")?,
        slot_at(table, "near")?,
    ))
}

fn want_of(table: &Value) -> Option<Event>
    requires { HasText (view table.now) (codes "kind") (codes "want") }
    ensures found { IfSome result (MeansEvent (view table.now)) }
    ensures only { (event : Event) → MeansEvent (view table.now) event → result ≡ Some event }
{
    Some(Event::Want(
        usize_at(table, "modem")?,
        u8_at(table, "ch")?,
        u16_at(table, "sid")?,
        u16_at(table, "n")?,
    ))
}

fn tick_of(table: &Value) -> Option<Event>
    requires { HasText (view table.now) (codes "kind") (codes "tick") }
    ensures found { IfSome result (MeansEvent (view table.now)) }
    ensures only { (event : Event) → MeansEvent (view table.now) event → result ≡ Some event }
{
    Some(Event::Tick(
        usize_at(table, "modem")?,
        u8_at(table, "ch")?,
        slot_at(table, "slot")?,
        u64_at(table, "random")?,
    ))
}

/// The event of a table of another kind than `offer`.
fn plain_event_of(table: &Value) -> Option<Event>
    requires { ¬ HasText (view table.now) (codes "kind") (codes "offer") }
    ensures found { IfSome result (MeansEvent (view table.now)) }
    ensures only { (event : Event) → MeansEvent (view table.now) event → result ≡ Some event }
{
    match table.get("kind")?.as_str()? {
        "lead" => Some(Event::Lead(usize_at(table, "node")?)),
        "tell" => tell_of(table),
        "deliver" => Some(Event::Deliver(usize_at(table, "letter")?)),
        "deliver_then_crash" => Some(Event::DeliverThenCrash(usize_at(table, "letter")?)),
        "crash" => Some(Event::Crash(usize_at(table, "node")?)),
        "restart" => Some(Event::Restart(usize_at(table, "node")?)),
        "release" => release_of(table),
        "hear" => hear_of(table),
        "want" => want_of(table),
        "tick" => tick_of(table),
        _ => None,
    }
}

fn bytes_of_command(alloc: Global, command: &Value) -> Result<Option<Bytes>, AllocError>
    ensures found { IfOk result (λ found. IfSome found (IsCommandBytes (view command.now))) }
    ensures only { IfOk result (λ found. (bytes : List ℕ) → IsCommandBytes (view command.now) bytes → found ≡ Some bytes) }
{
    match command_of(command) {
        Some(command) => Ok(Some(Bytes::new(command_bytes(alloc, &command)?))),
        None => Ok(None),
    }
}

fn bytes_of_hex(alloc: Global, digits: &Value) -> Result<Option<Bytes>, AllocError>
    ensures found { IfOk result (λ found. IfSome found (IsHexBytes (view digits.now))) }
    ensures only { IfOk result (λ found. (bytes : List ℕ) → IsHexBytes (view digits.now) bytes → found ≡ Some bytes) }
{
    let Some(digits) = digits.as_str() else {
        return Ok(None);
    };
    match hex::decode(alloc, digits) {
        Ok(bytes) => Ok(Some(Bytes::new(bytes))),
        Err(FromHexError::OutOfMemory) => Err(AllocError),
        Err(_) => Ok(None),
    }
}

/// The value that a table offers, as a command or in hexadecimal.
fn offered_of(alloc: Global, table: &Value) -> Result<Option<Bytes>, AllocError>
    ensures found { IfOk result (λ found. IfSome found (OffersBytes (view table.now))) }
    ensures only { IfOk result (λ found. (bytes : List ℕ) → OffersBytes (view table.now) bytes → found ≡ Some bytes) }
{
    match (table.get("command"), table.get("value")) {
        (Some(command), None) => bytes_of_command(alloc, command),
        (None, Some(digits)) => bytes_of_hex(alloc, digits),
        _ => Ok(None),
    }
}

fn offer_of(alloc: Global, table: &Value) -> Result<Option<Event>, AllocError>
    requires { HasText (view table.now) (codes "kind") (codes "offer") }
    ensures found { IfOk result (λ found. IfSome found (MeansEvent (view table.now))) }
    ensures only { IfOk result (λ found. (event : Event) → MeansEvent (view table.now) event → found ≡ Some event) }
{
    let Some(node) = usize_at(table, "node") else {
        return Ok(None);
    };
    match offered_of(alloc, table)? {
        Some(bytes) => Ok(Some(Event::Offer(node, bytes))),
        None => Ok(None),
    }
}

/// The event that a table means. None where a key is missing, holds something else than its field
/// asks for, or doesn't fit it. Further keys are ignored.
pub fn event_of(alloc: Global, table: &Value) -> Result<Option<Event>, AllocError>
    ensures found { IfOk result (λ found. IfSome found (MeansEvent (view table.now))) }
    ensures only { IfOk result (λ found. (event : Event) → MeansEvent (view table.now) event → found ≡ Some event) }
{
    let Some(kind) = table.get("kind") else {
        return Ok(None);
    };
    match kind.as_str() {
        Some("offer") => offer_of(alloc, table),
        Some(_) => Ok(plain_event_of(table)),
        None => Ok(None),
    }
}
