//! A fault as text.

ghost use Rattle.std.specs.Prelude.{◌≡◌, IfOk, string_bytes};
ghost use Rattle.text_faults.specs.Texts.{place_text, subject_text, head_text, number_text, names_text, wanted_text};
ghost use Rattle.text_faults.specs.Texts.{found_text, fault_text};

use crate::fault::{Fault, Found, Place};
use crate::kind::{Group, Kind};
use crate::row::Wants;
use std::alloc::{AllocError, Global};

fn place_text(alloc: Global, place: Place) -> Result<String, AllocError>
    ensures { IfOk result (λ text. string_bytes text ≡ place_text place) }
{
    match place {
        Place::Whole => String::from_str(alloc, ""),
        Place::Modem(index) => format!(in alloc; "modem {index}"),
        Place::Command(number) => format!(in alloc; "command {number}"),
        Place::Event(index) => format!(in alloc; "event {index}"),
        Place::Offered(index) => format!(in alloc; "event {index}: command"),
        Place::Excepted(index, item) => format!(in alloc; "event {index}: except {item}"),
    }
}

fn subject_text(alloc: Global, kind: Kind) -> Result<String, AllocError>
    ensures { IfOk result (λ text. string_bytes text ≡ subject_text kind) }
{
    match kind {
        Kind::Plan => String::from_str(alloc, "plan"),
        Kind::Script => String::from_str(alloc, "script"),
        Kind::Modem | Kind::Command | Kind::Event | Kind::Excepted => String::from_str(alloc, ""),
        _ => format!(in alloc; ": {}", kind.name()),
    }
}

pub(crate) fn head_text(alloc: Global, place: Place, kind: Kind) -> Result<String, AllocError>
    ensures { IfOk result (λ text. string_bytes text ≡ head_text place kind) }
{
    let place = place_text(alloc, place)?;
    let subject = subject_text(alloc, kind)?;
    format!(in alloc; "{place}{subject}")
}

fn number_text(alloc: Global, most: u64) -> Result<String, AllocError>
    ensures { IfOk result (λ text. string_bytes text ≡ number_text most) }
{
    if 9_223_372_036_854_775_807 <= most {
        return String::from_str(alloc, "a whole number, 0 or more");
    }
    format!(in alloc; "a whole number from 0 to {most}")
}

fn names_text(alloc: Global, group: Group) -> Result<String, AllocError>
    ensures { IfOk result (λ text. string_bytes text ≡ names_text group) }
{
    let mut text = String::from_str(alloc, "one of:")?;
    for kind in group.kinds() {
        text.push_str(" ")?;
        text.push_str(kind.name())?;
    }
    Ok(text)
}

fn wanted_text(alloc: Global, wants: Wants) -> Result<String, AllocError>
    ensures { IfOk result (λ text. string_bytes text ≡ wanted_text wants) }
{
    match wants {
        Wants::Number(most) | Wants::NumberOrNothing(most) => number_text(alloc, most),
        Wants::Bytes | Wants::BytesOrNothing => {
            String::from_str(alloc, "two whole numbers from 0 to 255")
        }
        Wants::Name(group) | Wants::NameOrNothing(group) => names_text(alloc, group),
        Wants::FlagOrNothing => String::from_str(alloc, "true or false"),
        Wants::Members => String::from_str(alloc, "3 or 5"),
        Wants::Tables => String::from_str(alloc, "an array of tables"),
        Wants::Ids => String::from_str(alloc, "an array of whole numbers"),
        Wants::Hex => String::from_str(alloc, "pairs of hexadecimal digits (there is no command)"),
        Wants::Nothing => String::from_str(alloc, "left out (there is a command)"),
        Wants::Excepts => String::from_str(alloc, "an array of one table at least"),
        Wants::Rounds => String::from_str(alloc, "a whole number from 1 to 4"),
        Wants::Bound => String::from_str(
            alloc,
            "a whole number from 0 to 4 (there is no from, note, ballot or place)",
        ),
        Wants::Letter => String::from_str(
            alloc,
            "a whole number, 0 or more (there is no from, to or note)",
        ),
    }
}

fn found_text(alloc: Global, wants: Wants, found: Found) -> Result<String, AllocError>
    ensures { IfOk result (λ text. string_bytes text ≡ found_text wants found) }
{
    match found {
        Found::Nothing => String::from_str(alloc, "nothing"),
        Found::Number(number) => format!(in alloc; "{number}"),
        Found::Text if wants.is_text() => String::from_str(alloc, "another text"),
        Found::Text => String::from_str(alloc, "a text"),
        Found::Float => String::from_str(alloc, "a float"),
        Found::Boolean => String::from_str(alloc, "a boolean"),
        Found::Time => String::from_str(alloc, "a date or time"),
        Found::Array if wants.is_array() => String::from_str(alloc, "another array"),
        Found::Array => String::from_str(alloc, "an array"),
        Found::Table => String::from_str(alloc, "a table"),
    }
}

/// A fault, without its line's end: the table, the key, what is there, and what is wanted.
pub fn fault_text(alloc: Global, fault: &Fault) -> Result<String, AllocError>
    ensures { IfOk result (λ text. string_bytes text ≡ fault_text fault.now) }
{
    let head = head_text(alloc, fault.place, fault.kind)?;
    let key = fault.key.name();
    let wanted = wanted_text(alloc, fault.wants)?;
    if fault.found.is_nothing() {
        return format!(in alloc; "{head} lacks \"{key}\", {wanted}");
    }
    let found = found_text(alloc, fault.wants, fault.found)?;
    format!(in alloc; "{head}: {key} is {found}, not {wanted}")
}
