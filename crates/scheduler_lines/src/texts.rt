//! The texts of replies.

ghost use Rattle.std.specs.Prelude.{◌≡◌, IfOk, string_bytes};
ghost use Rattle.serde_json.specs.View.{view};
ghost use Rattle.json_outputs.specs.Texts.{IsTextOf};
ghost use Rattle.scheduler_lines.specs.Texts.{IsObjectText, IsReplyText, fault_data, fault_name, numbered_text};

use crate::form::ReplyForm;
use crate::outgoing::Reply;
use json_outputs::{command_text, put_number, put_text, text_of};
use node_lines::LineFault;
use printed_outputs::output_text;
use serde_json::{Map, Value};
use std::alloc::{AllocError, Global};

/// The name of a line's fault.
fn fault_name(why: LineFault) -> &'static str
    ensures { result.now ≡ fault_name why }
{
    match why {
        LineFault::NoLine => "NoLine",
        LineFault::NoHex => "NoHex",
        LineFault::NoNumber => "NoNumber",
        LineFault::NoCommand => "NoCommand",
        LineFault::NoLetter(_) => "NoLetter",
        LineFault::OutOfMemory => "OutOfMemory",
        LineFault::TooLong => "TooLong",
    }
}

/// A reply behind the number of its line, as a text.
fn numbered_text(alloc: Global, number: usize, reply: &Reply) -> Result<String, AllocError>
    ensures { IfOk result (λ text. string_bytes text ≡ numbered_text number reply.now) }
{
    match reply {
        Reply::Applied(output) => {
            let text = output_text(alloc, output)?;
            format!(in alloc; "{number} {text}")
        }
        Reply::Refused(why) => {
            let name = fault_name(*why);
            let code = why.number();
            format!(in alloc; "{number} error {code} {name}")
        }
    }
}

/// A fault and the number of its line, as JSON.
fn fault_value(alloc: Global, number: usize, why: LineFault) -> Result<Value, AllocError>
    ensures { IfOk result (λ value. view value ≡ fault_data number why) }
{
    let mut map = Map::new(alloc);
    put_number(&mut map, alloc, "command", number as u64)?;
    put_text(&mut map, alloc, "output", "error")?;
    put_number(&mut map, alloc, "error", u64::from(why.number()))?;
    put_text(&mut map, alloc, "name", fault_name(why))?;
    Ok(Value::Object(map))
}

fn fault_text(alloc: Global, number: usize, why: LineFault) -> Result<String, AllocError>
    ensures { IfOk result (λ text. IsTextOf (fault_data number why) (string_bytes text)) }
{
    let value = fault_value(alloc, number, why)?;
    text_of(alloc, &value)
}

/// A reply as an object with the number of its line.
fn object_text(alloc: Global, number: usize, reply: &Reply) -> Result<String, AllocError>
    ensures { IfOk result (λ text. IsObjectText number reply.now (string_bytes text)) }
{
    match reply {
        Reply::Applied(output) => command_text(alloc, number, output),
        Reply::Refused(why) => fault_text(alloc, number, *why),
    }
}

/// The reply to the line of this number, without its end.
pub(crate) fn reply_text(
    alloc: Global,
    form: ReplyForm,
    number: usize,
    reply: &Reply,
) -> Result<String, AllocError>
    ensures { IfOk result (λ text. IsReplyText form number reply.now (string_bytes text)) }
{
    match form {
        ReplyForm::Plain => numbered_text(alloc, number, reply),
        ReplyForm::Json => object_text(alloc, number, reply),
    }
}
