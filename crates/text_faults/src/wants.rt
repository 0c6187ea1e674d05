//! Whether what a key holds is what is wanted there.

ghost use Rattle.std.specs.Prelude.{◌≡◌};
ghost use Rattle.toml.specs.View.{view};
ghost use Rattle.toml.specs.Data.{at};
ghost use Rattle.text_faults.specs.Texts.{is_text, is_array};
ghost use Rattle.text_faults.specs.Fits.{is_number, is_item, is_pair, is_name, is_count, is_filled, is_rounds};
ghost use Rattle.text_faults.specs.Fits.{holds, may_lack};

use crate::kind::Group;
use crate::row::Wants;
use toml::Value;

fn is_number(value: &Value, most: u64) -> bool
    ensures { result ≡ is_number most (view value.now) }
{
    match value.as_integer() {
        Some(number) => match u64::try_from(number) {
            Ok(number) => number <= most,
            Err(_) => false,
        },
        None => false,
    }
}

fn is_item(value: &Value, index: usize) -> bool
    ensures { result ≡ is_item (at index (view value.now)) }
{
    match value.get(index) {
        Some(item) => is_number(item, 255),
        None => false,
    }
}

fn is_pair(value: &Value) -> bool
    ensures { result ≡ is_pair (view value.now) }
{
    is_item(value, 0) && is_item(value, 1) && value.get(2).is_none()
}

fn is_name(value: &Value, group: Group) -> bool
    ensures { result ≡ is_name group (view value.now) }
{
    match value.as_str() {
        Some(name) => group.named(name).is_some(),
        None => false,
    }
}

fn is_count(value: &Value) -> bool
    ensures { result ≡ is_count (view value.now) }
{
    match value.as_integer() {
        Some(number) => match u64::try_from(number) {
            Ok(number) => number == 3 || number == 5,
            Err(_) => false,
        },
        None => false,
    }
}

/// Whether it is an array of one item at least.
fn is_filled(value: &Value) -> bool
    ensures { result ≡ is_filled (view value.now) }
{
    value.get(0).is_some()
}

fn is_rounds(value: &Value) -> bool
    ensures { result ≡ is_rounds (view value.now) }
{
    is_number(value, 4) && !is_number(value, 0)
}

impl Wants {
    /// Whether a value is what is wanted.
    pub(crate) fn holds(self, value: &Value) -> bool
        ensures { result ≡ holds self (view value.now) }
    {
        match self {
            Wants::Number(most) | Wants::NumberOrNothing(most) => is_number(value, most),
            Wants::Bytes | Wants::BytesOrNothing => is_pair(value),
            Wants::Name(group) | Wants::NameOrNothing(group) => is_name(value, group),
            Wants::FlagOrNothing => value.as_bool().is_some(),
            Wants::Members => is_count(value),
            Wants::Tables | Wants::Ids => value.as_array().is_some(),
            Wants::Excepts => is_filled(value),
            Wants::Rounds => is_rounds(value),
            Wants::Hex | Wants::Nothing | Wants::Letter | Wants::Bound => false,
        }
    }

    /// Whether nothing may be there.
    pub(crate) fn may_lack(self) -> bool
        ensures { result ≡ may_lack self }
    {
        match self {
            Wants::NumberOrNothing(_)
            | Wants::BytesOrNothing
            | Wants::NameOrNothing(_)
            | Wants::FlagOrNothing
            | Wants::Tables
            | Wants::Ids
            | Wants::Nothing
            | Wants::Excepts
            | Wants::Rounds => true,
            Wants::Number(_) | Wants::Bytes | Wants::Name(_) => false,
            Wants::Members | Wants::Hex | Wants::Letter | Wants::Bound => false,
        }
    }

    /// Whether some text is wanted.
    pub(crate) fn is_text(self) -> bool
        ensures { result ≡ is_text self }
    {
        matches!(self, Wants::Name(_) | Wants::NameOrNothing(_) | Wants::Hex)
    }

    /// Whether some array is wanted that may be another one.
    pub(crate) fn is_array(self) -> bool
        ensures { result ≡ is_array self }
    {
        matches!(self, Wants::Bytes | Wants::BytesOrNothing | Wants::Excepts)
    }
}
