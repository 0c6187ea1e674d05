//! A fault of a text.

ghost use Rattle.std.specs.Prelude.{◌≡◌};
ghost use Rattle.toml.specs.View.{view};
ghost use Rattle.text_faults.specs.Faults.{found_in};

use crate::kind::Kind;
use crate::row::{Key, Wants};
use toml::Value;

/// Which table of a text it is. Commands count from 1, and modems and events from 0, as in what is printed of them.
#[derive(Clone, Copy, Debug, PartialEq, Eq)]
pub enum Place {
    /// The text itself.
    Whole,
    /// An item of `modems`.
    Modem(usize),
    /// An item of `command`.
    Command(usize),
    /// An item of `event`.
    Event(usize),
    /// The command that an event offers.
    Offered(usize),
    /// An item of what an event excepts, by the event and the item, which count from 0.
    Excepted(usize, usize),
}

/// What a key holds, as it is told.
#[derive(Clone, Copy, Debug, PartialEq, Eq)]
pub enum Found {
    Nothing,
    Number(i64),
    Text,
    Float,
    Boolean,
    Time,
    Array,
    Table,
}

impl Found {
    ghost use Rattle.std.specs.Prelude.{◌≡◌};
    ghost use Rattle.text_faults.specs.Texts.{is_nothing};

    /// Whether nothing is there.
    pub fn is_nothing(self) -> bool
        ensures { result ≡ is_nothing self }
    {
        matches!(self, Found::Nothing)
    }
}

/// A key that holds something else than is wanted there.
#[derive(Clone, Copy, Debug, PartialEq, Eq)]
pub struct Fault {
    pub place: Place,
    /// The kind of table that has the key.
    pub kind: Kind,
    pub key: Key,
    pub wants: Wants,
    pub found: Found,
}

/// What a value is, as it is told.
pub(crate) fn found_in(value: &Value) -> Found
    ensures { result ≡ found_in (view value.now) }
{
    match value {
        Value::String(_) => Found::Text,
        Value::Integer(number) => Found::Number(*number),
        Value::Float(_) => Found::Float,
        Value::Boolean(_) => Found::Boolean,
        Value::Datetime(_) => Found::Time,
        Value::Array(_) => Found::Array,
        Value::Table(_) => Found::Table,
    }
}
