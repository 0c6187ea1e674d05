//! JSON as text.

ghost use Rattle.std.specs.Prelude.{IfOk, string_bytes};
ghost use Rattle.serde_json.specs.View.{view};
ghost use Rattle.json_outputs.specs.Texts.{IsPlain, IsTextOf};

use serde_json::Value;
use std::alloc::{AllocError, Global};

/// The text of a value, without spaces.
pub fn text_of(alloc: Global, value: &Value) -> Result<String, AllocError>
    requires { IsPlain (view value.now) }
    ensures { IfOk result (λ text. IsTextOf (view value.now) (string_bytes text)) }
{
    value.to_string(alloc)
}
