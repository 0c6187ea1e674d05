//! The names of refusals.

ghost use Rattle.std.specs.Prelude.{◌≡◌};
ghost use Rattle.json_outputs.specs.Names.{refusal_name};

/// The name of the refusal that a number stands for.
pub(crate) fn refusal_name(number: u8) -> &'static str
    ensures { result.now ≡ refusal_name number }
{
    match number {
        1 => "NoChannel",
        2 => "ChannelThere",
        3 => "NoFlow",
        4 => "SidsSpent",
        5 => "Busy",
        6 => "OldRequest",
        7 => "BadValue",
        8 => "OutOfMemory",
        _ => "",
    }
}
