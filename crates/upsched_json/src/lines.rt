//! Lines that go out.

ghost use Rattle.std.specs.Prelude.{[], ◌∷◌, ◌++◌, ◌≡◌, IfErr, OnOk};
ghost use Rattle.std.specs.Io.KnownBytes.{Appends};
ghost use Rattle.upsched_ends.specs.declared.fault.Fault.TheVariants.{Output};

use std::io::Write;
use upsched_ends::Fault;

/// Writes a text and a line's end.
pub fn print_line<'a, O: Write>(text: &str, output: &mut O) -> Result<(), Fault<'a>>
    ensures printed { OnOk result (Appends (O.contents output.old) (O.contents output.new) (text.now ++ 10 ∷ [])) }
    ensures fault { IfErr result (λ fault. fault ≡ Output) }
{
    match writeln!(output, "{text}") {
        Ok(()) => Ok(()),
        Err(_) => Err(Fault::Output),
    }
}
