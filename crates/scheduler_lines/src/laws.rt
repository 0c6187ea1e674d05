//! What holds of every line.

ghost use Rattle.std.specs.Prelude.{◌≡◌, ℕ, List};
ghost use Rattle.grant_machine.specs.declared.command.Command.{Command};
ghost use Rattle.scheduler_lines.specs.Asking.{AsksFor};

use command_log::one_spelling;

/// A line asks for one command at most.
pub fn one_meaning()
    ensures { (line : List ℕ) (c d : Command) → AsksFor line c → AsksFor line d → c ≡ d }
{
    one_spelling();
}
