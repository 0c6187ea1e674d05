//! What holds of every command, of any bytes and of every list of values.

ghost use Rattle.std.specs.Prelude.{◌≡◌, ℕ, List, Some, MatchOption, ◌++◌, length, take};
ghost use Rattle.grant_machine.specs.declared.command.Command.{Command};
ghost use Rattle.grant_machine.specs.declared.output.Output.{Output};
ghost use Rattle.grant_machine.specs.Fits.{FitsCommand};
ghost use Rattle.command_log.specs.Spelling.{spelling, Spells, SpellsNone};
ghost use Rattle.command_log.specs.Reading.{AreBytes, command_in};
ghost use Rattle.command_log.specs.Values.{outputs_of_values};

/// Each command is read from its spelling, and any bytes are the spelling of the command that they
/// are read as, or of none where they are read as none.
pub fn one_spelling()
    ensures spelled { (c : Command) → FitsCommand c → command_in (spelling c) ≡ Some c }
    ensures any { (bytes : List ℕ) → AreBytes bytes → MatchOption (command_in bytes) (SpellsNone bytes) (Spells bytes) }
{}

/// A value has one output, and the outputs of a longer list of values begin with those of its
/// beginning.
pub fn outputs_go_on()
    ensures length { (values : List (List ℕ)) → length (outputs_of_values values) ≡ length values }
    ensures begin { (values more : List (List ℕ)) → (rest : List Output) × (outputs_of_values (values ++ more) ≡ outputs_of_values values ++ rest) }
    ensures first { (n : ℕ) (values : List (List ℕ)) → outputs_of_values (take n values) ≡ take n (outputs_of_values values) }
{}
