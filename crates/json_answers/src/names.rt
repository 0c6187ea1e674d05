//! The names of a modem's refusals.

ghost use Rattle.std.specs.Prelude.{◌≡◌};
ghost use Rattle.json_answers.specs.Names.{want_fault_name};

use modem::WantFault;

/// The name of a modem's refusal of a want.
pub(crate) fn want_fault_name(fault: WantFault) -> &'static str
    ensures { result.now ≡ want_fault_name fault }
{
    match fault {
        WantFault::NotMine => "NotMine",
        WantFault::Waiting => "Waiting",
        WantFault::BadSize => "BadSize",
        WantFault::OutOfMemory => "OutOfMemory",
    }
}
