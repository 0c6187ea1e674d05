//! Why no script is printed.

ghost use Rattle.std.specs.Prelude.{◌≡◌, ◌↔◌, ◌≢◌};
ghost use Rattle.upsched_ends.specs.declared.status.Status.TheVariants.{Done, NotUnderstood};
ghost use Rattle.upsched_script.specs.Scripts.{IsOfWords};
ghost use Rattle.upsched_script.specs.declared.refusal.Refusal.TheVariants as refused;

use std::io::Write;
use upsched_ends::{Fault, Status};

/// Why no script is printed.
#[derive(Debug, Drop)]
pub enum Refusal<'a> {
    /// The number of members is neither 3 nor 5.
    Members,
    /// The ids of modems aren't numbers of 32 bits between commas.
    Modems,
    /// So many takeovers need more commands than the plan has.
    Takeovers { wished: u32, commands: usize },
    /// The script that was made isn't as asked.
    OtherThanAsked,
    Fault(Fault<'a>),
}

impl<'a> From<Fault<'a>> for Refusal<'a> {
    ghost from_gives = { λ fault refusal. refusal ≡ refused.Fault fault };

    fn from(fault: Fault<'a>) -> Refusal<'a> {
        Refusal::Fault(fault)
    }
}

impl<'a> Refusal<'a> {
    /// Writes its line and gives the status that goes with it.
    pub fn told<E: Write>(&self, errors: &mut E) -> Status
        ensures refused { result ≢ Done }
        ensures words { (result ≡ NotUnderstood) ↔ IsOfWords self.now }
    {
        match self {
            Refusal::Members => {
                let _ = writeln!(errors, "error: --members is 3 or 5");
                Status::NotUnderstood
            }
            Refusal::Modems => {
                let _ = writeln!(errors, "error: --modems is numbers below 2^32, as in 50,51");
                Status::NotUnderstood
            }
            Refusal::Takeovers { wished, commands } => {
                let _ = writeln!(
                    errors,
                    "error: {wished} takeovers need more commands than the {commands} of the plan"
                );
                Status::NotUnderstood
            }
            Refusal::OtherThanAsked => {
                let _ = writeln!(errors, "upsched: script not as asked");
                Status::Faulted
            }
            Refusal::Fault(fault) => fault.told(errors),
        }
    }
}
