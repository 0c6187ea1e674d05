//! What a script asks for next.

ghost use Rattle.std.specs.Prelude.{◌≡◌, map, IfOk};
ghost use Rattle.script_steps.specs.Names.{about_of};
ghost use Rattle.script_steps.specs.Plain.{or_no_letter, plain};

use crate::deliveries::Deliveries;
use crate::name::Name;
use ballots::Letter;
use std::alloc::{AllocError, Global};
use world_events::Event;

/// What a script asks for next.
#[derive(Drop)]
pub enum Step {
    /// An event as it is.
    Plain(Event),
    /// The letter that is named comes.
    Deliver(Name),
    /// The letter that is named comes, what the node answers is thrown away, and the node crashes.
    DeliverThenCrash(Name),
}

/// The number that stands for no letter: a run has fewer letters.
const NO_LETTER: usize = 9_223_372_036_854_775_807;

fn or_no_letter(named: Option<usize>) -> usize
    ensures { result ≡ or_no_letter named }
{
    match named {
        Some(i) => i,
        None => NO_LETTER,
    }
}

/// The event that a step is, where these letters were sent, all of which were counted.
pub fn plain_event(
    alloc: Global,
    step: Step,
    letters: &[Letter],
    deliveries: &mut Deliveries,
) -> Result<Event, AllocError>
    ensures same { deliveries.new ≡ deliveries.old }
    ensures plain { IfOk result (λ event. deliveries.old.sent ≡ map about_of letters.now → event ≡ plain step letters.now deliveries.old.came) }
{
    match step {
        Step::Plain(event) => Ok(event),
        Step::Deliver(name) => {
            let named = deliveries.named(alloc, &name, letters)?;
            Ok(Event::Deliver(or_no_letter(named)))
        }
        Step::DeliverThenCrash(name) => {
            let named = deliveries.named(alloc, &name, letters)?;
            Ok(Event::DeliverThenCrash(or_no_letter(named)))
        }
    }
}
