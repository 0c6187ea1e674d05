//! Events and letters in few words.

ghost use Rattle.std.specs.Prelude.{◌≡◌, IfOk, string_bytes};
ghost use Rattle.run_picture.specs.Words.{event_words, note_words, offer_words};

use ballots::{Bytes, Note};
use command_words::value_words;
use std::alloc::{AllocError, Global};
use world_events::Event;

/// What is offered, by the command that the value spells.
fn offer_words(alloc: Global, value: &Bytes) -> Result<String, AllocError>
    ensures { IfOk result (λ text. string_bytes text ≡ offer_words value.now) }
{
    let words = value_words(alloc, value)?;
    format!(in alloc; "offer {words}")
}

/// What happens.
pub(crate) fn event_words(alloc: Global, event: &Event) -> Result<String, AllocError>
    ensures { IfOk result (λ text. string_bytes text ≡ event_words event.now) }
{
    match event {
        Event::Lead(_) => String::from_str(alloc, "lead"),
        Event::Offer(_, value) => offer_words(alloc, value),
        Event::Tell(_, to, place) => {
            let to = to.number();
            format!(in alloc; "tell node {to} from p{place}")
        }
        Event::Deliver(i) => format!(in alloc; "deliver {i}"),
        Event::DeliverThenCrash(i) => format!(in alloc; "deliver {i}, crash"),
        Event::Crash(_) => String::from_str(alloc, "crash"),
        Event::Restart(_) => String::from_str(alloc, "restart"),
        Event::Release(_, now) => format!(in alloc; "release, now {now}"),
        Event::Hear(_, i, near) => {
            let near = near.get();
            format!(in alloc; "hear output {i} near {near}")
        }
        Event::Want(_, _, sid, n) => format!(in alloc; "want {n} for sid {sid}"),
        Event::Tick(_, _, slot, _) => {
            let slot = slot.get();
            format!(in alloc; "tick {slot}")
        }
    }
}

/// What a letter says.
pub(crate) fn note_words(alloc: Global, note: &Note) -> Result<String, AllocError>
    ensures { IfOk result (λ text. string_bytes text ≡ note_words note.now) }
{
    match note {
        Note::Prepare { ballot, .. } => format!(in alloc; "Prepare {}", ballot.number()),
        Note::Promise { ballot, .. } => format!(in alloc; "Promise {}", ballot.number()),
        Note::Accept { ballot, place, .. } => {
            format!(in alloc; "Accept {} p{place}", ballot.number())
        }
        Note::Voted { ballot, place, .. } => {
            format!(in alloc; "Voted {} p{place}", ballot.number())
        }
        Note::Higher { ballot } => format!(in alloc; "Higher {}", ballot.number()),
        Note::Known { place, .. } => format!(in alloc; "Known p{place}"),
    }
}
