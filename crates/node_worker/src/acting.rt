//! What comes of a cause at a node.

ghost use Rattle.std.specs.Prelude.{◌≡◌, [], IfOk};
ghost use Rattle.acceptor.specs.Faults.{HasRisen};
ghost use Rattle.seats.specs.Acted.{ask_of as asked_of, letters_of as letters_given, outputs_of as outputs_given};
ghost use Rattle.seats.specs.Seat.{SameMember};
ghost use Rattle.seats.specs.Occupant.{IsHonest, who_of};
ghost use Rattle.node_worker.specs.Entries.{entry};
ghost use Rattle.node_worker.specs.Replays.{CarriesSeat, ask_of};
ghost use Rattle.node_worker.specs.Outcomes.{SameOutcome, ended_of};
ghost use Rattle.node_worker.specs.declared.entry.Ended.TheVariants.{FailedEither};

use crate::compare::{copy_letters, copy_outputs};
use crate::entry::{Ask, Cause, Ended, Entry};
use ballots::Letter;
use map_release::Numbered;
use node::{Node, NodeFault};
use seats::{Acted, Answer, Asked, Seat};
use std::alloc::{AllocError, Global};

/// What came of a cause.
#[derive(Drop)]
pub struct Outcome {
    pub ended: Ended,
    pub letters: Vec<Letter>,
    pub outputs: Vec<Numbered>,
}

impl Outcome {
    /// With its cause.
    pub fn with(self, cause: Cause) -> Entry
        ensures { result ≡ entry cause self.ended self.letters.items self.outputs.items }
    {
        let Outcome {
            ended,
            letters,
            outputs,
        } = self;
        Entry {
            cause,
            ended,
            letters,
            outputs,
        }
    }

    // Nothing went out.
    fn silent(alloc: Global, ended: Ended) -> Outcome
        ensures ended { result.ended ≡ ended }
        ensures letters { result.letters.items ≡ [] }
        ensures outputs { result.outputs.items ≡ [] }
    {
        Outcome {
            ended,
            letters: Vec::new(alloc),
            outputs: Vec::new(alloc),
        }
    }

    // What a node gave.
    fn of(alloc: Global, ended: Ended, acted: Acted) -> Outcome
        ensures ended { result.ended ≡ ended }
        ensures letters { result.letters.items ≡ letters_given acted }
        ensures outputs { result.outputs.items ≡ outputs_given acted }
    {
        match acted {
            Acted::Sent(letters) => Outcome {
                ended,
                letters,
                outputs: Vec::new(alloc),
            },
            Acted::Released(outputs) => Outcome {
                ended,
                letters: Vec::new(alloc),
                outputs,
            },
            Acted::Finished => Outcome::silent(alloc, ended),
            Acted::Refused(_) => Outcome::silent(alloc, ended),
            Acted::Fault(_) => Outcome::silent(alloc, ended),
        }
    }

    // The same again.
    fn copy(&self, alloc: Global) -> Result<Outcome, AllocError>
        ensures { IfOk result (λ copy. SameOutcome self.now copy) }
    {
        Ok(Outcome {
            ended: self.ended,
            letters: copy_letters(alloc, self.letters.as_slice())?,
            outputs: copy_outputs(alloc, self.outputs.as_slice())?,
        })
    }
}

// How a cause ended that a node answered so.
fn ended_by(answer: Answer) -> Ended
    ensures { result ≡ ended_of answer }
{
    match answer {
        Answer::Refused(refusal) => Ended::Refused(refusal),
        Answer::Crashed => Ended::Lost,
        Answer::Fault(NodeFault::OutOfMemory) => Ended::FailedBefore,
        Answer::Fault(NodeFault::StoreRefused) => Ended::FailedBefore,
        Answer::Fault(NodeFault::Down) => Ended::FailedEither,
        Answer::Fault(declined) => Ended::Fault(declined),
        _ => Ended::Whole,
    }
}

// What a cause asks of a node.
fn asked(cause: &Cause) -> Asked<'_>
    ensures { asked_of result ≡ ask_of cause.now }
{
    match cause {
        Cause::Ask(Ask::Lead) => Asked::Lead,
        Cause::Ask(Ask::Offer(value)) => Asked::Offer(value.as_slice()),
        Cause::Ask(Ask::Tell(to, place)) => Asked::Tell(to, *place),
        Cause::Ask(Ask::Release(now)) => Asked::Release(*now),
        Cause::Ask(Ask::Crash) => Asked::Crash,
        Cause::Ask(Ask::Restart) => Asked::Restart,
        Cause::Letter(letter) => Asked::Receive(letter),
    }
}

/// A node does one thing, which is told twice. Where it lacks memory or its store fails it crashes.
pub fn act<N: Node>(alloc: Global, seat: &mut Seat<N>, cause: &Cause) -> (Outcome, Outcome)
    ensures who { SameMember (who_of seat.old) (who_of seat.new) }
    ensures honesty { IsHonest seat.new → IsHonest seat.old }
    ensures carries { IsHonest seat.new → CarriesSeat seat.old (entry cause.now result.0.ended result.0.letters.items result.0.outputs.items) seat.new }
    ensures rose { result.0.ended ≡ FailedEither → HasRisen (who_of seat.old).failures (who_of seat.new).failures }
    ensures same { SameOutcome result.0 result.1 }
{
    let acted = seat.act(asked(cause));
    let told = acted.told();
    let first = Outcome::of(alloc, ended_by(told), acted);
    match first.copy(alloc) {
        Ok(second) => (first, second),
        Err(fault) => {
            let ended = ended_by(seat.settle(told, Err(fault)));
            (Outcome::silent(alloc, ended), Outcome::silent(alloc, ended))
        }
    }
}
