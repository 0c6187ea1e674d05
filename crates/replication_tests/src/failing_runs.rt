//! One leader of three, while the records of one node fail.

use crate::faulty_nodes::{FaultyNode, faulty_nodes};
use ballots::Members;
use faulty_records::{Failure, Trouble};
use network_script::World;
use node::{Node, NodeFault};
use script_text::read_script;
use seats::{Answer, OutOfMemory};
use std::alloc::Global;
use std::test::Fail;
use world_events::{Event, EventRefusal};

type FaultyWorld = World<FaultyNode>;

// Node 0 leads with the promises of nodes 0 and 1, and offers a channel, for which it votes.
const LEADS: &str =
    "{kind = 'lead', node = 0}, {kind = 'deliver', letter = 0}, {kind = 'deliver', letter = 1},";

const OFFERS: &str = "{kind = 'deliver', letter = 3}, {kind = 'deliver', letter = 4},
{kind = 'offer', node = 0, value = '01010700100205030800000000000003e8'},
{kind = 'deliver', letter = 5},";

// Node 1 votes too.
const VOTES: &str = "{kind = 'deliver', letter = 6},";

// Nodes 0 and 1 learn it, and then a MAP, and release both.
const LEARN: &str = "{kind = 'deliver', letter = 8}, {kind = 'deliver', letter = 11},
{kind = 'deliver', letter = 9}, {kind = 'deliver', letter = 12},
{kind = 'offer', node = 0, command = {kind = 'cut', ch = 1, len = 1, not_before = 0, ack = 0}},
{kind = 'deliver', letter = 14}, {kind = 'deliver', letter = 15},
{kind = 'deliver', letter = 17}, {kind = 'deliver', letter = 20},
{kind = 'deliver', letter = 18}, {kind = 'deliver', letter = 21},
{kind = 'release', node = 0, now = 0}, {kind = 'release', node = 1, now = 0},";

/// What the world answers to these parts.
const LED: [Answer; 3] = [Answer::Sent(3), Answer::Sent(1), Answer::Sent(1)];

const OFFERED: [Answer; 4] = [
    Answer::Sent(0),
    Answer::Sent(0),
    Answer::Sent(3),
    Answer::Sent(3),
];

const LEARNT: [Answer; 13] = [
    Answer::Sent(0),
    Answer::Sent(0),
    Answer::Sent(0),
    Answer::Sent(0),
    Answer::Sent(3),
    Answer::Sent(3),
    Answer::Sent(3),
    Answer::Sent(0),
    Answer::Sent(0),
    Answer::Sent(0),
    Answer::Sent(0),
    Answer::Released(2),
    Answer::Released(2),
];

/// The events that are put between the leader's lead and its offer, or between its vote and what
/// nodes learn, and their answers.
type Between = (&'static str, &'static [Answer]);

const NOTHING: Between = ("", &[]);

/// A node whose records fail, how, and the first and the last of their calls that do.
type Faulty = (u8, Failure, u64, u64);

/// The opening world of three, in which one node's records fail.
fn opening(alloc: Global, faulty: Faulty) -> Result<FaultyWorld, OutOfMemory> {
    let (node, failure, first, last) = faulty;
    let trouble = Trouble {
        failure,
        first,
        last,
    };
    let nodes = faulty_nodes(alloc, Members::Three, node, trouble)?;
    World::new(alloc, nodes, Vec::new(alloc))
}

/// The answers that are wanted: those of each part, in order.
fn wanted(alloc: Global, early: Between, late: Between) -> Result<Vec<Answer>, Fail> {
    let mut answers = Vec::new(alloc);
    for part in [LED.as_slice(), early.1, &OFFERED, late.1, &LEARNT] {
        answers.extend_from_slice(part)?;
    }
    Ok(answers)
}

/// The events of all parts, in order.
fn events(alloc: Global, early: Between, late: Between) -> Result<Vec<Event>, Fail> {
    let text = format!(in alloc;
        "members = 3\nevent = [{LEADS}{}{OFFERS}{}{LEARN}]",
        early.0, late.0
    )?;
    Ok(read_script(alloc, text.as_str())?.events)
}

/// Whether a world answers these events so, and then has 23 letters and four outputs.
fn answers_so<N: Node>(
    world: &mut World<N>,
    events: &[Event],
    answers: &[Answer],
) -> Result<bool, Fail> {
    let report = world.run(events)?;
    let is_wanted = report.answers() == answers;
    Ok(is_wanted && world.letters().len() == 23 && world.outputs().len() == 4)
}

/// The same of a world of its own.
fn goes_on<N: Node>(
    mut world: World<N>,
    events: &[Event],
    answers: &[Answer],
) -> Result<bool, Fail> {
    answers_so(&mut world, events, answers)
}

/// Whose records fail, and what is put between.
type Run = (Faulty, Between, Between);

/// Whether the opening world of a run, with these events between, answers as wanted.
fn run_goes_on(alloc: Global, run: Run) -> Result<bool, Fail> {
    let (faulty, early, late) = run;
    let events = events(alloc, early, late)?;
    let answers = wanted(alloc, early, late)?;
    goes_on(
        opening(alloc, faulty)?,
        events.as_slice(),
        answers.as_slice(),
    )
}

// Of the calls on node 1's records a Prepare makes three and an Accept three, of which the last one writes. The Voted
// that makes a majority is the next, and writes the learned row.
const FIRST_VOTE: u64 = 6;

const FIRST_LEARNED: u64 = 7;

/// Node 1's vote is refused.
const REFUSED_VOTE: Between = (
    "{kind = 'deliver', letter = 6}, {kind = 'deliver', letter = 6}, {kind = 'restart', node = 1},
{kind = 'deliver', letter = 6},",
    &[
        Answer::Fault(NodeFault::StoreRefused),
        Answer::Refused(EventRefusal::NodeDown),
        Answer::Finished,
        Answer::Sent(3),
    ],
);

/// Node 1's records break at its vote.
const BROKEN_VOTE: Between = (
    "{kind = 'deliver', letter = 6}, {kind = 'restart', node = 1}, {kind = 'deliver', letter = 6},",
    &[
        Answer::Fault(NodeFault::Down),
        Answer::Finished,
        Answer::Sent(3),
    ],
);

const VOTED: Between = (VOTES, &[Answer::Sent(3)]);

const ASKS_NODE_2: &str = "{kind = 'deliver', letter = 2}, {kind = 'restart', node = 2},";

/// Node 2 neither promises nor restarts, and the rest goes on without it.
const REFUSES: Between = (
    ASKS_NODE_2,
    &[
        Answer::Fault(NodeFault::StoreRefused),
        Answer::Fault(NodeFault::StoreRefused),
    ],
);

const BREAKS: Between = (
    ASKS_NODE_2,
    &[
        Answer::Fault(NodeFault::Down),
        Answer::Fault(NodeFault::Down),
    ],
);

const LEARNS: &str =
    "{kind = 'deliver', letter = 6}, {kind = 'deliver', letter = 9}, {kind = 'deliver', letter = 12},
{kind = 'restart', node = 1},";

/// The write of node 1's first learned row fails, and the node restarts: it has learned the value or hears of the
/// votes again.
const REFUSED_ROW: Between = (
    LEARNS,
    &[
        Answer::Sent(3),
        Answer::Sent(0),
        Answer::Fault(NodeFault::StoreRefused),
        Answer::Finished,
    ],
);

const BROKEN_ROW: Between = (
    LEARNS,
    &[
        Answer::Sent(3),
        Answer::Sent(0),
        Answer::Fault(NodeFault::Down),
        Answer::Finished,
    ],
);

static RUNS: [Run; 8] = [
    (
        (1, Failure::Refused, FIRST_VOTE, FIRST_VOTE),
        NOTHING,
        REFUSED_VOTE,
    ),
    (
        (1, Failure::BrokenWritten, FIRST_VOTE, FIRST_VOTE),
        NOTHING,
        BROKEN_VOTE,
    ),
    (
        (1, Failure::BrokenUnwritten, FIRST_VOTE, FIRST_VOTE),
        NOTHING,
        BROKEN_VOTE,
    ),
    ((2, Failure::Refused, 1, u64::MAX), REFUSES, VOTED),
    ((2, Failure::BrokenUnwritten, 1, u64::MAX), BREAKS, VOTED),
    (
        (1, Failure::Refused, FIRST_LEARNED, FIRST_LEARNED),
        NOTHING,
        REFUSED_ROW,
    ),
    (
        (1, Failure::BrokenWritten, FIRST_LEARNED, FIRST_LEARNED),
        NOTHING,
        BROKEN_ROW,
    ),
    (
        (1, Failure::BrokenUnwritten, FIRST_LEARNED, FIRST_LEARNED),
        NOTHING,
        BROKEN_ROW,
    ),
];

#[test]
fn runs_go_on(rt: HostRuntime) -> Result<(), Fail> {
    for run in &RUNS {
        assert!(rt; run_goes_on(rt.alloc(), *run)?, "{:?}", run.0);
    }
    Ok(())
}
