//! An event that happens in a world, and what is noted of it.

ghost use Rattle.std.specs.Prelude.{◌≡◌, ◌<◌, get_or, length, IfOk};
ghost use Rattle.network_script.specs.Next.{Next};
ghost use Rattle.network_script.specs.World.{Written};
ghost use Rattle.network_script.specs.Worlds.{AreHonest, StandsFor, node_count};
ghost use Rattle.watched_runs.specs.Marks.{noted};
ghost use Rattle.watched_runs.specs.Sights.{sight, sight_of};

use crate::mark::Mark;
use crate::post::changed;
use crate::sight::{Sight, asked_node, knows, newly, place_of, post_at};
use network_script::World;
use node::Node;
use seats::{Answer, OutOfMemory, Report};
use std::slice;
use world_events::Event;

fn first_answer(report: &Report) -> Answer
    requires { 0 < length report.now }
    ensures { result ≡ get_or report.now 0 result }
{
    report.answers()[0]
}

/// One event.
fn answer_to<N: Node>(world: &mut World<N>, event: &Event) -> Result<Answer, OutOfMemory>
    ensures honesty { AreHonest world.new → AreHonest world.old }
    ensures members { node_count world.new ≡ node_count world.old }
    ensures run { IfOk result (λ answer. AreHonest world.new → (w : Written) → StandsFor world.old w →
        (w' : Written) × Next (length w.nodes) w event.now answer w' × StandsFor world.new w') }
{
    let report = world.run(slice::from_ref(event))?;
    Ok(first_answer(&report))
}

/// An event that asks a node, and what is seen of that.
fn step_of<N: Node>(
    world: &mut World<N>,
    event: &Event,
    k: usize,
    place: Option<u64>,
) -> Result<(Answer, Sight), OutOfMemory>
    ensures honesty { AreHonest world.new → AreHonest world.old }
    ensures members { node_count world.new ≡ node_count world.old }
    ensures run { IfOk result (λ told. AreHonest world.new → (w : Written) → StandsFor world.old w →
        (w' : Written) × Next (length w.nodes) w event.now told.0 w' × StandsFor world.new w' × (told.1 ≡ sight_of k place w w')) }
{
    let post = post_at(world, k);
    let knew = knows(world, k, place);
    let answer = answer_to(world, event)?;
    let now = post_at(world, k);
    let known = knows(world, k, place);
    let sight = Sight {
        node: k,
        post: changed(&post, &now),
        learned: newly(place, knew, known),
    };
    Ok((answer, sight))
}

/// One event, and what is seen of it.
fn step<N: Node>(
    world: &mut World<N>,
    event: &Event,
) -> Result<(Answer, Option<Sight>), OutOfMemory>
    ensures honesty { AreHonest world.new → AreHonest world.old }
    ensures members { node_count world.new ≡ node_count world.old }
    ensures run { IfOk result (λ told. AreHonest world.new → (w : Written) → StandsFor world.old w →
        (w' : Written) × Next (length w.nodes) w event.now told.0 w' × StandsFor world.new w' × (told.1 ≡ sight event.now w w')) }
{
    match asked_node(world.letters(), event) {
        Some(k) => {
            let place = place_of(world.letters(), event);
            let told = step_of(world, event, k, place)?;
            Ok((told.0, Some(told.1)))
        }
        None => {
            let answer = answer_to(world, event)?;
            Ok((answer, None))
        }
    }
}

/// One event of this number in its script, and what is noted of it.
pub(crate) fn note<N: Node>(
    world: &mut World<N>,
    number: usize,
    event: &Event,
) -> Result<Mark, OutOfMemory>
    ensures honesty { AreHonest world.new → AreHonest world.old }
    ensures members { node_count world.new ≡ node_count world.old }
    ensures run { IfOk result (λ mark. AreHonest world.new → (w : Written) → StandsFor world.old w →
        (w' : Written) × Next (length w.nodes) w event.now mark.answer w' × StandsFor world.new w' × (mark ≡ noted number event.now mark.answer w w')) }
{
    let letters = world.letters().len();
    let outputs = world.outputs().len();
    let (answer, sight) = step(world, event)?;
    Ok(Mark {
        step: number,
        answer,
        letters: (letters, world.letters().len()),
        outputs: (outputs, world.outputs().len()),
        sight,
    })
}
