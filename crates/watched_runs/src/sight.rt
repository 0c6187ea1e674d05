//! What is seen of a node at an event.

ghost use Rattle.std.specs.Prelude.{◌≡◌, Some, slice_get};
ghost use Rattle.network_script.specs.World.{Written};
ghost use Rattle.network_script.specs.Worlds.{StandsFor};
ghost use Rattle.seats.specs.Occupant.{Stands};
ghost use Rattle.node.specs.View.{Standing};
ghost use Rattle.watched_runs.specs.Posts.{post_at};
ghost use Rattle.watched_runs.specs.Sights.{addressee, asked_node, has_learned, knows, newly, place_of, place_told};
ghost use Rattle.watched_runs.specs.Sights.{told_by};

use crate::post::{Post, post_of};
use ballots::{Letter, Note};
use network_script::World;
use node::Node;
use seats::Seat;
use world_events::Event;

/// What is seen of the node that an event asks: its post, where that changed, and the place that it learned.
#[derive(Clone, Copy)]
pub struct Sight {
    pub node: usize,
    pub post: Option<Post>,
    pub learned: Option<u64>,
}

/// The node to which letter `i` is, if it was sent.
fn addressee(letters: &[Letter], i: usize) -> Option<usize>
    ensures { result ≡ addressee (slice_get letters.now i) }
{
    if i >= letters.len() {
        return None;
    }
    Some(usize::from(letters[i].to.number()))
}

/// The node that an event asks.
pub(crate) fn asked_node(letters: &[Letter], event: &Event) -> Option<usize>
    ensures { result ≡ asked_node letters.now event.now }
{
    match event {
        Event::Lead(k) => Some(*k),
        Event::Offer(k, _) => Some(*k),
        Event::Tell(k, _, _) => Some(*k),
        Event::Deliver(i) => addressee(letters, *i),
        Event::DeliverThenCrash(i) => addressee(letters, *i),
        Event::Crash(k) => Some(*k),
        Event::Restart(k) => Some(*k),
        Event::Release(k, _) => Some(*k),
        Event::Hear(_, _, _) => None,
        Event::Want(_, _, _, _) => None,
        Event::Tick(_, _, _, _) => None,
    }
}

/// The place at which a letter tells of a vote or of a value.
fn place_told(note: &Note) -> Option<u64>
    ensures { result ≡ place_told note.now }
{
    match note {
        Note::Voted { place, .. } => Some(*place),
        Note::Known { place, .. } => Some(*place),
        _ => None,
    }
}

/// The place of which letter `i` tells, if it was sent.
fn told_by(letters: &[Letter], i: usize) -> Option<u64>
    ensures { result ≡ told_by (slice_get letters.now i) }
{
    if i >= letters.len() {
        return None;
    }
    place_told(&letters[i].note)
}

/// The place of which the letter tells that an event delivers.
pub(crate) fn place_of(letters: &[Letter], event: &Event) -> Option<u64>
    ensures { result ≡ place_of letters.now event.now }
{
    match event {
        Event::Deliver(i) => told_by(letters, *i),
        _ => None,
    }
}

/// The post of a node in its seat.
fn post_of_seat<N: Node>(seat: &Seat<N>) -> Post
    ensures { (s : Standing) → Stands seat.now s → result ≡ post_at (Some s) }
{
    if !seat.is_up() {
        return Post::Down;
    }
    post_of(seat.node().role())
}

/// The post of node `k`.
pub(crate) fn post_at<N: Node>(world: &World<N>, k: usize) -> Post
    ensures { (w : Written) → StandsFor world.now w → result ≡ post_at (slice_get w.nodes k) }
{
    let seats = world.seats();
    if k >= seats.len() {
        return Post::Idle;
    }
    post_of_seat(&seats[k])
}

/// Whether a node in its seat has learned a place. One that is down knows nothing.
fn seat_has_learned<N: Node>(seat: &Seat<N>, place: u64) -> bool
    ensures { (s : Standing) → Stands seat.now s → result ≡ has_learned (Some s) place }
{
    if !seat.is_up() {
        return false;
    }
    match seat.node().learned(place) {
        Some(_) => true,
        None => false,
    }
}

/// Whether node `k` has learned a place.
fn has_learned<N: Node>(world: &World<N>, k: usize, place: u64) -> bool
    ensures { (w : Written) → StandsFor world.now w → result ≡ has_learned (slice_get w.nodes k) place }
{
    let seats = world.seats();
    if k >= seats.len() {
        return false;
    }
    seat_has_learned(&seats[k], place)
}

/// Whether there is a place, and node `k` has learned it.
pub(crate) fn knows<N: Node>(world: &World<N>, k: usize, place: Option<u64>) -> bool
    ensures { (w : Written) → StandsFor world.now w → result ≡ knows place (slice_get w.nodes k) }
{
    match place {
        Some(place) => has_learned(world, k, place),
        None => false,
    }
}

/// A place, where it is learned now and wasn't before.
pub(crate) fn newly(place: Option<u64>, before: bool, after: bool) -> Option<u64>
    ensures { result ≡ newly place before after }
{
    match (before, after) {
        (false, true) => place,
        _ => None,
    }
}
