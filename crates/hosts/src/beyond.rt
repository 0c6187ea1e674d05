//! A node in its seat that is asked within its epoch.

ghost use Rattle.std.specs.Prelude.{◌≡◌, true};
ghost use Rattle.node.specs.View.{Standing};
ghost use Rattle.seats.specs.Acted.{ask_of};
ghost use Rattle.seats.specs.Occupant.{Stands};
ghost use Rattle.hosts.specs.Acting.{SeatActs, seat_beyond};
ghost use Rattle.hosts.specs.Hosts.{is_up_if_any as is_up_if_any_lem};
ghost use Rattle.hosts.specs.Beyond.{is_beyond as is_beyond_lem, is_offer as is_offer_lem};
ghost use Rattle.hosts.specs.Beyond.{leads_beyond as leads_beyond_lem};

use crate::acted::HostActed;
use node::Node;
use proposer::Role;
use seats::{Asked, Seat};

/// Whether a role leads, and its next place is beyond the first ones, so many.
fn leads_beyond(places: u64, role: &Role) -> bool
    ensures { result ≡ leads_beyond_lem places role.now }
{
    match role {
        Role::Leading { next, .. } => places < *next,
        _ => false,
    }
}

fn is_offer(asked: Asked) -> bool
    ensures { result ≡ is_offer_lem (ask_of asked.entry) }
{
    matches!(asked, Asked::Offer(_))
}

/// Whether a value is offered to a node that is up and leads, and its next place is beyond the first ones, so many.
fn is_beyond<N: Node>(places: u64, seat: &Seat<N>, asked: Asked) -> bool
    ensures seen { result ≡ seat_beyond places seat.now (ask_of asked.entry) }
    ensures stands { (s : Standing) → Stands seat.now s → result ≡ is_beyond_lem places s (ask_of asked.entry) }
{
    is_offer(asked) && seat.is_up() && leads_beyond(places, seat.node().role())
}

/// Whether a node in its seat is up, if there is one.
pub(crate) fn is_up_if_any<N: Node>(seat: &Option<Seat<N>>) -> bool
    ensures { result ≡ is_up_if_any_lem seat.now }
{
    match seat {
        Some(seat) => seat.is_up(),
        None => true,
    }
}

/// A node does what it is asked, but for an offer beyond the places that count.
pub(crate) fn act_within<N: Node>(places: u64, seat: &mut Seat<N>, asked: Asked) -> HostActed
    ensures acts { SeatActs places seat.old (ask_of asked.entry) result seat.new }
    ensures beyond { (s : Standing) → Stands seat.old s → seat_beyond places seat.old (ask_of asked.entry) ≡ is_beyond_lem places s (ask_of asked.entry) }
{
    if is_beyond(places, seat, asked) {
        return HostActed::Ended;
    }
    HostActed::Of(seat.act(asked))
}
