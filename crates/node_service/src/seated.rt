//! A node in its seat acts on requests.

ghost use Rattle.node_service.specs.Seated.{DoesAsAsked};
ghost use Rattle.seats.specs.Occupant.{is_up as is_seat_up};

use crate::actor::Actor;
use node::Node;
use node_lines::Request;
use seats::{Acted, Asked, Seat};

impl<N: Node> Actor for Seat<N> {
    ghost up = { λ seat. is_seat_up seat };

    ghost obeys = { λ old asked acted new. DoesAsAsked old asked acted new };

    fn can_act(&self) -> bool {
        self.is_up()
    }

    fn obey(&mut self, asked: &Request) -> Acted {
        match asked {
            Request::Lead => self.act(Asked::Lead),
            Request::Offer(value) => self.act(Asked::Offer(value.as_slice())),
            Request::Release(now) => self.act(Asked::Release(*now)),
            Request::Letter(letter) => self.act(Asked::Receive(letter)),
            Request::Tell(to, place) => self.act(Asked::Tell(to, *place)),
        }
    }
}
