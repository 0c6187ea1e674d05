//! What acts on requests.

ghost use Rattle.std.specs.Prelude.{◌≡◌, Bool, true};
ghost use Rattle.node_lines.specs.declared.request.Request.{Request};
ghost use Rattle.seats.specs.declared.acted.Acted.{Acted};

use node_lines::Request;
use seats::Acted;

/// What acts on a request.
pub trait Actor {
    // Whether it is up.
    ghost up: { Self → Bool };

    // From the first on this came of a request, and it was the second then.
    ghost obeys: { Self → Request → Acted → Self → Type 0 };

    fn can_act(&self) -> bool
        ensures { result ≡ up self.now };

    /// It does what a request asks.
    fn obey(&mut self, asked: &Request) -> Acted
        requires { up self.old ≡ true }
        ensures { obeys self.old asked.now result self.new };
}
