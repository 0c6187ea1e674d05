//! The nodes of an epoch that a host goes to.

ghost use Rattle.std.specs.Prelude.{◌≡◌};
ghost use Rattle.hosts.specs.Joining.{EntersAs};

use node::Node;
use seats::Seat;
use std::mem;

/// The nodes that were opened of an epoch and of the one after: its own one wasn't where that was there.
#[derive(Drop)]
pub(crate) struct Opened<N: Node> {
    pub own: Option<Seat<N>>,
    pub after: Seat<N>,
}

/// The nodes of an epoch so far above the one that was, out of those that were there and those that were opened.
pub(crate) fn enter<N: Node>(
    gap: u64,
    before: &mut Option<Seat<N>>,
    own: &mut Seat<N>,
    after: &mut Seat<N>,
    opened: Opened<N>,
)
    ensures { EntersAs gap own.old after.old opened before.new own.new after.new }
{
    let next = mem::replace(after, opened.after);
    match opened.own {
        None => {
            *before = Some(mem::replace(own, next));
        }
        Some(opened) => {
            *own = opened;
            *before = if gap == 2 { Some(next) } else { None };
        }
    }
}
