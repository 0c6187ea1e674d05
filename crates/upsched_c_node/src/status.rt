//! What calls answer.

ghost use Rattle.std.specs.Prelude.{◌≡◌, pos};
ghost use Rattle.upsched_c_node.specs.Statuses.{status_number};

use node::NodeFault;

/// What a call answers. Any but `Done` leaves what a handle holds as it was.
#[derive(Clone, Copy, Debug)]
pub enum Status {
    /// The call did what it says.
    Done,
    /// The handle is closed.
    Closed,
    /// The handle is none of a node.
    OtherKind,
    /// The handle is open already.
    Open,
    /// The room that was given is too small.
    NoRoom,
    /// A field is outside what it can hold, or bytes spell no letter or no write of the node.
    BadField,
    /// There is no memory.
    OutOfMemory,
    /// There is no such item.
    Absent,
    /// The node didn't do what it was asked.
    Node(NodeFault),
}

impl Status {
    /// The number that C is told.
    pub fn number(self) -> i32
        ensures { result ≡ pos (status_number self) }
    {
        i32::from(self.short_number())
    }

    fn short_number(self) -> u16
        ensures { result ≡ status_number self }
    {
        match self {
            Status::Done => 0,
            Status::Closed => 1,
            Status::OtherKind => 2,
            Status::Open => 3,
            Status::NoRoom => 4,
            Status::BadField => 5,
            Status::OutOfMemory => 6,
            Status::Absent => 7,
            Status::Node(fault) => 500 + u16::from(fault.number()),
        }
    }
}
