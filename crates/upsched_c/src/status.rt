//! What calls answer.

ghost use Rattle.std.specs.Prelude.{◌≡◌, pos};
ghost use Rattle.upsched_c.specs.Statuses.{status_number, place_of as place_of_lem};

use map_body::MapFault;
use modem::WantFault;
use row_bytes::RowsFault;

/// What a call answers. Any but `Done` leaves what a handle holds as it was.
#[derive(Clone, Copy, Debug)]
pub enum Status {
    /// The call did what it says.
    Done,
    /// The handle is closed.
    Closed,
    /// The handle holds a value of another kind.
    OtherKind,
    /// The handle is open already.
    Open,
    /// The room that was given is too small.
    NoRoom,
    /// A field is outside what it can hold, or bytes spell no command.
    BadField,
    /// There is no memory.
    OutOfMemory,
    /// There is no such item.
    Absent,
    /// Bytes or elements are no MAP body.
    Map(MapFault),
    /// Bytes spell no tables.
    Rows(RowsFault),
    /// A want is refused.
    Want(WantFault),
    /// A tick before the channel's clock.
    TimeBack,
}

impl Status {
    /// The number that C is told.
    pub fn number(self) -> i32
        ensures { result ≡ pos (status_number self) }
    {
        i32::from(self.short_number())
    }

    fn short_number(self) -> u16
        ensures { result ≡ status_number self }
    {
        match self {
            Status::Done => 0,
            Status::Closed => 1,
            Status::OtherKind => 2,
            Status::Open => 3,
            Status::NoRoom => 4,
            Status::BadField => 5,
            Status::OutOfMemory => 6,
            Status::Absent => 7,
            Status::Map(fault) => 100 + u16::from(fault.number()),
            Status::Rows(fault) => 200 + u16::from(fault.number()),
            Status::Want(fault) => 300 + u16::from(fault.number()),
            Status::TimeBack => 401,
        }
    }
}

/// The element that a fault is of, counted from 0, and 0 where it is of none.
pub fn place_of(fault: MapFault) -> usize
    ensures { result ≡ place_of_lem fault }
{
    match fault {
        MapFault::Expansion(i) | MapFault::OutOfOrder(i) => i,
        _ => 0,
    }
}
