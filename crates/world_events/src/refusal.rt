//! Why an event changed nothing.

ghost use Rattle.std.specs.Prelude.{◌≡◌};
ghost use Rattle.world_events.specs.Refusals.{event_refusal_number};

/// Why an event changed nothing.
#[derive(Clone, Copy, Debug, PartialEq, Eq)]
pub enum EventRefusal {
    NoLetter,
    /// The node has crashed.
    NodeDown,
    /// A restart of a node that is up.
    NodeUp,
    NoOutput,
    /// A MAP that is heard 2^31 minislots or more from its start.
    TooOld,
    NoModem,
    /// A minislot before the modem's clock.
    TimeBack,
    NoNode,
    OutOfMemory,
}

impl EventRefusal {
    /// The number that stands for the refusal in reports.
    pub fn number(self) -> u8
        ensures { result ≡ event_refusal_number self }
    {
        match self {
            EventRefusal::NoLetter => 1,
            EventRefusal::NodeDown => 2,
            EventRefusal::NodeUp => 3,
            EventRefusal::NoOutput => 4,
            EventRefusal::TooOld => 5,
            EventRefusal::NoModem => 6,
            EventRefusal::TimeBack => 7,
            EventRefusal::NoNode => 8,
            EventRefusal::OutOfMemory => 9,
        }
    }
}
