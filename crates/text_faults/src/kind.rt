//! The kinds of the tables in a plan and in a script.

/// A kind of table. `Plan` and `Script` are a whole text, `Modem` is an id in a script's list, and `Command` and
/// `Event` are tables whose own kind is still to be looked at. A delivery is `Numbered`, `Named` or `Unnamed` by how it
/// asks for its letter, and letters are of the kinds from `Prepare` to `Known`. What an event excepts is `Excepted`, or
/// `Boundless` where it says nothing of a letter.
#[derive(Clone, Copy, Debug, PartialEq, Eq)]
pub enum Kind {
    Plan,
    Script,
    Modem,
    Command,
    Event,
    Noop,
    Channel,
    Change,
    Flow,
    Drop,
    Request,
    Cut,
    BestEffort,
    Ugs,
    Poll,
    Station,
    Initial,
    Tdma,
    Advanced,
    Lead,
    Offer,
    Tell,
    Deliver,
    DeliverThenCrash,
    DeliverAll,
    Crash,
    Restart,
    Release,
    Hear,
    Want,
    Tick,
    Numbered,
    Named,
    Unnamed,
    Excepted,
    Boundless,
    Prepare,
    Promise,
    Accept,
    Voted,
    Higher,
    Known,
}

/// The kinds among which a key chooses by their names.
#[derive(Clone, Copy, Debug, PartialEq, Eq)]
pub enum Group {
    Commands,
    Services,
    Phys,
    Events,
    Notes,
}

impl Kind {
    ghost use Rattle.std.specs.Prelude.{◌≡◌};
    ghost use Rattle.text_faults.specs.Kinds.{kind_name};

    /// What the kind is called.
    pub fn name(self) -> &'static str
        ensures { result.now ≡ kind_name self }
    {
        match self {
            Kind::Plan => "plan",
            Kind::Script => "script",
            Kind::Modem => "modem",
            Kind::Command => "command",
            Kind::Event => "event",
            Kind::Noop => "noop",
            Kind::Channel => "channel",
            Kind::Change => "change",
            Kind::Flow => "flow",
            Kind::Drop => "drop",
            Kind::Request => "request",
            Kind::Cut => "cut",
            Kind::BestEffort => "best_effort",
            Kind::Ugs => "ugs",
            Kind::Poll => "poll",
            Kind::Station => "station",
            Kind::Initial => "initial",
            Kind::Tdma => "tdma",
            Kind::Advanced => "advanced",
            Kind::Lead => "lead",
            Kind::Offer => "offer",
            Kind::Tell => "tell",
            Kind::Deliver => "deliver",
            Kind::DeliverThenCrash => "deliver_then_crash",
            Kind::DeliverAll => "deliver_all",
            Kind::Crash => "crash",
            Kind::Restart => "restart",
            Kind::Release => "release",
            Kind::Hear => "hear",
            Kind::Want => "want",
            Kind::Tick => "tick",
            Kind::Numbered => "numbered",
            Kind::Named => "named",
            Kind::Unnamed => "unnamed",
            Kind::Excepted => "excepted",
            Kind::Boundless => "boundless",
            Kind::Prepare => "prepare",
            Kind::Promise => "promise",
            Kind::Accept => "accept",
            Kind::Voted => "voted",
            Kind::Higher => "higher",
            Kind::Known => "known",
        }
    }
}

impl Group {
    ghost use Rattle.std.specs.Prelude.{◌≡◌};
    ghost use Rattle.text_faults.specs.Kinds.{kinds_of, named};

    /// The kinds of the group.
    pub fn kinds(self) -> &'static [Kind]
        ensures { result.now ≡ kinds_of self }
    {
        match self {
            Group::Commands => &[
                Kind::Noop,
                Kind::Channel,
                Kind::Change,
                Kind::Flow,
                Kind::Drop,
                Kind::Request,
                Kind::Cut,
            ],
            Group::Services => &[
                Kind::BestEffort,
                Kind::Ugs,
                Kind::Poll,
                Kind::Station,
                Kind::Initial,
            ],
            Group::Phys => &[Kind::Tdma, Kind::Advanced],
            Group::Events => &[
                Kind::Lead,
                Kind::Offer,
                Kind::Tell,
                Kind::Deliver,
                Kind::DeliverThenCrash,
                Kind::DeliverAll,
                Kind::Crash,
                Kind::Restart,
                Kind::Release,
                Kind::Hear,
                Kind::Want,
                Kind::Tick,
            ],
            Group::Notes => &[
                Kind::Prepare,
                Kind::Promise,
                Kind::Accept,
                Kind::Voted,
                Kind::Higher,
                Kind::Known,
            ],
        }
    }

    /// The kind of the group with this name.
    pub fn named(self, name: &str) -> Option<Kind>
        ensures { result ≡ named self name.now }
    {
        self.kinds()
            .iter()
            .find(|kind| kind.name() == name)
            .copied()
    }
}
