//! The keys of each kind of table, and what is wanted there.

use crate::kind::{Group, Kind};
use toml::Value;

/// A key that something reads.
#[derive(Clone, Copy, Debug, PartialEq, Eq)]
pub enum Key {
    Members,
    Modems,
    Event,
    Command,
    Id,
    Kind,
    Ch,
    Ucd,
    Phy,
    ShortMax,
    Ranging,
    Data,
    Base,
    Modem,
    Tag,
    Last,
    Service,
    Priority,
    Size,
    Interval,
    Jitter,
    Sid,
    N,
    Sent,
    Len,
    NotBefore,
    Ack,
    Keep,
    Node,
    To,
    Place,
    Value,
    Letter,
    Now,
    Output,
    Near,
    Slot,
    Random,
    From,
    Note,
    Ballot,
    Again,
    Except,
    Rounds,
}

/// What is wanted at a key.
#[derive(Clone, Copy, Debug, PartialEq, Eq)]
pub enum Wants {
    /// A whole number from 0 to this one.
    Number(u64),
    /// The same, or nothing.
    NumberOrNothing(u64),
    /// Two numbers of a byte each.
    Bytes,
    /// The same, or nothing.
    BytesOrNothing,
    /// The name of a kind of this group.
    Name(Group),
    /// The same, or nothing.
    NameOrNothing(Group),
    /// Whether something is so, or nothing.
    FlagOrNothing,
    /// How many nodes a script may have.
    Members,
    /// An array of tables, or nothing.
    Tables,
    /// An array of the ids of modems, or nothing.
    Ids,
    /// Bytes in hexadecimal, where no command is there.
    Hex,
    /// Nothing, where a command is there.
    Nothing,
    /// A letter's number, where no key says whose letter it is.
    Letter,
    /// An array of one table at least, or nothing.
    Excepts,
    /// A whole number from 1 to 4, or nothing.
    Rounds,
    /// A node's number, where no key says anything of a letter.
    Bound,
}

/// By what a table is of a further kind.
#[derive(Clone, Copy, Debug, PartialEq, Eq)]
pub enum Choice {
    /// By the name of a kind of this group, which the key holds.
    Naming(Key, Group),
    /// By the keys with which it asks for a letter.
    OfLetter,
}

pub(crate) const BYTE: Wants = Wants::Number(255);

pub(crate) const SHORT: Wants = Wants::Number(65_535);

pub(crate) const WORD: Wants = Wants::Number(4_294_967_295);

pub(crate) const SLOT: Wants = Wants::Number(9_223_372_036_854_775_807);

/// A node's number.
pub(crate) const MEMBER: Wants = Wants::Number(4);

pub(crate) const LONG: Wants = Wants::Number(18_446_744_073_709_551_615);

pub(crate) const LAST: Wants = Wants::NumberOrNothing(18_446_744_073_709_551_615);

pub(crate) const KEEP: Wants = Wants::NumberOrNothing(65_535);

/// A node's number, or nothing.
pub(crate) const ANY_MEMBER: Wants = Wants::NumberOrNothing(4);

impl Key {
    ghost use Rattle.std.specs.Prelude.{◌≡◌};
    ghost use Rattle.text_faults.specs.Rows.{key_name};

    /// The key as it is written.
    pub fn name(self) -> &'static str
        ensures { result.now ≡ key_name self }
    {
        match self {
            Key::Members => "members",
            Key::Modems => "modems",
            Key::Event => "event",
            Key::Command => "command",
            Key::Id => "id",
            Key::Kind => "kind",
            Key::Ch => "ch",
            Key::Ucd => "ucd",
            Key::Phy => "phy",
            Key::ShortMax => "short_max",
            Key::Ranging => "ranging",
            Key::Data => "data",
            Key::Base => "base",
            Key::Modem => "modem",
            Key::Tag => "tag",
            Key::Last => "last",
            Key::Service => "service",
            Key::Priority => "priority",
            Key::Size => "size",
            Key::Interval => "interval",
            Key::Jitter => "jitter",
            Key::Sid => "sid",
            Key::N => "n",
            Key::Sent => "sent",
            Key::Len => "len",
            Key::NotBefore => "not_before",
            Key::Ack => "ack",
            Key::Keep => "keep",
            Key::Node => "node",
            Key::To => "to",
            Key::Place => "place",
            Key::Value => "value",
            Key::Letter => "letter",
            Key::Now => "now",
            Key::Output => "output",
            Key::Near => "near",
            Key::Slot => "slot",
            Key::Random => "random",
            Key::From => "from",
            Key::Note => "note",
            Key::Ballot => "ballot",
            Key::Again => "again",
            Key::Except => "except",
            Key::Rounds => "rounds",
        }
    }
}

impl Kind {
    ghost use Rattle.std.specs.Prelude.{◌≡◌};
    ghost use Rattle.text_faults.specs.Rows.{rows_of, choice_of};
    ghost use Rattle.text_faults.specs.Faults.{excepts, offers};

    /// The keys that a table of this kind has, and what is wanted there. Behind those of `Command`, of `Event`, of a
    /// flow and of a delivery come the rows of their further kind.
    pub fn rows(self) -> &'static [(Key, Wants)]
        ensures { result.now ≡ rows_of self }
    {
        match self {
            Kind::Plan => &[(Key::Command, Wants::Tables)],
            Kind::Script => &[
                (Key::Members, Wants::Members),
                (Key::Modems, Wants::Ids),
                (Key::Event, Wants::Tables),
            ],
            Kind::Command => &[(Key::Kind, Wants::Name(Group::Commands))],
            Kind::Event => &[(Key::Kind, Wants::Name(Group::Events))],
            Kind::Modem | Kind::Noop | Kind::Tdma | Kind::Advanced => &[],
            Kind::Deliver | Kind::DeliverThenCrash => &[],
            Kind::DeliverAll => &[(Key::Except, Wants::Excepts), (Key::Rounds, Wants::Rounds)],
            Kind::Prepare | Kind::Promise | Kind::Accept => &[],
            Kind::Voted | Kind::Higher | Kind::Known => &[],
            Kind::Channel => &[
                (Key::Ch, BYTE),
                (Key::Ucd, BYTE),
                (Key::Phy, Wants::NameOrNothing(Group::Phys)),
                (Key::ShortMax, SHORT),
                (Key::Ranging, Wants::Bytes),
                (Key::Data, Wants::Bytes),
                (Key::Base, LONG),
            ],
            Kind::Change => &[
                (Key::Ch, BYTE),
                (Key::Ucd, BYTE),
                (Key::Phy, Wants::Name(Group::Phys)),
                (Key::ShortMax, SHORT),
                (Key::Ranging, Wants::Bytes),
                (Key::Data, Wants::Bytes),
            ],
            Kind::Flow => &[
                (Key::Ch, BYTE),
                (Key::Modem, WORD),
                (Key::Tag, WORD),
                (Key::Last, LAST),
                (Key::Service, Wants::Name(Group::Services)),
            ],
            Kind::BestEffort => &[(Key::Priority, BYTE)],
            Kind::Ugs | Kind::Station | Kind::Initial => &[
                (Key::Size, SHORT),
                (Key::Interval, WORD),
                (Key::Jitter, WORD),
                (Key::Base, LONG),
            ],
            Kind::Poll => &[
                (Key::Interval, WORD),
                (Key::Jitter, WORD),
                (Key::Base, LONG),
            ],
            Kind::Drop => &[(Key::Ch, BYTE), (Key::Sid, SHORT)],
            Kind::Request => &[
                (Key::Ch, BYTE),
                (Key::Sid, SHORT),
                (Key::N, SHORT),
                (Key::Sent, LONG),
            ],
            Kind::Cut => &[
                (Key::Ch, BYTE),
                (Key::Len, SHORT),
                (Key::NotBefore, LONG),
                (Key::Ack, LONG),
                (Key::Keep, KEEP),
                (Key::Ranging, Wants::BytesOrNothing),
                (Key::Data, Wants::BytesOrNothing),
            ],
            Kind::Lead | Kind::Offer | Kind::Crash | Kind::Restart => &[(Key::Node, LONG)],
            Kind::Tell => &[(Key::Node, LONG), (Key::To, MEMBER), (Key::Place, LONG)],
            Kind::Release => &[(Key::Node, LONG), (Key::Now, LONG)],
            Kind::Hear => &[(Key::Modem, LONG), (Key::Output, LONG), (Key::Near, SLOT)],
            Kind::Want => &[
                (Key::Modem, LONG),
                (Key::Ch, BYTE),
                (Key::Sid, SHORT),
                (Key::N, SHORT),
            ],
            Kind::Tick => &[
                (Key::Modem, LONG),
                (Key::Ch, BYTE),
                (Key::Slot, SLOT),
                (Key::Random, LONG),
            ],
            Kind::Numbered => &[(Key::Letter, LONG)],
            Kind::Named => &[
                (Key::From, ANY_MEMBER),
                (Key::To, ANY_MEMBER),
                (Key::Note, Wants::NameOrNothing(Group::Notes)),
                (Key::Ballot, LAST),
                (Key::Place, LAST),
                (Key::Again, Wants::FlagOrNothing),
            ],
            Kind::Excepted => &[
                (Key::From, ANY_MEMBER),
                (Key::To, ANY_MEMBER),
                (Key::Note, Wants::NameOrNothing(Group::Notes)),
                (Key::Ballot, LAST),
                (Key::Place, LAST),
            ],
            Kind::Boundless => &[(Key::To, Wants::Bound)],
            Kind::Unnamed => &[
                (Key::Letter, Wants::Letter),
                (Key::Ballot, LAST),
                (Key::Place, LAST),
                (Key::Again, Wants::FlagOrNothing),
            ],
        }
    }

    /// By what a table of this kind is of a further kind.
    pub fn choice(self) -> Option<Choice>
        ensures { result ≡ choice_of self }
    {
        match self {
            Kind::Command => Some(Choice::Naming(Key::Kind, Group::Commands)),
            Kind::Event => Some(Choice::Naming(Key::Kind, Group::Events)),
            Kind::Flow => Some(Choice::Naming(Key::Service, Group::Services)),
            Kind::Deliver | Kind::DeliverThenCrash => Some(Choice::OfLetter),
            _ => None,
        }
    }

    /// Whether a table of this kind offers a command or bytes.
    pub fn offers(self) -> bool
        ensures { result ≡ offers self }
    {
        matches!(self, Kind::Offer)
    }

    /// Whether a table of this kind may except letters.
    pub fn excepts(self) -> bool
        ensures { result ≡ excepts self }
    {
        matches!(self, Kind::DeliverAll)
    }
}
