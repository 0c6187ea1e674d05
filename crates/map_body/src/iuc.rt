ghost use Rattle.std.specs.Prelude.{◌≡◌, ◌^◌, ◌<◌, ◌≤◌, IfSome, IfNone};
ghost use Rattle.map_body.specs.Iucs as iucs;

use std::marker::Model;

/// An interval usage code (IUC), of 4 bits (CM-SP-MULPIv3.1, MAP message): what the minislots of an
/// interval are for. An expansion element's can be told here and is refused by bodies.
#[derive(Clone, Copy, Debug, PartialEq, Eq, PartialOrd, Ord)]
pub struct Iuc {
    number: u8,
}

impl Model for Iuc {
    ghost use Rattle.std.specs.Prelude.{ℕ, ◌<◌, ◌^◌};

    ghost Value = { ℕ };

    ghost view = { λ a. a.number };

    ghost invariant = { λ a. a.number < 2 ^ 4 };

    ghost inverse = { λ n. record { number = n } };
}

impl Iuc {
    /// Request: of one modem, a poll, where the SID is its own; of all where it is everybody's.
    pub const REQUEST: Iuc = Iuc { number: 1 };
    /// REQ/Data.
    pub const REQUEST_OR_DATA: Iuc = Iuc { number: 2 };
    /// Initial Maintenance.
    pub const INITIAL_MAINTENANCE: Iuc = Iuc { number: 3 };
    /// Station Maintenance.
    pub const STATION_MAINTENANCE: Iuc = Iuc { number: 4 };
    /// Short Data Grant.
    pub const SHORT_DATA_GRANT: Iuc = Iuc { number: 5 };
    /// Long Data Grant.
    pub const LONG_DATA_GRANT: Iuc = Iuc { number: 6 };
    /// Null Information Element: its offset is where the last interval ends.
    pub const NULL: Iuc = Iuc { number: 7 };
    /// Advanced PHY Short Data Grant.
    pub const ADVANCED_SHORT_DATA_GRANT: Iuc = Iuc { number: 9 };
    /// Advanced PHY Long Data Grant.
    pub const ADVANCED_LONG_DATA_GRANT: Iuc = Iuc { number: 10 };
    /// Advanced PHY Unsolicited Grant.
    pub const ADVANCED_UNSOLICITED_GRANT: Iuc = Iuc { number: 11 };
    /// Expansion.
    pub const EXPANSION: Iuc = Iuc { number: 15 };

    /// The code, unless it is 2^4 or more.
    pub fn new(number: u8) -> Option<Iuc>
        ensures found { IfSome result (λ iuc. (iuc ≡ number) × (number < 2 ^ 4)) }
        ensures none { IfNone result (2 ^ 4 ≤ number) }
    {
        if number < 1 << 4 {
            Some(Iuc { number })
        } else {
            None
        }
    }

    /// The code as a number.
    pub fn get(self) -> u8
        ensures same { result ≡ self }
        ensures below { result < 2 ^ 4 }
    {
        self.number
    }

    /// Its name in the standard's table; `Reserved` where it has none.
    pub fn name(self) -> &'static str
        ensures { result.now ≡ iucs.iuc_name self }
    {
        match self.number {
            1 => "Request",
            2 => "REQ/Data",
            3 => "Initial Maintenance",
            4 => "Station Maintenance",
            5 => "Short Data Grant",
            6 => "Long Data Grant",
            7 => "Null",
            8 => "Data Acknowledge",
            9 => "Advanced PHY Short Data Grant",
            10 => "Advanced PHY Long Data Grant",
            11 => "Advanced PHY Unsolicited Grant",
            15 => "Expansion",
            _ => "Reserved",
        }
    }

    /// May a modem send a request in an interval of its SID, as at a poll?
    pub fn lets_request(self) -> bool
        ensures { result ≡ iucs.lets_request self }
    {
        self == Iuc::REQUEST
    }

    /// May a modem send data in an interval of its SID?
    pub fn lets_transmit(self) -> bool
        ensures { result ≡ iucs.lets_transmit self }
    {
        matches!(
            self,
            Iuc::SHORT_DATA_GRANT
                | Iuc::LONG_DATA_GRANT
                | Iuc::ADVANCED_SHORT_DATA_GRANT
                | Iuc::ADVANCED_LONG_DATA_GRANT
                | Iuc::ADVANCED_UNSOLICITED_GRANT
        )
    }

    /// Does a modem range in an interval of its SID?
    pub fn lets_range(self) -> bool
        ensures { result ≡ iucs.lets_range self }
    {
        self == Iuc::STATION_MAINTENANCE
    }

    /// Does an element of the SID answer a request that waits, before the Null as granted, after it as pending?
    /// An unsolicited grant doesn't: no request asked for it.
    pub fn answers_request(self) -> bool
        ensures { result ≡ iucs.answers_request self }
    {
        matches!(
            self,
            Iuc::SHORT_DATA_GRANT
                | Iuc::LONG_DATA_GRANT
                | Iuc::ADVANCED_SHORT_DATA_GRANT
                | Iuc::ADVANCED_LONG_DATA_GRANT
        )
    }
}
