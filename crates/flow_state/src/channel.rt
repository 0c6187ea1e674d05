ghost use Rattle.std.specs.Prelude.{◌≡◌};
ghost use Rattle.flow_state.specs.Limits.{is_good_channel};

use crate::limits::{LAST_BACKOFF, LAST_TIME};

/// Which bursts an upstream channel has (CM-SP-MULPIv3.1, MAP message: interval usage codes): by it grants
/// have the codes of data grants, or those of Advanced PHY grants.
#[derive(Clone, Copy, Debug, PartialEq, Eq)]
pub enum Phy {
    Tdma,
    Advanced,
}

/// An upstream channel as it is set. Each back-off is its start and its end, as exponents of two,
/// 0 to 15 (CM-SP-MULPIv3.1, MAP: ranging and data back-off start and end).
#[derive(Clone, Copy, Debug, PartialEq, Eq)]
pub struct Channel {
    pub id: u8,
    pub ucd: u8,
    pub phy: Phy,
    /// Grants of up to so many minislots are short data grants. At least 1.
    pub short_max: u16,
    pub ranging_backoff: (u8, u8),
    pub data_backoff: (u8, u8),
    /// The minislot at which the first MAP begins, at most 2^62.
    pub base: u64,
}

impl Channel {
    /// Are all values within the limits?
    pub fn is_good(self) -> bool
        ensures { result ≡ is_good_channel self }
    {
        let (ranging_start, ranging_end) = self.ranging_backoff;
        let (data_start, data_end) = self.data_backoff;
        ranging_start <= ranging_end
            && ranging_end <= LAST_BACKOFF
            && data_start <= data_end
            && data_end <= LAST_BACKOFF
            && self.short_max > 0
            && self.base <= LAST_TIME
    }
}

/// A channel, with the minislot at which its next MAP begins and its Ack Time.
#[derive(Clone, Copy, Debug, PartialEq, Eq)]
pub struct ChannelRow {
    pub channel: Channel,
    pub next_start: u64,
    pub ack: u64,
}
