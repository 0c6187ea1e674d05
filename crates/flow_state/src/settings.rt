ghost use Rattle.std.specs.Prelude.{◌≡◌};
ghost use Rattle.flow_state.specs.Limits.{are_good_settings, is_backoff};
ghost use Rattle.flow_state.specs.Refusals.{is_good_count};
ghost use Rattle.flow_state.specs.Changes.{with_settings};

use crate::channel::{Channel, Phy};
use crate::limits::LAST_BACKOFF;

/// What a change gives a channel, in the place of what it has (CM-SP-MULPIv3.1, Upstream Channel Descriptor). Each
/// back-off is its start and its end, as exponents of two, 0 to 15.
#[derive(Clone, Copy, Debug, PartialEq, Eq)]
pub struct ChannelSettings {
    /// The channel's UCD Count, or the next one: 0 comes after 255.
    pub ucd: u8,
    /// Under the channel's own count the channel's.
    pub phy: Phy,
    /// Grants of up to so many minislots are short data grants. At least 1, and under the channel's own count the
    /// channel's.
    pub short_max: u16,
    pub ranging_backoff: (u8, u8),
    pub data_backoff: (u8, u8),
}

/// May a back-off have this start and end?
fn is_backoff(start: u8, end: u8) -> bool
    ensures { result ≡ is_backoff start end }
{
    start <= end && end <= LAST_BACKOFF
}

impl ChannelSettings {
    /// Are all values within the limits?
    pub(crate) fn are_good(self) -> bool
        ensures { result ≡ are_good_settings self }
    {
        let (ranging_start, ranging_end) = self.ranging_backoff;
        let (data_start, data_end) = self.data_backoff;
        is_backoff(ranging_start, ranging_end)
            && is_backoff(data_start, data_end)
            && self.short_max > 0
    }

    /// Is the UCD Count the channel's next one, or the channel's with its PHY and size of short grants?
    pub(crate) fn is_good_count(self, channel: Channel) -> bool
        ensures { result ≡ is_good_count channel self }
    {
        if self.ucd == channel.ucd {
            self.phy == channel.phy && self.short_max == channel.short_max
        } else {
            self.ucd == channel.ucd.wrapping_add(1)
        }
    }

    /// The channel with these settings.
    pub(crate) fn given_to(self, channel: Channel) -> Channel
        ensures { result ≡ with_settings channel self }
    {
        Channel {
            ucd: self.ucd,
            phy: self.phy,
            short_max: self.short_max,
            ranging_backoff: self.ranging_backoff,
            data_backoff: self.data_backoff,
            ..channel
        }
    }
}
