//! What a cut asks of its MAP.

ghost use Rattle.std.specs.Prelude.{◌≡◌};
ghost use Rattle.grant_machine_parts.specs.Cutting.{are_within_limits, is_cut_backoff, told_backoff, told_channel};

use flow_state::{Channel, LAST_BACKOFF, MOST_MINISLOTS};

/// What a cut asks of its MAP.
#[derive(Clone, Copy, Debug, PartialEq, Eq)]
pub struct CutSettings {
    /// So many minislots has it, 1 to 4096.
    pub len: u16,
    /// It begins at this minislot or later.
    pub not_before: u64,
    /// The Ack Time that it tells, if that is neither less than the one before nor behind its first minislot.
    pub ack: u64,
    /// No request is granted that would leave fewer minislots free, 0 to 4096.
    pub keep: u16,
    /// The ranging back-off that it tells, its start and its end as exponents of two, 0 to 15; (255, 255) for the
    /// channel's own (CM-SP-MULPIv3.1, MAP: ranging back-off start and end).
    pub ranging_backoff: (u8, u8),
    /// The data back-off, likewise.
    pub data_backoff: (u8, u8),
}

/// Is it a back-off within the limits, or the one that stands for the channel's?
fn is_cut_backoff(pair: (u8, u8)) -> bool
    ensures { result ≡ is_cut_backoff pair }
{
    let (start, end) = pair;
    start == 255 && end == 255 || start <= end && end <= LAST_BACKOFF
}

/// A cut's back-off, or the channel's own where it stands for that.
fn told_backoff(own: (u8, u8), asked: (u8, u8)) -> (u8, u8)
    ensures { result ≡ told_backoff own asked }
{
    if asked.0 == 255 && asked.1 == 255 {
        own
    } else {
        asked
    }
}

impl CutSettings {
    /// Are the minislots that it keeps and its back-offs within the limits?
    pub fn are_within_limits(&self) -> bool
        ensures { result ≡ are_within_limits self.now }
    {
        self.keep <= MOST_MINISLOTS
            && is_cut_backoff(self.ranging_backoff)
            && is_cut_backoff(self.data_backoff)
    }

    /// The channel as the MAP tells it.
    pub fn told(&self, channel: &Channel) -> Channel
        ensures { result ≡ told_channel channel.now self.now }
    {
        Channel {
            ranging_backoff: told_backoff(channel.ranging_backoff, self.ranging_backoff),
            data_backoff: told_backoff(channel.data_backoff, self.data_backoff),
            ..*channel
        }
    }
}
