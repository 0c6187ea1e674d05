ghost use Rattle.std.specs.Prelude.{◌≡◌, ℕ, ◌^◌, ◌&&◌, nat_le};
ghost use Rattle.flow_state.specs.declared.flow.FlowKind.TheVariants.{BestEffort};
ghost use Rattle.flow_state.specs.Limits.{last_time, most_minislots, last_sid, longest_interval, most_waiting, is_size};
ghost use Rattle.flow_state.specs.Limits.{is_backoff, is_good_kind};

/// The last minislot time that a command may have.
pub const LAST_TIME: u64 = 1 << 62;

/// A MAP has at most so many minislots.
pub const MOST_MINISLOTS: u16 = 4096;

/// The last unicast SID (CM-SP-MULPIv3.1, Service Identifier).
pub const LAST_SID: u16 = 8191;

/// The longest interval of unsolicited grants, polls or intervals for ranging, in minislots.
pub const LONGEST_INTERVAL: u32 = 1_000_000;

/// The largest size of a request, an unsolicited grant or an interval for ranging, in minislots.
pub const LARGEST_SIZE: u16 = 255;

/// The last end of a back-off, an exponent of two (CM-SP-MULPIv3.1, MAP: back-off start and end).
pub const LAST_BACKOFF: u8 = 15;

/// The highest priority of a best-effort flow (CM-SP-MULPIv3.1, Traffic Priority).
pub(crate) const HIGHEST_PRIORITY: u8 = 7;

/// So many requests may wait on a channel.
pub(crate) const MOST_WAITING: usize = 118;

/// The limits as numbers, so that each stands in two places.
pub fn limits_are_these()
    ensures times { last_time ≡ 2 ^ 62 }
    ensures minislots { most_minislots ≡ 4096 }
    ensures sids { last_sid ≡ 8191 }
    ensures intervals { longest_interval ≡ 1000000 }
    ensures waiting { most_waiting ≡ 118 }
    ensures sizes { (n : ℕ) → is_size n ≡ (nat_le 1 n && nat_le n 255) }
    ensures backoffs { (start end : ℕ) → is_backoff start end ≡ (nat_le start end && nat_le end 15) }
    ensures priorities { (priority : ℕ) → is_good_kind (BestEffort priority) ≡ nat_le priority 7 }
{}
