//! Why a request waits.

ghost use Rattle.std.specs.Prelude.{◌≡◌, IfOk, string_bytes};
ghost use Rattle.plan_account.specs.Whys.{why_in};
ghost use Rattle.plan_account.specs.WhyTexts.{gap_words, kept_words, placement_words, why_name, why_words};

use crate::reach::Reach;
use grant_machine_parts::MOST_PLACEMENTS;
use std::alloc::{AllocError, Global};

/// Why a request waits: the first of these that holds.
#[derive(Clone, Copy)]
pub enum Why {
    /// No later MAP has room for it in its lease.
    LeaseEnds,
    /// No MAP was cut since it was accepted.
    NoMap,
    /// The last MAP left no gap so long. The longest one has so many minislots.
    NoGap(u16),
    /// The last MAP left a gap so long, but had as many placements as a MAP may have.
    Placements,
    /// The last MAP left a gap so long and could have placed it, but its cut kept so many minislots free.
    Kept(u16),
}

/// Why a request for n minislots waits, of a lease with this last minislot, that was accepted behind so many MAPs.
pub(crate) fn why_in(reach: Reach, last: u64, n: u16, maps: u64) -> Why
    ensures { result ≡ why_in reach last n maps }
{
    let free = u128::from(last) + 1;
    if free < u128::from(reach.end) + u128::from(n) {
        Why::LeaseEnds
    } else if maps == reach.maps {
        Why::NoMap
    } else if reach.left.gap < n {
        Why::NoGap(reach.left.gap)
    } else if reach.left.placed >= MOST_PLACEMENTS as u64 {
        Why::Placements
    } else {
        Why::Kept(reach.left.keep)
    }
}

/// The name of a reason.
pub fn why_name(why: Why) -> &'static str
    ensures { result.now ≡ why_name why }
{
    match why {
        Why::LeaseEnds => "lease-ends",
        Why::NoMap => "no-map",
        Why::NoGap(_) => "no-gap",
        Why::Placements => "placements",
        Why::Kept(_) => "kept",
    }
}

fn gap_words(alloc: Global, longest: u16) -> Result<String, AllocError>
    ensures { IfOk result (λ text. string_bytes text ≡ gap_words longest) }
{
    if longest == 0 {
        String::from_str(alloc, "no gap left")
    } else {
        format!(in alloc; "no gap above {longest}")
    }
}

fn placement_words(alloc: Global) -> Result<String, AllocError>
    ensures { IfOk result (λ text. string_bytes text ≡ placement_words) }
{
    let most = MOST_PLACEMENTS;
    format!(in alloc; "{most} are placed already")
}

fn kept_words(alloc: Global, keep: u16) -> Result<String, AllocError>
    ensures { IfOk result (λ text. string_bytes text ≡ kept_words keep) }
{
    format!(in alloc; "{keep} are kept free")
}

/// A reason in words.
pub fn why_words(alloc: Global, why: Why) -> Result<String, AllocError>
    ensures { IfOk result (λ text. string_bytes text ≡ why_words why) }
{
    match why {
        Why::LeaseEnds => String::from_str(alloc, "its lease ends first"),
        Why::NoMap => String::from_str(alloc, "no MAP since"),
        Why::NoGap(longest) => gap_words(alloc, longest),
        Why::Placements => placement_words(alloc),
        Why::Kept(keep) => kept_words(alloc, keep),
    }
}
