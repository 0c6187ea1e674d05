//! Tallies as text, each without its line's end.

ghost use Rattle.std.specs.Prelude.{◌≡◌, IfOk, string_bytes};
ghost use Rattle.map_stats.specs.Texts.{first_words, map_text, use_text, sid_text};

use crate::tally::Tally;
use std::alloc::{AllocError, Global};

/// The MAPs of the channel that this key is.
pub fn map_text(alloc: Global, key: u32, tally: &Tally) -> Result<String, AllocError>
    ensures { IfOk result (λ text. string_bytes text ≡ map_text key tally.now) }
{
    let Tally { count, minislots } = *tally;
    format!(in alloc; "channel {key} maps {count} minislots {minislots}")
}

/// The intervals of the channel and use of this key, where all MAPs of the channel have so many minislots.
pub fn use_text(alloc: Global, key: u32, tally: &Tally, whole: u64) -> Result<String, AllocError>
    ensures { IfOk result (λ text. string_bytes text ≡ use_text key tally.now whole) }
{
    let Tally { count, minislots } = *tally;
    let channel = key / 16;
    let iuc = key % 16;
    format!(in alloc;
        "channel {channel} iuc {iuc} intervals {count} minislots {minislots} of {whole}"
    )
}

/// Which lease of a SID, where it isn't the first one.
pub(crate) fn first_words(alloc: Global, since: u128) -> Result<String, AllocError>
    ensures { IfOk result (λ text. string_bytes text ≡ first_words since) }
{
    if since == 0 {
        return Ok(String::new(alloc));
    }
    format!(in alloc; " first {since}")
}

/// The intervals of the channel, SID, lease and use of this key.
pub fn sid_text(alloc: Global, key: u128, tally: &Tally) -> Result<String, AllocError>
    ensures { IfOk result (λ text. string_bytes text ≡ sid_text key tally.now) }
{
    let Tally { count, minislots } = *tally;
    let channel = key / (1 << 82);
    let sid = key / (1 << 68) % (1 << 14);
    let first = first_words(alloc, key / (1 << 4) % (1 << 64))?;
    let iuc = key % 16;
    format!(in alloc;
        "channel {channel} sid {sid}{first} iuc {iuc} grants {count} minislots {minislots}"
    )
}
