//! Owners in words, and SIDs of keys.

ghost use Rattle.std.specs.Prelude.{◌≡◌, ◌%◌, ◌^◌, IfOk, string_bytes};
ghost use Rattle.map_picture.specs.Cells.{owner_name};

use map_body::Sid;
use std::alloc::{AllocError, Global};

/// Whose minislots of a SID are.
pub(crate) fn owner_name(alloc: Global, sid: Sid) -> Result<String, AllocError>
    ensures { IfOk result (λ text. string_bytes text ≡ owner_name sid) }
{
    if sid == Sid::EVERYBODY {
        return String::from_str(alloc, "all");
    }
    let sid = sid.get();
    format!(in alloc; "sid {sid}")
}

/// The SID of a key, which is channel * 2^16 + SID.
pub(crate) fn sid_of(key: u32) -> u16
    ensures { result ≡ key % 2 ^ 16 }
{
    (key % (1 << 16)) as u16
}
