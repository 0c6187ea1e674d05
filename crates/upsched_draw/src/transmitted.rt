//! What the modems of a run transmitted, as the picture of its MAPs takes it.

ghost use Rattle.std.specs.Prelude.{◌≡◌, IfOk, map, slice_get};
ghost use Rattle.upsched_draw.specs.Transmitted.{id_for, told};

use map_picture::Sent;
use seats::Transmission;
use std::alloc::{AllocError, Global};

/// The id of the modem of this number.
fn id_of(ids: &[u32], modem: usize) -> u32
    ensures { result ≡ id_for (slice_get ids.now modem) }
{
    if modem >= ids.len() {
        return 0;
    }
    ids[modem]
}

/// What a modem transmitted, with its id.
fn told(ids: &[u32], t: &Transmission) -> Sent
    ensures { result ≡ told ids.now t.now }
{
    let Transmission {
        modem,
        channel,
        slot,
        sending,
    } = *t;
    Sent {
        modem,
        id: id_of(ids, modem),
        channel,
        slot,
        sending,
    }
}

/// All that modems of these ids transmitted.
pub(crate) fn all_told(
    alloc: Global,
    ids: &[u32],
    transmissions: &[Transmission],
) -> Result<Vec<Sent>, AllocError>
    ensures { IfOk result (λ sent. sent.items ≡ map (told ids.now) transmissions.now) }
{
    let mut sent = Vec::new(alloc);
    for t in transmissions {
        sent.push(told(ids, t))?;
    }
    Ok(sent)
}
