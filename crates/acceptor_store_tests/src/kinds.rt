//! Files in which an older kind of tables is made into a newer one, stopped at each call on one of
//! them in turn.

use crate::files::{Bodies, FOUND, Fused, Stopped, found, is_again, left_behind, stopping};
use crate::uses::{Opens, Way, used_in};
use sqlite::Files;
use std::alloc::Global;
use std::test::Fail;

/// Tells an older kind of tables from a newer one.
pub trait TellsKinds: Drop {
    /// Whether these files have the newer kind. It fails where they have neither, or where their
    /// records hold something else.
    fn is_newer(&self, alloc: Global, files: Files<Fused>) -> Result<bool, Fail>;
}

/// Whether the older kind, and whether the newer one, is among what may be found.
fn kinds_of<T: TellsKinds>(
    alloc: Global,
    bodies: &Bodies,
    teller: &T,
) -> Result<(bool, bool), Fail> {
    let mut kinds = (false, false);
    for which in FOUND {
        if is_again(bodies, which) {
            continue;
        }
        if teller.is_newer(alloc, found(alloc, bodies, which)?)? {
            kinds.1 = true;
        } else {
            kinds.0 = true;
        }
    }
    Ok(kinds)
}

/// Opens the files: whether that went through, and the files again.
fn tried(alloc: Global, files: Files<Fused>, way: Way) -> Result<(bool, Files<Fused>), Fail> {
    let (answer, files) = used_in(alloc, files, way, Opens)?;
    Ok((answer.is_ok(), files))
}

/// What an open in this way leaves that stops after so many calls, and whether it went through.
fn stop_at(
    alloc: Global,
    bodies: &Bodies,
    way: Way,
    stopped: Stopped,
    calls: u64,
) -> Result<(bool, Bodies), Fail> {
    let bytes = (bodies.log.written.as_slice(), bodies.db.written.as_slice());
    let (is_open, files) = tried(alloc, stopping(alloc, bytes, stopped, calls)?, way)?;
    Ok((is_open, left_behind(alloc, files)?))
}

/// Stops at each call in turn: how many stops left the older kind alone, and how many left either.
/// An open that goes through leaves the newer one alone.
pub fn stops<T: TellsKinds>(
    alloc: Global,
    bodies: &Bodies,
    way: Way,
    stopped: Stopped,
    teller: &T,
) -> Result<(u64, u64), Fail> {
    let mut counts = (0u64, 0u64);
    for calls in 0..300u64 {
        let (is_open, left) = stop_at(alloc, bodies, way, stopped, calls)?;
        match (is_open, kinds_of(alloc, &left, teller)?) {
            (true, (false, true)) => return Ok(counts),
            (false, (true, false)) => counts.0 = counts.0.saturating_add(1),
            (false, (true, true)) => counts.1 = counts.1.saturating_add(1),
            (_, kinds) => return Err(Fail::new(format_args!("{calls}: {is_open} {kinds:?}"))),
        }
    }
    Err(Fail::new("the open never goes through"))
}
