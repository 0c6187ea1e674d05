//! What a host's line asks.

ghost use Rattle.std.specs.Prelude.{◌≡◌, ◌≤◌, false, MatchOption, MatchResult, drop, vec_len};
ghost use Rattle.node_lines.specs.Lines.{Asks};
ghost use Rattle.host_service.specs.Asking.{AsksHost, AsksNoHost, is_apart};
ghost use Rattle.host_service.specs.Replying.{IsAskedOfNode, IsNoRelease, IsNotAskedOfNode, is_release};

use ballots::Bytes;
use node_lines::{LineFault, Request, behind, bytes_from, read_line};
use std::alloc::Global;

/// What a line without a number asks of a host.
#[derive(Drop)]
pub enum HostRequest {
    /// To release what it can by this time, in minislots.
    Release(u64),
    /// The state at the start of its own epoch.
    State,
    /// To go to the start of the epoch of this state.
    Join(Bytes),
    /// What modems need that begin anew.
    Again,
}

/// Whether a line begins with no digit, as each line does that asks a host, and none that has a number.
pub(crate) fn is_apart(line: &[u8]) -> bool
    ensures { result ≡ is_apart line.now }
{
    match line.first() {
        Some(byte) => !byte.is_ascii_digit(),
        None => true,
    }
}

/// What is behind a place of the line, in the line's memory.
pub(crate) fn rest_of(line: Vec<u8>, place: usize) -> Vec<u8>
    requires { place ≤ vec_len line }
    ensures { result.items ≡ drop place line.items }
{
    let mut rest = line;
    let len = rest.len();
    rest.copy_within(place..len, 0);
    rest.truncate(len - place);
    rest
}

/// The time of a release.
fn time_of(asked: &Request) -> Option<u64>
    ensures { MatchOption result (is_release asked.now ≡ false) (λ now. asked.now ≡ Request.Release now) }
{
    match asked {
        Request::Release(now) => Some(*now),
        _ => None,
    }
}

/// What is asked of the node of an epoch behind the number. It is never asked to release.
pub(crate) fn asked_of_node(alloc: Global, rest: Vec<u8>) -> Result<Request, LineFault>
    ensures { MatchResult result (IsAskedOfNode rest.items) (IsNotAskedOfNode rest.items) }
{
    match read_line(alloc, Bytes::new(rest)) {
        Ok(asked) => match time_of(&asked) {
            Some(_) => Err(LineFault::NoLine),
            None => Ok(asked),
        },
        Err(why) => Err(why),
    }
}

/// When a line asks to release.
fn release_in(alloc: Global, line: Vec<u8>) -> Result<u64, LineFault>
    ensures { MatchResult result (λ now. Asks line.items (Request.Release now)) (IsNoRelease line.items) }
{
    let Some(_) = behind(&line, b"release ") else {
        return Err(LineFault::NoLine);
    };
    match read_line(alloc, Bytes::new(line)) {
        Ok(asked) => match time_of(&asked) {
            Some(now) => Ok(now),
            None => Err(LineFault::NoLine),
        },
        Err(why) => Err(why),
    }
}

/// What a line without a number asks of a host. The digits of a state are decoded in the line's memory.
pub(crate) fn asked_of_host(alloc: Global, line: Vec<u8>) -> Result<HostRequest, LineFault>
    ensures { MatchResult result (AsksHost line.items) (AsksNoHost line.items) }
{
    if line.as_slice() == b"state".as_slice() {
        return Ok(HostRequest::State);
    }
    if line.as_slice() == b"again".as_slice() {
        return Ok(HostRequest::Again);
    }
    if let Some(place) = behind(&line, b"join ") {
        return Ok(HostRequest::Join(Bytes::new(bytes_from(line, place)?)));
    }
    match release_in(alloc, line) {
        Ok(now) => Ok(HostRequest::Release(now)),
        Err(why) => Err(why),
    }
}
