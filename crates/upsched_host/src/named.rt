//! The host that words name.

ghost use Rattle.std.specs.Prelude.{◌≡◌, ◌⊎◌, ◌↔◌, ◌≤◌, ◌<◌, ◌^◌, ℕ, IsTrue, MatchOption, MatchResult};
ghost use Rattle.ballots.specs.Members.{member_count};
ghost use Rattle.hosts.specs.New.{ArePlaces};
ghost use Rattle.upsched_host.specs.Named.{IsNewServer, NameHost, NameNone, SayPlaces};

use ballots::{Members, NodeId};
use host_service::{HostServer, number_in};
use hosts::{Host, MOST_EPOCH_PLACES, PlainOpens};
use std::alloc::Global;
use upsched_node::{NO_MEMBER, member_of};

/// How many places of an epoch count where the words don't say.
pub const PLACES_NOT_GIVEN: u64 = 65_536;

/// What is told of words that name no places that an epoch may have.
pub const NO_PLACES: &str = "error: P is 1 to 999000";

/// What `host` is told.
#[derive(Clone, Copy, Debug)]
pub struct HostWords<'a> {
    /// The host's number.
    pub number: &'a str,
    /// How many members there are.
    pub members: &'a str,
    /// How many places of each epoch count, if the words say so.
    pub places: Option<&'a str>,
}

/// Why words name no host.
#[derive(Clone, Copy, Debug, PartialEq, Eq)]
pub enum NoHost {
    /// They name no member.
    Member,
    /// They name one, but no places that an epoch may have.
    Places,
}

impl NoHost {
    /// The line that is told of it, without its end.
    pub fn line(self) -> &'static str {
        match self {
            NoHost::Member => NO_MEMBER,
            NoHost::Places => NO_PLACES,
        }
    }
}

/// A host's number, how many members there are, and how many places of an epoch count.
pub type Who = (NodeId, Members, u64);

/// The number of places that the words say, whether an epoch may have so many or not.
fn places_in(words: &HostWords<'_>) -> Option<u64>
    ensures { MatchOption result ((places : ℕ) → places < 2 ^ 64 → ¬ SayPlaces words.now places) (SayPlaces words.now) }
{
    match words.places {
        Some(word) => number_in(word.as_bytes()),
        None => Some(PLACES_NOT_GIVEN),
    }
}

/// A new host with records in memory, where there is such a member and an epoch may have so many places.
pub(crate) fn new_server(
    alloc: Global,
    id: NodeId,
    members: Members,
    places: u64,
) -> Option<HostServer<PlainOpens>>
    ensures { MatchOption result ((member_count members ≤ id) ⊎ (¬ ArePlaces places)) (λ server. ArePlaces places × IsNewServer server (id, members, places)) }
{
    let opens = PlainOpens::new(alloc, id, members)?;
    match Host::new(alloc, opens, places) {
        Ok(host) => Some(HostServer::new(host)),
        Err(_) => None,
    }
}

/// Whether an epoch may have so many places that count.
fn are_places(places: u64) -> bool
    ensures { IsTrue result ↔ ArePlaces places }
{
    1 <= places && places <= MOST_EPOCH_PLACES
}

/// The host that the words name.
pub fn named_who(words: &HostWords<'_>) -> Result<Who, NoHost>
    ensures { MatchResult result (NameHost words.now) (NameNone words.now) }
{
    let Some((id, members)) = member_of(words.number, words.members) else {
        return Err(NoHost::Member);
    };
    let Some(places) = places_in(words) else {
        return Err(NoHost::Places);
    };
    if !are_places(places) {
        return Err(NoHost::Places);
    }
    Ok((id, members, places))
}

/// The same, and the host itself, which is new.
pub(crate) fn named_host(
    alloc: Global,
    words: &HostWords<'_>,
) -> Result<(Who, HostServer<PlainOpens>), NoHost>
    ensures { MatchResult result (λ new. NameHost words.now new.0 × IsNewServer new.1 new.0) (NameNone words.now) }
{
    let (id, members, places) = named_who(words)?;
    let Some(server) = new_server(alloc, id, members, places) else {
        return Err(NoHost::Places);
    };
    Ok(((id, members, places), server))
}
