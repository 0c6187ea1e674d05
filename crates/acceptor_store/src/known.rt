//! The numbers of the records that are kept in memory beside the tables, so that no read of them is a query, and a
//! write that is counted needs none.

ghost use Rattle.std.specs.Prelude.{◌≡◌, ◌==◌, ◌≤◌, ◌-◌, ◌^◌, max, false, if◌then◌else◌, IfErr, IfOk, OnOk, Some};
ghost use Rattle.ballots.specs.Ballots.{number_of};
ghost use Rattle.ballots.specs.declared.letters.Cast.{Cast};
ghost use Rattle.acceptor.specs.Content.{Content, after_write, greatest, no_content, promised};
ghost use Rattle.sqlite.specs.State.{HasCleanDisk, Survives};
ghost use Rattle.sqlite.specs.Held.{state};
ghost use Rattle.acceptor_store_parts.specs.Asked.{write_of};
ghost use Rattle.acceptor_store_parts.specs.Serves.{DoesNotServe, ServesFor, StaysOpen, StillServes};
ghost use Rattle.acceptor_store_parts.specs.Stops.{LeavesOpen};
ghost use Rattle.acceptor_store.specs.Counting.{Follows, HasCounted, MayHaveCounted};
ghost use Rattle.acceptor_store.specs.Linked.{AreNumbersOf, greatest_beside};

use acceptor_store_parts::{Owner, Put, Stop, version_of_owner};
use ballots::{Ballot, Cast, Place, Votes, higher};
use sqlite::{Alter, Connection};
use std::alloc::Global;

/// The last ballot tried, the promised one, and the count of an owner's tables.
#[derive(Clone, Copy, Debug, Drop)]
pub struct Numbers {
    pub tried: Option<Ballot>,
    pub promised: Option<Ballot>,
    /// None without an owner.
    pub count: Option<u64>,
}

impl Numbers {
    /// Those of records without content.
    pub fn none(count: Option<u64>) -> Numbers
        ensures content { AreNumbersOf result no_content }
        ensures count { result.count ≡ count }
    {
        Numbers {
            tried: None,
            promised: None,
            count,
        }
    }

    /// The same at this count.
    pub fn at(self, count: Option<u64>) -> Numbers
        ensures ballots { (result.tried ≡ self.tried) × (result.promised ≡ self.promised) }
        ensures count { result.count ≡ count }
    {
        Numbers {
            tried: self.tried,
            promised: self.promised,
            count,
        }
    }
}

/// The greatest of a ballot and those of the votes.
#[tactic(auto, using(acceptor::proofs::Greatest::greatest_max))]
pub fn greatest_of(ballot: Option<Ballot>, votes: &[(u64, Cast)]) -> Option<Ballot>
    ensures { number_of result ≡ greatest (number_of ballot) votes.now }
{
    let mut most = ballot;
    for vote in votes {
        most = higher(most, vote.1.ballot);
    }
    most
}

fn higher_beside(most: Option<Ballot>, vote: &(u64, Cast), place: u64) -> Option<Ballot>
    ensures { number_of result ≡ (if vote.now.0 == place then number_of most else max (number_of most) vote.now.1.ballot) }
{
    if vote.0 == place {
        return most;
    }
    higher(most, vote.1.ballot)
}

/// The greatest of a ballot and those of the votes at other places.
fn greatest_without(ballot: Option<Ballot>, votes: &[(u64, Cast)], place: u64) -> Option<Ballot>
    ensures { number_of result ≡ greatest_beside place (number_of ballot) votes.now }
{
    let mut most = ballot;
    for vote in votes {
        most = higher_beside(most, vote, place);
    }
    most
}

/// The ballot tried, the promised row and the votes.
pub fn ballots_in<S: Alter>(
    alloc: Global,
    conn: &mut Connection<S>,
    owner: Option<Owner>,
) -> Result<(Option<Ballot>, Option<Ballot>, Votes), Stop>
    ensures value { HasCleanDisk (state S.Store conn.new) → IfOk result (λ r. (c : Content) → ServesFor owner (state S.Store conn.old) c
        → (number_of r.0 ≡ c.tried) × (number_of r.1 ≡ c.row) × (r.2 ≡ c.votes)) }
    ensures stays { HasCleanDisk (state S.Store conn.new) → StaysOpen result → StillServes (state S.Store conn.old) (state S.Store conn.new) }
    ensures survives { Survives (state S.Store conn.old) (state S.Store conn.new) (λ _. DoesNotServe (state S.Store conn.old)) }
{
    let Some(numbers) = acceptor_store_parts::read_numbers(conn, version_of_owner(owner))? else {
        return Err(Stop::Down);
    };
    let Some(first) = Place::new(1) else {
        return Err(Stop::Down);
    };
    let votes: Votes = acceptor_store_parts::find(alloc, conn, first)?;
    Ok((numbers.0, numbers.1, votes))
}

/// The numbers, as the tables have them, with this count.
pub fn numbers_of<S: Alter>(
    alloc: Global,
    conn: &mut Connection<S>,
    owner: Option<Owner>,
    count: Option<u64>,
) -> Result<Numbers, Stop>
    ensures value { HasCleanDisk (state S.Store conn.new) → IfOk result (λ n. (c : Content) → ServesFor owner (state S.Store conn.old) c → AreNumbersOf n c) }
    ensures count { IfOk result (λ n. n.count ≡ count) }
    ensures stays { HasCleanDisk (state S.Store conn.new) → StaysOpen result → StillServes (state S.Store conn.old) (state S.Store conn.new) }
    ensures survives { Survives (state S.Store conn.old) (state S.Store conn.new) (λ _. DoesNotServe (state S.Store conn.old)) }
{
    let (tried, row, votes) = ballots_in(alloc, conn, owner)?;
    let promised = greatest_of(row, votes.rows());
    Ok(Numbers {
        tried,
        promised,
        count,
    })
}

pub fn is_below(ballot: Ballot, other: Option<Ballot>) -> bool
    ensures { result ≡ false → number_of other ≤ ballot }
{
    match other {
        Some(other) => ballot.number() < other.number(),
        None => false,
    }
}

/// The numbers once this row is written. A query is made only where its ballot is below the promised one.
fn numbers_with<S: Alter>(
    alloc: Global,
    conn: &mut Connection<S>,
    owner: Option<Owner>,
    before: Numbers,
    put: &Put<'_>,
) -> Result<Numbers, Stop>
    ensures value { HasCleanDisk (state S.Store conn.new) → IfOk result (λ n. (c : Content) → ServesFor owner (state S.Store conn.old) c
        → AreNumbersOf before c → AreNumbersOf n (after_write c (Some (write_of put.now)))) }
    ensures stays { HasCleanDisk (state S.Store conn.new) → StaysOpen result → StillServes (state S.Store conn.old) (state S.Store conn.new) }
    ensures survives { Survives (state S.Store conn.old) (state S.Store conn.new) (λ _. DoesNotServe (state S.Store conn.old)) }
{
    let mut numbers = before;
    match *put {
        Put::Tried(ballot) => {
            numbers.tried = Some(ballot);
            Ok(numbers)
        }
        Put::Promised(ballot) => {
            if !is_below(ballot, before.promised) {
                numbers.promised = Some(ballot);
                return Ok(numbers);
            }
            let (_tried, _row, votes) = ballots_in(alloc, conn, owner)?;
            numbers.promised = greatest_of(Some(ballot), votes.rows());
            Ok(numbers)
        }
        Put::Vote(place, ballot, _) => {
            if !is_below(ballot, before.promised) {
                numbers.promised = Some(ballot);
                return Ok(numbers);
            }
            let (_tried, row, votes) = ballots_in(alloc, conn, owner)?;
            numbers.promised = greatest_without(higher(row, ballot), votes.rows(), place.number());
            Ok(numbers)
        }
        Put::Learned(_, _) => Ok(numbers),
    }
}

/// The count of the next transaction, where there is one. Where eight bytes hold no further one it is Refused.
pub fn next_count(count: Option<u64>) -> Result<Option<u64>, Stop>
    ensures next { IfOk result (Follows count) }
    ensures full { IfErr result (λ e. (e ≡ Stop.Refused) × (count ≡ Some (2 ^ 64 - 1))) }
{
    let Some(before) = count else {
        return Ok(None);
    };
    match before.checked_add(1) {
        Some(next) => Ok(Some(next)),
        None => Err(Stop::Refused),
    }
}

/// Writes a row, and gives the numbers then. Where the count is at its end, it is Refused.
pub fn written<S: Alter>(
    alloc: Global,
    conn: &mut Connection<S>,
    owner: Option<Owner>,
    before: Numbers,
    put: &Put<'_>,
) -> Result<Numbers, Stop>
    ensures value { HasCleanDisk (state S.Store conn.new) → IfOk result (λ n. (c : Content) → ServesFor owner (state S.Store conn.old) c
        → AreNumbersOf before c → AreNumbersOf n (after_write c (Some (write_of put.now)))) }
    ensures ok { HasCleanDisk (state S.Store conn.new)
        → IfOk result (λ n. HasCounted owner before.count n.count (state S.Store conn.old) (state S.Store conn.new) (write_of put.now)) }
    ensures err { HasCleanDisk (state S.Store conn.new) → IfErr result (λ e. LeavesOpen e → StillServes (state S.Store conn.old) (state S.Store conn.new)) }
    ensures survives { Survives (state S.Store conn.old) (state S.Store conn.new)
        (MayHaveCounted owner before.count (state S.Store conn.old) (write_of put.now)) }
{
    let next = next_count(before.count)?;
    let numbers = numbers_with(alloc, conn, owner, before, put)?;
    acceptor_store_parts::put_row(conn, put, next)?;
    Ok(numbers.at(next))
}
