//! Whether journals are the lines of legal records.

ghost use Rattle.std.specs.Prelude.{◌≡◌, IfErr, IfOk, IsOk, MatchOption, Some, length, slice_get};
ghost use Rattle.ballots.specs.Members.{member_count};
ghost use Rattle.node_journal.specs.Following.{StopsSo};
ghost use Rattle.node_journal.specs.Legal.{AreLegalJournals};
ghost use Rattle.node_journal.specs.Tears.{IsTear, line_of};
ghost use Rattle.node_journal.specs.declared.audits.Verdict.TheVariants.{Torn, Yes};
ghost use Rattle.node_journal.specs.declared.tear.Tear.{Tear as TearView};

use crate::following::{Stop, follow_all};
use crate::tear::{Tear, Why};
use ballots::{Bytes, Members};
use seats::OutOfMemory;
use std::alloc::Global;

/// How often journals are followed anew where a line without a reply may have been taken for the wrong.
const MOST_TRIES: usize = 1000;

/// What an audit finds.
#[derive(Clone, Copy, Debug, PartialEq, Eq)]
pub enum Verdict {
    /// The journals are the lines of legal records.
    Yes,
    /// A journal isn't followed behind the beginning of a line.
    Torn(Tear),
}

/// The number of the line in which a place of a text stands.
fn line_at(text: &[u8], place: usize) -> usize
    ensures { result ≡ line_of text.now place }
{
    let mut line = 1usize;
    for i in 0..place.min(text.len()) {
        if text[i] == b'\n' {
            line += 1;
        }
    }
    line
}

/// Takes the last of so many lines without a reply the other way, and those behind it the first way. False where each
/// way was taken.
fn take_next(skips: &mut Vec<bool>, doubts: usize) -> Result<bool, OutOfMemory> {
    skips.truncate(doubts);
    for _ in skips.len()..doubts {
        skips.push(false)?;
    }
    for i in (0..skips.len()).rev() {
        if !skips[i] {
            skips[i] = true;
            return Ok(true);
        }
        skips[i] = false;
    }
    Ok(false)
}

/// Takes a line without a reply of the journal that doesn't go on the other way. False where it waits for a letter, or
/// each way was taken.
fn try_next(skips: &mut Vec<Vec<bool>>, stop: Stop) -> Result<bool, OutOfMemory> {
    if stop.waits {
        return Ok(false);
    }
    match skips.get_mut(stop.journal) {
        Some(skipped) => take_next(skipped, stop.doubts),
        None => Ok(false),
    }
}

/// The line that a journal doesn't go on with, and why.
fn tear_at(members: Members, journals: &[Bytes], stop: Stop) -> Tear
    requires members { length journals.now ≡ member_count members }
    requires stop { StopsSo members journals.now stop }
    ensures { IsTear members journals.now result }
{
    Tear {
        journal: stop.journal,
        line: line_at(journals[stop.journal].as_slice(), stop.place),
        why: stop.why,
    }
}

/// No line without a reply is taken the other way.
fn no_skips(alloc: Global, journals: &[Bytes]) -> Result<Vec<Vec<bool>>, OutOfMemory> {
    let mut skips = Vec::new(alloc);
    for _ in journals {
        skips.push(Vec::new(alloc))?;
    }
    Ok(skips)
}

/// Follows the journals, and where one isn't followed takes the lines without a reply the other way, a thousand times in
/// all. Where none of the ways leads to all ends, the last one of those that lead furthest.
fn follow_each_way(
    alloc: Global,
    members: Members,
    journals: &[Bytes],
) -> Result<Result<(), Stop>, OutOfMemory>
    requires { length journals.now ≡ member_count members }
    ensures legal { IfOk result (λ found. IsOk found → AreLegalJournals members journals.now) }
    ensures stop { IfOk result (λ found. IfErr found (StopsSo members journals.now)) }
{
    let mut skips = no_skips(alloc, journals)?;
    let Err(first) = follow_all(alloc, members, journals, &skips)? else {
        return Ok(Ok(()));
    };
    let mut last = first;
    let mut furthest = first;
    for _ in 1..MOST_TRIES {
        if !try_next(&mut skips, last)? {
            return Ok(Err(furthest));
        }
        let Err(stop) = follow_all(alloc, members, journals, &skips)? else {
            return Ok(Ok(()));
        };
        last = stop;
        if stop.place >= furthest.place {
            furthest = stop;
        }
    }
    Ok(Err(furthest))
}

/// Whether the journals of so many members, by number, are the lines of legal records: each node does again what its
/// lines ask, and each reply is the one that is there; and each letter that came was sent before. Where a line has no
/// reply, both is tried, that it was obeyed and that it wasn't, a thousand times in all. Of torn journals it says where
/// one isn't followed, and why.
pub fn audit(alloc: Global, members: Members, journals: &[Bytes]) -> Result<Verdict, OutOfMemory>
    ensures legal { IfOk result (λ verdict. verdict ≡ Yes → AreLegalJournals members journals.now) }
    ensures torn { IfOk result (λ verdict. (tear : TearView) → verdict ≡ Torn tear → IsTear members journals.now tear) }
{
    if journals.len() != usize::from(members.count()) {
        return Ok(Verdict::Torn(Tear {
            journal: journals.len(),
            line: 1,
            why: Why::NoLine,
        }));
    }
    match follow_each_way(alloc, members, journals)? {
        Ok(()) => Ok(Verdict::Yes),
        Err(stop) => Ok(Verdict::Torn(tear_at(members, journals, stop))),
    }
}
