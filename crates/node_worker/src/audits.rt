//! Whether records are what the nodes did.

ghost use Rattle.std.specs.Prelude.{◌≡◌, ◌<◌, ◌≤◌, ◌↔◌, ℕ, length, IsTrue, IsOk, IfErr, count_by, ◌==◌, []};
ghost use Rattle.node_worker.specs.KeptView.{IsReplay};
ghost use Rattle.node_worker.specs.Legal.{entries_of, letters_of, Comes};
ghost use Rattle.node_worker.specs.Runs.{AreLegal};
ghost use Rattle.node_worker.specs.Audits.{FitsAt, IsEntry, AreCounted, IsWhole, IsTorn, IsCluster, AreReplays};

use crate::entry::Record;
use crate::kept::Kept;
use crate::plant::has_come;
use crate::sent::LetterPlace;
use node::Node;

/// The number of the first record that fails, or how many there are where entries are left over.
#[derive(Clone, Copy, Debug, PartialEq, Eq)]
pub struct Torn(pub usize);

// Whether the record is entry number n of its node.
fn is_entry<N: Node>(kepts: &[Kept<N>], next: &Record, n: usize) -> bool
    ensures { IsTrue result ↔ IsEntry kepts.now next.now n }
{
    let Some(kept) = kepts.get(usize::from(next.node.number())) else {
        return false;
    };
    match kept.entries().get(n) {
        Some(entry) => next.entry.is_same(entry),
        None => false,
    }
}

// Whether the record is entry number n of its node, and may come after these. The search for a received letter begins
// at a place.
fn follows<N: Node>(
    kepts: &[Kept<N>],
    before: &[Record],
    next: &Record,
    n: usize,
    place: &mut LetterPlace,
) -> bool
    ensures { IsTrue result ↔ IsEntry kepts.now next.now n × Comes (letters_of before.now) next.now.node next.now.entry.cause }
{
    is_entry(kepts, next, n) && has_come(before, next, place)
}

// How many records fit, one after another. Each is compared with its node's next entry alone, and its letter is looked
// for from where its node's last one was found.
fn count_fitting<N: Node>(kepts: &[Kept<N>], records: &[Record]) -> usize
    ensures within { result ≤ length records.now }
    ensures before { (j : ℕ) → j < result → FitsAt kepts.now records.now j }
    ensures here { result < length records.now → FitsAt kepts.now records.now result → ⊥ }
{
    let mut counts = [0usize; 5];
    let mut places = [LetterPlace {
        record: 0,
        letter: 0,
    }; 5];
    for i in 0..records.len() {
        let next = &records[i];
        let node = usize::from(next.node.number());
        let count = counts[node];
        if !follows(kepts, &records[..i], next, count, &mut places[node]) {
            return i;
        }
        counts[node] = count + 1;
    }
    records.len()
}

// How many records are of this node.
fn count_of(records: &[Record], node: usize) -> usize
    ensures { result ≡ count_by (λ d. d.node == node) records.now }
{
    records
        .iter()
        .filter(|r| usize::from(r.node.number()) == node)
        .count()
}

// Whether node k has as many records as entries.
fn is_counted<N: Node>(kept: &Kept<N>, k: usize, records: &[Record]) -> bool
    ensures counts { IsTrue result ↔ (length (entries_of k records.now) ≡ length kept.now.entries) }
    ensures replay { IsReplay kept.now }
{
    count_of(records, k) == kept.entries().len()
}

// Whether each node has as many records as entries.
fn are_counted<N: Node>(kepts: &[Kept<N>], records: &[Record]) -> bool
    ensures counts { IsTrue result ↔ AreCounted kepts.now records.now }
    ensures replays { IsTrue result → AreReplays kepts.now }
{
    for k in 0..kepts.len() {
        if !is_counted(&kepts[k], k, records) {
            return false;
        }
    }
    true
}

/// Whether the records are what the nodes did, in an order in which it can have happened. It takes no memory.
pub fn audit<N: Node>(kepts: &[Kept<N>], records: &[Record]) -> Result<(), Torn>
    ensures ok { IsOk result ↔ IsWhole kepts.now records.now }
    ensures torn { IfErr result (λ t. IsTorn kepts.now records.now t.0) }
    ensures legal { IsOk result → IsCluster kepts.now → AreLegal (length kepts.now) records.now [] }
{
    let count = count_fitting(kepts, records);
    if count < records.len() {
        return Err(Torn(count));
    }
    if !are_counted(kepts, records) {
        return Err(Torn(count));
    }
    Ok(())
}
