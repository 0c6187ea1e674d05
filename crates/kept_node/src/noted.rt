//! A store of a node's writes, and what waits to be stored.

ghost use Rattle.std.specs.Prelude.{◌≡◌, ◌++◌, ◌∷◌, [], ◌==◌, if◌then◌else◌, false, None, IfErr, IfOk, OnOk, vec_capacity};
ghost use Rattle.acceptor.specs.Content.{Content};
ghost use Rattle.acceptor.specs.Faults.{IsHarmless};
ghost use Rattle.kept_node.specs.Noted.{FailsToStore, HasRoom, NotesTo};

use crate::store::WriteStore;
use acceptor::RecordsFault;
use ballots::NodeId;
use node_writes::WriteBytes;
use std::alloc::{AllocError, Global};

/// The most writes that wait.
const MOST_WAITING: usize = 1024;

/// A store of a node's writes, and those that wait to be stored, in order. Once one found no room, or the store broke,
/// no more are stored, for that fault.
#[derive(Drop)]
pub struct NotedWrites<W: WriteStore> {
    store: W,
    waiting: Vec<WriteBytes>,
    ended: Option<RecordsFault>,
}

/// The fault of a store, if it is one after which no more can be stored.
fn lasting(fault: RecordsFault) -> Option<RecordsFault>
    ensures { result ≡ None → IsHarmless fault }
{
    match fault {
        RecordsFault::Broken => Some(fault),
        RecordsFault::Refused | RecordsFault::OutOfMemory => None,
    }
}

impl<W: WriteStore> NotedWrites<W> {
    /// A store for which nothing waits. The want of memory is that of the room for 1,024 writes.
    pub fn new(alloc: Global, store: W) -> Result<NotedWrites<W>, AllocError>
        ensures store { IfOk result (λ n. n.store ≡ store) }
        ensures none { IfOk result (λ n. n.waiting.items ≡ []) }
        ensures goes_on { IfOk result (λ n. n.ended ≡ None) }
        ensures room { IfOk result HasRoom }
    {
        let waiting = Vec::with_capacity(alloc, MOST_WAITING)?;
        Ok(NotedWrites {
            store,
            waiting,
            ended: None,
        })
    }

    /// The store.
    pub fn store(&self) -> &W
        ensures { result.now ≡ self.now.store }
    {
        &self.store
    }

    /// The store, where what waits is let go.
    pub fn into_store(self) -> W
        ensures { result ≡ self.store }
    {
        let NotedWrites {
            store,
            waiting: _,
            ended: _,
        } = self;
        store
    }

    /// Lets a write wait, if it is one. Where there is no room for it, no more are stored.
    pub fn note(&mut self, write: WriteBytes)
        ensures store { self.new.store ≡ self.old.store }
        ensures waits { self.new.ended ≡ None
            → self.new.waiting.items ≡ (if write.kind == 0 then self.old.waiting.items else self.old.waiting.items ++ write ∷ []) }
        ensures ended { self.new.ended ≡ None → self.old.ended ≡ None }
        ensures room { HasRoom self.old → self.new.ended ≡ self.old.ended }
        ensures capacity { vec_capacity self.new.waiting ≡ vec_capacity self.old.waiting }
    {
        if write.kind == 0 {
            return;
        }
        if self.waiting.len() < self.waiting.capacity() {
            self.waiting.push_reserved(write);
        } else {
            self.ended = Some(RecordsFault::OutOfMemory);
        }
    }

    /// Whether something waits, or can't be stored any more.
    pub fn waits(&self) -> bool
        ensures none { result ≡ false → self.now.waiting.items ≡ [] }
        ensures goes_on { result ≡ false → self.now.ended ≡ None }
    {
        self.ended.is_some() || !self.waiting.is_empty()
    }

    /// Whether there is no room for one more write.
    pub fn is_full(&self) -> bool
        ensures { result ≡ false → HasRoom self.now }
    {
        self.ended.is_some() || self.waiting.len() >= self.waiting.capacity()
    }

    /// Stores what waits: all of it, or none. What wasn't stored waits still, unless the store broke.
    pub fn store_waiting(&mut self, id: NodeId) -> Result<(), RecordsFault>
        ensures stored { OnOk result ((c : Content) → NotesTo W.WriteStore self.old id c → NotesTo W.WriteStore self.new id c) }
        ensures none { OnOk result (self.new.waiting.items ≡ []) }
        ensures goes_on { OnOk result (self.new.ended ≡ None) }
        ensures fails { IfErr result (λ why. (c : Content) → NotesTo W.WriteStore self.old id c
            → NotesTo W.WriteStore self.new id c × FailsToStore W.WriteStore why self.old.store self.new.store c) }
        ensures capacity { vec_capacity self.new.waiting ≡ vec_capacity self.old.waiting }
    {
        if let Some(fault) = self.ended {
            return Err(fault);
        }
        if let Err(fault) = self.store.store_all(id, &self.waiting) {
            self.ended = lasting(fault);
            return Err(fault);
        }
        self.waiting.clear();
        Ok(())
    }
}
