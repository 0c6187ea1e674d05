//! A handle that C keeps: the address of a block that it owns while it is open.

ghost use Rattle.std.specs.Prelude.{◌≡◌, Option, Some, None, IsSome, is_some, ◌==◌};
ghost use Rattle.upsched_c_node.specs.declared.handle.Held.{Held};

use crate::plain_node::PlainNode;
use crate::status::Status;
use ballots::Letter;
use map_release::Numbered;
use std::alloc::Global;
use std::marker::Model;
use std::mem;
use std::ptr::null_mut;
use upsched_c_parts::Loose;

/// What a handle holds: a node, the letters that its last call sent, and the outputs of its last release.
#[derive(Drop)]
pub struct Held {
    pub node: PlainNode,
    pub letters: Vec<Letter>,
    pub outputs: Vec<Numbered>,
}

/// The block's owner.
#[repr(C)]
#[derive(Drop)]
pub struct Owner {
    at: *mut u8,
    ghost value: { Option Held },
}

impl Model for Owner {
    ghost use Rattle.upsched_c_node.specs.contracts.handle.Held as inner;
    ghost use Rattle.upsched_c_parts.specs.Owned.{owned_if};

    ghost also_owns = { λ h. owned_if inner.the_row h.at h.value };
}

impl Owner {
    fn none() -> Owner
        ensures { result.value ≡ None }
    {
        Owner { at: null_mut() }
    }

    fn of(loose: Loose<Held, Global>) -> Owner
        ensures { result.value ≡ Some loose.value }
    {
        let Loose { at, alloc: _ } = loose;
        Owner { at: at as *mut u8 }
    }

    fn into_loose(self, alloc: Global) -> Loose<Held, Global>
        requires { IsSome self.value }
        ensures { self.value ≡ Some result.value }
    {
        let Owner { at } = self;
        Loose {
            at: at as *mut Held,
            alloc,
        }
    }
}

unsafe impl Send for Owner {}

/// What C keeps. It is open where its number is 2, which is no number of the other library's, and all zero is closed.
#[repr(C)]
#[derive(Drop)]
pub struct Handle {
    owner: Owner,
    kind: u64,
    ghost open: { is_some owner.value ≡ (kind == 2) },
}

impl Handle {
    ghost use Rattle.std.specs.Prelude.{◌≡◌, ◌==◌, None, Some, MatchOption, true};
    ghost use Rattle.upsched_c_node.specs.Handles.{held, without_node};
    ghost use Rattle.upsched_c_node.specs.Opening.{occupied};

    fn closed() -> Handle
        ensures { held result ≡ None }
    {
        Handle {
            owner: Owner::none(),
            kind: 0,
        }
    }

    /// What a call answers where the handle holds no node.
    pub fn without_node(&self) -> Status
        ensures { result ≡ without_node self.now }
    {
        if self.kind == 0 {
            Status::Closed
        } else {
            Status::OtherKind
        }
    }

    /// Whether it is closed, all zero but for its address.
    pub fn is_free(&self) -> bool
        ensures free { result ≡ (self.now.kind == 0) }
        ensures none { result ≡ true → held self.now ≡ None }
    {
        self.kind == 0
    }

    /// What opening a handle that isn't closed answers.
    pub fn occupied(&self) -> Status
        ensures { result ≡ occupied self.now }
    {
        if self.kind == 2 {
            Status::Open
        } else {
            Status::OtherKind
        }
    }

    /// Takes out what the handle holds, which is closed then. One that holds no node stays as it is.
    pub fn take(&mut self, alloc: Global) -> Option<Box<Held>>
        ensures { MatchOption result ((held self.old ≡ None) × (self.new ≡ self.old)) (λ b. (held self.old ≡ Some b.value) × (held self.new ≡ None)) }
    {
        if self.kind != 2 {
            return None;
        }
        let old = mem::replace(self, Handle::closed());
        Some(old.owner.into_loose(alloc).into_box())
    }

    /// Puts a value into a handle that is closed, which is open then.
    pub fn put(&mut self, value: Box<Held>)
        requires { held self.old ≡ None }
        ensures { held self.new ≡ Some value.value }
    {
        let _ = mem::replace(
            self,
            Handle {
                owner: Owner::of(Loose::of(value)),
                kind: 2,
            },
        );
    }
}

fn goes_to_a_thread<T: Send>() {}

/// A handle may go from one thread to another.
pub fn handles_go_to_threads() {
    goes_to_a_thread::<Handle>();
}
