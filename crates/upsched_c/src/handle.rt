//! A handle that C keeps: the address of a block that it owns while it is open.

ghost use Rattle.std.specs.Prelude.{◌≡◌, Option, Some, None, IsSome, is_some, ◌==◌};
ghost use Rattle.upsched_c.specs.declared.handle.Held.{Held};

use crate::scheduler::Scheduler;
use map_body::MapBody;
use modem::Modem;
use std::alloc::Global;
use std::marker::Model;
use std::mem;
use std::ptr::null_mut;
use upsched_c_parts::Loose;

/// What a handle can hold.
#[derive(Drop)]
pub enum Held {
    Machine(Scheduler),
    Modem(Modem),
    Map(MapBody),
}

/// The block's owner.
#[repr(C)]
#[derive(Drop)]
pub struct Owner {
    at: *mut u8,
    ghost value: { Option Held },
}

impl Model for Owner {
    ghost use Rattle.upsched_c.specs.contracts.handle.Held as inner;
    ghost use Rattle.upsched_c_parts.specs.Owned.{owned_if};

    ghost also_owns = { λ h. owned_if inner.the_row h.at h.value };
}

impl Owner {
    fn none() -> Owner
        ensures { result.value ≡ None }
    {
        Owner { at: null_mut() }
    }

    fn of(loose: Loose<Held, Global>) -> Owner
        ensures { result.value ≡ Some loose.value }
    {
        let Loose { at, alloc: _ } = loose;
        Owner { at: at as *mut u8 }
    }

    fn into_loose(self, alloc: Global) -> Loose<Held, Global>
        requires { IsSome self.value }
        ensures { self.value ≡ Some result.value }
    {
        let Owner { at } = self;
        Loose {
            at: at as *mut Held,
            alloc,
        }
    }
}

unsafe impl Send for Owner {}

/// What C keeps. It is open where its number is 1, and all zero is closed.
#[repr(C)]
#[derive(Drop)]
pub struct Handle {
    owner: Owner,
    is_open: u64,
    ghost open: { is_some owner.value ≡ (is_open == 1) },
}

impl Handle {
    ghost use Rattle.std.specs.Prelude.{◌≡◌, None, Some, MatchOption};
    ghost use Rattle.upsched_c.specs.Handles.{held};

    fn closed() -> Handle
        ensures { held result ≡ None }
    {
        Handle {
            owner: Owner::none(),
            is_open: 0,
        }
    }

    /// Takes out what the handle holds, which is closed then.
    pub fn take(&mut self, alloc: Global) -> Option<Box<Held>>
        ensures taken { MatchOption result (held self.old ≡ None) (λ b. held self.old ≡ Some b.value) }
        ensures closed { held self.new ≡ None }
    {
        let old = mem::replace(self, Handle::closed());
        if old.is_open == 1 {
            Some(old.owner.into_loose(alloc).into_box())
        } else {
            None
        }
    }

    /// Puts a value into a handle that is closed, which is open then.
    pub fn put(&mut self, value: Box<Held>)
        requires { held self.old ≡ None }
        ensures { held self.new ≡ Some value.value }
    {
        let _ = mem::replace(
            self,
            Handle {
                owner: Owner::of(Loose::of(value)),
                is_open: 1,
            },
        );
    }
}

fn goes_to_a_thread<T: Send>() {}

/// A handle may go from one thread to another.
pub fn handles_go_to_threads() {
    goes_to_a_thread::<Handle>();
}
