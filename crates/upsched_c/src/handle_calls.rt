//! Opening and closing handles.

ghost use Rattle.std.specs.Prelude.{◌≡◌, None};
ghost use Rattle.upsched_c.specs.Handles.{held, Opens};

use crate::handle::{Handle, Held};
use crate::status::Status;
use std::alloc::Global;

/// Opens a handle with a value.
pub(crate) fn open(alloc: Global, handle: &mut Handle, value: Held) -> Status
    ensures { Opens value (held handle.old) (held handle.new) result }
{
    if let Some(before) = handle.take(alloc) {
        handle.put(before);
        return Status::Open;
    }
    match Box::new(alloc, value) {
        Ok(value) => {
            handle.put(value);
            Status::Done
        }
        Err(_) => Status::OutOfMemory,
    }
}

/// Closes a handle, and lets go of what it holds.
#[unsafe(no_mangle)]
pub extern "C" fn upsched_c_close(alloc: Global, handle: &mut Handle)
    ensures { held handle.new ≡ None }
{
    let _ = handle.take(alloc);
}
