//! Opening a handle with a node, and closing one.

ghost use Rattle.std.specs.Prelude.{◌≡◌, ◌<◌, None, IfSome, IfNone};
ghost use Rattle.ballots.specs.Members.{member_count};
ghost use Rattle.upsched_c_node.specs.Handles.{held};
ghost use Rattle.upsched_c_node.specs.Opening.{IsMember, MakesNode, Opens};
ghost use Rattle.upsched_c_node.specs.Statuses.{Answers};

use crate::handle::{Handle, Held};
use crate::plain_node::PlainNode;
use crate::status::Status;
use ballots::{Members, NodeId};
use node_writes::{WriteBytes, are_whole, taken_back};
use std::alloc::Global;

/// The member of this number, of so many.
fn member(id: u8, members: u8) -> Option<(NodeId, Members)>
    ensures some { IfSome result (λ m. (m.0 ≡ id) × (member_count m.1 ≡ members) × IsMember id members) }
    ensures none { IfNone result (¬ IsMember id members) }
{
    let all = match members {
        3 => Members::Three,
        5 => Members::Five,
        _ => return None,
    };
    if all.count() <= id {
        return None;
    }
    Some((NodeId::new(id)?, all))
}

/// A node started over these writes.
fn node_after(
    alloc: Global,
    id: NodeId,
    members: Members,
    writes: &[WriteBytes],
) -> Result<Box<Held>, Status>
    requires { id < member_count members }
    ensures { MakesNode id (member_count members) writes.now result }
{
    if !are_whole(writes, id) {
        return Err(Status::BadField);
    }
    let Ok(Some(records)) = taken_back(alloc, writes, id) else {
        return Err(Status::OutOfMemory);
    };
    let Ok(node) = PlainNode::over(alloc, id, members, records) else {
        return Err(Status::OutOfMemory);
    };
    let held = Held {
        node,
        letters: Vec::new(alloc),
        outputs: Vec::new(alloc),
    };
    match Box::new(alloc, held) {
        Ok(held) => Ok(held),
        Err(_) => Err(Status::OutOfMemory),
    }
}

fn open(alloc: Global, handle: &mut Handle, id: u8, members: u8, writes: &[WriteBytes]) -> Status
    ensures { Opens id members writes.now handle.old handle.new result }
{
    if !handle.is_free() {
        return handle.occupied();
    }
    let Some((id, members)) = member(id, members) else {
        return Status::BadField;
    };
    match node_after(alloc, id, members, writes) {
        Ok(node) => {
            handle.put(node);
            Status::Done
        }
        Err(status) => status,
    }
}

/// Opens a handle with node `id` of so many members, started over the writes that its calls handed out before.
#[unsafe(no_mangle)]
pub extern "C" fn upsched_c_node_open(
    alloc: Global,
    handle: &mut Handle,
    id: u8,
    members: u8,
    writes: &[WriteBytes],
) -> i32
    ensures { Answers result (Opens id members writes.now handle.old handle.new) }
{
    open(alloc, handle, id, members, writes).number()
}

/// Closes a handle, and lets go of what it holds. One that holds no node stays as it is.
#[unsafe(no_mangle)]
pub extern "C" fn upsched_c_node_close(alloc: Global, handle: &mut Handle)
    ensures { held handle.new ≡ None }
{
    let _ = handle.take(alloc);
}
