//! What follows from what the calls of a node hand out.

ghost use Rattle.upsched_c_node.specs.Histories.{NoneIsStrange, OpensAsLeft};

/// A number that is opened with all writes that its calls handed out, in order and from when it was new, holds what it
/// held. No such write is strange, so that the call isn't refused for it.
pub fn opens_as_left()
    ensures content { OpensAsLeft }
    ensures strange { NoneIsStrange }
{}
