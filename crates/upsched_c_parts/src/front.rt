//! Bytes over the front of a room for them.

ghost use Rattle.std.specs.Prelude.{◌≡◌, ◌≤◌, length};
ghost use Rattle.upsched_c_parts.specs.Fronts.{over_front};

/// Writes bytes over the front of others.
pub fn put_front(bytes: &[u8], out: &mut [u8])
    requires { length bytes.now ≤ length out.old }
    ensures { out.new ≡ over_front bytes.now out.old }
{
    out[..bytes.len()].copy_from_slice(bytes);
}
