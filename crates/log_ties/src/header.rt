//! The bytes of a log's header and of its frames, as far as a tie needs them.

ghost use Rattle.std.specs.Prelude.{◌≡◌, ◌+◌, ◌≤◌, ◌↔◌, length, IsTrue};
ghost use Rattle.sqlite_wal.specs.Format.{be32, stored_sum, IsSigned, IsFrame};

use sqlite_wal::checksum_of;

pub(crate) const HEADER_LEN: usize = 32;

pub(crate) const FRAME_HEADER_LEN: usize = 24;

/// Where a header has its salts.
pub(crate) const SALTS: usize = 16;

pub(crate) const VERSION: u32 = 3007000;

/// The count of checkpoints in the header that the making of a database writes.
pub(crate) const BEGUN: u32 = 0xffff_ffff;

/// Four bytes as a number, the highest first.
pub(crate) fn get_be32(b: &[u8], at: usize) -> u32
    requires { at + 4 ≤ length b.now }
    ensures { result ≡ be32 b.now at }
{
    b[at] as u32 * 0x100_0000
        + b[at + 1] as u32 * 0x1_0000
        + b[at + 2] as u32 * 0x100
        + b[at + 3] as u32
}

/// The checksum that is stored there.
pub(crate) fn get_sum(b: &[u8], at: usize) -> (u32, u32)
    requires { at + 8 ≤ length b.now }
    ensures { result ≡ stored_sum b.now at }
{
    (get_be32(b, at), get_be32(b, at + 4))
}

/// Whether the header begins with the magic number and ends with its checksum.
pub(crate) fn is_signed(head: &[u8; 32]) -> bool
    ensures { IsTrue result ↔ IsSigned head.now }
{
    if head[0] != 0x37 || head[1] != 0x7f || head[2] != 0x06 {
        return false;
    }
    if head[3] != 0x82 && head[3] != 0x83 {
        return false;
    }
    checksum_of(head[3] == 0x83, (0, 0), &head[..24]) == get_sum(head, 24)
}

/// Whether the frame passes SQLite's test, under this header and behind this checksum.
pub(crate) fn is_frame(head: &[u8; 32], before: (u32, u32), frame: &[u8]) -> bool
    requires { 24 ≤ length frame.now }
    ensures { IsTrue result ↔ IsFrame head.now before frame.now }
{
    if frame[8..16] != head[16..24] || get_be32(frame, 0) == 0 {
        return false;
    }
    let big = head[3] == 0x83;
    let front = checksum_of(big, before, &frame[..8]);
    checksum_of(big, front, &frame[24..]) == get_sum(frame, 16)
}
