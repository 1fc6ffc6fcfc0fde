//! Fields and tests of the log's header and of a frame, as SQLite's file format has them.

ghost use Rattle.std.specs.Prelude.{◌≡◌, ◌+◌, ◌≤◌, ◌↔◌, length, slice_index, IsTrue};
ghost use Rattle.sqlite_wal.specs.Format.{part, be32, stored_sum, checksum, IsSigned, IsFrame};

use sqlite_wal::checksum_of;

/// Two words of a running checksum.
pub type Sum = (u32, u32);

/// The bytes of the log's header.
pub const HEADER_LEN: usize = 32;

/// The bytes of a frame before its page.
pub const FRAME_HEADER_LEN: usize = 24;

/// The first byte of a log's header.
pub const MAGIC: u8 = 0x37;

/// The format's only version.
pub const VERSION: u32 = 3007000;

/// Four bytes as a number, the highest first.
pub(crate) fn get_be32(b: &[u8], at: usize) -> u32
    requires { at + 4 ≤ length b.now }
    ensures { result ≡ be32 b.now at }
{
    b[at] as u32 * 0x100_0000
        + b[at + 1] as u32 * 0x1_0000
        + b[at + 2] as u32 * 0x100
        + b[at + 3] as u32
}

/// The checksum that is stored at `at`.
pub(crate) fn get_sum(b: &[u8], at: usize) -> Sum
    requires { at + 8 ≤ length b.now }
    ensures { result ≡ stored_sum b.now at }
{
    (get_be32(b, at), get_be32(b, at + 4))
}

/// Whether a header begins with a magic number and ends with its checksum.
pub(crate) fn is_signed(head: &[u8; 32]) -> bool
    ensures { IsTrue result ↔ IsSigned head.now }
{
    if head[0] != 0x37 || head[1] != 0x7f || head[2] != 0x06 {
        return false;
    }
    if head[3] != 0x82 && head[3] != 0x83 {
        return false;
    }
    checksum_of(head[3] == 0x83, (0, 0), &head[..24]) == get_sum(head, 24)
}

/// Whether a frame has the header's salt, names a page and ends its checksum after that before it.
pub(crate) fn is_frame(head: &[u8; 32], before: Sum, frame: &[u8]) -> bool
    requires { 24 ≤ length frame.now }
    ensures { IsTrue result ↔ IsFrame head.now before frame.now }
{
    if frame[8..16] != head[16..24] || get_be32(frame, 0) == 0 {
        return false;
    }
    let big = head[3] == 0x83;
    let front = checksum_of(big, before, &frame[..8]);
    checksum_of(big, front, &frame[24..]) == get_sum(frame, 16)
}
