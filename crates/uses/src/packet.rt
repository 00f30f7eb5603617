//! Writes a packet line of Git, which begins with its length.

ghost use Rattle.lexical_write_integer.specs.Buffer.{Writes};
ghost use Rattle.uses.specs.Packet.{IsWant};

use lexical_parts::{HexBytes, Lower, write_with_length};

/// Writes a line with the hash that a client wants, as `0032want 1234..cd`, and returns its length, which is 50. The
/// first four digits are the length of the whole line.
pub fn write_want(hash: &[u8; 20], buffer: &mut [u8; 50]) -> usize
    ensures { Writes (IsWant hash.now) buffer.old buffer.new result }
{
    4 + write_with_length(("want ", Lower(HexBytes(hash, "")), "\n"), 16, 4, 4, buffer)
}
