//! Writes an IPv6 address.

ghost use Rattle.lexical_write_integer.specs.Buffer.{Writes};
ghost use Rattle.uses.specs.Ipv6.{IsAddress};

use lexical_parts::{Hex, Joined, Lower, Part};

/// Writes the eight groups of an address in lowercase and without leading zeros, such as
/// `2001:db8:0:0:8:800:200c:417a`, to the start of the array, and returns the length of the text.
pub fn write_address(groups: &[u16; 8], buffer: &mut [u8; 39]) -> usize
    ensures { Writes (IsAddress groups.now) buffer.old buffer.new result }
{
    let groups = groups.map(|group| Lower(Hex(group)));
    Joined(&groups, ":").write_to(buffer)
}
