//! Writes a digest, such as that of SHA-256.

ghost use Rattle.std.specs.Prelude.{◌≡◌, [], List, ℕ};
ghost use Rattle.lexical_write_integer.specs.Buffer.{Writes};
ghost use Rattle.lexical_write_integer.specs.Padded.{IsPadded};
ghost use Rattle.lexical_write_integer.specs.Sequence.{AreJoined};
ghost use Rattle.lexical_write_integer.specs.Lowercase.{IsLowercase};

use lexical_parts::{HexBytes, Lower, Part, equal_hex_bytes};

/// Writes the 32 bytes as 64 hexadecimal digits in lowercase to the array, and returns 64.
pub fn write_digest(bytes: &[u8; 32], buffer: &mut [u8; 64]) -> usize
    ensures { Writes (IsLowercase (AreJoined (IsPadded 16 2) [] bytes.now)) buffer.old buffer.new result }
{
    Lower(HexBytes(bytes, "")).write_to(buffer)
}

/// A law: two digests with equal texts have equal bytes.
pub fn same_digest(a: &[u8; 32], b: &[u8; 32])
    ensures { (text : List ℕ) → IsLowercase (AreJoined (IsPadded 16 2) [] a.now) text
        → IsLowercase (AreJoined (IsPadded 16 2) [] b.now) text → a.now ≡ b.now }
{
    equal_hex_bytes(a, b, "");
}
