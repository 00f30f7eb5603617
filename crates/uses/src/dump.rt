//! Returns a dump in which a caller finds a byte by its index.

ghost use Rattle.std.specs.Prelude.{◌*◌, ◌+◌, IfSome, codes, slice_get, slice_range};
ghost use Rattle.lexical_write_integer.specs.Padded.{IsPadded};
ghost use Rattle.lexical_write_integer.specs.Sequence.{AreJoined};

use lexical_parts::{HexBytes, Part, byte_starts_at};

/// Returns a dump of 16 bytes, such as `48 65 6C ..`, in which the byte with the index is at three times this index.
pub fn dump<'a>(bytes: &[u8; 16], index: usize, buffer: &'a mut [u8; 47]) -> &'a [u8]
    ensures whole { AreJoined (IsPadded 16 2) (codes " ") bytes.now result.now }
    ensures byte { IfSome (slice_get bytes.now index) (λ byte. IsPadded 16 2 byte
        (slice_range result.now (index * 3) (index * 3 + 2))) }
{
    byte_starts_at(bytes, 16, " ", 2, index);
    HexBytes(bytes, " ").to_text(buffer)
}
