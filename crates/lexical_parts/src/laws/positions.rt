//! Laws on where the texts of a `Joined` or a `HexBytes` start, if all have the same width.

ghost use Rattle.std.specs.Prelude.{◌≡◌, ◌+◌, ◌*◌, All, IfSome, List, ℕ, length, slice_get, slice_range};
ghost use Rattle.lexical_write_integer.specs.Padded.{IsPadded};
ghost use Rattle.lexical_write_integer.specs.Sequence.{AreJoined};

use crate::part::Part;

/// A law: if each text of each part in a `Joined` has `width` bytes, the text of the part with this index starts at the
/// index times the sum of the width and the length of the separator.
pub fn part_starts_at<P: Part>(parts: &[P], separator: &str, width: usize, index: usize)
    requires { All (λ part. (text : List ℕ) → P.is_text part text → length text ≡ width) parts.now }
    ensures { (text : List ℕ) → AreJoined P.is_text separator.now parts.now text
        → IfSome (slice_get parts.now index) (λ part. P.is_text part (slice_range text
        (index * (width + length separator.now)) (index * (width + length separator.now) + width))) }
{}

/// A law: in bytes that are joined, each in `width` digits of a radix, the text of the byte with this index starts at
/// the index times the sum of the width and the length of the separator. So it is in a `HexBytes`, in which the width
/// is 2.
pub fn byte_starts_at(bytes: &[u8], radix: u32, separator: &str, width: usize, index: usize)
    ensures { (text : List ℕ) → AreJoined (IsPadded radix width) separator.now bytes.now text
        → IfSome (slice_get bytes.now index) (λ byte. IsPadded radix width byte (slice_range text
        (index * (width + length separator.now)) (index * (width + length separator.now) + width))) }
{}
