//! Texts at fixed places of a buffer, such as the header of a file.

ghost use Rattle.std.specs.Prelude.{◌≡◌, ◌+◌, ◌≤◌, List, drop, length, take, ℕ};
ghost use Rattle.lexical_parts.specs.Fields.{bytes_between};

use crate::part::Part;

/// Writes a part whose text has exactly `count` bytes to `buffer[index..index + count]`.
///
/// No other byte of the buffer changes, unless the call panics. The part must be valid, its room must be at most
/// `count`, and the buffer must have these bytes. So use it for parts of a constant width, such as `Padded`,
/// `PaddedDigits`, `FullHex`, a column or a `&str`.
///
/// ```
/// use lexical_parts::{PaddedDigits, write_field};
///
/// let mut header = *b"size:....;";
/// write_field(PaddedDigits(8, 420u16, 4), 5, 4, &mut header);
/// assert_eq!(rt; header, *b"size:0644;");
/// ```
///
/// # Panics
///
/// If the part is not valid, or if the text does not have `count` bytes, or if the buffer is
/// [too short](crate::conditions).
pub fn write_field<P: Part>(part: P, index: usize, count: usize, buffer: &mut [u8])
    requires valid { P.is_valid part }
    requires room { P.room part ≤ count }
    requires width { (text : List ℕ) → P.is_text part text → length text ≡ count }
    requires inside { index + count ≤ length buffer.old }
    ensures field { P.is_text part (bytes_between buffer.new index (index + count)) }
    ensures before { take index buffer.new ≡ take index buffer.old }
    ensures after { drop (index + count) buffer.new ≡ drop (index + count) buffer.old }
    ensures kept_before { (from to : ℕ) → to ≤ index → bytes_between buffer.new from to ≡ bytes_between buffer.old from to }
    ensures kept_after { (from to : ℕ) → index + count ≤ from
        → bytes_between buffer.new from to ≡ bytes_between buffer.old from to }
    ensures same_length { length buffer.new ≡ length buffer.old }
{
    let end = part.write_at(index, buffer);
    // In Rust nothing else refuses a text of another length.
    prove!(end == index + count, "the text does not have `count` bytes");
}
