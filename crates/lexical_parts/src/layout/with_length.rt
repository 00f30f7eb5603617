//! A text with its length before it.

ghost use Rattle.std.specs.Prelude.{◌+◌, ◌^◌, ◌<◌, ◌≤◌, length};
ghost use Rattle.lexical_num.specs.Format.{IsRadix};
ghost use Rattle.lexical_write_integer.specs.Buffer.{Writes};
ghost use Rattle.lexical_write_integer.specs.Padded.{IsPadded};
ghost use Rattle.lexical_parts.specs.Sequence.{◌then◌};
ghost use Rattle.lexical_parts.specs.Utf8.{AreUtf8};

use crate::part::Part;
use lexical_write_integer::padded::write_padded;

/// Writes the length of a part plus `extra` in `width` digits of the radix, and then the part.
///
/// Returns the length of the part alone, without the digits before it. Later bytes are unchanged. The part must be
/// valid, its room plus `extra` below `radix^width`, and the buffer at least `width` plus the room bytes long.
///
/// ```
/// use lexical_parts::write_with_length;
///
/// // The length 5 plus 4, in four digits of radix 16, and then the part.
/// let mut buffer = [0; 9];
/// assert_eq!(rt; write_with_length("done\n", 16, 4, 4, &mut buffer), 5);
/// assert_eq!(rt; buffer, *b"0009done\n");
/// ```
///
/// # Panics
///
/// If the part is not valid, or if the radix is not from 2 to 36, or if the buffer is [too short](crate::conditions),
/// or if the length has more digits than `width`, or if the length and `extra` together are above `usize::MAX`.
pub fn write_with_length<P: Part>(
    part: P,
    radix: u32,
    width: usize,
    extra: usize,
    buffer: &mut [u8],
) -> usize
    requires valid { P.is_valid part }
    requires radix { IsRadix radix }
    requires room { width + P.room part ≤ length buffer.old }
    requires fits { extra + P.room part < radix ^ width }
    requires sum { extra + P.room part < 2 ^ 64 }
    ensures text { Writes (IsPadded radix width (extra + result) then P.is_text part)
        buffer.old buffer.new (width + result) }
    ensures at_most { result ≤ P.room part }
    ensures utf8 { P.is_utf8 part → AreUtf8 (P.is_text part) }
{
    let count = part.write_to(&mut buffer[width..]);
    prove!(
        count <= usize::MAX - extra,
        "the length and `extra` together are above usize::MAX"
    );
    write_padded(extra + count, radix, &mut buffer[..width]);
    count
}
