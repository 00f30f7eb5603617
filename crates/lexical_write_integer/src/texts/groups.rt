//! Putting digits into groups.

ghost use Rattle.std.specs.Prelude.{◌≡◌, ◌≤◌, length, take};
ghost use Rattle.lexical_num.specs.Format.{grouped_length};
ghost use Rattle.lexical_write_integer.specs.Buffer.{Front};
ghost use Rattle.lexical_write_integer.specs.Groups.{grouped};

use lexical_num::format::NumberFormat;

/// Puts the first `count` bytes of the buffer into the groups of the format, and returns their length with the
/// separators.
///
/// The count must not be 0, and the buffer must have room for this length. Every byte after the text is unchanged.
/// Without groups in the format it returns the count, and writes nothing.
///
/// The bytes are moved from the last to the first, so no digit is overwritten before it has moved:
///
/// ```text
/// 1234567      the digits
/// 12345,567    after four bytes
/// 1,234,567    after all
/// ```
///
/// ```
/// use lexical_write_integer::{NumberFormatBuilder, group_digits};
///
/// let thousands = NumberFormatBuilder::new().digit_grouping(3, b',').build_strict();
/// let mut buffer = *b"1234567..";
/// assert_eq!(rt; group_digits(7, &thousands, &mut buffer), 9);
/// assert_eq!(rt; buffer, *b"1,234,567");
/// ```
///
/// # Panics
///
/// If the buffer is [too short](crate::conditions).
///
/// # Not checked
///
/// Two conditions are not checked: that the count is above 0, and, if the format has no groups, that the buffer has as
/// many bytes. If one of them does not hold, the call returns the count, and writes nothing.
pub fn group_digits(count: usize, format: &NumberFormat, buffer: &mut [u8]) -> usize
    requires some { 1 ≤ count }
    requires room { grouped_length format.now.digit_grouping count ≤ length buffer.old }
    ensures groups { Front buffer.old buffer.new
        (grouped format.now.digit_grouping (take count buffer.old)) }
    ensures count { result ≡ length (grouped format.now.digit_grouping (take count buffer.old)) }
    ensures total { result ≡ grouped_length format.now.digit_grouping count }
{
    let Some((size, mark)) = format.digit_grouping() else {
        return count;
    };
    let size = usize::from(size);
    let total = format.grouped_len(count);
    let mut left = count;
    let mut end = total;
    let mut in_group = 0;
    while end > 0 {
        end -= 1;
        if in_group == size {
            buffer[end] = mark;
            in_group = 0;
        } else {
            left -= 1;
            buffer[end] = buffer[left];
            in_group += 1;
        }
    }
    total
}
