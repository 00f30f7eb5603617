//! The compact writer, which writes one digit per iteration.

// `crates/tests/src/integers/digits_in_each_radix.rt` has examples.
ghost use Rattle.std.specs.Prelude.{◌≡◌, ◌+◌, ◌/◌, ◌%◌, ◌<◌, ◌≤◌, ◌++◌, [], ◌∷◌, length, drop};
ghost use Rattle.lexical_num.specs.Digit.{digit_char};
ghost use Rattle.lexical_num.specs.Format.{IsRadix};
ghost use Rattle.lexical_write_integer.specs.Buffer.{WritesDigits};
ghost use Rattle.lexical_write_integer.specs.DigitCount.{digit_count};
ghost use Rattle.lexical_write_integer.specs.Text.{IsDigits};
ghost use Rattle.lexical_write_integer.specs.LoopTurns.{compact_notes, compact_turns};

use super::by_radix::by_radix;
use crate::buffer::copy_to_front;
use crate::turns::Turns;
use lexical_num::constants::FormattedSize;
use lexical_num::digit::digit_to_char;
use lexical_num::num::UnsignedInteger;

// The number of digits of the largest `u64` in radix 2.
const MOST_DIGITS: usize = 64;

// Returns the character of a digit in this radix. In radix 10 and below it is computed.
fn char_of<const R: u32>(digit: u32) -> u8
    requires radix { IsRadix R }
    requires digit { digit < R }
    ensures { result ≡ digit_char digit }
{
    if R <= 10 {
        b'0' + digit as u8
    } else {
        digit_to_char(digit)
    }
}

// Writes the digits of a number to the end of the buffer, the last digit first, and returns the index
// of the first digit.
fn write_to_end<const R: u32>(value: u64, buffer: &mut [u8], turns: &mut Turns) -> usize
    requires radix { IsRadix R }
    requires room { digit_count R value ≤ length buffer.old }
    ensures place { result + digit_count R value ≡ length buffer.old }
    ensures digits { IsDigits R value (drop result buffer.new) }
    ensures notes { turns.new ≡ turns.old ++ compact_notes R value }
{
    let radix = u64::from(R);
    let mut index = buffer.len();
    let mut left = value;
    while left >= radix {
        let next = left / radix;
        turns.tick(next);
        index -= 1;
        buffer[index] = char_of::<R>((left % radix) as u32);
        left = next;
    }
    index -= 1;
    buffer[index] = char_of::<R>(left as u32);
    index
}

// Writes the digits of a number to the start of the buffer. Returns how many there are.
fn write_each_digit<const R: u32>(value: u64, buffer: &mut [u8], turns: &mut Turns) -> usize
    requires radix { IsRadix R }
    requires room { digit_count R value ≤ length buffer.old }
    ensures digits { WritesDigits R value buffer.old buffer.new result }
    ensures notes { turns.new ≡ turns.old ++ compact_notes R value }
{
    // The last digit is computed first, so the digits go to a temporary array.
    let mut digits = [0u8; MOST_DIGITS];
    let index = write_to_end::<R>(value, &mut digits, turns);
    copy_to_front(&digits[index..], buffer)
}

// Calls `write_each_digit` for a radix that is known only at run time.
fn write_each_digit_in(value: u64, radix: u32, buffer: &mut [u8], turns: &mut Turns) -> usize
    requires radix { IsRadix radix }
    requires room { digit_count radix value ≤ length buffer.old }
    ensures digits { WritesDigits radix value buffer.old buffer.new result }
    ensures notes { turns.new ≡ turns.old ++ compact_notes radix value }
{
    by_radix!(radix, write_each_digit(value, buffer, turns))
}

/// Writes the digits of the number to the start of the buffer, and returns how many there are. The radix is
/// from 2 to 36, and the buffer has room for the digits. There is one division for each digit after the first.
pub fn compact_counted<T: UnsignedInteger>(
    value: T,
    radix: u32,
    buffer: &mut [u8],
    turns: &mut Turns,
) -> usize
    requires radix { IsRadix radix }
    requires room { digit_count radix (T.magnitude value) ≤ length buffer.old }
    ensures digits { WritesDigits radix (T.magnitude value) buffer.old buffer.new result }
    // The notes are the quotients.
    ensures notes { turns.new ≡ turns.old ++ compact_notes radix (T.magnitude value) }
    ensures turns { length turns.new ≡ length turns.old + compact_turns result }
    ensures at_most { result ≤ T.BITS }
{
    value.fits_bits();
    write_each_digit_in(value.as_u64(), radix, buffer, turns)
}

/// An unsigned integer type, with a writer of digits that takes little code: it divides once for each digit after the
/// first, and uses no table.
///
/// ```
/// use lexical_write_integer::compact::Compact;
///
/// let mut buffer = [0; 16];
/// let count = 255u32.compact(16, &mut buffer);
/// assert_eq!(rt; &buffer[..count], b"FF");
/// ```
pub trait Compact: UnsignedInteger + FormattedSize {
    /// Writes the digits of the number to the start of the buffer, and returns how many there are. The radix
    /// must be from 2 to 36, and the buffer must have room for the digits.
    ///
    /// # Panics
    ///
    /// If the radix is not from 2 to 36, or if the buffer is [too short](crate::conditions).
    fn compact(self, radix: u32, buffer: &mut [u8]) -> usize
        requires radix { IsRadix radix }
        requires room { digit_count radix (Self.magnitude self) ≤ length buffer.old }
        ensures digits { WritesDigits radix (Self.magnitude self) buffer.old buffer.new result }
        ensures at_most { result ≤ Self.BITS }
    {
        compact_counted(self, radix, buffer, &mut Turns::new())
    }
}

impl<T: UnsignedInteger + FormattedSize> Compact for T {}
