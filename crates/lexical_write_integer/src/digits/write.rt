//! Writing the digits of a number in any radix: with the decimal writer in radix 10, and otherwise with the writer of
//! that radix.

ghost use Rattle.std.specs.Prelude.{◌≡◌, ◌+◌, ◌^◌, ◌<◌, ◌≤◌, ◌++◌, length};
ghost use Rattle.lexical_num.specs.Format.{IsRadix};
ghost use Rattle.lexical_write_integer.specs.Buffer.{WritesDigits};
ghost use Rattle.lexical_write_integer.specs.DecimalTurns.{write_notes, write_turns};
ghost use Rattle.lexical_write_integer.specs.DigitCount.{digit_count};
ghost use Rattle.lexical_write_integer.specs.Text.{digits_need};

use super::count::DigitCount;
use super::decimal::Decimal;
use super::radix::{Radix, write_in_radix};
use crate::turns::Turns;
use lexical_num::format::NumberFormat;
use lexical_num::num::{LexicalInteger, UnsignedInteger};

/// Writes the digits of the number to the start of the buffer, and returns how many there are. The radix is
/// from 2 to 36. The buffer has room for `DECIMAL_WIDTH` bytes in radix 10, and for the digits in another radix.
pub fn write_integer_counted<T: Decimal + DigitCount>(
    value: T,
    radix: u32,
    buffer: &mut [u8],
    turns: &mut Turns,
) -> usize
    requires radix { IsRadix radix }
    requires room { digits_need radix (T.magnitude value) T.DECIMAL_WIDTH ≤ length buffer.old }
    ensures digits { WritesDigits radix (T.magnitude value) buffer.old buffer.new result }
    ensures at_most { result ≤ T.BITS }
    ensures notes { turns.new ≡ turns.old ++ write_notes T.BITS radix (T.magnitude value) }
    ensures turns { length turns.new ≡ length turns.old + write_turns radix result }
    // There are at most 21 notes, and in radix 10 at most 9.
    ensures few_turns { length turns.new ≤ length turns.old + 21 }
    ensures few_decimal_turns { radix ≡ 10 → length turns.new ≤ length turns.old + 9 }
{
    value.in_range();
    value.fits_bits();
    if radix == 10 {
        value.decimal_counted(buffer, turns)
    } else {
        write_in_radix(value, radix, buffer, turns)
    }
}

/// An unsigned integer type whose numbers are written in every radix.
///
/// Each method writes the digits of the number to the start of the buffer, without a sign, and returns
/// how many there are. The buffer has room for `DECIMAL_WIDTH` bytes in radix 10, and for the digits in
/// another radix. In radix 10 the `_signed` methods write numbers below 10^`SIGNED_WIDTH`, and their
/// buffer has room for `SIGNED_WIDTH` bytes.
pub trait WriteInteger: Decimal + Radix {
    /// Writes the digits in a radix from 2 to 36.
    ///
    /// # Panics
    ///
    /// If the radix is not from 2 to 36, or if the buffer is [too short](crate::conditions).
    fn write_integer(self, radix: u32, buffer: &mut [u8]) -> usize
        requires radix { IsRadix radix }
        requires room { digits_need radix (Self.magnitude self) Self.DECIMAL_WIDTH
            ≤ length buffer.old }
        ensures digits { WritesDigits radix (Self.magnitude self) buffer.old buffer.new result }
        ensures at_most { result ≤ Self.BITS }
    {
        write_integer_counted(self, radix, buffer, &mut Turns::new())
    }

    /// Writes the digits of the magnitude of a signed number, without its sign, in a radix from 2 to 36.
    ///
    /// # Panics
    ///
    /// If the radix is not from 2 to 36, or if the radix is 10 and the number is 10^19 or above, or if the buffer is
    /// [too short](crate::conditions).
    fn write_integer_signed(self, radix: u32, buffer: &mut [u8]) -> usize
        requires radix { IsRadix radix }
        requires number { radix ≡ 10 → Self.magnitude self < 10 ^ Self.SIGNED_WIDTH }
        requires room { digits_need radix (Self.magnitude self) Self.SIGNED_WIDTH
            ≤ length buffer.old }
        ensures digits { WritesDigits radix (Self.magnitude self) buffer.old buffer.new result }
        ensures at_most { result ≤ Self.BITS }
    {
        self.in_range();
        self.fits_bits();
        if radix == 10 {
            self.decimal_signed(buffer)
        } else {
            write_in_radix(self, radix, buffer, &mut Turns::new())
        }
    }

    /// Writes the digits in the mantissa radix of the format.
    ///
    /// # Panics
    ///
    /// If the buffer is [too short](crate::conditions).
    fn write_mantissa(self, format: &NumberFormat, buffer: &mut [u8]) -> usize
        requires { digits_need format.now.mantissa_radix (Self.magnitude self) Self.DECIMAL_WIDTH
            ≤ length buffer.old }
        ensures digits { WritesDigits format.now.mantissa_radix (Self.magnitude self)
            buffer.old buffer.new result }
        ensures at_most { result ≤ Self.BITS }
    {
        self.write_integer(format.mantissa_radix(), buffer)
    }

    /// Writes the digits of the magnitude of a signed number, without its sign, in the mantissa radix of the format.
    ///
    /// # Panics
    ///
    /// If the radix is 10 and the number is 10^19 or above, or if the buffer is [too short](crate::conditions).
    fn write_mantissa_signed(self, format: &NumberFormat, buffer: &mut [u8]) -> usize
        requires number { format.now.mantissa_radix ≡ 10
            → Self.magnitude self < 10 ^ Self.SIGNED_WIDTH }
        requires room { digits_need format.now.mantissa_radix (Self.magnitude self) Self.SIGNED_WIDTH
            ≤ length buffer.old }
        ensures digits { WritesDigits format.now.mantissa_radix (Self.magnitude self)
            buffer.old buffer.new result }
        ensures at_most { result ≤ Self.BITS }
    {
        self.write_integer_signed(format.mantissa_radix(), buffer)
    }

    /// Writes the digits in the exponent radix of the format.
    ///
    /// # Panics
    ///
    /// If the buffer is [too short](crate::conditions).
    fn write_exponent(self, format: &NumberFormat, buffer: &mut [u8]) -> usize
        requires { digits_need format.now.exponent_radix (Self.magnitude self) Self.DECIMAL_WIDTH
            ≤ length buffer.old }
        ensures digits { WritesDigits format.now.exponent_radix (Self.magnitude self)
            buffer.old buffer.new result }
        ensures at_most { result ≤ Self.BITS }
    {
        self.write_integer(format.exponent_radix(), buffer)
    }

    /// Writes the digits of the magnitude of a signed number, without its sign, in the exponent radix of the format.
    ///
    /// # Panics
    ///
    /// If the radix is 10 and the number is 10^19 or above, or if the buffer is [too short](crate::conditions).
    fn write_exponent_signed(self, format: &NumberFormat, buffer: &mut [u8]) -> usize
        requires number { format.now.exponent_radix ≡ 10
            → Self.magnitude self < 10 ^ Self.SIGNED_WIDTH }
        requires room { digits_need format.now.exponent_radix (Self.magnitude self) Self.SIGNED_WIDTH
            ≤ length buffer.old }
        ensures digits { WritesDigits format.now.exponent_radix (Self.magnitude self)
            buffer.old buffer.new result }
        ensures at_most { result ≤ Self.BITS }
    {
        self.write_integer_signed(format.exponent_radix(), buffer)
    }
}

impl<T: Decimal> WriteInteger for T {}
