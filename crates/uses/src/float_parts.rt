//! Writes floats: in decimal from their digits, and in two radices, whose format it builds.

ghost use Rattle.std.specs.Prelude.{◌≡◌, ◌↔◌, ◌≤◌, [], ◌∷◌, IsOk, IfOk, List, ℕ, false, length, pos};
ghost use Rattle.lexical_num.specs.Format.{IsValid, standard};
ghost use Rattle.lexical_num.specs.Sign.{sign_of};
ghost use Rattle.lexical_write_integer.specs.Buffer.{Writes};
ghost use Rattle.lexical_write_integer.specs.Sequence.{IsExactly, Then};
ghost use Rattle.lexical_write_integer.specs.Text.{IsDigits};
ghost use Rattle.lexical_parts.specs.Scaled.{AreEqualScaled};
ghost use Rattle.lexical_parts.specs.Scientific.{IsScientific};
ghost use Rattle.lexical_parts.specs.Sequence.{◌then◌};

use lexical_num::{NumberFormat, NumberFormatBuilder, Result};
use lexical_parts::{Part, Scientific, Sign, equal_scientific};
use lexical_write_integer::buffer::copy_to_front;
use lexical_write_integer::laws::digit_count_within_bits;
use lexical_write_integer::write::WriteInteger;

/// Returns the format with these two radices and without a required sign, or an error that names the
/// first radix that is not from 2 to 36.
pub fn float_format(mantissa_radix: u8, exponent_radix: u8) -> Result<NumberFormat>
    ensures valid { IsOk result ↔ IsValid (record standard {
      mantissa_radix = mantissa_radix;
      exponent_radix = exponent_radix;
    }) }
    ensures format { IfOk result (λ format. format ≡ record standard {
      mantissa_radix = mantissa_radix;
      exponent_radix = exponent_radix;
    }) }
{
    NumberFormatBuilder::new()
        .mantissa_radix(mantissa_radix)
        .exponent_radix(exponent_radix)
        .build()
}

/// Writes the digits of the mantissa in the mantissa radix, the byte `mark`, and the digits of the
/// exponent in the exponent radix to the start of the buffer, and returns the number of bytes
/// written. The bytes after them are unchanged. The buffer must have room for 97 bytes, which is less
/// than `BUFFER_SIZE`.
pub fn write_parts(
    mantissa: u64,
    mark: u8,
    exponent: u32,
    format: &NumberFormat,
    buffer: &mut [u8],
) -> usize
    requires { 97 ≤ length buffer.old }
    ensures { Writes (Then (Then (IsDigits format.now.mantissa_radix mantissa) (IsExactly (mark ∷ [])))
        (IsDigits format.now.exponent_radix exponent)) buffer.old buffer.new result }
{
    digit_count_within_bits(format.mantissa_radix(), mantissa);
    digit_count_within_bits(format.exponent_radix(), exponent);
    let count = mantissa.write_mantissa(format, buffer);
    let marked = count + copy_to_front(&[mark], &mut buffer[count..]);
    marked + exponent.write_exponent(format, &mut buffer[marked..])
}

/// Returns a float in scientific notation, such as `-1.234e-56`, which borrows the array. The float is
/// `digits` times 10^`exponent`, and negative if `sign` is below 0.
pub fn write_float(sign: i8, digits: u64, exponent: i32, buffer: &mut [u8; 34]) -> &str
    ensures { (IsExactly (sign_of sign false) then IsScientific (pos digits) exponent) result.now }
{
    (Sign(sign, false), Scientific(digits, exponent)).to_str(buffer)
}

/// A law: two floats with equal texts are equal.
pub fn same_float(digits: u64, exponent: i32, other_digits: u64, other_exponent: i32)
    ensures { (text : List ℕ) → IsScientific (pos digits) exponent text
        → IsScientific (pos other_digits) other_exponent text
        → AreEqualScaled (pos digits) exponent (pos other_digits) other_exponent }
{
    equal_scientific(digits, other_digits, exponent, other_exponent);
}
