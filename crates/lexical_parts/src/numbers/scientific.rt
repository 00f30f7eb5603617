//! Numbers in scientific notation.
#![tactic(auto, using(crate::proofs::OfTexts::Parts::parts))]

ghost use Rattle.std.specs.Prelude.{◌≡◌, ◌≢◌, ℕ, ◌+◌, ◌-◌, ◌^◌, ◌<◌, ◌≤◌, length, drop, replicate, IfSome, IsSome};
ghost use Rattle.std.specs.Prelude.{Some, slice_index, unsigned_abs};
ghost use Rattle.lexical_write_integer.specs.Buffer.{Writes};
ghost use Rattle.lexical_write_integer.specs.Text.{IsDigits};
ghost use Rattle.lexical_parts.specs.Fixed.{IsUnits};
ghost use Rattle.lexical_parts.specs.Scientific.{IsScientific, IsScientificUnsigned, exponent_of_first, scientific_text};
ghost use Rattle.lexical_parts.specs.Sequence.{◌then◌, IsDecimal, IsStr};
ghost use Rattle.lexical_parts.specs.Length.{HasLength};

use crate::numbers::sign::Sign;
use crate::part::Part;
use crate::sealed::Sealed;
use crate::show::Show;
use crate::texts::bytes::Bytes;
use lexical_write_integer::ToLexical;
use lexical_write_integer::format::STANDARD;
use lexical_write_integer::laws::size_suffices;

// The room of a number in scientific notation of the longest type.
const LONGEST_SCIENTIFIC: usize = 33;

// Returns how many digits are left without the zeros at the end. At least the first `least` digits are left.
pub(crate) fn count_without_zeros(digits: &[u8], least: usize) -> usize
    requires { least ≤ length digits.now }
    ensures some { least ≤ result }
    ensures within { result ≤ length digits.now }
    ensures zeros { drop result digits.now ≡ replicate (length digits.now - result) 48 }
    ensures last { least < result → slice_index digits.now (result - 1) ≢ 48 }
{
    let mut count = digits.len();
    while least < count && digits[count - 1] == b'0' {
        count -= 1;
    }
    count
}

// Writes the digits of a number with a point after the first, if there are more, and returns their length.
fn write_with_point(digits: &[u8], buffer: &mut [u8]) -> usize
    requires some { 1 ≤ length digits.now }
    requires room { length digits.now + 1 ≤ length buffer.old }
    ensures text { (units : ℕ) → IsDigits 10 units digits.now
        → Writes (IsUnits (length digits.now - 1) units) buffer.old buffer.new result }
    ensures at_most { result ≤ length digits.now + 1 }
    ensures within { result ≤ length buffer.old }
{
    if digits.len() == 1 {
        return Bytes(digits).write_to(buffer);
    }
    (Bytes(&digits[..1]), ".", Bytes(&digits[1..])).write_to(buffer)
}

// Returns the exponent of the first of the digits, if that of the last is `exponent`. The exponent of 0 is 0.
fn first_exponent(digits: &[u8], exponent: i32) -> i64
    requires some { 1 ≤ length digits.now }
    requires at_most_20 { length digits.now ≤ 20 }
    ensures exponent { (number : ℕ) → IsDigits 10 number digits.now
        → result ≡ exponent_of_first number exponent }
    ensures small { unsigned_abs result < 2 ^ 32 }
{
    if digits == b"0".as_slice() {
        return 0;
    }
    i64::from(exponent) + (digits.len() - 1) as i64
}

// Writes `e` and the exponent to the start of the buffer, and returns the number of bytes written.
fn write_exponent(exponent: i64, buffer: &mut [u8]) -> usize
    requires small { unsigned_abs exponent < 2 ^ 32 }
    requires room { 12 ≤ length buffer.old }
    ensures text { Writes (IsStr "e" then IsDecimal exponent) buffer.old buffer.new result }
    ensures at_most { result ≤ 12 }
{
    let start = if exponent < 0 { "e-" } else { "e" };
    (start, exponent.unsigned_abs() as u32).write_to(buffer)
}

// Writes the absolute value of a number times 10^`exponent` to the start of the buffer, and returns the number of
// bytes written.
fn write_magnitude<T: ToLexical>(number: T, exponent: i32, buffer: &mut [u8]) -> usize
    requires { T.DECIMAL_WIDTH + 13 ≤ length buffer.old }
    ensures text { Writes (IsScientificUnsigned (unsigned_abs (T.number number)) exponent)
        buffer.old buffer.new result }
    ensures at_most { result ≤ T.DECIMAL_WIDTH + 13 }
{
    number.in_range();
    let mut digits = [0; 20];
    let count = number.write_magnitude(&STANDARD, &mut digits);
    let digits = &digits[..count];
    let kept = count_without_zeros(digits, 1);
    let end = write_with_point(&digits[..kept], buffer);
    end + write_exponent(first_exponent(digits, exponent), &mut buffer[end..])
}

/// A number times a power of ten, as `{:e}` writes one: `Scientific(1234, -59)` writes `1.234e-56`.
///
/// The digits have no zeros at the end, and a point after the first one if there are more: `Scientific(-1000, 0)`
/// writes `-1e3`. The room is 13 bytes more than that of [`Decimal`](super::super::Decimal).
///
/// ```
/// use lexical_parts::{Part, Scientific};
///
/// assert_eq!(rt; Scientific(1234, -59).to_str(&mut [0; 64]), "1.234e-56");
/// assert_eq!(rt; Scientific(-1000, 0).to_str(&mut [0; 64]), "-1e3");
/// ```
#[derive(Clone, Copy, Debug, Drop)]
pub struct Scientific<T>(
    /// The number.
    pub T,
    /// The exponent of the power of ten.
    pub i32,
);

impl<T: ToLexical> Part for Scientific<T> {
    ghost is_text = { λ part. IsScientific (T.number part.0) part.1 };

    ghost room = { λ _. T.FORMATTED_SIZE_DECIMAL + 13 };

    fn room(self) -> usize {
        size_suffices(self.0, &STANDARD);
        T::FORMATTED_SIZE_DECIMAL + 13
    }

    fn write_to(self, buffer: &mut [u8]) -> usize {
        size_suffices(self.0, &STANDARD);
        let start = Sign(self.0, false).write_to(buffer);
        start + write_magnitude(self.0, self.1, &mut buffer[start..])
    }

    fn text_len(self) -> Option<usize>
        ensures known { IsSome result }
        ensures length { IfSome result (λ count. HasLength (IsScientific (T.number self.0) self.1) count) }
    {
        self.0.in_range();
        // How many zeros the number ends with, only its digits say.
        Some(self.write_to(&mut [0; LONGEST_SCIENTIFIC]))
    }

    fn is_known_valid_and_utf8(self, _sealed: Sealed) -> bool {
        true
    }
}

impl<T: ToLexical> Show for Scientific<T> {
    ghost text = { λ part. Some (scientific_text (T.number part.0) part.1) };

    fn is_showable(self) -> bool {
        self.0.in_range();
        true
    }
}
