//! The traits that write a number of any integer type.

ghost use Rattle.std.specs.Prelude.{◌≡◌, ◌+◌, ◌≤◌, IsTrue, length, take, drop, unsigned_abs};
ghost use Rattle.std.specs.Borrow.{sem};
ghost use Rattle.lexical_num.specs.Format.{IsRadix, standard, without_groups};
ghost use Rattle.lexical_num.specs.Sign.{sign_of};
ghost use Rattle.lexical_num.specs.declared.constants.TheConstants.{BUFFER_SIZE};
ghost use Rattle.lexical_write_integer.specs.Buffer.{WritesDigits, WritesText};
ghost use Rattle.lexical_write_integer.specs.DigitCount.{digit_count};
ghost use Rattle.lexical_write_integer.specs.Groups.{without_separators};
ghost use Rattle.lexical_write_integer.specs.Lending.{LendsFront};
ghost use Rattle.lexical_write_integer.specs.Text.{IsText, digits_need, need};

use super::groups::group_digits;
use crate::buffer::front_mut;
use crate::digits::count::DigitCount;
use crate::laws::size_suffices;
use lexical_num::constants::FormattedSize;
use lexical_num::format::{NumberFormat, STANDARD};
use lexical_num::num::LexicalInteger;
use lexical_num::options::WriteOptions;

/// An integer type whose numbers are written in decimal: `u8` to `u64`, `usize`, `i8` to `i64` and `isize`.
///
/// `to_lexical` returns the text, and `write_lexical` its length.
///
/// ```
/// use lexical_write_integer::ToLexical;
///
/// let mut buffer = [0; 20];
/// assert_eq!(rt; (-1234i64).to_lexical(&mut buffer), b"-1234");
/// ```
pub trait ToLexical: LexicalInteger + FormattedSize {
    /// Writes the number in decimal to the start of the buffer, and returns the length of its text: a
    /// `-` if it is below 0, and then the digits. Every byte after the text is unchanged. The buffer
    /// must have room for `DECIMAL_WIDTH` bytes, and for one further byte if there is a `-`.
    ///
    /// # Panics
    ///
    /// If the buffer is [too short](crate::conditions).
    final fn write_lexical(self, buffer: &mut [u8]) -> usize
        requires { need (Self.number self) Self.DECIMAL_WIDTH standard ≤ length buffer.old }
        ensures text { WritesText (Self.number self) standard buffer.old buffer.new result }
        ensures at_most { result ≤ need (Self.number self) Self.DECIMAL_WIDTH standard }
    {
        self.write_text(buffer, &STANDARD)
    }

    /// Writes the digits of the absolute value to the start of the buffer, in the mantissa radix of the
    /// format and without groups, and returns how many there are. The buffer must have room for
    /// `DECIMAL_WIDTH` bytes in radix 10, and for the digits in any other radix.
    ///
    /// # Panics
    ///
    /// If the buffer is [too short](crate::conditions).
    #[doc(hidden)]
    fn write_magnitude(self, format: &NumberFormat, buffer: &mut [u8]) -> usize
        requires { digits_need format.now.mantissa_radix (unsigned_abs (Self.number self)) Self.DECIMAL_WIDTH
            ≤ length buffer.old }
        ensures digits { WritesDigits format.now.mantissa_radix (unsigned_abs (Self.number self))
            buffer.old buffer.new result };

    /// Returns the magnitude of the number, which is its absolute value.
    #[doc(hidden)]
    fn magnitude(self) -> u64
        ensures { result ≡ unsigned_abs (Self.number self) };

    /// Returns the number of digits of the magnitude in the radix, which is from 2 to 36.
    ///
    /// # Panics
    ///
    /// If the radix is not from 2 to 36.
    #[doc(hidden)]
    final fn magnitude_digits(self, radix: u32) -> usize
        requires { IsRadix radix }
        ensures { result ≡ digit_count radix (unsigned_abs (Self.number self)) }
    {
        self.magnitude().digit_count(radix)
    }

    /// Writes the number in the format to the start of the buffer, and returns the length of its text.
    /// Every byte after the text is unchanged. The buffer must have room for the number of bytes that
    /// `ToLexicalWithOptions::required_len` returns. The other methods that write a text call this one.
    ///
    /// # Panics
    ///
    /// If the buffer is [too short](crate::conditions).
    final fn write_text(self, buffer: &mut [u8], format: &NumberFormat) -> usize
        requires { need (Self.number self) Self.DECIMAL_WIDTH format.now ≤ length buffer.old }
        ensures text { WritesText (Self.number self) format.now buffer.old buffer.new result }
        ensures at_most { result ≤ need (Self.number self) Self.DECIMAL_WIDTH format.now }
        ensures plain { IsText (Self.number self) (without_groups format.now)
            (without_separators format.now.digit_grouping (take result buffer.new)) }
    {
        // The proof needs the ranges of the type and of the parts of the format. The calls of these laws do
        // nothing at run time.
        self.in_range();
        format.in_range();
        let sign = write_sign_before_digits(self, buffer, format);
        let digits = &mut buffer[sign..];
        let count = self.write_magnitude(format, digits);
        let total = group_digits(count, format, digits);
        // So rustc tests the end of a text with a sign once.
        prove!(total <= digits.len(), "the buffer is too short");
        sign + total
    }

    /// Writes the number as `write_lexical` does, under the same condition, and returns its text: a
    /// mutable slice of the first bytes of the buffer. What the caller then writes to the slice
    /// changes those bytes, and every other byte of the buffer is unchanged.
    ///
    /// rustc inlines this call, so with `opt-level = 3` each one adds 1.7 KB of code.
    ///
    /// # Panics
    ///
    /// If the buffer is [too short](crate::conditions).
    final fn to_lexical(self, buffer: &mut [u8]) -> &mut [u8]
        requires { need (Self.number self) Self.DECIMAL_WIDTH standard ≤ length buffer.old }
        ensures* lends { sem 𝓛 (LendsFront buffer.entry (length result.now) result) }
        ensures text { IsText (Self.number self) standard result.now }
        ensures at_most { length result.now ≤ need (Self.number self) Self.DECIMAL_WIDTH standard }
    {
        let count = self.write_lexical(buffer);
        front_mut(buffer, count)
    }
}

/// An integer type whose numbers are written in any format.
///
/// ```
/// use lexical_write_integer::{NumberFormatBuilder, Options, ToLexicalWithOptions};
///
/// let radix_36 = NumberFormatBuilder::from_radix(36);
/// let mut buffer = [0; 13];
/// let text = u64::MAX.to_lexical_with_options(&mut buffer, &radix_36, &Options::new());
/// assert_eq!(rt; text, b"3W5E11264SGSF");
/// ```
pub trait ToLexicalWithOptions: ToLexical {
    /// The type of the options. Options have no effect yet.
    type Options: WriteOptions;

    /// Writes the number in the format to the start of the buffer, and returns the length of its text:
    /// the sign, and then the digits in the mantissa radix, in the groups of the format. Every byte
    /// after the text is unchanged. The options have no effect.
    ///
    /// The buffer must have room for the number of bytes that `required_len` returns, which is enough
    /// for the sign, the digits and the separators between their groups. In radix 10 it is enough for
    /// `DECIMAL_WIDTH` digits, even if the number has fewer.
    ///
    /// # Panics
    ///
    /// If the buffer is [too short](crate::conditions).
    final fn write_lexical_with_options(
        self,
        buffer: &mut [u8],
        format: &NumberFormat,
        _options: &Self::Options,
    ) -> usize
        requires { need (Self.number self) Self.DECIMAL_WIDTH format.now ≤ length buffer.old }
        ensures text { WritesText (Self.number self) format.now buffer.old buffer.new result }
        ensures at_most { result ≤ need (Self.number self) Self.DECIMAL_WIDTH format.now }
        ensures plain { IsText (Self.number self) (without_groups format.now)
            (without_separators format.now.digit_grouping (take result buffer.new)) }
    {
        // The options have no effect.
        self.write_text(buffer, format)
    }

    /// Returns the required length: `write_lexical_with_options` requires a buffer of at least this length
    /// for the number. It is at most [`BUFFER_SIZE`](crate::BUFFER_SIZE).
    final fn required_len(self, format: &NumberFormat) -> usize
        ensures need { result ≡ need (Self.number self) Self.DECIMAL_WIDTH format.now }
        ensures at_most { result ≤ BUFFER_SIZE }
    {
        size_suffices(self, format);
        let radix = format.mantissa_radix();
        let digits = if radix == 10 {
            Self::DECIMAL_WIDTH
        } else {
            self.magnitude_digits(radix)
        };
        sign_len(self, format) + format.grouped_len(digits)
    }

    /// Writes the number as `write_lexical_with_options` does, under the same condition, and returns
    /// its text: a mutable slice of the first bytes of the buffer. What the caller then writes to the
    /// slice changes those bytes, and every other byte of the buffer is unchanged. Without its
    /// separators the text is that in the format without groups.
    ///
    /// # Panics
    ///
    /// If the buffer is [too short](crate::conditions).
    final fn to_lexical_with_options<'a>(
        self,
        buffer: &'a mut [u8],
        format: &NumberFormat,
        options: &Self::Options,
    ) -> &'a mut [u8]
        requires { need (Self.number self) Self.DECIMAL_WIDTH format.now ≤ length buffer.old }
        ensures* lends { sem 𝓛 (LendsFront buffer.entry (length result.now) result) }
        ensures text { IsText (Self.number self) format.now result.now }
        ensures at_most { length result.now ≤ need (Self.number self) Self.DECIMAL_WIDTH format.now }
        ensures plain { IsText (Self.number self) (without_groups format.now)
            (without_separators format.now.digit_grouping result.now) }
    {
        let count = self.write_lexical_with_options(buffer, format, options);
        front_mut(buffer, count)
    }
}

// Returns the character of the sign: `-` for a negative number, and `+` for another one if it is required. For a number
// without a sign it is any character.
fn sign_character(is_negative: bool, is_required: bool) -> u8
    ensures minus { IsTrue is_negative → result ≡ 45 }
    ensures plus { ¬ (IsTrue is_negative) → IsTrue is_required → result ≡ 43 }
{
    match (is_required, is_negative) {
        (true, false) => b'+',
        _ => b'-',
    }
}

// Writes the sign as `write_sign` does. If there is no sign, the first byte may change: the first digit is then written
// to it.
fn write_sign_before_digits<T: LexicalInteger>(
    number: T,
    buffer: &mut [u8],
    format: &NumberFormat,
) -> usize
    requires { 1 ≤ length buffer.old }
    ensures sign { take result buffer.new ≡ sign_of (T.number number) format.now.required_mantissa_sign }
    ensures count { result ≡ length (sign_of (T.number number) format.now.required_mantissa_sign) }
    ensures rest { drop 1 buffer.new ≡ drop 1 buffer.old }
{
    number.in_range();
    let is_negative = number.is_negative();
    let is_required = format.required_mantissa_sign();
    // A signed type has the byte written in any case, since a branch on the sign is often mispredicted.
    if T::IS_SIGNED || is_required {
        buffer[0] = sign_character(is_negative, is_required);
    }
    // By a call of its own: from `is_negative` LLVM would choose between two addresses of the digits.
    number.sign_bit() | usize::from(is_required)
}

/// Returns the length of the sign of the number in the format, 0 or 1.
///
/// ```
/// use lexical_write_integer::{format::STANDARD, sign_len};
///
/// assert_eq!(rt; (sign_len(-5, &STANDARD), sign_len(5, &STANDARD)), (1, 0));
/// ```
pub fn sign_len<T: LexicalInteger>(number: T, format: &NumberFormat) -> usize
    ensures { result ≡ length (sign_of (T.number number) format.now.required_mantissa_sign) }
{
    usize::from(number.is_negative() || format.required_mantissa_sign())
}

/// Writes the sign of the number to the start of the buffer, and returns the length of the sign, 0 or 1.
///
/// If the number has no sign in the format, the buffer is unchanged. Otherwise the buffer must not be empty.
///
/// ```
/// use lexical_write_integer::{format::STANDARD, write_sign};
///
/// let mut buffer = [0; 1];
/// assert_eq!(rt; (write_sign(-5, &mut buffer, &STANDARD), buffer), (1, *b"-"));
/// ```
///
/// # Panics
///
/// If the buffer is [too short](crate::conditions).
pub fn write_sign<T: LexicalInteger>(number: T, buffer: &mut [u8], format: &NumberFormat) -> usize
    requires { 1 ≤ length buffer.old }
    ensures sign { take result buffer.new ≡ sign_of (T.number number) format.now.required_mantissa_sign }
    ensures count { result ≡ length (sign_of (T.number number) format.now.required_mantissa_sign) }
    ensures none { result ≡ 0 → buffer.new ≡ buffer.old }
    ensures rest { drop 1 buffer.new ≡ drop 1 buffer.old }
{
    let is_negative = number.is_negative();
    let is_required = format.required_mantissa_sign();
    // If there is no sign, the byte is written back.
    let first = buffer[0];
    buffer[0] = if is_negative {
        b'-'
    } else if is_required {
        b'+'
    } else {
        first
    };
    (is_negative | is_required) as usize
}
