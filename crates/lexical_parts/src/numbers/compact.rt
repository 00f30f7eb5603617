//! Numbers in any radix, in little code.
//!
//! `{}` and `write_pieces` write `Digits`, `PaddedDigits` and `Formatted` by these parts. There the radix is mostly
//! known only at run time, and the code of all radices would add 35 KB or more.
#![tactic(auto, using(crate::proofs::OfTexts::Parts::parts))]

ghost use Rattle.std.specs.Prelude.{◌≤◌, IsTrue, length, unsigned_abs};
ghost use Rattle.lexical_num.specs.Format.{IsRadix};
ghost use Rattle.lexical_num.specs.declared.constants.TheConstants.{BUFFER_SIZE};
ghost use Rattle.lexical_write_integer.specs.Buffer.{WritesDigits};
ghost use Rattle.lexical_write_integer.specs.Text.{IsDigits, IsText};

use crate::numbers::formatted::formatted_room_suffices;
use crate::numbers::padded::MOST_DIGITS;
use crate::part::Part;
use crate::sealed::Sealed;
use lexical_num::limits::is_radix;
use lexical_write_integer::compact::Compact;
use lexical_write_integer::format::STANDARD;
use lexical_write_integer::laws::digit_count_within_bits;
use lexical_write_integer::{BUFFER_SIZE, NumberFormat, ToLexical, group_digits, write_sign};

// The text of `Digits`.
#[derive(Clone, Copy, Drop)]
pub(crate) struct CompactDigits(pub u32, pub u64);

impl Part for CompactDigits {
    ghost is_text = { λ part. IsDigits part.0 part.1 };

    ghost is_valid = { λ part. IsRadix part.0 };

    ghost room = { λ _. 64 };

    fn room(self) -> usize {
        MOST_DIGITS
    }

    fn write_to(self, buffer: &mut [u8]) -> usize {
        digit_count_within_bits(self.0, self.1);
        self.1.compact(self.0, buffer)
    }

    fn is_known_valid_and_utf8(self, _sealed: Sealed) -> bool
        ensures valid { IsTrue result → IsRadix self.0 }
    {
        is_radix(u64::from(self.0))
    }
}

// The text of `Formatted`.
#[derive(Clone, Copy, Drop)]
pub(crate) struct CompactFormatted<'a, T>(pub T, pub &'a NumberFormat);

// Writes the digits of the absolute value in the radix of the format, and returns how many there are.
fn write_digits_compactly<T: ToLexical>(
    number: T,
    format: &NumberFormat,
    buffer: &mut [u8],
) -> usize
    requires { 64 ≤ length buffer.old }
    ensures { WritesDigits format.now.mantissa_radix (unsigned_abs (T.number number)) buffer.old buffer.new result }
{
    number.in_range();
    let radix = format.mantissa_radix();
    if radix == 10 {
        number.write_magnitude(&STANDARD, buffer)
    } else {
        let magnitude = number.magnitude();
        digit_count_within_bits(radix, magnitude);
        magnitude.compact(radix, buffer)
    }
}

impl<T: ToLexical> Part for CompactFormatted<'_, T> {
    ghost is_text = { λ part. IsText (T.number part.0) part.1.now };

    ghost room = { λ _. BUFFER_SIZE };

    fn room(self) -> usize {
        BUFFER_SIZE
    }

    fn write_to(self, buffer: &mut [u8]) -> usize {
        formatted_room_suffices(self.0, self.1);
        self.0.in_range();
        self.1.in_range();
        let sign = write_sign(self.0, buffer, self.1);
        let digits = &mut buffer[sign..];
        let count = write_digits_compactly(self.0, self.1, digits);
        sign + group_digits(count, self.1, digits)
    }

    fn is_known_valid_and_utf8(self, _sealed: Sealed) -> bool {
        true
    }
}
