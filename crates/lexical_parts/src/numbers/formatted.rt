//! A number in a format, which has a radix, a sign and groups of digits.
#![tactic(auto, using(crate::proofs::OfTexts::Parts::parts))]

ghost use Rattle.lexical_write_integer.specs.Computed.{text_of};
ghost use Rattle.std.specs.Prelude.{◌≡◌, ◌≤◌, Some, IfSome, IsSome};
ghost use Rattle.lexical_num.specs.declared.constants.TheConstants.{BUFFER_SIZE};
ghost use Rattle.lexical_write_integer.specs.Text.{IsText, need};
ghost use Rattle.lexical_parts.specs.Formatted.{formatted_room, largest_magnitude};
ghost use Rattle.lexical_parts.specs.Length.{HasLength};

use crate::numbers::compact::CompactFormatted;
use crate::part::Part;
use crate::sealed::Sealed;
use crate::show::Show;
use lexical_write_integer::digit_count::DigitCount;
use lexical_write_integer::{BUFFER_SIZE, NumberFormat, ToLexical, sign_len};
use std::fmt;

// Returns the largest absolute value of a number of the type.
fn largest_magnitude<T: ToLexical>() -> u64
    ensures { result ≡ largest_magnitude T.BITS T.IS_SIGNED }
{
    let all_bits = u64::MAX >> (64 - T::BITS);
    if T::IS_SIGNED {
        all_bits / 2 + 1
    } else {
        all_bits
    }
}

/// A law: the room of a `Formatted` is enough for the number, and it is at most `BUFFER_SIZE`.
pub fn formatted_room_suffices<T: ToLexical>(number: T, format: &NumberFormat)
    ensures need { need (T.number number) T.DECIMAL_WIDTH format.now
        ≤ formatted_room T.BITS T.IS_SIGNED format.now }
    ensures buffer { formatted_room T.BITS T.IS_SIGNED format.now ≤ BUFFER_SIZE }
{
    number.in_range();
    format.in_range();
}

/// A number in a format, with its sign and its groups of digits.
///
/// In a format with groups of three digits and the separator `,`, `Formatted(1234567, &format)` writes `1,234,567`. The
/// room is the length of the longest text of the type in the format: 26 bytes for 64 bits in decimal and groups of
/// three, and at most 128 bytes for every type and format.
///
/// If the format is a constant where you call `to_str`, your program has only the code of its radix. If it is known
/// only at run time, your program has [the code of every radix](crate::costs#a-radix-that-is-known-only-at-run-time),
/// which is 36 KB for a `u8` and 69 KB for a `u64`. `write_pieces` and `{}` add 5 to 12 KB instead, because they divide
/// once for each digit.
///
/// ```
/// use lexical_parts::{Formatted, Part};
///
/// let format = lexical_write_integer::NumberFormatBuilder::new().digit_grouping(3, b',').build_strict();
/// assert_eq!(rt; Formatted(1234567, &format).to_str(&mut [0; 64]), "1,234,567");
/// ```
#[derive(Clone, Copy, Debug, Drop)]
pub struct Formatted<'a, T>(
    /// The number.
    pub T,
    /// The format.
    pub &'a NumberFormat,
);

impl<T: ToLexical> Part for Formatted<'_, T> {
    ghost is_text = { λ part. IsText (T.number part.0) part.1.now };

    ghost room = { λ part. formatted_room T.BITS T.IS_SIGNED part.1.now };

    fn room(self) -> usize {
        self.1.in_range();
        let sign = usize::from(T::IS_SIGNED || self.1.required_mantissa_sign());
        let digits = largest_magnitude::<T>().digit_count(self.1.mantissa_radix());
        sign + self.1.grouped_len(digits)
    }

    fn write_to(self, buffer: &mut [u8]) -> usize {
        formatted_room_suffices(self.0, self.1);
        self.1.in_range();
        self.0.write_text(buffer, self.1)
    }

    fn text_len(self) -> Option<usize>
        ensures known { IsSome result }
        ensures length { IfSome result (λ count. HasLength (IsText (T.number self.entry.0) self.entry.1.now) count) }
    {
        self.0.in_range();
        self.1.in_range();
        let digits = self.0.magnitude_digits(self.1.mantissa_radix());
        Some(sign_len(self.0, self.1) + self.1.grouped_len(digits))
    }

    fn is_known_valid_and_utf8(self, _sealed: Sealed) -> bool {
        true
    }
}

impl<T: ToLexical> Show for Formatted<'_, T> {
    ghost text = { λ part. Some (text_of (T.number part.0) part.1.now) };

    fn is_showable(self) -> bool {
        self.0.in_range();
        self.1.in_range();
        true
    }

    fn write_pieces<O: fmt::Write>(self, out: &mut O) -> fmt::Result {
        self.1.in_range();
        out.write_str(CompactFormatted(self.0, self.1).to_str(&mut [0; BUFFER_SIZE]))
    }
}
