//! Numbers of units without zeros at the end of their fraction.
#![tactic(auto, using(crate::proofs::OfTexts::Parts::parts))]

ghost use Rattle.std.specs.Prelude.{IsTrue, ◌+◌, ◌≤◌, Some, length, max, min, unsigned_abs, IfSome, IsSome};
ghost use Rattle.lexical_write_integer.specs.Buffer.{Writes};
ghost use Rattle.lexical_parts.specs.Fixed.{fixed_room};
ghost use Rattle.lexical_parts.specs.Trimmed.{IsTrimmedFixed, IsTrimmedUnits, trimmed_text};
ghost use Rattle.lexical_parts.specs.Length.{HasLength};

use crate::numbers::fixed::{Fixed, LONGEST_FIXED, write_units};
use crate::numbers::scientific::count_without_zeros;
use crate::numbers::sign::Sign;
use crate::part::Part;
use crate::sealed::Sealed;
use crate::show::Show;
use crate::texts::bytes::Bytes;
use lexical_write_integer::ToLexical;
use lexical_write_integer::format::STANDARD;
use lexical_write_integer::laws::size_suffices;

// Writes the absolute value of a number of units of 10^-`decimals` to the start of the buffer, without zeros at the end
// of its fraction, and returns the number of bytes written.
fn write_trimmed_units<T: ToLexical>(number: T, decimals: usize, buffer: &mut [u8]) -> usize
    requires decimals { decimals ≤ 19 }
    requires room { max T.DECIMAL_WIDTH (decimals + 1) + min decimals 1 ≤ length buffer.old }
    ensures text { Writes (IsTrimmedUnits decimals (unsigned_abs (T.number number))) buffer.old buffer.new result }
    ensures at_most { result ≤ max T.DECIMAL_WIDTH (decimals + 1) + min decimals 1 }
{
    let mut array = [0; 20];
    let count = write_units(number, decimals, &mut array);
    let units = &array[..count];
    let whole = units.len() - decimals;
    let kept = count_without_zeros(units, whole);
    if kept == whole {
        return Bytes(&units[..whole]).write_to(buffer);
    }
    (Bytes(&units[..whole]), ".", Bytes(&units[whole..kept])).write_to(buffer)
}

/// A number as [`Fixed`](super::super::Fixed) writes it, without zeros at the end of its fraction.
///
/// If no decimal is left, there is no point either: `TrimmedFixed(-1500, 3)` writes `-1.5`, and `TrimmedFixed(2000u32,
/// 3)` writes `2`. The room is at most 22 bytes.
///
/// ```
/// use lexical_parts::{Part, TrimmedFixed};
///
/// assert_eq!(rt; TrimmedFixed(-1500, 3).to_str(&mut [0; 64]), "-1.5");
/// assert_eq!(rt; TrimmedFixed(2000u32, 3).to_str(&mut [0; 64]), "2");
/// ```
#[derive(Clone, Copy, Debug, Drop)]
pub struct TrimmedFixed<T>(
    /// The number without its point: 1995 for `19.95`.
    pub T,
    /// The number of decimals, at most 19.
    pub usize,
);

impl<T: ToLexical> Part for TrimmedFixed<T> {
    ghost is_text = { λ part. IsTrimmedFixed part.1 (T.number part.0) };

    ghost is_valid = { λ part. part.1 ≤ 19 };

    ghost room = { λ part. fixed_room T.IS_SIGNED T.DECIMAL_WIDTH part.1 };

    fn room(self) -> usize {
        Fixed(self.0, self.1).room()
    }

    fn write_to(self, buffer: &mut [u8]) -> usize {
        size_suffices(self.0, &STANDARD);
        let start = Sign(self.0, false).write_to(buffer);
        start + write_trimmed_units(self.0, self.1, &mut buffer[start..])
    }

    fn text_len(self) -> Option<usize>
        requires { self.1 ≤ 19 }
        ensures known { IsSome result }
        ensures length { IfSome result (λ count. HasLength (IsTrimmedFixed self.1 (T.number self.0)) count) }
    {
        self.0.in_range();
        // How many zeros the fraction ends with, only its digits say.
        Some(self.write_to(&mut [0; LONGEST_FIXED]))
    }

    fn is_known_valid_and_utf8(self, sealed: Sealed) -> bool
        ensures valid { IsTrue result → self.1 ≤ 19 }
        ensures known { self.1 ≤ 19 → IsTrue result }
    {
        Fixed(self.0, self.1).is_known_valid_and_utf8(sealed)
    }
}

impl<T: ToLexical> Show for TrimmedFixed<T> {
    ghost text = { λ part. Some (trimmed_text part.1 (T.number part.0)) };

    fn is_showable(self) -> bool {
        self.0.in_range();
        self.is_known_valid_and_utf8(Sealed)
    }
}
