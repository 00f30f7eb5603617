//! Numbers with a fixed number of decimals.
#![tactic(auto, using(crate::proofs::OfTexts::Parts::parts))]

ghost use Rattle.std.specs.Prelude.{◌+◌, ◌≤◌, IsTrue, None, Some, length, max, unsigned_abs, if◌then◌else◌};
ghost use Rattle.std.specs.Prelude.{IfSome, IsSome};
ghost use Rattle.lexical_write_integer.specs.Buffer.{Writes};
ghost use Rattle.lexical_parts.specs.Fixed.{AreUnits, IsFixed, IsGroupedFixed, IsGroupedUnits};
ghost use Rattle.lexical_parts.specs.Fixed.{fixed_room, fixed_text, grouped_units_room};
ghost use Rattle.lexical_parts.specs.Length.{HasLength};

use crate::layout::fill::insert_fill;
use crate::numbers::sign::Sign;
use crate::part::Part;
use crate::sealed::Sealed;
use crate::show::Show;
use lexical_write_integer::format::STANDARD;
use lexical_write_integer::laws::size_suffices;
use lexical_write_integer::{NumberFormat, ToLexical, group_digits, sign_len};

// The length of the longest number with decimals, a `u64` in groups of one digit.
pub(crate) const LONGEST_FIXED: usize = 39;

// In Rust nothing else refuses more decimals.
fn check_decimals(decimals: usize)
    requires { decimals ≤ 19 }
{
    prove!(
        decimals <= 19,
        "{} decimals, but at most 19 are possible",
        decimals
    );
}

// Writes the digits of a number to the start of the buffer, after the zeros that a digit before the point requires, and
// returns the number of bytes written.
pub(crate) fn write_units<T: ToLexical>(number: T, decimals: usize, buffer: &mut [u8]) -> usize
    requires decimals { decimals ≤ 19 }
    requires room { max T.DECIMAL_WIDTH (decimals + 1) ≤ length buffer.old }
    ensures { Writes (AreUnits decimals (unsigned_abs (T.number number)) T.DECIMAL_WIDTH) buffer.old buffer.new result }
{
    check_decimals(decimals);
    number.in_range();
    let count = number.write_magnitude(&STANDARD, buffer);
    if count > decimals {
        return count;
    }
    insert_fill(b'0', decimals + 1 - count, count, buffer);
    decimals + 1
}

// Writes the absolute value of a number of units of 10^-`decimals` to the start of the buffer, with its whole part in
// the groups of the format, and returns the number of bytes written.
fn write_grouped_units<T: ToLexical>(
    number: T,
    decimals: usize,
    format: &NumberFormat,
    buffer: &mut [u8],
) -> usize
    requires decimals { decimals ≤ 19 }
    requires room { grouped_units_room format.now.digit_grouping T.DECIMAL_WIDTH decimals ≤ length buffer.old }
    ensures text { Writes (IsGroupedUnits format.now.digit_grouping decimals (unsigned_abs (T.number number)))
        buffer.old buffer.new result }
    ensures at_most { result ≤ grouped_units_room format.now.digit_grouping T.DECIMAL_WIDTH decimals }
{
    let count = write_units(number, decimals, buffer);
    let whole = count - decimals;
    if decimals == 0 {
        return group_digits(whole, format, buffer);
    }
    // A byte for each separator and one for the point. `group_digits` writes over all but the last.
    let points = format.grouped_len(whole) + 1 - whole;
    insert_fill(b'.', points, decimals, &mut buffer[whole..]);
    group_digits(whole, format, buffer) + 1 + decimals
}

/// An integer with a decimal point, such as an amount in cents: `Fixed(-5i64, 2)` writes `-0.05`.
///
/// At least one digit precedes the point, and as many digits follow it as there are decimals, which are at most 19:
/// `Fixed(1234u32, 3)` writes `1.234`. A number without decimals has no point. The room is at most 22 bytes.
///
/// ```
/// use lexical_parts::{Fixed, Part};
///
/// assert_eq!(rt; Fixed(-5i64, 2).to_str(&mut [0; 64]), "-0.05");
/// assert_eq!(rt; Fixed(1234u32, 3).to_str(&mut [0; 64]), "1.234");
/// ```
#[derive(Clone, Copy, Debug, Drop)]
pub struct Fixed<T>(
    /// The number without its point: 1995 for `19.95`.
    pub T,
    /// The number of decimals, at most 19.
    pub usize,
);

impl<T: ToLexical> Part for Fixed<T> {
    ghost is_text = { λ part. IsFixed part.1 (T.number part.0) };

    ghost is_valid = { λ part. part.1 ≤ 19 };

    ghost room = { λ part. fixed_room T.IS_SIGNED T.DECIMAL_WIDTH part.1 };

    fn room(self) -> usize {
        GroupedFixed(self.0, self.1, &STANDARD).room()
    }

    fn write_to(self, buffer: &mut [u8]) -> usize {
        GroupedFixed(self.0, self.1, &STANDARD).write_to(buffer)
    }

    fn text_len(self) -> Option<usize>
        requires { self.1 ≤ 19 }
        ensures known { IsSome result }
        ensures length { IfSome result (λ count. HasLength (IsFixed self.1 (T.number self.0)) count) }
    {
        GroupedFixed(self.0, self.1, &STANDARD).text_len()
    }

    fn is_known_valid_and_utf8(self, sealed: Sealed) -> bool
        ensures valid { IsTrue result → self.1 ≤ 19 }
        ensures known { self.1 ≤ 19 → IsTrue result }
    {
        GroupedFixed(self.0, self.1, &STANDARD).is_known_valid_and_utf8(sealed)
    }
}

impl<T: ToLexical> Show for Fixed<T> {
    ghost text = { λ part. Some (fixed_text None part.1 (T.number part.0)) };

    fn is_showable(self) -> bool {
        self.0.in_range();
        self.is_known_valid_and_utf8(Sealed)
    }
}

/// A number as [`Fixed`] writes it, with its whole part in the groups of a format.
///
/// The radix and the sign of the format are ignored. In groups of three with `,`, `GroupedFixed(-123456, 2, &format)`
/// writes `-1,234.56`. The room is at most 39 bytes.
///
/// ```
/// use lexical_parts::{GroupedFixed, Part};
///
/// let format = lexical_write_integer::NumberFormatBuilder::new().digit_grouping(3, b',').build_strict();
/// assert_eq!(rt; GroupedFixed(-123456, 2, &format).to_str(&mut [0; 64]), "-1,234.56");
/// ```
#[derive(Clone, Copy, Debug, Drop)]
pub struct GroupedFixed<'a, T>(
    /// The number without its point: 1995 for `19.95`.
    pub T,
    /// The number of decimals, at most 19.
    pub usize,
    /// The format.
    pub &'a NumberFormat,
);

impl<T: ToLexical> Part for GroupedFixed<'_, T> {
    ghost is_text = { λ part. IsGroupedFixed part.2.now.digit_grouping part.1 (T.number part.0) };

    ghost is_valid = { λ part. part.1 ≤ 19 };

    ghost room = { λ part. (if T.IS_SIGNED then 1 else 0)
        + grouped_units_room part.2.now.digit_grouping T.DECIMAL_WIDTH part.1 };

    fn room(self) -> usize {
        check_decimals(self.1);
        size_suffices(self.0, &STANDARD);
        let whole = T::DECIMAL_WIDTH.max(self.1 + 1) - self.1;
        usize::from(T::IS_SIGNED) + self.2.grouped_len(whole) + self.1 + self.1.min(1)
    }

    fn write_to(self, buffer: &mut [u8]) -> usize {
        self.2.in_range();
        size_suffices(self.0, &STANDARD);
        let start = Sign(self.0, false).write_to(buffer);
        start + write_grouped_units(self.0, self.1, self.2, &mut buffer[start..])
    }

    fn text_len(self) -> Option<usize>
        requires { self.1 ≤ 19 }
        ensures known { IsSome result }
        ensures length { IfSome result (λ count. HasLength (IsGroupedFixed self.entry.2.now.digit_grouping self.entry.1 (T.number self.entry.0)) count) }
    {
        check_decimals(self.1);
        self.0.in_range();
        self.2.in_range();
        let digits = self.0.magnitude_digits(10);
        let whole = digits.saturating_sub(self.1).max(1);
        let sign = sign_len(self.0, &STANDARD);
        Some(sign + self.2.grouped_len(whole) + self.1 + self.1.min(1))
    }

    fn is_known_valid_and_utf8(self, _sealed: Sealed) -> bool
        ensures valid { IsTrue result → self.entry.1 ≤ 19 }
        ensures known { self.entry.1 ≤ 19 → IsTrue result }
    {
        self.1 <= 19
    }
}

impl<T: ToLexical> Show for GroupedFixed<'_, T> {
    ghost text = { λ part. Some (fixed_text part.2.now.digit_grouping part.1 (T.number part.0)) };

    fn is_showable(self) -> bool {
        self.0.in_range();
        self.is_known_valid_and_utf8(Sealed)
    }
}
