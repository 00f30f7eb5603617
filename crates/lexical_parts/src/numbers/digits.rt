//! The digits of an unsigned number in any radix, which is a field of the part or stands in its type.
#![tactic(auto, using(crate::proofs::OfTexts::Parts::parts))]

ghost use Rattle.lexical_write_integer.specs.Computed.{digits_text};
ghost use Rattle.std.specs.Prelude.{◌≡◌, IsTrue, Some, IfSome, IsSome};
ghost use Rattle.lexical_num.specs.Format.{IsRadix};
ghost use Rattle.lexical_write_integer.specs.DigitCount.{digit_count};
ghost use Rattle.lexical_write_integer.specs.Text.{IsDigits};
ghost use Rattle.lexical_parts.specs.Length.{HasLength};

use crate::numbers::compact::CompactDigits;
use crate::numbers::padded::MOST_DIGITS;
use crate::part::Part;
use crate::sealed::Sealed;
use crate::show::Show;
use lexical_num::limits::is_radix;
use lexical_write_integer::digit_count::{DigitCount, most_digits};
use lexical_write_integer::laws::digit_count_within_bits;
use lexical_write_integer::radix::Radix;
use std::fmt;

/// The digits of an unsigned number in a radix from 2 to 36: `Digits(16, 255u32)` writes `FF`.
///
/// The digits above 9 are `A` to `Z`; `Lower(Digits(16, 255u32))` writes `ff`. With another radix the part is not
/// valid. A literal needs a type, because an `i32` is signed: `Digits(36, 1000u64)`. A signed number in a radix is
/// written by `Formatted`. The room is the number of digits.
///
/// If the radix is a constant in the expression that writes the part, as below, your program has only the code of that
/// radix. If you pass the part on, make it an [`InRadix`](super::super::InRadix), which has its radix in its type. If
/// the radix is known only at run time, your program has [the code of every
/// radix](crate::costs#a-radix-that-is-known-only-at-run-time), which is 35 KB for a `u8` and 67 KB for a `u64`.
/// `write_pieces` and `{}` add 4 to 8 KB instead, because they divide once for each digit.
///
/// ```
/// use lexical_parts::{Digits, Lower, Part};
///
/// assert_eq!(rt; Digits(16, 255u32).to_str(&mut [0; 64]), "FF");
/// assert_eq!(rt; Lower(Digits(16, 255u32)).to_str(&mut [0; 64]), "ff");
/// ```
#[derive(Clone, Copy, Debug, Drop)]
pub struct Digits<T>(
    /// The radix.
    pub u32,
    /// The number.
    pub T,
);

impl<T: Radix + DigitCount> Part for Digits<T> {
    ghost is_text = { λ part. IsDigits part.0 (T.magnitude part.1) };

    ghost is_valid = { λ part. IsRadix part.0 };

    ghost room = { λ part. digit_count part.0 (T.magnitude part.1) };

    fn room(self) -> usize {
        self.1.digit_count(self.0)
    }

    fn write_to(self, buffer: &mut [u8]) -> usize {
        self.1.radix(self.0, buffer)
    }

    fn text_len(self) -> Option<usize>
        requires { IsRadix self.0 }
        ensures known { IsSome result }
        ensures length { IfSome result (λ count. HasLength (IsDigits self.0 (T.magnitude self.1)) count) }
    {
        Some(self.1.digit_count(self.0))
    }

    fn room_bound(self, _sealed: Sealed) -> usize {
        self.1.fits_bits();
        most_digits::<T>(self.0)
    }

    fn is_known_valid_and_utf8(self, _sealed: Sealed) -> bool
        ensures valid { IsTrue result → IsRadix self.0 }
        ensures known { IsRadix self.0 → IsTrue result }
    {
        is_radix(u64::from(self.0))
    }
}

impl<T: Radix + DigitCount> Show for Digits<T> {
    ghost text = { λ part. Some (digits_text part.0 (T.magnitude part.1)) };

    fn is_showable(self) -> bool {
        self.1.fits_bits();
        self.is_known_valid_and_utf8(Sealed)
    }

    fn write_pieces<O: fmt::Write>(self, out: &mut O) -> fmt::Result {
        if !self.is_showable() {
            return Err(fmt::Error);
        }
        let digits = CompactDigits(self.0, self.1.as_u64());
        out.write_str(digits.to_str(&mut [0; MOST_DIGITS]))
    }
}

/// The digits of an unsigned number in a radix that you know: `InRadix::<36, _>(1000u64)` writes `RS`.
///
/// It writes the same text as `Digits(36, 1000u64)`, and has the same room. But the radix stands in the type, so your
/// program has only the code of that radix, wherever the part goes: for example through a function that is not
/// inlined, or into a [`Joined`](super::super::Joined).
///
/// The radix is from 2 to 36. Another one is an error of `cargo build`, though not of `cargo check`. The digits above 9
/// are `A` to `Z`, and [`Lower`](super::super::Lower) of the part writes `a` to `z`. A literal needs a type, because an
/// `i32` is signed.
///
/// ```
/// use lexical_parts::{InRadix, Lower, Part};
///
/// assert_eq!(rt; InRadix::<36, _>(1000u64).to_str(&mut [0; 64]), "RS");
/// assert_eq!(rt; Lower(InRadix::<36, _>(1000u64)).to_str(&mut [0; 64]), "rs");
/// ```
#[derive(Clone, Copy, Debug, Drop)]
pub struct InRadix<const RADIX: u32, T>(
    /// The number.
    pub T,
);

impl<const RADIX: u32, T> InRadix<RADIX, T> {
    // Returns the part with its radix as a value.
    fn digits(self) -> Digits<T>
        ensures radix { result.0 ≡ RADIX }
        ensures number { result.1 ≡ self.0 }
    {
        Digits(RADIX, self.0)
    }
}

impl<const RADIX: u32, T: Radix + DigitCount> Part for InRadix<RADIX, T> {
    ghost is_text = { λ part. IsDigits RADIX (T.magnitude part.0) };

    ghost is_valid = { λ _. IsRadix RADIX };

    ghost room = { λ part. digit_count RADIX (T.magnitude part.0) };

    fn room(self) -> usize {
        self.digits().room()
    }

    fn write_to(self, buffer: &mut [u8]) -> usize {
        self.digits().write_to(buffer)
    }

    fn text_len(self) -> Option<usize>
        requires { IsRadix RADIX }
        ensures known { IsSome result }
        ensures length { IfSome result (λ count. HasLength (IsDigits RADIX (T.magnitude self.0)) count) }
    {
        self.digits().text_len()
    }

    fn room_bound(self, sealed: Sealed) -> usize {
        self.digits().room_bound(sealed)
    }

    fn is_known_valid_and_utf8(self, sealed: Sealed) -> bool
        ensures valid { IsTrue result → IsRadix RADIX }
        ensures known { IsRadix RADIX → IsTrue result }
    {
        self.digits().is_known_valid_and_utf8(sealed)
    }
}

impl<const RADIX: u32, T: Radix + DigitCount> Show for InRadix<RADIX, T> {
    ghost text = { λ part. Some (digits_text RADIX (T.magnitude part.0)) };

    fn is_showable(self) -> bool {
        self.digits().is_showable()
    }

    fn write_pieces<O: fmt::Write>(self, out: &mut O) -> fmt::Result {
        if !self.is_showable() {
            return Err(fmt::Error);
        }
        digit_count_within_bits(RADIX, self.0);
        out.write_str(self.to_str(&mut [0; MOST_DIGITS]))
    }
}
