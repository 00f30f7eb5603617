//! Unsigned numbers in radix 16 and in radix 2, in the room of their type.
#![tactic(auto, using(crate::proofs::OfTexts::Parts::parts))]

ghost use Rattle.lexical_write_integer.specs.Computed.{digits_text, padded_text};
ghost use Rattle.std.specs.Prelude.{◌/◌, Some, IfSome, IsSome};
ghost use Rattle.lexical_write_integer.specs.Padded.{IsPadded};
ghost use Rattle.lexical_write_integer.specs.Text.{IsDigits};
ghost use Rattle.lexical_parts.specs.Length.{HasLength};

use crate::numbers::padded::PaddedDigits;
use crate::part::Part;
use crate::sealed::Sealed;
use crate::show::Show;
use lexical_write_integer::digit_count::DigitCount;
use lexical_write_integer::laws::digit_count_within_bits;
use lexical_write_integer::radix::{Radix, write_in_constant_radix};

/// The digits of an unsigned number in radix 16, without a prefix: `Hex(255u32)` writes `FF`.
///
/// Its room is that of its type: 2 bytes for a `u8`, and 16 for a `u64`.
///
/// A literal needs a type, because an `i32` is signed: `Hex(255u8)`. A signed number in a radix is written by
/// `Formatted`.
///
/// ```
/// use lexical_parts::{Hex, Part};
///
/// assert_eq!(rt; Hex(255u32).to_str(&mut [0; 64]), "FF");
/// ```
#[derive(Clone, Copy, Debug, Drop)]
pub struct Hex<T>(pub T);

impl<T: Radix> Part for Hex<T> {
    ghost is_text = { λ part. IsDigits 16 (T.magnitude part.0) };

    ghost room = { λ _. T.BITS / 4 };

    fn room(self) -> usize {
        T::BITS / 4 // Each digit has four bits.
    }

    fn write_to(self, buffer: &mut [u8]) -> usize {
        self.0.fits_bits();
        // Its code is short enough for each caller.
        write_in_constant_radix(self.0, 16, buffer)
    }

    fn text_len(self) -> Option<usize>
        ensures known { IsSome result }
        ensures length { IfSome result (λ count. HasLength (IsDigits 16 (T.magnitude self.0)) count) }
    {
        self.0.fits_bits();
        Some(self.0.as_u64().digit_count(16))
    }

    fn is_known_valid_and_utf8(self, _sealed: Sealed) -> bool {
        true
    }
}

impl<T: Radix> Show for Hex<T> {
    ghost text = { λ part. Some (digits_text 16 (T.magnitude part.0)) };

    fn is_showable(self) -> bool {
        self.0.fits_bits();
        true
    }
}

/// The digits of an unsigned number in radix 2, without a prefix: `Binary(5u8)` writes `101`.
///
/// Its room is that of its type: 8 bytes for a `u8`, and 64 for a `u64`. A literal needs a type, because an `i32` is
/// signed: `Binary(5u8)`.
///
/// ```
/// use lexical_parts::{Binary, Part};
///
/// assert_eq!(rt; Binary(5u8).to_str(&mut [0; 64]), "101");
/// ```
#[derive(Clone, Copy, Debug, Drop)]
pub struct Binary<T>(pub T);

impl<T: Radix> Part for Binary<T> {
    ghost is_text = { λ part. IsDigits 2 (T.magnitude part.0) };

    ghost room = { λ _. T.BITS };

    fn room(self) -> usize {
        T::BITS
    }

    fn write_to(self, buffer: &mut [u8]) -> usize {
        digit_count_within_bits(2, self.0);
        // It writes by a call, because the code of radix 2 is long.
        self.0.radix(2, buffer)
    }

    fn text_len(self) -> Option<usize>
        ensures known { IsSome result }
        ensures length { IfSome result (λ count. HasLength (IsDigits 2 (T.magnitude self.0)) count) }
    {
        self.0.fits_bits();
        Some(self.0.as_u64().digit_count(2))
    }

    fn is_known_valid_and_utf8(self, _sealed: Sealed) -> bool {
        true
    }
}

impl<T: Radix> Show for Binary<T> {
    ghost text = { λ part. Some (digits_text 2 (T.magnitude part.0)) };

    fn is_showable(self) -> bool {
        self.0.fits_bits();
        true
    }
}

/// All digits of an unsigned number in radix 16, with leading zeros: `FullHex(255u16)` writes `00FF`.
///
/// The width is that of the type: 2 for a `u8`, and 16 for a `u64` and for a `usize` on every target. A literal needs a
/// type, because an `i32` is signed. The room is this width.
///
/// ```
/// use lexical_parts::{FullHex, Part};
///
/// assert_eq!(rt; FullHex(255u16).to_str(&mut [0; 64]), "00FF");
/// ```
#[derive(Clone, Copy, Debug, Drop)]
pub struct FullHex<T>(pub T);

impl<T: DigitCount + Radix> Part for FullHex<T> {
    ghost is_text = { λ part. IsPadded 16 (T.BITS / 4) (T.magnitude part.0) };

    ghost room = { λ _. T.BITS / 4 };

    fn room(self) -> usize {
        T::BITS / 4
    }

    fn write_to(self, buffer: &mut [u8]) -> usize {
        self.0.fits_bits();
        PaddedDigits(16, self.0, T::BITS / 4).write_to(buffer)
    }

    fn text_len(self) -> Option<usize>
        ensures known { IsSome result }
        ensures length { IfSome result (λ count. HasLength (IsPadded 16 (T.BITS / 4) (T.magnitude self.0)) count) }
    {
        Some(T::BITS / 4)
    }

    fn is_known_valid_and_utf8(self, _sealed: Sealed) -> bool {
        true
    }
}

impl<T: DigitCount + Radix> Show for FullHex<T> {
    ghost text = { λ part. Some (padded_text 16 (T.BITS / 4) (T.magnitude part.0)) };

    fn is_showable(self) -> bool {
        self.0.fits_bits();
        true
    }
}
