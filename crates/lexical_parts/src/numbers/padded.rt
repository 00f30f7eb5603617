//! Numbers with leading zeros, up to a fixed width.
#![tactic(auto, using(crate::proofs::OfTexts::Parts::parts))]

ghost use Rattle.lexical_write_integer.specs.Computed.{padded_text};
ghost use Rattle.std.specs.Prelude.{◌≡◌, ◌^◌, ◌<◌, ◌++◌, ◌↔◌, IfOk, IsOk, IsTrue, Some, IfSome, IsSome, replicate};
ghost use Rattle.lexical_num.specs.Format.{IsRadix};
ghost use Rattle.lexical_write_integer.specs.Padded.{IsPadded};
ghost use Rattle.lexical_parts.specs.Length.{HasLength};

use crate::layout::fill::write_copies;
use crate::numbers::compact::CompactDigits;
use crate::part::Part;
use crate::sealed::Sealed;
use crate::show::{Show, write_in_one_piece};
use lexical_num::limits::is_radix;
use lexical_write_integer::digit_count::DigitCount;
use lexical_write_integer::padded::{fits_decimal_width, write_padded};
use lexical_write_integer::radix::Radix;
use std::fmt;

// The digits of the longest number.
pub(crate) const MOST_DIGITS: usize = 64;

// Returns whether the number has so few bits that it is below `radix^width`. To count its digits costs more, and is not
// needed if the radix is a power of two.
fn has_few_bits(number: u64, radix: u32, width: usize) -> bool
    requires { IsRadix radix }
    ensures below { IsTrue result → number < radix ^ width }
    ensures zero { number ≡ 0 → IsTrue result }
{
    if width >= 64 {
        return true;
    }
    let bits = radix.ilog2() as usize * width;
    bits >= 64 || number >> bits == 0
}

/// The digits of an unsigned number in a radix from 2 to 36, with leading zeros up to the width: `PaddedDigits(16, 1u8,
/// 2)` writes `01`.
///
/// The number must be below `radix.pow(width)`, and a literal needs a type. The room is the width. `room` and
/// `text_len` do not check that the number fits.
///
/// If the radix is a constant where you call `to_str`, your program has only the code of that radix. If it is known
/// only at run time, your program has [the code of every radix](crate::costs#a-radix-that-is-known-only-at-run-time),
/// which is 39 KB for a `u8` and 80 KB for a `u64`. `write_pieces` and `{}` add 4 to 9 KB instead, because they divide
/// once for each digit.
///
/// ```
/// use lexical_parts::{PaddedDigits, Part};
///
/// assert_eq!(rt; PaddedDigits(16, 1u8, 2).to_str(&mut [0; 64]), "01");
/// ```
#[derive(Clone, Copy, Debug, Drop)]
pub struct PaddedDigits<T>(
    /// The radix.
    pub u32,
    /// The number.
    pub T,
    /// The width, in digits.
    pub usize,
);

impl<T: DigitCount + Radix> Part for PaddedDigits<T> {
    ghost is_text = { λ part. IsPadded part.0 part.2 (T.magnitude part.1) };

    ghost is_valid = { λ part. IsRadix part.0 × (T.magnitude part.1 < part.0 ^ part.2) };

    ghost room = { λ part. part.2 };

    fn room(self) -> usize {
        self.2
    }

    fn write_to(self, buffer: &mut [u8]) -> usize {
        write_padded(self.1, self.0, &mut buffer[..self.2]);
        // `write_padded` returns the same number, but a constant width is known without its result,
        // and with it the position of the next part.
        self.2
    }

    fn text_len(self) -> Option<usize>
        ensures known { IsSome result }
        ensures length { IfSome result (λ count. HasLength (IsPadded self.0 self.2 (T.magnitude self.1)) count) }
    {
        Some(self.2)
    }

    fn is_known_valid_and_utf8(self, sealed: Sealed) -> bool
        ensures valid { IsTrue result → IsRadix self.0 × (T.magnitude self.1 < self.0 ^ self.2) }
        ensures known { IsRadix self.0 → T.magnitude self.1 < self.0 ^ self.2 → IsTrue result }
    {
        if self.0 == 10 {
            return Padded(self.1, self.2).is_known_valid_and_utf8(sealed);
        }
        self.1.fits_bits();
        is_radix(u64::from(self.0))
            && (has_few_bits(self.1.as_u64(), self.0, self.2)
                || self.1.digit_count(self.0) <= self.2)
    }
}

impl<T: DigitCount + Radix> Show for PaddedDigits<T> {
    ghost text = { λ part. Some (padded_text part.0 part.2 (T.magnitude part.1)) };

    fn is_showable(self) -> bool {
        self.1.fits_bits();
        self.is_known_valid_and_utf8(Sealed)
    }

    fn write_pieces<O: fmt::Write>(self, out: &mut O) -> fmt::Result {
        let mut buffer = [0; MOST_DIGITS];
        let (zeros, digits) = self.zeros_and_digits(&mut buffer)?;
        write_copies(b'0', zeros, out)?;
        out.write_str(digits)
    }
}

impl<T: DigitCount + Radix> PaddedDigits<T> {
    // Returns how many zeros the text begins with, and the digits after them. It is an error if the radix is not from 2
    // to 36, or if the number does not fit in the width.
    pub(crate) fn zeros_and_digits(
        self,
        buffer: &mut [u8; MOST_DIGITS],
    ) -> Result<(usize, &str), fmt::Error>
        ensures ok { IsOk result ↔ (IsRadix self.0 × (T.magnitude self.1 < self.0 ^ self.2)) }
        ensures text { IfOk result (λ text. IsPadded self.0 self.2 (T.magnitude self.1)
            (replicate text.0 48 ++ text.1.now)) }
        ensures computed { IfOk result (λ text.
            replicate text.0 48 ++ text.1.now ≡ padded_text self.0 self.2 (T.magnitude self.1)) }
    {
        if !self.is_known_valid_and_utf8(Sealed) {
            return Err(fmt::Error);
        }
        if self.2 == 0 {
            // The number is 0, and its digit does not fit.
            return Ok((0, ""));
        }
        self.1.fits_bits();
        let digits = CompactDigits(self.0, self.1.as_u64()).to_str(buffer);
        Ok((self.2 - digits.len(), digits))
    }
}

/// An unsigned number in decimal, with leading zeros up to the width: `Padded(3u8, 2)` writes `03`.
///
/// The number must be below `10.pow(width)`, and a literal needs a type. The room is the width. `room` and `text_len`
/// do not check that the number fits. [`ZeroPadded`](super::super::ZeroPadded) writes every number: `ZeroPadded(123u8,
/// 2)` writes `123`.
///
/// ```
/// use lexical_parts::{Padded, Part, ZeroPadded};
///
/// assert_eq!(rt; Padded(3u8, 2).to_str(&mut [0; 64]), "03");
/// assert_eq!(rt; ZeroPadded(123u8, 2).to_str(&mut [0; 64]), "123");
/// ```
#[derive(Clone, Copy, Debug, Drop)]
pub struct Padded<T>(
    /// The number.
    pub T,
    /// The width, in digits.
    pub usize,
);

impl<T: DigitCount + Radix> Part for Padded<T> {
    ghost is_text = { λ part. IsPadded 10 part.1 (T.magnitude part.0) };

    ghost is_valid = { λ part. T.magnitude part.0 < 10 ^ part.1 };

    ghost room = { λ part. part.1 };

    fn room(self) -> usize {
        self.1
    }

    fn write_to(self, buffer: &mut [u8]) -> usize {
        PaddedDigits(10, self.0, self.1).write_to(buffer)
    }

    fn text_len(self) -> Option<usize>
        ensures known { IsSome result }
        ensures length { IfSome result (λ count. HasLength (IsPadded 10 self.1 (T.magnitude self.0)) count) }
    {
        Some(self.1)
    }

    fn is_known_valid_and_utf8(self, _sealed: Sealed) -> bool
        ensures valid { IsTrue result → T.magnitude self.0 < 10 ^ self.1 }
        ensures known { T.magnitude self.0 < 10 ^ self.1 → IsTrue result }
    {
        self.0.fits_bits();
        fits_decimal_width(self.0.as_u64(), self.1)
    }
}

impl<T: DigitCount + Radix> Show for Padded<T> {
    ghost text = { λ part. Some (padded_text 10 part.1 (T.magnitude part.0)) };

    fn is_showable(self) -> bool {
        self.0.fits_bits();
        self.is_known_valid_and_utf8(Sealed)
    }

    fn write_pieces<O: fmt::Write>(self, out: &mut O) -> fmt::Result {
        if self.1 > MOST_DIGITS {
            return PaddedDigits(10, self.0, self.1).write_pieces(out);
        }
        if !self.is_showable() {
            return Err(fmt::Error);
        }
        write_in_one_piece(self, out)
    }
}
