//! Writing decimal digits, two at a time.

// Examples are in `crates/tests/src/integers/decimal_values.rt`.
#![tactic(auto, using(crate::proofs::OfDigits::Count::DigitCounts::widths))]

ghost use Rattle.std.specs.Prelude.{◌≡◌, ℕ, pos, negsuc, ◌-◌, ◌/◌, ◌^◌, ◌<◌, ◌≤◌, ◌+◌, ◌++◌, length};
ghost use Rattle.std.proofs.Common.{lit≤};
ghost use Rattle.lexical_num.specs.DecimalWidth.{IsDecimalWidth, is_decimal_width};
ghost use Rattle.lexical_write_integer.specs.Buffer.{WritesDigits};
ghost use Rattle.lexical_write_integer.specs.DecimalTurns.{decimal_notes};

pub(crate) mod decimal_pairs;
pub mod jeaiii;
mod kernels;

pub use super::count::decimal_count::{DecimalCount, fallback_digit_count, fast_digit_count};
pub use super::count::logarithm::fast_log10;
use crate::turns::Turns;
use jeaiii::{
    from_i64, from_u8, from_u8_counted, from_u16, from_u16_counted, from_u32, from_u32_counted,
    from_u64_counted,
};
use lexical_num::num::{LexicalInteger, UnsignedInteger};

/// An unsigned integer type whose numbers are written in decimal, two digits at a time.
pub trait Decimal: DecimalCount {
    /// The largest number of decimal digits of the magnitude of a number of the signed type with the
    /// same number of bits.
    const SIGNED_WIDTH: usize;

    ghost SIGNED_WIDTH: { ℕ };

    /// Writes the digits of the number to the start of the buffer, and returns how many there are. The
    /// buffer has room for `DECIMAL_WIDTH` bytes.
    ///
    /// # Panics
    ///
    /// If the buffer is [too short](crate::conditions).
    final fn decimal(self, buffer: &mut [u8]) -> usize
        requires { Self.DECIMAL_WIDTH ≤ length buffer.old }
        ensures digits { WritesDigits 10 (Self.magnitude self) buffer.old buffer.new result }
        ensures at_most { result ≤ Self.DECIMAL_WIDTH }
    {
        self.decimal_counted(buffer, &mut Turns::new())
    }

    /// Writes the digits of the number to the start of the buffer, and returns how many there are. The
    /// number is below 10^`SIGNED_WIDTH`, as is the magnitude of each number of the signed type, and
    /// the buffer has room for `SIGNED_WIDTH` bytes.
    ///
    /// # Panics
    ///
    /// If the number is 10^19 or above, or if the buffer is [too short](crate::conditions).
    fn decimal_signed(self, buffer: &mut [u8]) -> usize
        requires number { Self.magnitude self < 10 ^ SIGNED_WIDTH }
        requires room { SIGNED_WIDTH ≤ length buffer.old }
        ensures digits { WritesDigits 10 (Self.magnitude self) buffer.old buffer.new result }
        ensures at_most { result ≤ SIGNED_WIDTH };

    /// Writes the digits as `decimal` does, under the same condition.
    fn decimal_counted(self, buffer: &mut [u8], turns: &mut Turns) -> usize
        requires { Self.DECIMAL_WIDTH ≤ length buffer.old }
        ensures digits { WritesDigits 10 (Self.magnitude self) buffer.old buffer.new result }
        ensures notes { turns.new ≡ turns.old ++ decimal_notes Self.BITS (Self.magnitude self) }
        ensures turns { length turns.new ≡ length turns.old + (result - 1) / 2 }
        ensures at_most { result ≤ Self.DECIMAL_WIDTH }
        // There is a note for each pair of digits after the first.
        ensures few_turns { length turns.new ≤ length turns.old + 9 };

    ghost signed_width: { let greatest = 2 ^ (Self.BITS - 1) - 1 in
        IsDecimalWidth (negsuc greatest) (pos greatest) SIGNED_WIDTH };
}

impl Decimal for u8 {
    const SIGNED_WIDTH: usize = 3;

    ghost SIGNED_WIDTH = { 3 };

    ghost signed_width = { is_decimal_width (lit≤ tt) (lit≤ tt) (lit≤ tt) (lit≤ tt) };

    fn decimal_signed(self, buffer: &mut [u8]) -> usize {
        from_u8(self, buffer)
    }

    fn decimal_counted(self, buffer: &mut [u8], turns: &mut Turns) -> usize {
        from_u8_counted(self, buffer, turns)
    }
}

impl Decimal for u16 {
    const SIGNED_WIDTH: usize = 5;

    ghost SIGNED_WIDTH = { 5 };

    ghost signed_width = { is_decimal_width (lit≤ tt) (lit≤ tt) (lit≤ tt) (lit≤ tt) };

    fn decimal_signed(self, buffer: &mut [u8]) -> usize {
        from_u16(self, buffer)
    }

    fn decimal_counted(self, buffer: &mut [u8], turns: &mut Turns) -> usize {
        from_u16_counted(self, buffer, turns)
    }
}

impl Decimal for u32 {
    const SIGNED_WIDTH: usize = 10;

    ghost SIGNED_WIDTH = { 10 };

    ghost signed_width = { is_decimal_width (lit≤ tt) (lit≤ tt) (lit≤ tt) (lit≤ tt) };

    fn decimal_signed(self, buffer: &mut [u8]) -> usize {
        from_u32(self, buffer)
    }

    fn decimal_counted(self, buffer: &mut [u8], turns: &mut Turns) -> usize {
        from_u32_counted(self, buffer, turns)
    }
}

impl Decimal for u64 {
    const SIGNED_WIDTH: usize = 19;

    ghost SIGNED_WIDTH = { 19 };

    ghost signed_width = { is_decimal_width (lit≤ tt) (lit≤ tt) (lit≤ tt) (lit≤ tt) };

    fn decimal_signed(self, buffer: &mut [u8]) -> usize {
        from_i64(self, buffer)
    }

    fn decimal_counted(self, buffer: &mut [u8], turns: &mut Turns) -> usize {
        from_u64_counted(self, buffer, turns)
    }
}

// The constants of `usize` are those of `u64`.
impl Decimal for usize {
    const SIGNED_WIDTH: usize = 19;

    ghost SIGNED_WIDTH = { 19 };

    ghost signed_width = { is_decimal_width (lit≤ tt) (lit≤ tt) (lit≤ tt) (lit≤ tt) };

    fn decimal_signed(self, buffer: &mut [u8]) -> usize {
        from_i64(self as u64, buffer)
    }

    fn decimal_counted(self, buffer: &mut [u8], turns: &mut Turns) -> usize {
        from_u64_counted(self as u64, buffer, turns)
    }
}
