//! The implementations of the writing traits for the ten integer types.

use super::to_lexical::{ToLexical, ToLexicalWithOptions};
use crate::digits::decimal::Decimal;
use crate::digits::write::WriteInteger;
use lexical_num::constants::FormattedSize;
use lexical_num::format::NumberFormat;
use lexical_num::options::Options;

impl<T: Decimal + FormattedSize> ToLexical for T {
    fn write_magnitude(self, format: &NumberFormat, buffer: &mut [u8]) -> usize {
        self.write_mantissa(format, buffer)
    }

    fn magnitude(self) -> u64 {
        self.as_u64()
    }
}

impl ToLexical for i8 {
    fn write_magnitude(self, format: &NumberFormat, buffer: &mut [u8]) -> usize {
        // The magnitude of the smallest value, 128, is not an `i8`. The other signed types have such a value too.
        self.unsigned_abs().write_mantissa_signed(format, buffer)
    }

    fn magnitude(self) -> u64 {
        u64::from(self.unsigned_abs())
    }
}

impl ToLexical for i16 {
    fn write_magnitude(self, format: &NumberFormat, buffer: &mut [u8]) -> usize {
        self.unsigned_abs().write_mantissa_signed(format, buffer)
    }

    fn magnitude(self) -> u64 {
        u64::from(self.unsigned_abs())
    }
}

impl ToLexical for i32 {
    fn write_magnitude(self, format: &NumberFormat, buffer: &mut [u8]) -> usize {
        self.unsigned_abs().write_mantissa_signed(format, buffer)
    }

    fn magnitude(self) -> u64 {
        u64::from(self.unsigned_abs())
    }
}

impl ToLexical for i64 {
    fn write_magnitude(self, format: &NumberFormat, buffer: &mut [u8]) -> usize {
        self.unsigned_abs().write_mantissa_signed(format, buffer)
    }

    fn magnitude(self) -> u64 {
        self.unsigned_abs()
    }
}

impl ToLexical for isize {
    fn write_magnitude(self, format: &NumberFormat, buffer: &mut [u8]) -> usize {
        self.unsigned_abs().write_mantissa_signed(format, buffer)
    }

    fn magnitude(self) -> u64 {
        self.unsigned_abs() as u64
    }
}

impl ToLexicalWithOptions for u8 {
    type Options = Options;
}

impl ToLexicalWithOptions for u16 {
    type Options = Options;
}

impl ToLexicalWithOptions for u32 {
    type Options = Options;
}

impl ToLexicalWithOptions for u64 {
    type Options = Options;
}

impl ToLexicalWithOptions for usize {
    type Options = Options;
}

impl ToLexicalWithOptions for i8 {
    type Options = Options;
}

impl ToLexicalWithOptions for i16 {
    type Options = Options;
}

impl ToLexicalWithOptions for i32 {
    type Options = Options;
}

impl ToLexicalWithOptions for i64 {
    type Options = Options;
}

impl ToLexicalWithOptions for isize {
    type Options = Options;
}
