//! Buffer lengths that are enough for the text of a number.

ghost use Rattle.std.specs.Prelude.{ℕ, refl};
ghost use Rattle.std.proofs.Common.{lit≤};
ghost use Rattle.lexical_num.specs.declared.constants.TheConstants.{BUFFER_SIZE};
ghost use Rattle.lexical_num.specs.Size.{AreSizes, are_sizes};

use crate::num::LexicalInteger;

/// The length of a buffer that is long enough for every number of every type in every format.
///
/// ```
/// use lexical_write_integer::{BUFFER_SIZE, ToLexical};
///
/// let mut buffer = [0; BUFFER_SIZE];
/// assert_eq!(rt; i64::MIN.to_lexical(&mut buffer), b"-9223372036854775808");
/// ```
pub const BUFFER_SIZE: usize = 128;

/// An integer type with two buffer sizes, each enough for every number of the type: one for decimal, and one for other
/// radices. `WriteOptions::buffer_size` returns the right one for a format.
///
/// ```
/// use lexical_write_integer::{FormattedSize, ToLexical};
///
/// let mut buffer = [0; u64::FORMATTED_SIZE_DECIMAL];
/// assert_eq!(rt; u64::MAX.to_lexical(&mut buffer), b"18446744073709551615");
/// ```
pub trait FormattedSize: LexicalInteger {
    /// The buffer length in a radix other than 10, with a sign and with groups.
    const FORMATTED_SIZE: usize;

    /// The buffer length in decimal, with a `-` but without a `+` and without groups.
    const FORMATTED_SIZE_DECIMAL: usize;

    ghost FORMATTED_SIZE: { ℕ };

    ghost FORMATTED_SIZE_DECIMAL: { ℕ };

    // The law `size_suffices` of `lexical_write_integer` is that a length is enough.
    ghost sizes: { AreSizes BUFFER_SIZE Self.BITS Self.IS_SIGNED Self.DECIMAL_WIDTH
        FORMATTED_SIZE FORMATTED_SIZE_DECIMAL };
}

impl FormattedSize for u8 {
    const FORMATTED_SIZE: usize = 16;

    const FORMATTED_SIZE_DECIMAL: usize = 3;

    ghost FORMATTED_SIZE = { 16 };

    ghost FORMATTED_SIZE_DECIMAL = { 3 };

    ghost sizes = { are_sizes refl refl (lit≤ tt) (lit≤ tt) (lit≤ tt) (lit≤ tt) };
}

impl FormattedSize for u16 {
    const FORMATTED_SIZE: usize = 32;

    const FORMATTED_SIZE_DECIMAL: usize = 5;

    ghost FORMATTED_SIZE = { 32 };

    ghost FORMATTED_SIZE_DECIMAL = { 5 };

    ghost sizes = { are_sizes refl refl (lit≤ tt) (lit≤ tt) (lit≤ tt) (lit≤ tt) };
}

impl FormattedSize for u32 {
    const FORMATTED_SIZE: usize = 64;

    const FORMATTED_SIZE_DECIMAL: usize = 10;

    ghost FORMATTED_SIZE = { 64 };

    ghost FORMATTED_SIZE_DECIMAL = { 10 };

    ghost sizes = { are_sizes refl refl (lit≤ tt) (lit≤ tt) (lit≤ tt) (lit≤ tt) };
}

impl FormattedSize for u64 {
    const FORMATTED_SIZE: usize = 128;

    const FORMATTED_SIZE_DECIMAL: usize = 20;

    ghost FORMATTED_SIZE = { 128 };

    ghost FORMATTED_SIZE_DECIMAL = { 20 };

    ghost sizes = { are_sizes refl refl (lit≤ tt) (lit≤ tt) (lit≤ tt) (lit≤ tt) };
}

impl FormattedSize for usize {
    const FORMATTED_SIZE: usize = 128;

    const FORMATTED_SIZE_DECIMAL: usize = 20;

    ghost FORMATTED_SIZE = { 128 };

    ghost FORMATTED_SIZE_DECIMAL = { 20 };

    ghost sizes = { are_sizes refl refl (lit≤ tt) (lit≤ tt) (lit≤ tt) (lit≤ tt) };
}

impl FormattedSize for i8 {
    const FORMATTED_SIZE: usize = 16;

    const FORMATTED_SIZE_DECIMAL: usize = 4;

    ghost FORMATTED_SIZE = { 16 };

    ghost FORMATTED_SIZE_DECIMAL = { 4 };

    ghost sizes = { are_sizes refl refl (lit≤ tt) (lit≤ tt) (lit≤ tt) (lit≤ tt) };
}

impl FormattedSize for i16 {
    const FORMATTED_SIZE: usize = 32;

    const FORMATTED_SIZE_DECIMAL: usize = 6;

    ghost FORMATTED_SIZE = { 32 };

    ghost FORMATTED_SIZE_DECIMAL = { 6 };

    ghost sizes = { are_sizes refl refl (lit≤ tt) (lit≤ tt) (lit≤ tt) (lit≤ tt) };
}

impl FormattedSize for i32 {
    const FORMATTED_SIZE: usize = 64;

    const FORMATTED_SIZE_DECIMAL: usize = 11;

    ghost FORMATTED_SIZE = { 64 };

    ghost FORMATTED_SIZE_DECIMAL = { 11 };

    ghost sizes = { are_sizes refl refl (lit≤ tt) (lit≤ tt) (lit≤ tt) (lit≤ tt) };
}

impl FormattedSize for i64 {
    const FORMATTED_SIZE: usize = 128;

    const FORMATTED_SIZE_DECIMAL: usize = 20;

    ghost FORMATTED_SIZE = { 128 };

    ghost FORMATTED_SIZE_DECIMAL = { 20 };

    ghost sizes = { are_sizes refl refl (lit≤ tt) (lit≤ tt) (lit≤ tt) (lit≤ tt) };
}

impl FormattedSize for isize {
    const FORMATTED_SIZE: usize = 128;

    const FORMATTED_SIZE_DECIMAL: usize = 20;

    ghost FORMATTED_SIZE = { 128 };

    ghost FORMATTED_SIZE_DECIMAL = { 20 };

    ghost sizes = { are_sizes refl refl (lit≤ tt) (lit≤ tt) (lit≤ tt) (lit≤ tt) };
}
