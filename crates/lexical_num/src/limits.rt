//! The limits of a format: which numbers are a radix, a group size or a mark. `NumberFormatBuilder::build`
//! asks here, and so can a program that reads such a number.

ghost use Rattle.std.specs.Prelude.{◌↔◌, IsTrue};
ghost use Rattle.lexical_num.specs.Format.{IsRadix, IsGroupSize, IsMark};

/// Returns whether the radix is from 2 to 36, so that each of its digits has a character.
pub const fn is_radix(radix: u64) -> bool
    ensures { IsTrue result ↔ IsRadix radix }
{
    2 <= radix && radix <= 36
}

/// Returns whether a group can have this number of digits: from 1 to 64.
pub const fn is_group_size(size: u64) -> bool
    ensures { IsTrue result ↔ IsGroupSize size }
{
    1 <= size && size <= 64
}

/// Returns whether the byte can separate two groups: a character of printable ASCII, which are the
/// bytes from 32 to 126, that is not a letter, a digit, `+` or `-`.
pub const fn is_mark(byte: u64) -> bool
    ensures { IsTrue result ↔ IsMark byte }
{
    32 <= byte
        && byte <= 126
        && !(byte as u8).is_ascii_alphanumeric()
        && byte != b'+' as u64
        && byte != b'-' as u64
}
