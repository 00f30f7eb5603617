//! Laws on texts that std reads back. Std reads no separators, so these are first left out of texts in groups.

ghost use Rattle.std.specs.Prelude.{◌≡◌, ◌≤◌, None, pos};
ghost use Rattle.lexical_num.specs.Format.{IsRadix};
ghost use Rattle.lexical_write_integer.specs.Padded.{IsPadded};
ghost use Rattle.lexical_write_integer.specs.Groups.{without_separators};
ghost use Rattle.lexical_write_integer.specs.InCommon.{HaveInCommon};
ghost use Rattle.lexical_write_integer.specs.Read.{AreReadAs, IsWithoutSeparators};
ghost use Rattle.lexical_write_integer.specs.Text.{IsDigits, IsText};

use lexical_num::format::NumberFormat;
use lexical_num::num::LexicalInteger;

/// A law: std's `from_str_radix` reads a number back from its text in a format without groups, at each type
/// that has the number, and also from the text in lowercase. In radix 10 `parse` does the same.
pub fn text_read_back<T: LexicalInteger>(number: T, format: &NumberFormat)
    requires { format.now.digit_grouping ≡ None }
    ensures { AreReadAs format.now.mantissa_radix (T.number number) (IsText (T.number number) format.now) }
{
    format.in_range();
}

/// A law: without its separators the text of a number in any format, with groups or without, is read back in the same
/// way. `without_separators` is `filter`, so a caller that leaves out the mark while it copies has this text.
pub fn grouped_read_back<T: LexicalInteger>(number: T, format: &NumberFormat)
    ensures { AreReadAs format.now.mantissa_radix (T.number number)
        (IsWithoutSeparators format.now.digit_grouping (IsText (T.number number) format.now)) }
{
    format.in_range();
}

/// A law: in formats of one radix without groups, whatever else they require, one text belongs to one number.
pub fn equal_across_formats<T: LexicalInteger, U: LexicalInteger>(
    a: T,
    b: U,
    format: &NumberFormat,
    other: &NumberFormat,
)
    requires groups { format.now.digit_grouping ≡ None }
    requires other_groups { other.now.digit_grouping ≡ None }
    requires radix { format.now.mantissa_radix ≡ other.now.mantissa_radix }
    ensures { HaveInCommon (IsText (T.number a) format.now) (IsText (U.number b) other.now)
        → T.number a ≡ U.number b }
{
    text_read_back(a, format);
    text_read_back(b, other);
}

/// A law: std reads a number back from its digits, also in lowercase.
pub fn digits_read_back(radix: u32, number: u64)
    requires { IsRadix radix }
    ensures { AreReadAs radix (pos number) (IsDigits radix number) }
{}

/// A law: std reads a number back from at least one digit, with leading zeros, also in lowercase.
pub fn padded_read_back(radix: u32, width: usize, number: u64)
    requires radix { IsRadix radix }
    requires some { 1 ≤ width }
    ensures { AreReadAs radix (pos number) (IsPadded radix width number) }
{}
