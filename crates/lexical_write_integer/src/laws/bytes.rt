//! Laws on the bytes of a text.

ghost use Rattle.std.specs.Prelude.{◌≡◌, ◌≢◌, ◌^◌, ◌<◌, ◌↔◌, All, List, None, ℕ};
ghost use Rattle.std.specs.Char.{IsNotAsciiAlphanumeric};
ghost use Rattle.std.specs.Fmt.{signed_decimal};
ghost use Rattle.std.specs.Str.{IsAscii, IsUtf8};
ghost use Rattle.lexical_num.specs.Format.{IsRadix, standard};
ghost use Rattle.lexical_write_integer.specs.Computed.{digits_text, padded_text, text_of};
ghost use Rattle.lexical_write_integer.specs.Padded.{IsPadded};
ghost use Rattle.lexical_write_integer.specs.Text.{IsDigits, IsText};

use lexical_num::format::NumberFormat;
use lexical_num::num::LexicalInteger;

/// A law: the text of a number is ASCII, and therefore UTF-8.
pub fn text_is_ascii<T: LexicalInteger>(number: T, format: &NumberFormat, text: &[u8])
    requires { IsText (T.number number) format.now text.now }
    ensures ascii { IsAscii text.now }
    ensures utf8 { IsUtf8 text.now }
{
    format.in_range();
}

/// A law: the text of a number in a format without groups does not have the separator, which is neither a letter,
/// a digit nor a sign.
pub fn text_has_no<T: LexicalInteger>(number: T, format: &NumberFormat, separator: u8)
    requires groups { format.now.digit_grouping ≡ None }
    requires other { IsNotAsciiAlphanumeric separator }
    requires plus { separator ≢ 43 }
    requires minus { separator ≢ 45 }
    ensures { (text : List ℕ) → IsText (T.number number) format.now text
        → All (λ byte. byte ≢ separator) text }
{
    format.in_range();
}

/// A law: the text of a number in decimal, without a required sign and without groups, is what `{}`
/// prints.
pub fn text_is_decimal<T: LexicalInteger>(number: T, text: &[u8])
    requires { IsText (T.number number) standard text.now }
    ensures { text.now ≡ signed_decimal (T.number number) }
{
    number.in_range();
}

/// A law: the bytes of `text` are the digits of a number if and only if they are the list that
/// `digits_text` computes.
pub fn digits_computed(radix: u32, value: u64, text: &[u8])
    requires { IsRadix radix }
    ensures { IsDigits radix value text.now ↔ (text.now ≡ digits_text radix value) }
{}

/// A law: the bytes of `text` are the text of a number if and only if they are the list that `text_of`
/// computes.
pub fn text_computed<T: LexicalInteger>(number: T, format: &NumberFormat, text: &[u8])
    ensures { IsText (T.number number) format.now text.now
        ↔ (text.now ≡ text_of (T.number number) format.now) }
{
    number.in_range();
    format.in_range();
}

/// A law: the bytes of `text` are a number with leading zeros if and only if they are the list that
/// `padded_text` computes. The number is below the radix to the power of the width.
pub fn padded_computed(radix: u32, width: usize, value: u64, text: &[u8])
    requires radix { IsRadix radix }
    requires fits { value < radix ^ width }
    ensures { IsPadded radix width value text.now ↔ (text.now ≡ padded_text radix width value) }
{}
