//! Laws on the length of a text.

ghost use Rattle.std.specs.Prelude.{◌≡◌, ◌+◌, ◌≤◌, ℤ, ◌≤ℤ◌, List, ℕ, length, unsigned_abs};
ghost use Rattle.lexical_num.specs.Format.{grouped_length};
ghost use Rattle.lexical_num.specs.Range.{greatest_of, least_of};
ghost use Rattle.lexical_num.specs.Sign.{sign_of};
ghost use Rattle.lexical_num.specs.Size.{size_in};
ghost use Rattle.lexical_num.specs.declared.constants.TheConstants.{BUFFER_SIZE};
ghost use Rattle.lexical_write_integer.specs.DigitCount.{digit_count};
ghost use Rattle.lexical_write_integer.specs.Padded.{IsPadded};
ghost use Rattle.lexical_write_integer.specs.Text.{IsText, need};

use lexical_num::constants::FormattedSize;
use lexical_num::format::NumberFormat;
use lexical_num::num::LexicalInteger;

/// A law: the size of a type in a format, which `buffer_size` of the options returns, is enough for the
/// required length of each number in the range of the type.
pub fn size_suffices_for_type<T: FormattedSize>(format: &NumberFormat)
    ensures { (number : ℤ) → least_of T.BITS T.IS_SIGNED ≤ℤ number → number ≤ℤ greatest_of T.BITS T.IS_SIGNED
        → need number T.DECIMAL_WIDTH format.now
        ≤ size_in T.FORMATTED_SIZE T.FORMATTED_SIZE_DECIMAL format.now }
{
    format.in_range();
}

/// A law: the size of the type of a number in a format is enough for the number's required length. It is at most
/// `BUFFER_SIZE`.
pub fn size_suffices<T: FormattedSize>(value: T, format: &NumberFormat)
    ensures size { need (T.number value) T.DECIMAL_WIDTH format.now
        ≤ size_in T.FORMATTED_SIZE T.FORMATTED_SIZE_DECIMAL format.now }
    ensures buffer { size_in T.FORMATTED_SIZE T.FORMATTED_SIZE_DECIMAL format.now ≤ BUFFER_SIZE }
{
    size_suffices_for_type::<T>(format);
    value.in_range();
}

/// A law: the length of a text is the length of its sign plus what its digits take with the separators
/// between their groups.
pub fn text_length<T: LexicalInteger>(number: T, format: &NumberFormat)
    ensures { (text : List ℕ) → IsText (T.number number) format.now text
        → length text ≡ length (sign_of (T.number number) format.now.required_mantissa_sign)
        + grouped_length format.now.digit_grouping
        (digit_count format.now.mantissa_radix (unsigned_abs (T.number number))) }
{
    format.in_range();
}

/// A law: the text of each number with leading zeros has as many bytes as its width.
pub fn padded_length(radix: u32, width: usize)
    ensures { (number : ℕ) (text : List ℕ) → IsPadded radix width number text → length text ≡ width }
{}
