//! Laws on the texts of numbers whose digits are grouped.

ghost use Rattle.std.specs.Prelude.{◌≡◌, ℕ, ◌+◌, ◌-◌, ◌*◌, ◌/◌, ◌<◌, ◌≤◌, List, Some, length, unsigned_abs};
ghost use Rattle.lexical_num.specs.Format.{grouped_length, without_groups};
ghost use Rattle.lexical_num.specs.Sign.{sign_of};
ghost use Rattle.lexical_write_integer.specs.DigitCount.{digit_count};
ghost use Rattle.lexical_write_integer.specs.Groups.{without_separators, from_right};
ghost use Rattle.lexical_write_integer.specs.Text.{IsText};

use lexical_num::format::NumberFormat;
use lexical_num::num::LexicalInteger;

/// A law: the positions of the digits and separators in a text with groups of `size` digits.
///
/// The position of a byte is the number of bytes to its right. The digit at position `right` of the text
/// without groups is at position `right + right / size`, and the separator before the last `groups`
/// groups is at position `groups * size + groups - 1`. A number of at most `size` digits has the text
/// that it has without groups.
///
/// For example, 1234567 in groups of three is `1,234,567`. Its `4`, at position 3 without groups, is at position 4,
/// because 3 + 3 / 3 is 4. The separator before the last two groups is at position 7, because 2 * 3 + 2 - 1 is 7.
pub fn text_in_groups<T: LexicalInteger>(number: T, format: &NumberFormat, size: u8, mark: u8)
    requires { format.now.digit_grouping ≡ Some (size, mark) }
    ensures one_group { (text : List ℕ) → IsText (T.number number) format.now text
        → digit_count format.now.mantissa_radix (unsigned_abs (T.number number)) ≤ size
        → IsText (T.number number) (without_groups format.now) text }
    ensures digits { (text plain : List ℕ) → IsText (T.number number) format.now text
        → IsText (T.number number) (without_groups format.now) plain
        → (right : ℕ)
        → right < digit_count format.now.mantissa_radix (unsigned_abs (T.number number))
        → from_right text (right + right / size) ≡ from_right plain right }
    ensures marks { (text : List ℕ) → IsText (T.number number) format.now text
        → (groups : ℕ) → 1 ≤ groups
        → groups * size < digit_count format.now.mantissa_radix (unsigned_abs (T.number number))
        → from_right text (groups * size + groups - 1) ≡ mark }
{
    format.in_range();
}
