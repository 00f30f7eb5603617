//! Calls of laws that no other caller needs, each with what it is for in a program.

ghost use Rattle.std.specs.Prelude.{◌≡◌, ◌≢◌, ◌+◌, ◌-◌, ◌*◌, ◌<◌, ◌≤◌, ◌↔◌, ℕ, ℤ, ◌≤ℤ◌, List, Some, [], ◌∷◌, length, pos, true, unsigned_abs};
ghost use Rattle.lexical_lines.specs.Answer.{AnswersAll};
ghost use Rattle.lexical_lines.specs.Lines.{AreLines};
ghost use Rattle.lexical_num.specs.Range.{greatest_of, least_of};
ghost use Rattle.lexical_num.specs.Size.{size_in};
ghost use Rattle.lexical_write_integer.specs.DigitCount.{digit_count};
ghost use Rattle.lexical_write_integer.specs.Groups.{from_right};
ghost use Rattle.lexical_write_integer.specs.Numeral.{IsNumeral, IsNumeralOf, value_of};
ghost use Rattle.lexical_write_integer.specs.Padded.{IsPadded};
ghost use Rattle.lexical_write_integer.specs.Text.{IsText, need};

use lexical_lines::laws::{answers_unique, lines_unique};
use lexical_num::NumberFormat;
use lexical_write_integer::laws::{
    different_padded, different_texts, numeral_exists, numeral_unique, padded_computed,
    padded_equal_iff, size_suffices_for_type, text_in_groups,
};

/// A law: the text of an amount is not that of another one, so a reader can tell them apart.
pub fn other_amount(a: u64, b: u64, format: &NumberFormat)
    ensures { a ≢ b → (text : List ℕ) → IsText (pos a) format.now text → ¬ (IsText (pos b) format.now text) }
{
    different_texts(a, b, format);
}

/// A law: a field with one day of a month does not hold another one.
pub fn other_day(a: u64, b: u64)
    ensures { a ≢ b → (text : List ℕ) → IsPadded 10 2 a text → ¬ (IsPadded 10 2 b text) }
{
    different_padded(10, 2, a, b);
}

/// A law: fields of six digits in radix 16 can be compared in place of their numbers.
pub fn same_colour(a: u64, b: u64, s: &[u8], t: &[u8])
    requires s { IsPadded 16 6 a s.now }
    requires t { IsPadded 16 6 b t.now }
    ensures { (s.now ≡ t.now) ↔ (a ≡ b) }
{
    padded_equal_iff(16, 6, a, b, s, t);
}

/// A law: the colour 255 is `0000FF`, and nothing else.
pub fn blue(text: &[u8])
    requires { IsPadded 16 6 255 text.now }
    ensures { text.now ≡ 48 ∷ 48 ∷ 48 ∷ 48 ∷ 70 ∷ 70 ∷ [] }
{
    padded_computed(16, 6, 255, text);
}

/// A law: each number has an identifier in radix 36.
pub fn has_an_identifier(number: u64)
    ensures { (digits : List ℕ) × IsNumeralOf 36 number digits × (length digits ≡ digit_count 36 number) }
{
    numeral_exists(36, number);
}

/// A law: digits that a parser reads as one number are the same digits.
pub fn same_digits(a: &[u8], b: &[u8])
    requires a { IsNumeral 36 a.now }
    requires b { IsNumeral 36 b.now }
    requires same { value_of 36 a.now ≡ value_of 36 b.now }
    ensures { a.now ≡ b.now }
{
    numeral_unique(36, a, b);
}

/// A law: in an amount in groups of three with commas, a comma is before the last three digits, the last six, and so
/// on.
pub fn commas(amount: i64, format: &NumberFormat)
    requires { format.now.digit_grouping ≡ Some (3, 44) }
    ensures { (text : List ℕ) → IsText amount format.now text → (groups : ℕ) → 1 ≤ groups
        → groups * 3 < digit_count format.now.mantissa_radix (unsigned_abs amount)
        → from_right text (groups * 3 + groups - 1) ≡ 44 }
{
    text_in_groups(amount, format, 3, b',');
}

/// A law: a buffer of the size of an `i16` in a format is long enough for each `i16`.
pub fn size_of_each_i16(format: &NumberFormat)
    ensures { (number : ℤ) → least_of 16 true ≤ℤ number → number ≤ℤ greatest_of 16 true
        → need number 5 format.now ≤ size_in 32 6 format.now }
{
    size_suffices_for_type::<i16>(format);
}

/// A law: two programs that cut an input into lines cut it into the same ones.
pub fn same_lines(input: &[u8])
    ensures { (all other : List (List ℕ)) → AreLines input.now all → AreLines input.now other → all ≡ other }
{
    lines_unique(input);
}

/// A law: two programs that answer an input write the same bytes.
pub fn same_answers(input: &[u8], a: &[u8], b: &[u8])
    requires a { AnswersAll input.now a.now }
    requires b { AnswersAll input.now b.now }
    ensures { a.now ≡ b.now }
{
    answers_unique(input, a, b);
}
