//! Writes a number, and reads it back by `parse` or `from_str_radix` of the standard library: the result is the number.

ghost use Rattle.std.specs.Prelude.{true, ◌≡◌, ◌↔◌, ◌^◌, ◌<◌, ◌∷◌, [], IsTrue, List};
ghost use Rattle.std.specs.Prelude.{ℕ, None, Ok, Result, pos};
ghost use Rattle.lexical_num.specs.Format.{standard};
ghost use Rattle.lexical_write_integer.specs.Read.{IsReadAsSigned, IsReadAsUnsigned, IsWithoutSeparators};
ghost use Rattle.lexical_write_integer.specs.Sequence.{AreJoined};
ghost use Rattle.lexical_write_integer.specs.Text.{IsText};
ghost use Rattle.lexical_parts.specs.Fixed.{IsFixed};
ghost use Rattle.lexical_parts.specs.Sequence.{IsDecimal};
ghost use Rattle.lexical_parts.specs.Without.{IsWithout};
ghost use Rattle.lexical_parts.specs.ZeroPadded.{IsZeroPadded};
ghost use Rattle.lexical_lines.specs.Answer.{IsAnsweredBy};
ghost use Rattle.lexical_lines.specs.Request.{IsRequestFor};

use lexical_lines::laws::answer_read_back;
use lexical_parts::{
    Digits, Formatted, Lower, Padded, Part, ZeroPadded, equal_fixed, equal_zero_padded,
    fixed_read_back, zero_padded_read_back,
};
use lexical_write_integer::format::STANDARD;
use lexical_write_integer::laws::{
    digit_count_at_most, digits_read_back, equal_across_formats, equal_rows, grouped_read_back,
    padded_read_back, size_suffices, text_is_ascii, text_read_back,
};
use lexical_write_integer::{
    BUFFER_SIZE, NumberFormat, NumberFormatBuilder, Options, ToLexical, ToLexicalWithOptions,
};
use std::num::ParseIntError;
use std::str::{FromStr, from_utf8};

/// Reads back the text of a number in decimal.
pub fn in_decimal(number: i32) -> Result<i32, ParseIntError>
    ensures { result ≡ Ok number }
{
    let mut buffer = [0; 11];
    let text = number.to_lexical(&mut buffer);
    text_is_ascii(number, &STANDARD, text);
    text_read_back(number, &STANDARD);
    from_utf8(text).unwrap().parse::<i32>()
}

/// Reads back the text of a number in any format without groups, of any radix and with a required sign or without.
pub fn in_any_format(number: i64, format: &NumberFormat) -> Result<i64, ParseIntError>
    requires { format.now.digit_grouping ≡ None }
    ensures { result ≡ Ok number }
{
    let mut buffer = [0; BUFFER_SIZE];
    size_suffices(number, format);
    let text = number.to_lexical_with_options(&mut buffer, format, &Options::new());
    text_is_ascii(number, format, text);
    text_read_back(number, format);
    i64::from_str_radix(from_utf8(text).unwrap(), format.mantissa_radix())
}

/// Does the same with an unsigned number.
pub fn unsigned_in_any_format(number: u64, format: &NumberFormat) -> Result<u64, ParseIntError>
    requires { format.now.digit_grouping ≡ None }
    ensures { result ≡ Ok number }
{
    let mut buffer = [0; BUFFER_SIZE];
    size_suffices(number, format);
    let text = number.to_lexical_with_options(&mut buffer, format, &Options::new());
    text_is_ascii(number, format, text);
    text_read_back(number, format);
    u64::from_str_radix(from_utf8(text).unwrap(), format.mantissa_radix())
}

/// Reads back the digits of a number in radix 36.
pub fn in_radix_36(number: u64) -> Result<u64, ParseIntError>
    ensures { result ≡ Ok number }
{
    let mut buffer = [0; 13];
    digit_count_at_most(36, number, 13);
    let text = Digits(36, number).to_str(&mut buffer);
    digits_read_back(36, number);
    u64::from_str_radix(text, 36)
}

/// Reads back a number in radix 16 in lowercase, with its sign, such as `-7f`.
pub fn in_lowercase(number: i16) -> Result<i16, ParseIntError>
    ensures { result ≡ Ok number }
{
    let format = NumberFormatBuilder::from_radix(16);
    let mut buffer = [0; 5];
    let text = Lower(Formatted(number, &format)).to_str(&mut buffer);
    text_read_back(number, &format);
    i16::from_str_radix(text, 16)
}

/// Reads back a number in eight digits, in which zeros may be before the number.
pub fn in_eight_digits(number: u32) -> Result<i32, ParseIntError>
    requires { number < 10 ^ 8 }
    ensures { result ≡ Ok (pos number) }
{
    let mut buffer = [0; 8];
    let text = Padded(number, 8).to_str(&mut buffer);
    padded_read_back(10, 8, u64::from(number));
    text.parse::<i32>()
}

/// Reads back a number with zeros after its sign, such as `-0042`.
pub fn in_five_characters(number: i16) -> Result<i16, ParseIntError>
    ensures { result ≡ Ok number }
{
    let mut buffer = [0; 6];
    let text = ZeroPadded(number, 5).to_str(&mut buffer);
    zero_padded_read_back(number, &STANDARD, 5);
    text.parse::<i16>()
}

/// Returns whether two numbers are equal. They are if one text in five characters is of both.
pub fn same_in_five_characters(a: i16, b: i16) -> bool
    ensures text { (text : List ℕ) → IsZeroPadded 5 (IsDecimal a) text → IsZeroPadded 5 (IsDecimal b) text → a ≡ b }
    ensures result { IsTrue result ↔ (a ≡ b) }
{
    equal_zero_padded(a, b, &STANDARD, 5);
    a == b
}

/// A law: amounts in cents with equal texts, such as `-0.05`, are equal.
pub fn same_amount(a: i64, b: i64)
    ensures { (text : List ℕ) → IsFixed 2 a text → IsFixed 2 b text → a ≡ b }
{
    equal_fixed(a, b, 2);
}

/// Reads back the text of a number of any type in decimal, if `parse` of the type returns the number for each text that
/// the standard library reads as the number.
pub fn of_any_type<T: ToLexicalWithOptions + FromStr>(number: T) -> Result<T, T::Err>
    requires { (text : List ℕ) (read : Result T T.Err) → IsReadAsSigned 10 (T.number number) text
        → ((n : ℕ) → T.number number ≡ pos n → IsReadAsUnsigned 10 n text)
        → T.from_str_gives text read → read ≡ Ok number }
    ensures { result ≡ Ok number }
{
    let mut buffer = [0; BUFFER_SIZE];
    size_suffices(number, &STANDARD);
    let text = number.to_lexical(&mut buffer);
    text_is_ascii(number, &STANDARD, text);
    text_read_back(number, &STANDARD);
    from_utf8(text).unwrap().parse::<T>()
}

/// Calls it with an unsigned number.
pub fn of_one_type(number: u64) -> Result<u64, ParseIntError>
    ensures { result ≡ Ok number }
{
    of_any_type(number)
}

/// Reads back the text of a number in groups, such as `-1,234,567`, which a caller has copied without its separators.
pub fn without_groups(number: i64, format: &NumberFormat, text: &str) -> Result<i64, ParseIntError>
    requires { IsWithoutSeparators format.now.digit_grouping (IsText number format.now) text.now }
    ensures { result ≡ Ok number }
{
    grouped_read_back(number, format);
    i64::from_str_radix(text, format.mantissa_radix())
}

/// Reads back an amount, such as `-0.05`, which a caller has copied without its point, as its number of units.
pub fn without_point(units: i64, decimals: usize, text: &str) -> Result<i64, ParseIntError>
    requires { IsWithout 46 (IsFixed decimals units) text.now }
    ensures { result ≡ Ok units }
{
    fixed_read_back(units, decimals);
    text.parse::<i64>()
}

/// Reads back what `lexwrite` answers to a line with a number that is not negative, without its newline.
pub fn an_answer(line: &[u8], text: &str) -> Result<u64, ParseIntError>
    ensures { (n : ℕ) → IsRequestFor 10 (pos n) line.now → IsAnsweredBy line.now text.now → n < 2 ^ 64
        → result ≡ Ok n }
{
    answer_read_back(line);
    text.parse::<u64>()
}

/// Returns whether two numbers are equal. They are if one text is of both, also if the second one has a required `+`.
pub fn same_with_plus(a: i64, b: i64) -> bool
    ensures text { (text : List ℕ) → IsText a standard text
        → IsText b (record standard { required_mantissa_sign = true }) text → a ≡ b }
    ensures result { IsTrue result ↔ (a ≡ b) }
{
    let signed = NumberFormatBuilder::new()
        .required_mantissa_sign(true)
        .build_strict();
    equal_across_formats(a, b, &STANDARD, &signed);
    a == b
}

/// A law: two rows such as `1,-2,3` with equal texts have the same numbers.
pub fn same_row(a: &[i64], b: &[i64])
    ensures { (text : List ℕ) → AreJoined (λ x. IsText x standard) (44 ∷ []) a.now text
        → AreJoined (λ x. IsText x standard) (44 ∷ []) b.now text → a.now ≡ b.now }
{
    equal_rows(a, b, b',', &STANDARD);
}
