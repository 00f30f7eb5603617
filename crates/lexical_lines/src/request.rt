//! Parses a line into a request.

ghost use Rattle.std.specs.Prelude.{◌≡◌, ◌^◌, ℕ, List, ◌++◌, ℤ, pos, neg_ℤ, ◌≤◌, length, IfSome, IfNone};
ghost use Rattle.lexical_num.specs.Format.{IsRadix};
ghost use Rattle.lexical_lines.specs.Line.{short_line, bytes_of};
ghost use Rattle.lexical_lines.specs.Request.{IsValue, IsValidLine, Requests, number_of, requested_format};

// The line that is being read.
pub mod line;

// Parts of a line: names of types, decimal numbers and signs.
pub mod decimal_parser;
pub mod integer_type;
pub mod sign;

use crate::request::decimal_parser::{parse_decimal, split_radix};
use crate::request::integer_type::IntegerType;
use crate::request::sign::strip_sign;
use lexical_num::{NumberFormat, NumberFormatBuilder};

/// A number of any of the ten types, as a number of one of the two widest types.
#[derive(Clone, Copy)]
pub enum Number {
    /// A number that has no `-` in the line.
    WithoutMinus(u64),
    /// A number that has a `-` in the line: 0 or a negative number.
    WithMinus(i64),
}

/// Parses a line, which is `None` if it is longer than 64 bytes. Returns the number to write and the
/// format of its text, or `None` if the line is not valid.
///
/// # Not checked
///
/// Rust does not check that the line has at most 64 bytes. For a longer one the result is not specified.
pub fn parse(line: Option<&[u8]>) -> Option<(Number, NumberFormat)>
    requires { IfSome line (λ bytes. length bytes.now ≤ 64) }
    ensures found { IfSome result (λ request. (bytes : List ℕ) → bytes_of line.entry ≡ short_line bytes
        → Requests bytes request.0 request.1) }
    ensures none { IfNone result ((bytes : List ℕ) → bytes_of line.entry ≡ short_line bytes
        → IsValidLine bytes → ⊥) }
{
    let line = line?;
    let (kind, rest) = IntegerType::split_name(line)?;
    let (plus, radix_value) = strip_sign(b'+', rest);
    let (radix, value) = split_radix(radix_value)?;
    let number = parse_value(kind, value)?;
    Some((number, format_for(radix, plus)))
}

// Returns the format of a radix, with a `+` before each number that is not negative if `plus` is true.
fn format_for(radix: u8, plus: bool) -> NumberFormat
    requires { IsRadix radix }
    ensures { result ≡ requested_format radix plus }
{
    NumberFormatBuilder::new()
        .mantissa_radix(radix)
        .exponent_radix(radix)
        .required_mantissa_sign(plus)
        .build_strict()
}

// Parses a number of this type: an optional `-`, and decimal digits.
fn parse_value(kind: IntegerType, text: &[u8]) -> Option<Number>
    ensures found { IfSome result (λ number. IsValue kind (number_of number) text.now) }
    ensures none { IfNone result ((number : ℤ) → IsValue kind number text.now → ⊥) }
{
    let (minus, digits) = strip_sign(b'-', text);
    let magnitude = parse_decimal(digits)?;
    if minus && kind.holds(true, magnitude) {
        Some(Number::WithMinus(negated(magnitude)))
    } else if !minus && kind.holds(false, magnitude) {
        Some(Number::WithoutMinus(magnitude))
    } else {
        None
    }
}

// Returns the magnitude negated.
fn negated(magnitude: u64) -> i64
    requires { magnitude ≤ 2 ^ 63 }
    ensures { result ≡ neg_ℤ (pos magnitude) }
{
    if magnitude == 0 {
        0
    } else {
        // `!n` is `-n - 1`, so `i64::MIN` is computed without overflow.
        !((magnitude - 1) as i64)
    }
}
