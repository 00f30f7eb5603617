//! Parses decimal numbers.

ghost use Rattle.std.specs.Prelude.{◌≡◌, ◌≢◌, ℕ, ◌^◌, ◌<◌, ◌≤◌, List, ◌∷◌, ◌++◌, IfSome, IfNone, length};
ghost use Rattle.lexical_num.specs.Format.{IsRadix};
ghost use Rattle.lexical_write_integer.specs.Text.{IsDigits};
ghost use Rattle.lexical_lines.specs.Decimal.{IsDecimalNumeral};

use lexical_num::limits::is_radix;

// Parses at most 19 decimal digits, so the sum fits in a `u64`. Returns `None` if the text is anything else.
fn parse_short(text: &[u8]) -> Option<u64>
    requires some { 1 ≤ length text.now }
    requires at_most { length text.now ≤ 19 }
    ensures found { IfSome result (λ number. IsDecimalNumeral number text.now) }
    ensures none { IfNone result ((number : ℕ) → IsDecimalNumeral number text.now → ⊥) }
{
    let mut number: u64 = 0;
    for byte in text {
        let digit = byte.wrapping_sub(b'0');
        if digit > 9 {
            return None;
        }
        number = number * 10 + u64::from(digit);
    }
    Some(number)
}

/// Parses one or more decimal digits, with or without leading zeros. Returns `None` if the text is
/// anything else, or if the number does not fit in a `u64`.
pub fn parse_decimal(text: &[u8]) -> Option<u64>
    ensures found { IfSome result (λ number. IsDecimalNumeral number text.now) }
    ensures none { IfNone result ((number : ℕ) → number < 2 ^ 64 → IsDecimalNumeral number text.now → ⊥) }
{
    if text.is_empty() {
        return None;
    }
    if text.len() <= 19 {
        return parse_short(text);
    }
    let mut number: u64 = 0;
    for byte in text {
        if !byte.is_ascii_digit() {
            return None;
        }
        let digit = u64::from(*byte - b'0');
        number = number.checked_mul(10)?.checked_add(digit)?;
    }
    Some(number)
}

/// Splits a text after a radix from 2 to 36, in decimal and without leading zeros, and a space. Returns
/// `None` if the text does not begin so.
pub fn split_radix(text: &[u8]) -> Option<(u8, &[u8])>
    ensures found { IfSome result (λ parts. IsRadix parts.0 × ((digits : List ℕ) × IsDigits 10 parts.0 digits
        × (text.now ≡ digits ++ 32 ∷ parts.1.now))) }
    ensures none { IfNone result ((radix : ℕ) (digits rest : List ℕ) → IsRadix radix → IsDigits 10 radix digits
        → text.now ≢ digits ++ 32 ∷ rest) }
{
    match text {
        [ones, b' ', rest @ ..] if (b'2'..=b'9').contains(ones) => Some((*ones - b'0', rest)),
        [tens @ b'1'..=b'3', ones @ b'0'..=b'9', b' ', rest @ ..] => {
            let radix = (*tens - b'0') * 10 + (*ones - b'0');
            if is_radix(u64::from(radix)) {
                Some((radix, rest))
            } else {
                None
            }
        }
        _ => None,
    }
}
