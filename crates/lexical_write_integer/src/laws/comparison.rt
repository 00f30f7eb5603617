//! Laws that compare texts.

ghost use Rattle.std.specs.Prelude.{◌≡◌, ◌≢◌, ◌<◌, ◌↔◌, pos, ◌<ℤ◌, ◌≤ℤ◌, List, ℕ};
ghost use Rattle.lexical_num.specs.Format.{IsRadix};
ghost use Rattle.lexical_write_integer.specs.Padded.{IsPadded};
ghost use Rattle.lexical_write_integer.specs.InCommon.{HaveInCommon};
ghost use Rattle.lexical_write_integer.specs.Order.{ComesBefore, IsEarlier};
ghost use Rattle.lexical_write_integer.specs.Text.{IsDigits, IsText};

use lexical_num::format::NumberFormat;
use lexical_num::num::LexicalInteger;

/// A law: two numbers that have digits in a radix in common are equal.
pub fn equal_digits(radix: u32, a: u64, b: u64)
    ensures { HaveInCommon (IsDigits radix a) (IsDigits radix b) → a ≡ b }
{}

/// A law: two numbers that have a text in a format in common are equal.
pub fn equal_texts<T: LexicalInteger>(a: T, b: T, format: &NumberFormat)
    ensures { HaveInCommon (IsText (T.number a) format.now) (IsText (T.number b) format.now) → a ≡ b }
{}

/// A law: two numbers that have a text of this width in a radix in common, with leading zeros, are equal.
pub fn equal_padded(radix: u32, width: usize, a: u64, b: u64)
    ensures { HaveInCommon (IsPadded radix width a) (IsPadded radix width b) → a ≡ b }
{}

/// A law: different numbers have no digits in common in a radix.
pub fn different_digits(radix: u32, a: u64, b: u64)
    ensures { a ≢ b → (digits : List ℕ) → IsDigits radix a digits → ¬ (IsDigits radix b digits) }
{}

/// A law: different numbers have no text of this width in common in a radix, with leading zeros.
pub fn different_padded(radix: u32, width: usize, a: u64, b: u64)
    ensures { a ≢ b → (text : List ℕ) → IsPadded radix width a text → ¬ (IsPadded radix width b text) }
{}

/// A law: different numbers have no text in common in a format.
pub fn different_texts<T: LexicalInteger>(a: T, b: T, format: &NumberFormat)
    ensures { a ≢ b → (text : List ℕ) → IsText (T.number a) format.now text
        → ¬ (IsText (T.number b) format.now text) }
{}

/// A law: the digits of two numbers in a radix are equal if and only if the numbers are.
pub fn digits_equal_iff(radix: u32, a: u64, b: u64, s: &[u8], t: &[u8])
    requires radix { IsRadix radix }
    requires s { IsDigits radix a s.now }
    requires t { IsDigits radix b t.now }
    ensures { (s.now ≡ t.now) ↔ (a ≡ b) }
{}

/// A law: the texts of two numbers in a format are equal if and only if the numbers are.
pub fn texts_equal_iff<T: LexicalInteger>(a: T, b: T, format: &NumberFormat, s: &[u8], t: &[u8])
    requires s { IsText (T.number a) format.now s.now }
    requires t { IsText (T.number b) format.now t.now }
    ensures { (s.now ≡ t.now) ↔ (a ≡ b) }
{
    format.in_range();
}

/// A law: the texts of two numbers with leading zeros, in one radix and one width, are equal if and only
/// if the numbers are.
pub fn padded_equal_iff(radix: u32, width: usize, a: u64, b: u64, s: &[u8], t: &[u8])
    requires s { IsPadded radix width a s.now }
    requires t { IsPadded radix width b t.now }
    ensures { (s.now ≡ t.now) ↔ (a ≡ b) }
{}

/// A law: of two numbers that are not negative, one is smaller if and only if its text comes before
/// the other's. A shorter text comes before a longer one, and texts of the same length are compared
/// byte by byte.
pub fn order<T: LexicalInteger>(a: T, b: T, format: &NumberFormat)
    requires a { pos 0 ≤ℤ T.number a }
    requires b { pos 0 ≤ℤ T.number b }
    ensures { (s t : List ℕ) → IsText (T.number a) format.now s
        → IsText (T.number b) format.now t
        → (T.number a <ℤ T.number b) ↔ ComesBefore s t }
{
    format.in_range();
}

/// A law: of two numbers with leading zeros, in one radix and one width, one is smaller if and only if its
/// text is earlier in the order of bytes.
pub fn padded_order(radix: u32, width: usize, a: u64, b: u64, s: &[u8], t: &[u8])
    requires s { IsPadded radix width a s.now }
    requires t { IsPadded radix width b t.now }
    ensures { (a < b) ↔ IsEarlier s.now t.now }
{}
