//! Laws on texts in a row: what equal texts have in common, and which of two texts is the earlier one.

ghost use Rattle.std.specs.Prelude.{◌≡◌, ◌≢◌, ◌<◌, ◌∷◌, [], All, List, None, ℕ, length};
ghost use Rattle.std.specs.Char.{IsNotAsciiAlphanumeric};
ghost use Rattle.lexical_num.specs.Format.{IsRadix};
ghost use Rattle.lexical_write_integer.specs.Lowercase.{IsLowercase};
ghost use Rattle.lexical_write_integer.specs.Order.{IsEarlier};
ghost use Rattle.lexical_write_integer.specs.Padded.{IsPadded};
ghost use Rattle.lexical_write_integer.specs.Sequence.{AreJoined, IsExactly};
ghost use Rattle.lexical_write_integer.specs.Text.{IsDigits, IsText};
ghost use Rattle.lexical_write_integer.specs.InCommon.{HaveInCommon};
ghost use Rattle.lexical_parts.specs.Fixed.{IsFixed};
ghost use Rattle.lexical_parts.specs.Scaled.{AreEqualScaled};
ghost use Rattle.lexical_parts.specs.Scientific.{IsScientific};
ghost use Rattle.lexical_parts.specs.Sequence.{◌then◌};
ghost use Rattle.lexical_parts.specs.ZeroPadded.{IsZeroPadded};

use crate::laws::read_back::{fixed_read_back, zero_padded_read_back};
use crate::part::Part;
use lexical_num::format::NumberFormat;
use lexical_num::num::LexicalInteger;
use lexical_write_integer::laws::{equal_padded, equal_texts, text_has_no};

/// A law: if each text of `a` and of `b` has `count` bytes, and a text is `a` and then `p`, and also `b` and then `q`,
/// then `a` and `b` have a text in common, and so have `p` and `q`. With a law that says which numbers have the same
/// text, different numbers have different links, names or keys.
pub fn same_parts<A: Part, B: Part, P: Part, Q: Part>(a: A, b: B, count: usize, p: P, q: Q)
    requires a { (text : List ℕ) → A.is_text a text → length text ≡ count }
    requires b { (text : List ℕ) → B.is_text b text → length text ≡ count }
    ensures first { (text : List ℕ) → (A.is_text a then P.is_text p) text → (B.is_text b then Q.is_text q) text
        → HaveInCommon (A.is_text a) (B.is_text b) }
    ensures second { (text : List ℕ) → (A.is_text a then P.is_text p) text → (B.is_text b then Q.is_text q) text
        → HaveInCommon (P.is_text p) (Q.is_text q) }
{}

/// A law: if no text of `a` and of `b` has the separator, and a text is `a`, the separator and `p`, and also `b`, the
/// separator and `q`, then `a` and `b` have a text in common, and so have `p` and `q`.
pub fn same_split<A: Part, B: Part, P: Part, Q: Part>(a: A, b: B, separator: u8, p: P, q: Q)
    requires a { (text : List ℕ) → A.is_text a text → All (λ byte. byte ≢ separator) text }
    requires b { (text : List ℕ) → B.is_text b text → All (λ byte. byte ≢ separator) text }
    ensures first { (text : List ℕ) → (A.is_text a then IsExactly (separator ∷ []) then P.is_text p) text
        → (B.is_text b then IsExactly (separator ∷ []) then Q.is_text q) text
        → HaveInCommon (A.is_text a) (B.is_text b) }
    ensures second { (text : List ℕ) → (A.is_text a then IsExactly (separator ∷ []) then P.is_text p) text
        → (B.is_text b then IsExactly (separator ∷ []) then Q.is_text q) text
        → HaveInCommon (P.is_text p) (Q.is_text q) }
{}

/// A law: if a text is `a` and then `end`, and also `b` and then `end`, then `a` and `b` have a text in common. The end
/// is, for example, a unit or a newline.
pub fn same_before<A: Part, B: Part>(a: A, b: B, end: &str)
    ensures { (text : List ℕ) → (A.is_text a then IsExactly end.now) text → (B.is_text b then IsExactly end.now) text
        → HaveInCommon (A.is_text a) (B.is_text b) }
{}

/// A law: if `a` is below `b`, a text that begins with `a` in `width` digits is earlier, in the order of bytes, than a
/// text that begins with `b` in `width` digits, whatever follows. Both numbers have leading zeros, in one radix.
pub fn padded_decides<P: Part, Q: Part>(radix: u32, width: usize, a: u64, b: u64, p: P, q: Q)
    ensures { a < b → (s t : List ℕ) → (IsPadded radix width a then P.is_text p) s
        → (IsPadded radix width b then Q.is_text q) t → IsEarlier s t }
{}

/// A law: if `a` in `width` digits and then `m` in `second_width` digits have a text in common with `b` and then `n`
/// in the same widths, then `a` is `b` and `m` is `n`.
pub fn equal_padded_pairs(
    radix: u32,
    width: usize,
    a: u64,
    b: u64,
    second_width: usize,
    m: u64,
    n: u64,
)
    requires { IsRadix radix }
    ensures first { (text : List ℕ) → (IsPadded radix width a then IsPadded radix second_width m) text
        → (IsPadded radix width b then IsPadded radix second_width n) text → a ≡ b }
    ensures second { (text : List ℕ) → (IsPadded radix width a then IsPadded radix second_width m) text
        → (IsPadded radix width b then IsPadded radix second_width n) text → m ≡ n }
{
    equal_padded(radix, width, a, b);
    equal_padded(radix, second_width, m, n);
}

/// A law: if `a`, the separator and `m` have a text in common with `b`, the separator and `n`, then `a` is `b` and `m`
/// is `n`. The format has no groups, and the separator is neither a letter, a digit nor a sign.
pub fn equal_pairs<T: LexicalInteger, U: LexicalInteger>(
    a: T,
    b: T,
    separator: u8,
    m: U,
    n: U,
    format: &NumberFormat,
)
    requires groups { format.now.digit_grouping ≡ None }
    requires other { IsNotAsciiAlphanumeric separator }
    requires plus { separator ≢ 43 }
    requires minus { separator ≢ 45 }
    ensures first { (text : List ℕ)
        → (IsText (T.number a) format.now then IsExactly (separator ∷ []) then IsText (U.number m) format.now) text
        → (IsText (T.number b) format.now then IsExactly (separator ∷ []) then IsText (U.number n) format.now) text
        → a ≡ b }
    ensures second { (text : List ℕ)
        → (IsText (T.number a) format.now then IsExactly (separator ∷ []) then IsText (U.number m) format.now) text
        → (IsText (T.number b) format.now then IsExactly (separator ∷ []) then IsText (U.number n) format.now) text
        → m ≡ n }
{
    text_has_no(a, format, separator);
    text_has_no(b, format, separator);
    equal_texts(a, b, format);
    equal_texts(m, n, format);
}

/// A law: if two `Fixed` with the same number of decimals have a text in common, their amounts are equal.
pub fn equal_fixed<T: LexicalInteger>(a: T, b: T, decimals: usize)
    ensures { HaveInCommon (IsFixed decimals (T.number a)) (IsFixed decimals (T.number b)) → a ≡ b }
{
    fixed_read_back(a, decimals);
    fixed_read_back(b, decimals);
}

/// A law: if two `Fixed` with the same number of decimals, and the same bytes after them, such as a unit, have a text
/// in common, their amounts are equal.
pub fn equal_amounts<T: LexicalInteger>(a: T, b: T, decimals: usize, end: &str)
    ensures { (text : List ℕ) → (IsFixed decimals (T.number a) then IsExactly end.now) text
        → (IsFixed decimals (T.number b) then IsExactly end.now) text → a ≡ b }
{
    equal_fixed(a, b, decimals);
}

/// A law: if two numbers have a text of a `ZeroPadded` of one width in common, the numbers are equal. The format has
/// no groups.
pub fn equal_zero_padded<T: LexicalInteger>(a: T, b: T, format: &NumberFormat, width: usize)
    requires { format.now.digit_grouping ≡ None }
    ensures { HaveInCommon (IsZeroPadded width (IsText (T.number a) format.now))
        (IsZeroPadded width (IsText (T.number b) format.now)) → a ≡ b }
{
    zero_padded_read_back(a, format, width);
    zero_padded_read_back(b, format, width);
}

/// A law: if two `HexBytes` with the same separator have a text in common, or a text in lowercase, their bytes are
/// equal. With two separators that is not so: `HexBytes(&[1, 2], "AA")` and `HexBytes(&[1, 0xAA, 2], "")` both write
/// `01AA02`.
pub fn equal_hex_bytes(a: &[u8], b: &[u8], separator: &str)
    ensures text { HaveInCommon (AreJoined (IsPadded 16 2) separator.now a.now)
        (AreJoined (IsPadded 16 2) separator.now b.now) → a.now ≡ b.now }
    ensures lowercase { HaveInCommon (IsLowercase (AreJoined (IsPadded 16 2) separator.now a.now))
        (IsLowercase (AreJoined (IsPadded 16 2) separator.now b.now)) → a.now ≡ b.now }
{}

/// A law: if two `Scientific` have a text in common, their values are equal: `a` times 10^`exponent` is `b` times
/// 10^`other`.
pub fn equal_scientific<T: LexicalInteger>(a: T, b: T, exponent: i32, other: i32)
    ensures { HaveInCommon (IsScientific (T.number a) exponent) (IsScientific (T.number b) other)
        → AreEqualScaled (T.number a) exponent (T.number b) other }
{}
