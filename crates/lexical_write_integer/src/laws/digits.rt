//! Laws on numerals and digit counts.

ghost use Rattle.std.specs.Prelude.{◌≡◌, ℕ, ◌-◌, ◌^◌, ◌<◌, ◌≤◌, List, length};
ghost use Rattle.lexical_num.specs.Format.{IsRadix};
ghost use Rattle.lexical_write_integer.specs.DigitCount.{digit_count};
ghost use Rattle.lexical_write_integer.specs.Numeral.{IsNumeral, IsNumeralOf, value_of};

use lexical_num::num::UnsignedInteger;

/// A law: the digit count of a number is the smallest count, not 0, such that the number is below the
/// radix to that power. It is at most 64.
pub fn digit_count_is_least(radix: u32, value: u64)
    requires { IsRadix radix }
    ensures at_least_one { 1 ≤ digit_count radix value }
    ensures fits { value < radix ^ digit_count radix value }
    ensures least { (count : ℕ) → 1 ≤ count → value < radix ^ count
        → digit_count radix value ≤ count }
    ensures at_most_64 { digit_count radix value ≤ 64 }
{}

/// A law: a number below the radix to the power of `count`, which is not 0, has at most `count` digits.
pub fn digit_count_at_most(radix: u32, value: u64, count: u32)
    requires radix { IsRadix radix }
    requires some { 1 ≤ count }
    requires fits { value < radix ^ count }
    ensures { digit_count radix value ≤ count }
{}

/// A law: a number has `count` digits if it is below the radix to the power of `count` and, unless `count` is 1, not
/// below the power before that.
pub fn digit_count_is(radix: u32, value: u64, count: usize)
    requires radix { IsRadix radix }
    requires some { 1 ≤ count }
    requires fits { value < radix ^ count }
    requires needed { 1 < count → radix ^ (count - 1) ≤ value }
    ensures { digit_count radix value ≡ count }
{}

/// A law: the digit count of a number is at most the number of bits of its type.
pub fn digit_count_within_bits<T: UnsignedInteger>(radix: u32, value: T)
    requires { IsRadix radix }
    ensures { digit_count radix (T.magnitude value) ≤ T.BITS }
{
    value.fits_bits();
}

/// A law: every number has a numeral, whose length is the digit count of the number.
pub fn numeral_exists(radix: u32, value: u64)
    requires { IsRadix radix }
    ensures { (digits : List ℕ) × IsNumeralOf radix value digits
        × (length digits ≡ digit_count radix value) }
{}

/// A law: two numerals with the same value in a radix are the same list of digits.
pub fn numeral_unique(radix: u32, a: &[u8], b: &[u8])
    requires a { IsNumeral radix a.now }
    requires b { IsNumeral radix b.now }
    requires same { value_of radix a.now ≡ value_of radix b.now }
    ensures { a.now ≡ b.now }
{}
