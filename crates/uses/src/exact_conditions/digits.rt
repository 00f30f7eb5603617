//! Calls that write digits.
#![tactic(auto, unfolding(lexical_write_integer::specs::DigitCount::digit_count, lexical_write_integer::specs::DigitCount::least_exponent))]

use lexical_write_integer::compact::Compact;
use lexical_write_integer::decimal::Decimal;
use lexical_write_integer::jeaiii::from_i64;

/// Writes 5 to 20 bytes, the number of digits of the largest `u64`, and returns its length.
pub fn decimal_of_a_u64() -> usize {
    5u64.decimal(&mut [0; 20])
}

/// Writes the largest number of 19 digits as the magnitude of a signed number, and returns its length.
pub fn largest_magnitude_of_19_digits() -> usize {
    from_i64(9999999999999999999, &mut [0; 20])
}

/// Does the same by the method of the type.
#[tactic(auto)]
pub fn largest_u64_of_19_digits() -> usize {
    9999999999999999999u64.decimal_signed(&mut [0; 20])
}

/// Writes 37 in the largest radix, and returns the digit count.
pub fn compact_in_the_largest_radix() -> usize {
    37u64.compact(36, &mut [0; 64])
}
