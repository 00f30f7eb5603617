//! Digit counts.
#![tactic(auto, unfolding(lexical_write_integer::specs::DigitCount::digit_count, lexical_write_integer::specs::DigitCount::least_exponent))]

use lexical_write_integer::decimal::fallback_digit_count;
use lexical_write_integer::digit_count::DigitCount;

/// Returns the digit count of 6 in the smallest radix.
pub fn digit_count_in_the_smallest_radix() -> usize {
    6u64.digit_count(2)
}

/// Returns the digit count of 7, found by division, in the smallest radix.
pub fn slow_digit_count_in_the_smallest_radix() -> usize {
    7u64.slow_digit_count(2)
}

/// Returns the digit count of 10, found with all powers of ten that fit in a `u32`.
pub fn digit_count_by_all_powers() -> usize {
    fallback_digit_count(
        10u32,
        &[
            10, 100, 1000, 10000, 100000, 1000000, 10000000, 100000000, 1000000000,
        ],
    )
}
