//! Calls of the decimal kernels, each with a number at an end of its range.

use lexical_write_integer::jeaiii::{fixed_6, fixed_8_nine, fixed_8_ten, fixed_8_wide};

/// Returns the fraction of the smallest number that `fixed_6` accepts.
pub fn smallest_of_six() -> u64 {
    fixed_6(1000000)
}

/// Returns the fraction of the largest number that `fixed_8_nine` accepts.
pub fn largest_of_nine() -> u64 {
    fixed_8_nine(999999999)
}

/// Returns the fraction of the smallest number that `fixed_8_ten` accepts.
pub fn smallest_of_ten() -> u64 {
    fixed_8_ten(1000000000)
}

/// Returns the fraction of the largest number that `fixed_8_wide` accepts.
pub fn largest_of_wide() -> u64 {
    fixed_8_wide(9999999999)
}
