//! Calls that build a format.

use lexical_write_integer::{NumberFormat, NumberFormatBuilder};

/// Returns the format of the smallest radix.
pub fn format_of_the_smallest_radix() -> NumberFormat {
    NumberFormatBuilder::from_radix(2)
}

/// Returns the decimal format with the largest radix for exponents.
pub fn format_of_the_largest_exponent_radix() -> NumberFormat {
    NumberFormatBuilder::new().exponent_radix(36).build_strict()
}
