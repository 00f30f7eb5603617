//! Calls on numbers.

use lexical_num::UnsignedInteger;
use lexical_num::digit::digit_to_char;

/// Returns the character of the largest digit.
pub fn character_of_the_largest_digit() -> u8 {
    digit_to_char(35)
}

/// Returns the largest `u8`.
pub fn largest_u8() -> u8 {
    u8::from_u32(255)
}

/// Returns the quotient and the remainder of 1 and 1.
pub fn division_by_one() -> (u8, u8) {
    1u8.div_rem(1)
}

/// Returns the largest number of 32 bits.
pub fn largest_number_of_32_bits() -> u32 {
    4294967295u64.as_u32()
}
