//! Tests of the integer types, which each test uses only through the bound of a type parameter.

ghost use Rattle.std.specs.Prelude.{◌^◌, ◌<◌};

use crate::checks::check_equal;
use lexical_num::digit::digit_to_char;
use lexical_num::{BUFFER_SIZE, FormattedSize, LexicalInteger, UnsignedInteger};
use std::process::Abort;

// Checks the bits, the decimal width, and the sizes in radix 10 and in all radices.
fn check_sizes<T: LexicalInteger + FormattedSize>(rt: &impl Abort, value: T, expected: [usize; 4]) {
    value.in_range();
    let sizes = [
        T::BITS,
        T::DECIMAL_WIDTH,
        T::FORMATTED_SIZE_DECIMAL,
        T::FORMATTED_SIZE,
    ];
    check_equal(rt, "the sizes", sizes, expected);
}

// Checks the quotient and the remainder.
fn check_divided<T: UnsignedInteger>(rt: &impl Abort, value: T, by: T, expected: [u64; 2])
    requires { 0 < T.magnitude by }
{
    let (quotient, remainder) = value.div_rem(by);
    let row = [value.as_u64(), by.as_u64()];
    check_equal(rt, row, [quotient.as_u64(), remainder.as_u64()], expected);
}

// Checks that the number is the same in the type.
fn check_through<T: UnsignedInteger>(rt: &impl Abort, value: u32)
    requires { value < 2 ^ T.BITS }
{
    let number = T::from_u32(value);
    check_equal(rt, T::BITS, number.as_u32(), value);
    check_equal(rt, T::BITS, number.as_usize(), value as usize);
}

fn check_zeros<T: UnsignedInteger>(rt: &impl Abort, value: T, expected: u32) {
    let row = (T::BITS, value.as_u64());
    check_equal(rt, row, value.leading_zeros(), expected);
}

// Checks the order of two numbers of which the first is smaller.
fn check_order<T: UnsignedInteger>(rt: &impl Abort, below: T, above: T) {
    let order = [
        below.is_at_least(above),
        above.is_at_least(above),
        above.is_at_least(below),
    ];
    check_equal(rt, T::BITS, order, [false, true, true]);
}

#[test]
fn sizes_of_the_types(rt: HostRuntime) {
    check_sizes(&rt, 0u8, [8, 3, 3, 16]);
    check_sizes(&rt, 0u16, [16, 5, 5, 32]);
    check_sizes(&rt, 0u32, [32, 10, 10, 64]);
    check_sizes(&rt, 0u64, [64, 20, 20, 128]);
    check_sizes(&rt, 0usize, [64, 20, 20, 128]);
    check_sizes(&rt, 0i8, [8, 3, 4, 16]);
    check_sizes(&rt, 0i16, [16, 5, 6, 32]);
    check_sizes(&rt, 0i32, [32, 10, 11, 64]);
    check_sizes(&rt, 0i64, [64, 19, 20, 128]);
    check_sizes(&rt, 0isize, [64, 19, 20, 128]);
    check_equal(&rt, "BUFFER_SIZE", BUFFER_SIZE, 128);
}

#[test]
fn arithmetic_of_the_types(rt: HostRuntime) {
    check_divided(&rt, 255u8, 16, [15, 15]);
    check_divided(&rt, 65535u16, 1000, [65, 535]);
    check_divided(&rt, 4294967295u32, 4294967295, [1, 0]);
    check_divided(&rt, 18446744073709551615u64, 10, [1844674407370955161, 5]);
    check_divided(&rt, 7usize, 8, [0, 7]);
    check_through::<u8>(&rt, 255);
    check_through::<u16>(&rt, 65535);
    check_through::<u32>(&rt, 4294967295);
    check_through::<u64>(&rt, 4294967295);
    check_through::<usize>(&rt, 0);
}

#[test]
fn comparisons_and_zeros_of_the_types(rt: HostRuntime) {
    check_order(&rt, 1u8, 2);
    check_order(&rt, 0u16, 65535);
    check_order(&rt, 9u32, 10);
    check_order(&rt, 4294967295u64, 4294967296);
    check_order(&rt, 0usize, 1);
    check_zeros(&rt, 255u8, 0);
    check_zeros(&rt, 0u16, 16);
    check_zeros(&rt, 1u16, 15);
    check_zeros(&rt, 65536u32, 15);
    check_zeros(&rt, 0u64, 64);
    check_zeros(&rt, 1u64, 63);
    check_zeros(&rt, 0usize, 64);
}

#[test]
fn characters_of_digits(rt: HostRuntime) {
    let characters = b"0123456789ABCDEFGHIJKLMNOPQRSTUVWXYZ";
    for digit in 0..36u32 {
        let character = digit_to_char(digit);
        check_equal(&rt, digit, character, characters[digit as usize]);
    }
}
