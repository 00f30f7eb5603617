//! Tests of the methods of `WriteInteger`, other than `write_integer`. Most have a buffer of exactly the required
//! length.

use crate::integers::checks::{check_text, valid};
use lexical_write_integer::NumberFormatBuilder;
use lexical_write_integer::format::STANDARD;
use lexical_write_integer::laws::digit_count_at_most;
use lexical_write_integer::write::WriteInteger;

#[test]
fn signed_types_in_radix_10(rt: HostRuntime) {
    let mut nineteen = [7; 19];
    let length = 5u64.write_integer_signed(10, &mut nineteen);
    check_text(&rt, length, &nineteen, b"5");
    let mut three = [7; 3];
    let length = 128u8.write_mantissa_signed(&STANDARD, &mut three);
    check_text(&rt, length, &three, b"128");
}

// A mantissa is written without the sign and the groups of the format.
#[test]
fn mantissas(rt: HostRuntime) {
    let thousands = NumberFormatBuilder::new().digit_grouping(3, b',');
    for builder in [thousands, thousands.required_mantissa_sign(true)] {
        let format = valid(&rt, builder);
        let mut ten = [7; 10];
        let length = 1234567u32.write_mantissa(&format, &mut ten);
        check_text(&rt, length, &ten, b"1234567");
    }
}

// Each call uses its own radix of the format.
#[test]
fn mantissas_and_exponents_in_two_radices(rt: HostRuntime) {
    let builder = NumberFormatBuilder::new().radix(16).exponent_radix(2);
    let format = valid(&rt, builder);
    digit_count_at_most(16, 10, 1);
    digit_count_at_most(2, 10, 4);
    let mut buffer = [7; 128];
    let length = 10u8.write_mantissa(&format, &mut buffer);
    check_text(&rt, length, &buffer, b"A");
    let mut buffer = [7; 128];
    let length = 10u8.write_exponent(&format, &mut buffer);
    check_text(&rt, length, &buffer, b"1010");
}

// In the same format with a required sign, and in buffers of exactly the required length.
#[test]
fn mantissas_and_exponents_have_no_sign(rt: HostRuntime) {
    let builder = NumberFormatBuilder::new().radix(16).exponent_radix(2);
    let format = valid(&rt, builder.required_mantissa_sign(true));
    digit_count_at_most(16, 10, 1);
    digit_count_at_most(2, 10, 4);
    let mut one = [7; 1];
    let length = 10u8.write_mantissa(&format, &mut one);
    check_text(&rt, length, &one, b"A");
    let mut four = [7; 4];
    let length = 10u8.write_exponent(&format, &mut four);
    check_text(&rt, length, &four, b"1010");
    let mut four = [7; 4];
    let length = 10u8.write_exponent_signed(&format, &mut four);
    check_text(&rt, length, &four, b"1010");
}
