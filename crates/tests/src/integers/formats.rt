//! Tests of the formats and their builder.

mod errors;
mod every_byte;
mod options;
mod types;

ghost use Rattle.std.specs.Prelude.{◌≡◌};

use crate::checks::check_equal;
use crate::integers::checks::valid;
use errors::check_error;
use lexical_num::format::STANDARD;
use lexical_num::{NumberFormat, NumberFormatBuilder};
use lexical_write_integer::Options;
use std::process::Abort;

// Returns the decimal format with a required sign.
fn signed(rt: &impl Abort) -> NumberFormat {
    valid(rt, NumberFormatBuilder::new().required_mantissa_sign(true))
}

// Returns the decimal format with groups.
fn grouped(rt: &impl Abort, size: u8, mark: u8) -> NumberFormat {
    valid(rt, NumberFormatBuilder::new().digit_grouping(size, mark))
}

// Returns the format with these radices.
fn format(rt: &impl Abort, mantissa: u8, exponent: u8) -> NumberFormat {
    let builder = NumberFormatBuilder::new().mantissa_radix(mantissa);
    valid(rt, builder.exponent_radix(exponent))
}

// Returns a clone of a format, which is equal to it.
fn clone_of_format(rt: &impl Abort, format: &NumberFormat) -> NumberFormat
    ensures { result ≡ format.now }
{
    format.clone().expect(rt, "clone")
}

// Returns a clone of a builder, which is equal to it.
fn clone_of_builder(rt: &impl Abort, builder: &NumberFormatBuilder) -> NumberFormatBuilder
    ensures { result ≡ builder.now }
{
    builder.clone().expect(rt, "clone")
}

// Returns the format with this mantissa radix that a builder makes after an error.
fn built_after_an_error(rt: &impl Abort, radix: u8) -> NumberFormat {
    let builder = NumberFormatBuilder::default().mantissa_radix(1);
    check_error(rt, "radix 1", builder.build(), "invalid mantissa radix 1");
    check_error(rt, "radix 1", builder.build(), "invalid mantissa radix 1");
    let new = NumberFormatBuilder::new();
    let are_new = (builder == new, NumberFormatBuilder::default() == new);
    check_equal(rt, "radix 1, default", are_new, (false, true));
    valid(rt, clone_of_builder(rt, &builder).mantissa_radix(radix))
}

// Checks a format without groups.
fn check(rt: &impl Abort, format: NumberFormat, mantissa: u32, exponent: u32, sign: bool) {
    let radices = [
        format.radix(),
        format.mantissa_radix(),
        format.exponent_radix(),
    ];
    check_equal(rt, "the radices", radices, [mantissa, mantissa, exponent]);
    let row = (mantissa, exponent, sign);
    let flags = [format.required_mantissa_sign(), format.is_valid()];
    check_equal(rt, row, flags, [sign, true]);
    check_equal(rt, row, format.digit_grouping(), None);
}

#[test]
fn formats_have_the_fields_of_their_builder(rt: HostRuntime) {
    check(&rt, STANDARD, 10, 10, false);
    check(&rt, signed(&rt), 10, 10, true);
    check(&rt, NumberFormatBuilder::binary(), 2, 2, false);
    check(&rt, NumberFormatBuilder::hexadecimal(), 16, 16, false);
    check(&rt, NumberFormatBuilder::from_radix(36), 36, 36, false);
    check(&rt, built_after_an_error(&rt, 2), 2, 10, false);
    let sixteen = valid(&rt, NumberFormatBuilder::new().radix(16));
    check(&rt, clone_of_format(&rt, &sixteen), 16, 10, false);
    check(&rt, format(&rt, 2, 36), 2, 36, false);
}

fn check_equality(rt: &impl Abort, row: &str, a: NumberFormat, b: NumberFormat, expected: bool) {
    check_equal(rt, row, a == b, expected);
}

#[test]
fn equal_and_different_formats(rt: HostRuntime) {
    let binary = NumberFormatBuilder::binary();
    let sixteen = NumberFormatBuilder::from_radix(16);
    check_equality(&rt, "10", format(&rt, 10, 10), STANDARD, true);
    check_equality(&rt, "2", format(&rt, 2, 2), binary, true);
    check_equality(&rt, "16", format(&rt, 16, 10), sixteen, false);
    check_equality(&rt, "sign", signed(&rt), STANDARD, false);
    let ones = grouped(&rt, 1, 32);
    check_equality(&rt, "size", ones, grouped(&rt, 64, 126), false);
    check_equality(&rt, "mark", ones, grouped(&rt, 1, 33), false);
}

#[test]
fn sizes_without_a_type_parameter(rt: HostRuntime) {
    let signed = signed(&rt);
    let size = Options::new().buffer_size_const::<u8>(&signed);
    check_equal(&rt, "u8 with a required sign", size, 4);
}
