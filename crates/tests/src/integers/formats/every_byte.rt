//! Tests every pair of bytes as the two radices, and as the group size and the separator.

use crate::checks::check_equal;
use lexical_num::{Error, NumberFormatBuilder};
use std::process::Abort;

// The part that an error names, with its byte.
type Refused = Option<(&'static str, u8)>;

fn refused(error: Error) -> Refused {
    match error {
        Error::InvalidMantissaRadix(byte) => Some(("mantissa radix", byte)),
        Error::InvalidExponentRadix(byte) => Some(("exponent radix", byte)),
        Error::InvalidGroupSize(byte) => Some(("group size", byte)),
        Error::InvalidGroupMark(byte) => Some(("group mark", byte)),
    }
}

// Returns whether the byte is a radix, from 2 to 36.
fn is_radix(byte: u8) -> bool {
    (2..=36).contains(&byte)
}

// Returns the first of the two bytes that is not a radix, which the error of a build has to name.
fn expected_of_radices(mantissa: u8, exponent: u8) -> Refused {
    if !is_radix(mantissa) {
        Some(("mantissa radix", mantissa))
    } else if !is_radix(exponent) {
        Some(("exponent radix", exponent))
    } else {
        None
    }
}

// Returns the group size or the separator that the error of a build has to name.
fn expected_of_groups(size: u8, mark: u8) -> Refused {
    if !(1..=64).contains(&size) {
        Some(("group size", size))
    } else if !b" !\"#$%&'()*,./:;<=>?@[\\]^_`{|}~".contains(&mark) {
        Some(("group mark", mark))
    } else {
        None
    }
}

// Checks that the build returns a format with these parts, or else the error that names this byte.
fn check(
    rt: &impl Abort,
    builder: NumberFormatBuilder,
    parts: (u32, u32, Option<(u8, u8)>),
    expected: Refused,
) {
    let error = match builder.build() {
        Ok(format) => {
            let radices = (format.mantissa_radix(), format.exponent_radix());
            let built = (radices.0, radices.1, format.digit_grouping());
            check_equal(rt, parts, built, parts);
            check_equal(rt, parts, format.required_mantissa_sign(), false);
            None
        }
        Err(error) => refused(error),
    };
    check_equal(rt, parts, error, expected);
}

// Checks these radices without groups, and returns whether they are valid.
fn check_radices(rt: &impl Abort, mantissa: u8, exponent: u8) -> bool {
    let builder = NumberFormatBuilder::new().mantissa_radix(mantissa);
    let parts = (mantissa.into(), exponent.into(), None);
    let expected = expected_of_radices(mantissa, exponent);
    check(rt, builder.exponent_radix(exponent), parts, expected);
    expected.is_none()
}

// Checks groups of this size and with this separator, and returns whether they are valid.
fn check_groups(rt: &impl Abort, size: u8, mark: u8) -> bool {
    let builder = NumberFormatBuilder::new().digit_grouping(size, mark);
    let expected = expected_of_groups(size, mark);
    check(rt, builder, (10, 10, Some((size, mark))), expected);
    expected.is_none()
}

// There are 35 radices, 64 group sizes and 31 separators.
#[test]
fn every_pair_of_bytes(rt: HostRuntime) {
    let mut radices = 0u32;
    let mut groups = 0u32;
    for pair in 0..=65535u16 {
        let [first, second] = pair.to_be_bytes();
        radices = radices.wrapping_add(u32::from(check_radices(&rt, first, second)));
        groups = groups.wrapping_add(u32::from(check_groups(&rt, first, second)));
    }
    check_equal(&rt, "the valid pairs", (radices, groups), (1225, 1984));
}
