//! Tests of the errors of a build.

use crate::checks::check_equal;
use crate::integers::rows::read;
use lexical_num::{Error, NumberFormat, NumberFormatBuilder};
use std::fmt::InlineText;
use std::process::Abort;

// Checks the text of the error of a build.
pub(crate) fn check_error(
    rt: &impl Abort,
    row: &str,
    built: Result<NumberFormat, Error>,
    message: &str,
) {
    let text = InlineText::<32>::of(built.err().expect(rt, row));
    check_equal(rt, row, text.as_str(), message);
}

// Each line has the two radices and the text of the error, which names the first of them that is not valid.
const RADIX_ERRORS: &str = "\
1 10 invalid mantissa radix 1
10 37 invalid exponent radix 37
0 0 invalid mantissa radix 0
37 10 invalid mantissa radix 37
36 1 invalid exponent radix 1
255 0 invalid mantissa radix 255
10 0 invalid exponent radix 0
";

// Checks the error of a format without groups, and of one with groups.
fn check_radices(rt: &impl Abort, line: &str) {
    let (mantissa, rest) = read(rt, line);
    let (exponent, message) = read(rt, rest);
    let builder = NumberFormatBuilder::new()
        .mantissa_radix(mantissa)
        .exponent_radix(exponent);
    check_error(rt, line, builder.build(), message);
    check_error(rt, line, builder.digit_grouping(3, b',').build(), message);
}

// Each line has the two radices, the group size, the separator, and the text of the error, which names the
// first of the four that is not valid.
const GROUP_ERRORS: &str = "\
10 10 0 44 invalid group size 0
10 10 65 44 invalid group size 65
10 10 0 65 invalid group size 0
10 10 3 43 invalid group mark 43
10 10 3 45 invalid group mark 45
10 10 3 65 invalid group mark 65
10 10 3 127 invalid group mark 127
1 10 0 65 invalid mantissa radix 1
";

fn check_groups(rt: &impl Abort, line: &str) {
    let (mantissa, rest) = read(rt, line);
    let (exponent, rest) = read(rt, rest);
    let (size, rest) = read(rt, rest);
    let (mark, message) = read(rt, rest);
    let built = NumberFormatBuilder::new()
        .mantissa_radix(mantissa)
        .exponent_radix(exponent)
        .digit_grouping(size, mark)
        .build();
    check_error(rt, line, built, message);
}

#[test]
fn build_returns_the_first_error(rt: HostRuntime) {
    for line in RADIX_ERRORS.lines() {
        check_radices(&rt, line);
    }
    for line in GROUP_ERRORS.lines() {
        check_groups(&rt, line);
    }
}
