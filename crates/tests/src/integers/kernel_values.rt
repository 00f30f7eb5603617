//! Tests of the decimal kernels with known numbers: the fraction that each returns, and the pairs of digits
//! that `next2` takes from it.

use crate::checks::check_equal;
use lexical_write_integer::jeaiii::{
    fixed_2, fixed_4, fixed_6, fixed_8_nine, fixed_8_ten, fixed_8_wide, next2,
};
use std::process::Abort;

// Checks a fraction, its first pair of digits, and the pairs after it.
fn check_fraction(rt: &impl Abort, fraction: u64, expected: u64, first: u64, pairs: &[u32]) {
    check_equal(rt, expected, (fraction, fraction >> 32), (expected, first));
    let mut rest = fraction;
    for pair in pairs {
        check_equal(rt, expected, next2(&mut rest), *pair);
    }
}

#[test]
fn fractions_and_their_pairs(rt: HostRuntime) {
    check_fraction(&rt, fixed_2(1234), 52999896482, 12, &[34]);
    check_fraction(&rt, fixed_4(999999), 429496570503, 99, &[99, 99]);
    check_fraction(&rt, fixed_6(1000000), 4294967315, 1, &[0, 0, 0]);
    check_fraction(&rt, fixed_8_nine(999999999), 42949672954, 9, &[99; 4]);
    check_fraction(
        &rt,
        fixed_8_ten(4294967295),
        184467440725,
        42,
        &[94, 96, 72, 95],
    );
    check_fraction(&rt, fixed_8_wide(1000000000), 42949672963, 10, &[0; 4]);
    check_fraction(
        &rt,
        fixed_8_wide(4294967296),
        184467440752,
        42,
        &[94, 96, 72, 96],
    );
    check_fraction(&rt, fixed_8_wide(9999999999), 429496729591, 99, &[99; 4]);
}

#[test]
fn next2_stores_its_product(rt: HostRuntime) {
    let mut product = fixed_2(1234);
    let pair = next2(&mut product);
    check_equal(&rt, 1234, (pair, product), (34, 146028893000));
}
