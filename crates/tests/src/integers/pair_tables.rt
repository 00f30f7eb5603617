//! Tests of the tables of pairs of digits.

ghost use Rattle.lexical_num.specs.Format.{IsRadix};

use crate::checks::check_equal;
use lexical_tables::{
    DIGIT_TO_BASE2_SQUARED, DIGIT_TO_BASE3_SQUARED, DIGIT_TO_BASE4_SQUARED, DIGIT_TO_BASE5_SQUARED,
    DIGIT_TO_BASE6_SQUARED, DIGIT_TO_BASE7_SQUARED, DIGIT_TO_BASE8_SQUARED, DIGIT_TO_BASE9_SQUARED,
    DIGIT_TO_BASE10_SQUARED, DIGIT_TO_BASE11_SQUARED, DIGIT_TO_BASE12_SQUARED,
    DIGIT_TO_BASE13_SQUARED, DIGIT_TO_BASE14_SQUARED, DIGIT_TO_BASE15_SQUARED,
    DIGIT_TO_BASE16_SQUARED, DIGIT_TO_BASE17_SQUARED, DIGIT_TO_BASE18_SQUARED,
    DIGIT_TO_BASE19_SQUARED, DIGIT_TO_BASE20_SQUARED, DIGIT_TO_BASE21_SQUARED,
    DIGIT_TO_BASE22_SQUARED, DIGIT_TO_BASE23_SQUARED, DIGIT_TO_BASE24_SQUARED,
    DIGIT_TO_BASE25_SQUARED, DIGIT_TO_BASE26_SQUARED, DIGIT_TO_BASE27_SQUARED,
    DIGIT_TO_BASE28_SQUARED, DIGIT_TO_BASE29_SQUARED, DIGIT_TO_BASE30_SQUARED,
    DIGIT_TO_BASE31_SQUARED, DIGIT_TO_BASE32_SQUARED, DIGIT_TO_BASE33_SQUARED,
    DIGIT_TO_BASE34_SQUARED, DIGIT_TO_BASE35_SQUARED, DIGIT_TO_BASE36_SQUARED, get_table,
};
use std::process::Abort;

#[test]
fn lengths(rt: HostRuntime) {
    let mut total: usize = 0;
    for radix in 2..37 {
        total = total.wrapping_add(get_table(radix).len());
    }
    check_equal(&rt, "the sum of the lengths", total, 32_410);
}

// Checks the length of a table, and its first and its last pairs.
fn check_ends(rt: &impl Abort, radix: u32, length: usize, first: &[u8], last: &[u8])
    requires { IsRadix radix }
{
    let table = get_table(radix);
    let ends = (table.starts_with(first), table.ends_with(last));
    check_equal(rt, radix, (table.len(), ends), (length, (true, true)));
}

#[test]
fn first_and_last_pairs(rt: HostRuntime) {
    check_equal(&rt, 2, get_table(2), b"00011011");
    check_equal(&rt, 3, get_table(3), b"000102101112202122");
    check_ends(&rt, 10, 200, b"00010203", b"96979899");
    check_ends(&rt, 16, 512, b"00010203", b"FCFDFEFF");
    check_ends(&rt, 36, 2592, b"00010203", b"ZWZXZYZZ");
}

#[test]
fn pairs_at_known_indexes(rt: HostRuntime) {
    check_equal(&rt, 12, &get_table(12)[256..258], b"A8");
    check_equal(&rt, 7, &get_table(7)[20..22], b"13");
    check_equal(&rt, 35, &get_table(35)[2448..2450], b"YY");
}

// Returns the constant of a radix from 2 to 18.
fn constant_to_18(radix: u32) -> &'static [u8] {
    match radix {
        2 => &DIGIT_TO_BASE2_SQUARED,
        3 => &DIGIT_TO_BASE3_SQUARED,
        4 => &DIGIT_TO_BASE4_SQUARED,
        5 => &DIGIT_TO_BASE5_SQUARED,
        6 => &DIGIT_TO_BASE6_SQUARED,
        7 => &DIGIT_TO_BASE7_SQUARED,
        8 => &DIGIT_TO_BASE8_SQUARED,
        9 => &DIGIT_TO_BASE9_SQUARED,
        10 => &DIGIT_TO_BASE10_SQUARED,
        11 => &DIGIT_TO_BASE11_SQUARED,
        12 => &DIGIT_TO_BASE12_SQUARED,
        13 => &DIGIT_TO_BASE13_SQUARED,
        14 => &DIGIT_TO_BASE14_SQUARED,
        15 => &DIGIT_TO_BASE15_SQUARED,
        16 => &DIGIT_TO_BASE16_SQUARED,
        17 => &DIGIT_TO_BASE17_SQUARED,
        _ => &DIGIT_TO_BASE18_SQUARED,
    }
}

// Returns the constant of a radix from 2 to 36.
fn constant(radix: u32) -> &'static [u8] {
    match radix {
        2..=18 => constant_to_18(radix),
        19 => &DIGIT_TO_BASE19_SQUARED,
        20 => &DIGIT_TO_BASE20_SQUARED,
        21 => &DIGIT_TO_BASE21_SQUARED,
        22 => &DIGIT_TO_BASE22_SQUARED,
        23 => &DIGIT_TO_BASE23_SQUARED,
        24 => &DIGIT_TO_BASE24_SQUARED,
        25 => &DIGIT_TO_BASE25_SQUARED,
        26 => &DIGIT_TO_BASE26_SQUARED,
        27 => &DIGIT_TO_BASE27_SQUARED,
        28 => &DIGIT_TO_BASE28_SQUARED,
        29 => &DIGIT_TO_BASE29_SQUARED,
        30 => &DIGIT_TO_BASE30_SQUARED,
        31 => &DIGIT_TO_BASE31_SQUARED,
        32 => &DIGIT_TO_BASE32_SQUARED,
        33 => &DIGIT_TO_BASE33_SQUARED,
        34 => &DIGIT_TO_BASE34_SQUARED,
        35 => &DIGIT_TO_BASE35_SQUARED,
        _ => &DIGIT_TO_BASE36_SQUARED,
    }
}

#[test]
fn constants_are_the_tables(rt: HostRuntime) {
    for radix in 2..37u32 {
        check_equal(&rt, radix, get_table(radix), constant(radix));
    }
}
