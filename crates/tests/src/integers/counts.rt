//! Tests of the logarithms, and of the digit counts with a table of powers.

use crate::checks::check_equal;
use lexical_write_integer::decimal::{fallback_digit_count, fast_log10};
use lexical_write_integer::digit_count::fast_log2;

#[test]
fn logarithms(rt: HostRuntime) {
    for (x, log2) in [
        (0u32, 0),
        (1, 0),
        (2, 1),
        (3, 1),
        (65535, 15),
        (65536, 16),
        (65537, 16),
        (u32::MAX, 31),
    ] {
        check_equal(&rt, x, fast_log2(x), log2);
    }
    for (x, log10) in [(0u32, 0), (10, 0), (15, 0), (20, 1), (100, 1), (200, 2)] {
        check_equal(&rt, x, fast_log10(x), log10);
    }
}

#[test]
fn tables_of_powers(rt: HostRuntime) {
    let count = fallback_digit_count(255u8, &[10, 100]);
    check_equal(&rt, 255, count, 3);
    let count = fallback_digit_count(65535u16, &[10, 100, 1000, 10000]);
    check_equal(&rt, 65535, count, 5);
    // 2^30 is above the last power of the table.
    let powers = [
        10, 100, 1000, 10000, 100000, 1000000, 10000000, 100000000, 1000000000,
    ];
    let count = fallback_digit_count(1073741824u32, &powers);
    check_equal(&rt, 1073741824, count, 10);
}
