//! Tests of the decimal writer of each type with a buffer of the decimal width, which is the required length.

use crate::integers::checks::check_text;
use lexical_num::LexicalInteger;
use lexical_write_integer::decimal::Decimal;
use lexical_write_integer::jeaiii::{from_i64, from_u8, from_u16, from_u32, from_u64};

#[test]
fn writers_of_up_to_32_bits(rt: HostRuntime) {
    let mut buffer = [7; 3];
    let length = from_u8(255, &mut buffer);
    check_text(&rt, length, &buffer, b"255");
    let mut buffer = [7; 5];
    let length = from_u16(65535, &mut buffer);
    check_text(&rt, length, &buffer, b"65535");
    let mut buffer = [7; 10];
    let length = from_u32(4294967295, &mut buffer);
    check_text(&rt, length, &buffer, b"4294967295");
}

#[test]
fn writers_of_64_bits(rt: HostRuntime) {
    let mut buffer = [7; 19];
    let length = from_i64(9223372036854775808, &mut buffer);
    check_text(&rt, length, &buffer, b"9223372036854775808");
    let mut buffer = [7; 19];
    let length = from_i64(9999999999999999999, &mut buffer);
    check_text(&rt, length, &buffer, b"9999999999999999999");
    let mut buffer = [7; 20];
    let length = from_u64(100000000005, &mut buffer);
    check_text(&rt, length, &buffer, b"100000000005");
}

#[test]
fn i64_19digit_test(rt: HostRuntime) {
    let mut buffer = [7; 19];
    let length = 5u64.decimal_signed(&mut buffer);
    check_text(&rt, length, &buffer, b"5");
}
