//! Tests of single parts, and of callers that show one part each.

use super::{check, check_buffer, check_part, check_room, check_str};
use crate::amount::write_amount;
use crate::price::write_price;
use crate::table_row::write_table_row;
use crate::uuid::uuid;
use lexical_parts::{
    Binary, Center, Decimal, Fixed, Formatted, FullHex, GroupedFixed, Hex, InRadix, Left, Lower,
    OrElse, PaddedDigits, Part, Plus, Right, Sign, TrimmedFixed, ZeroPadded,
};
use lexical_write_integer::format::STANDARD;
use lexical_write_integer::laws::digit_count_within_bits;
use lexical_write_integer::{NumberFormat, NumberFormatBuilder};
use std::process::Abort;

#[test]
fn parts_in_lowercase(rt: HostRuntime) {
    let mut buffer = [b'Z'; 20];
    let digits = PaddedDigits(16, 0xBEEFu16, 6);
    let count = (Lower(("@AZ[`az{", digits)), "K").write_to(&mut buffer);
    check(&rt, count, 15);
    check(&rt, buffer, *b"@az[`az{00beefKZZZZZ");
    check_room(&rt, Lower(Decimal(-5i8)), 4);
}

#[test]
fn uuids(rt: HostRuntime) {
    let mut buffer = [7; 36];
    let text = uuid(0xF81D_4FAE_7DEC_11D0, 0xA765_00A0_C91E_6BF6, &mut buffer);
    check(&rt, text, "f81d4fae-7dec-11d0-a765-00a0c91e6bf6");
    let mut buffer = [7; 36];
    let nil = uuid(0, 0, &mut buffer);
    check(&rt, nil, "00000000-0000-0000-0000-000000000000");
}

#[test]
fn numbers_with_the_room_of_their_type(rt: HostRuntime) {
    check_part(&rt, (Hex(255u8), " ", Hex(0u16)), b"FF 0");
    check_part(&rt, (Lower(Hex(0xC0DEu32)), Binary(5u8)), b"c0de101");
    check_part(&rt, Hex(u64::MAX), b"FFFFFFFFFFFFFFFF");
    check_room(&rt, Hex(1u8), 2);
    check_part(&rt, (FullHex(255u16), FullHex(0u8)), b"00FF00");
    check_part(&rt, FullHex(u64::MAX), b"FFFFFFFFFFFFFFFF");
    check_room(&rt, FullHex(1u32), 8);
    check_room(&rt, Hex(1u64), 16);
    check_room(&rt, Binary(1u8), 8);
    check_room(&rt, Binary(1u64), 64);
}

#[test]
fn digits_in_the_radix_of_a_type(rt: HostRuntime) {
    digit_count_within_bits(36, u64::MAX);
    digit_count_within_bits(2, 5u8);
    digit_count_within_bits(16, 0xC0DEu16);
    check_part(&rt, InRadix::<36, _>(u64::MAX), b"3W5E11264SGSF");
    check_part(
        &rt,
        (InRadix::<2, _>(5u8), Lower(InRadix::<16, _>(0xC0DEu16))),
        b"101c0de",
    );
    check_room(&rt, InRadix::<7, _>(6u8), 1);
    check_room(&rt, InRadix::<7, _>(7u8), 2);
}

#[test]
fn parts_in_place_of_others(rt: HostRuntime) {
    check_part(&rt, OrElse(Some(5u8), "n/a"), b"5");
    check_part(&rt, OrElse(None::<u8>, "n/a"), b"n/a");
    check_part(&rt, ("-", OrElse(None::<u8>, Decimal(-5i8)), "*"), b"--5*");
    check_room(&rt, OrElse(Some(5u8), "*"), 3);
    check_room(&rt, OrElse(None::<u8>, "none"), 4);
    check_str(&rt, OrElse(None::<u8>, "\u{e9}"), &mut [7; 40], "\u{e9}");
}

#[test]
fn numbers_with_decimals(rt: HostRuntime) {
    check_part(&rt, Fixed(1234u32, 3), b"1.234");
    check_part(&rt, Fixed(-7i16, 0), b"-7");
    check_part(&rt, Fixed(0usize, 2), b"0.00");
    check_part(&rt, Fixed(99u16, 2), b"0.99");
    check_part(&rt, Fixed(100isize, 2), b"1.00");
    check_part(&rt, Fixed(-5i64, 2), b"-0.05");
    check_part(&rt, Fixed(i32::MIN, 1), b"-214748364.8");
    check_part(&rt, Fixed(u64::MAX, 19), b"1.8446744073709551615");
    check_part(&rt, Fixed(i64::MIN, 19), b"-0.9223372036854775808");
    let mut exact = [7; 5];
    check(&rt, Fixed(255u8, 2).write_to(&mut exact[..4]), 4);
    check(&rt, Fixed(i8::MIN, 2).write_to(&mut exact), 5);
    check(&rt, exact, *b"-1.28");
}

#[test]
fn numbers_without_zeros_at_their_end(rt: HostRuntime) {
    check_part(&rt, TrimmedFixed(1500u32, 3), b"1.5");
    check_part(&rt, TrimmedFixed(-1500i16, 3), b"-1.5");
    check_part(&rt, TrimmedFixed(2000, 3), b"2");
    check_part(&rt, TrimmedFixed(105u8, 1), b"10.5");
    check_part(&rt, TrimmedFixed(100usize, 1), b"10");
    check_part(&rt, TrimmedFixed(100u16, 0), b"100");
    check_part(&rt, TrimmedFixed(0i64, 0), b"0");
    check_part(&rt, TrimmedFixed(0u8, 19), b"0");
    check_part(&rt, TrimmedFixed(-50isize, 3), b"-0.05");
    check_part(&rt, TrimmedFixed(10_000_000_000_000_000_000u64, 19), b"1");
    check_part(&rt, TrimmedFixed(u64::MAX, 19), b"1.8446744073709551615");
    check_part(&rt, TrimmedFixed(i64::MIN, 19), b"-0.9223372036854775808");
    check_room(&rt, TrimmedFixed(0u8, 2), 4);
    check_room(&rt, TrimmedFixed(0i8, 3), 6);
    check_str(&rt, TrimmedFixed(-128i8, 2), &mut [7; 5], "-1.28");
}

#[test]
fn amounts_in_cents(rt: HostRuntime) {
    let mut buffer = [7; 26];
    let count = write_amount(-5, &mut buffer);
    check_buffer(&rt, &buffer, count, b"-0.05");
    let count = write_amount(123450, &mut buffer);
    check_buffer(&rt, &buffer, count, b"1,234.50");
    let count = write_amount(i64::MIN, &mut buffer);
    check_buffer(&rt, &buffer, count, b"-92,233,720,368,547,758.08");
}

#[test]
fn prices_with_a_unit(rt: HostRuntime) {
    let mut buffer = [7; 15];
    let count = write_price(5, &mut buffer);
    check_buffer(&rt, &buffer, count, b"0.05 EUR");
    let count = write_price(u32::MAX, &mut buffer);
    check_buffer(&rt, &buffer, count, b"42949672.95 EUR");
}

#[test]
fn decimals_after_groups(rt: HostRuntime) {
    let by_one = NumberFormatBuilder::new()
        .required_mantissa_sign(true)
        .digit_grouping(1, b'_')
        .build_strict();
    check_part(&rt, GroupedFixed(1234u16, 1, &by_one), b"1_2_3.4");
    check_part(&rt, GroupedFixed(-128i8, 0, &by_one), b"-1_2_8");
    check_part(
        &rt,
        GroupedFixed(5u8, 19, &by_one),
        b"0.0000000000000000005",
    );
    check_part(&rt, GroupedFixed(-1234567, 2, &STANDARD), b"-12345.67");
    check_room(&rt, GroupedFixed(1i64, 2, &by_one), 37);
    check_room(&rt, GroupedFixed(1u8, 0, &by_one), 5);
    check_str(&rt, GroupedFixed(7u8, 2, &by_one), &mut [7; 5], "0.07");
}

// Rust's own answers: `format!("{:06}", -42)`, and so on.
#[test]
fn widths_as_in_rust(rt: HostRuntime) {
    check_part(&rt, ZeroPadded(Decimal(-42), 6), b"-00042");
    check_part(&rt, ZeroPadded(Decimal(42u8), 8), b"00000042");
    check_part(&rt, ZeroPadded(Decimal(12345), 4), b"12345");
    check_part(&rt, ZeroPadded(Decimal(0u8), 0), b"0");
    check_part(&rt, ZeroPadded(Hex(255u16), 6), b"0000FF");
    check_part(&rt, ZeroPadded(Fixed(-5i32, 2), 9), b"-00000.05");
    check_part(&rt, Sign(-5, false), b"-");
    check_part(&rt, Sign(i64::MIN, true), b"-");
    check_part(&rt, Sign(0, false), b"");
    check_part(&rt, Sign(0u8, true), b"+");
    check_room(&rt, Sign(5u8, false), 1);
    check_part(&rt, Plus(0u8), b"+0");
    check_part(&rt, Plus(u64::MAX), b"+18446744073709551615");
    check_part(&rt, Plus(i8::MIN), b"-128");
    check_part(&rt, ZeroPadded(Plus(42), 8), b"+0000042");
    check_part(&rt, ZeroPadded(Plus(-42), 8), b"-0000042");
    check_room(&rt, Plus(1u8), 4);
    check_room(&rt, Plus(1i8), 4);
    check_room(&rt, Plus(1u64), 21);
    check_room(&rt, Plus(1i32), 11);
}

#[test]
fn columns_as_in_rust(rt: HostRuntime) {
    check_part(&rt, Right(Decimal(-42), 8, b' '), b"     -42");
    check_part(&rt, Right(Decimal(-42), 6, b'*'), b"***-42");
    check_part(&rt, Left(Decimal(-42), 6, b'*'), b"-42***");
    check_part(&rt, Center(Decimal(-42), 6, b'*'), b"*-42**");
    check_part(&rt, Center("ab", 6, b'*'), b"**ab**");
    check_part(&rt, Center("abc", 2, b'*'), b"abc");
}

#[test]
fn rows_in_columns(rt: HostRuntime) {
    let mut row = [7; 36];
    check(
        &rt,
        write_table_row("total", -2147483648, -1234, &mut row),
        36,
    );
    check(&rt, row, *b"---total---- -2147483648......-1234\n");
}

// Checks the room of a `Formatted` of each type but `usize` and `isize`, which have 64 bits.
fn check_rooms(rt: &impl Abort, format: &NumberFormat, rooms: [usize; 8]) {
    check_room(rt, Formatted(0u8, format), rooms[0]);
    check_room(rt, Formatted(0u16, format), rooms[1]);
    check_room(rt, Formatted(0u32, format), rooms[2]);
    check_room(rt, Formatted(0u64, format), rooms[3]);
    check_room(rt, Formatted(0i8, format), rooms[4]);
    check_room(rt, Formatted(0i16, format), rooms[5]);
    check_room(rt, Formatted(0i32, format), rooms[6]);
    check_room(rt, Formatted(0i64, format), rooms[7]);
}

// Does the same for a `GroupedFixed` with two decimals.
fn check_grouped_rooms(rt: &impl Abort, format: &NumberFormat, rooms: [usize; 8]) {
    check_room(rt, GroupedFixed(0u8, 2, format), rooms[0]);
    check_room(rt, GroupedFixed(0u16, 2, format), rooms[1]);
    check_room(rt, GroupedFixed(0u32, 2, format), rooms[2]);
    check_room(rt, GroupedFixed(0u64, 2, format), rooms[3]);
    check_room(rt, GroupedFixed(0i8, 2, format), rooms[4]);
    check_room(rt, GroupedFixed(0i16, 2, format), rooms[5]);
    check_room(rt, GroupedFixed(0i32, 2, format), rooms[6]);
    check_room(rt, GroupedFixed(0i64, 2, format), rooms[7]);
}

// The lengths of `255`, `65,535` and so on, of `-128` and so on, and of `+255`, `FFFF_FFFF` and `-1.28`.
#[test]
fn rooms_of_formats(rt: HostRuntime) {
    let thousands = NumberFormatBuilder::new().digit_grouping(3, b',');
    let signed = thousands.required_mantissa_sign(true).build_strict();
    let thousands = thousands.build_strict();
    let hexadecimal = NumberFormatBuilder::new()
        .mantissa_radix(16)
        .digit_grouping(4, b'_')
        .build_strict();
    check_rooms(&rt, &thousands, [3, 6, 13, 26, 4, 7, 14, 26]);
    check_rooms(&rt, &signed, [4, 7, 14, 27, 4, 7, 14, 26]);
    check_rooms(&rt, &hexadecimal, [2, 4, 9, 19, 3, 5, 10, 20]);
    check_grouped_rooms(&rt, &thousands, [4, 6, 13, 26, 5, 7, 14, 26]);
}
