//! Tests of the callers with known numbers.

ghost use Rattle.std.specs.Prelude.{◌≤◌, length};

mod joined;
mod lines;
mod parts;
mod positions;
mod scientific;
mod shown;
mod streams;
mod widths;

use crate::amount::width_of_amount;
use crate::any_format::{LINE_SIZE, key, line_of_any, text_if_room};
use crate::arena::{have_same_kept_texts, keep_text};
use crate::fixed_text::{million, year_month};
use crate::float_parts::{float_format, write_parts};
use crate::hexadecimal::hexadecimal;
use crate::identifier::{
    have_same_identifier, identifier, is_sorted_before, link, same_counter, same_link,
    sorted_identifier,
};
use crate::printed::printed;
use crate::sorted_keys::{comes_before, text_comes_before};
use crate::tar_header::{write_first_fields, write_header};
use crate::time_of_day::write_time;
use lexical_parts::{Decimal, Part};
use lexical_write_integer::{
    BUFFER_SIZE, Error, NumberFormatBuilder, Options, ToLexical, ToLexicalWithOptions,
};
use std::fmt::Debug;
use std::process::Abort;

// Checks that a value is the expected one. A call is proved in less time than an `assert_eq!` of its own.
fn check<T: Copy + PartialEq + Debug>(rt: &impl Abort, value: T, expected: T) {
    assert_eq!(rt; value, expected);
}

// What the buffers of the tests contain before a call. No buffer is longer.
const UNCHANGED: [u8; 168] = [7; 168];

// Checks that a call that returned `count` wrote the text to the start of the buffer, and that every byte
// after it is still 7.
fn check_buffer(rt: &impl Abort, buffer: &[u8], count: usize, text: &[u8]) {
    check(rt, count, text.len());
    let (written, rest) = buffer.split_at(count.min(buffer.len()));
    check_bytes(rt, written, text);
    check(rt, UNCHANGED.ends_with(rest), true);
}

// Checks that the bytes are the text.
fn check_bytes(rt: &impl Abort, bytes: &[u8], text: &[u8]) {
    check(rt, bytes, text);
}

// Checks the `&str` that `to_str` returns.
fn check_str<P: Part>(rt: &impl Abort, part: P, buffer: &mut [u8], text: &str)
    requires valid { P.is_valid part }
    requires utf8 { P.is_utf8 part }
    requires room { P.room part ≤ length buffer.old }
{
    check(rt, part.to_str(buffer), text);
}

// Checks the room of a part.
fn check_room<P: Part>(rt: &impl Abort, part: P, room: usize)
    requires { P.is_valid part }
{
    check(rt, part.room(), room);
}

// Checks that the part writes the text, and no other byte.
fn check_part<P: Part>(rt: &impl Abort, part: P, text: &[u8])
    requires valid { P.is_valid part }
    requires room { P.room part ≤ 70 }
{
    let mut buffer = [7; 70];
    let count = part.write_to(&mut buffer);
    check_buffer(rt, &buffer, count, text);
}

// Uses that must fail, since a check that compares nothing would let every test pass.

#[test]
#[should_panic(expected = "left: 1")]
fn a_wrong_value_fails(rt: HostRuntime) {
    check(&rt, 1, 2);
}

#[test]
#[should_panic(expected = "left: 1")]
fn a_wrong_length_fails(rt: HostRuntime) {
    check_buffer(&rt, b"12\x07", 1, b"12");
}

#[test]
#[should_panic(expected = "left: [49, 50]")]
fn a_wrong_text_fails(rt: HostRuntime) {
    check_part(&rt, Decimal(12), b"13");
}

#[test]
#[should_panic(expected = "left: false")]
fn a_changed_byte_after_the_text_fails(rt: HostRuntime) {
    check_buffer(&rt, b"12\x06", 2, b"12");
}

#[test]
#[should_panic(expected = "left: \"12\"")]
fn a_wrong_str_fails(rt: HostRuntime) {
    check_str(&rt, Decimal(12), &mut [7; 11], "13");
}

#[test]
#[should_panic(expected = "left: 11")]
fn a_wrong_room_fails(rt: HostRuntime) {
    check_room(&rt, Decimal(12), 10);
}

#[test]
fn identifiers(rt: HostRuntime) {
    let mut buffer = [7; 13];
    check_bytes(&rt, identifier(0, &mut buffer), b"0");
    same_counter(35, 36);
    same_link(35, 36);
    check(&rt, link(1000, &mut [7; 16]), "/l/RS");
    check(
        &rt,
        link(18446744073709551615, &mut [7; 16]),
        "/l/3W5E11264SGSF",
    );
    check_bytes(&rt, identifier(35, &mut buffer), b"Z");
    check_bytes(&rt, identifier(36, &mut buffer), b"10");
    let largest = identifier(18446744073709551615, &mut buffer);
    check_bytes(&rt, largest, b"3W5E11264SGSF");
    check(&rt, have_same_identifier(71, 71), true);
    check(&rt, have_same_identifier(71, 72), false);
}

#[test]
fn sorted_identifiers(rt: HostRuntime) {
    let mut buffer = [7; 8];
    check_bytes(&rt, sorted_identifier(35, &mut buffer), b"0000000Z");
    check_bytes(&rt, sorted_identifier(36, &mut buffer), b"00000010");
    check(&rt, is_sorted_before(35, 36), true);
    check(&rt, is_sorted_before(36, 36), false);
    check(&rt, is_sorted_before(2821109907455, 35), false);
}

#[test]
fn floats_in_two_radices(rt: HostRuntime) {
    check(
        &rt,
        matches!(float_format(37, 2), Err(Error::InvalidMantissaRadix(37))),
        true,
    );
    check(
        &rt,
        matches!(float_format(36, 1), Err(Error::InvalidExponentRadix(1))),
        true,
    );
    let mut buffer = [7; BUFFER_SIZE];
    let format = float_format(16, 2).unwrap();
    let count = write_parts(10, b'^', 10, &format, &mut buffer);
    check_buffer(&rt, &buffer, count, b"A^1010");
    let binary = NumberFormatBuilder::binary();
    let count = write_parts(18446744073709551615, b'e', 4294967295, &binary, &mut buffer);
    let mut longest = [b'1'; 97];
    longest[64] = b'e';
    check_buffer(&rt, &buffer, count, &longest);
}

#[test]
fn keys_in_the_order_of_the_numbers(rt: HostRuntime) {
    check(&rt, comes_before(9, 10), true);
    check(&rt, comes_before(10, 9), false);
    check(&rt, comes_before(10, 10), false);
    check(&rt, comes_before(99, 18446744073709551615), true);
    check(&rt, text_comes_before(b"19", b"20"), true);
    check(&rt, text_comes_before(b"20", b"20"), false);
}

#[test]
fn numbers_in_hexadecimal(rt: HostRuntime) {
    let mut buffer = [7; 10];
    check_bytes(&rt, hexadecimal(0, &mut buffer), b"0x0");
    check_bytes(&rt, hexadecimal(48879, &mut buffer), b"0xBEEF");
    check_bytes(&rt, hexadecimal(4294967295, &mut buffer), b"0xFFFFFFFF");
}

#[test]
fn any_type_in_any_format(rt: HostRuntime) {
    let binary = NumberFormatBuilder::binary();
    let mut buffer = [7; LINE_SIZE];
    check_bytes(&rt, line_of_any(-5i64, &binary, &mut buffer), b"-101\n");
    check_bytes(&rt, line_of_any(6u8, &binary, &mut buffer), b"110\n");
    check(
        &rt,
        text_if_room(6u8, &binary, &Options::new(), &mut [7; 15]).is_none(),
        true,
    );
    check(
        &rt,
        text_if_room(6u8, &binary, &Options::new(), &mut [7; 16]).is_some(),
        true,
    );
}

// 4294967295 is 3 * 32^6 + 31 * (32^5 + .. + 1).
#[test]
fn keys_in_radix_32(rt: HostRuntime) {
    check(&rt, key(4294967295, &mut [7; 8]), "3VV_VVVV");
    check(&rt, key(32, &mut [7; 8]), "10");
}

#[test]
fn printed_numbers(rt: HostRuntime) {
    check(&rt, printed(-2147483648, &mut [7; 11]), "-2147483648");
    check(&rt, printed(0, &mut [7; 11]), "0");
}

#[test]
fn widths_of_amounts(rt: HostRuntime) {
    check(&rt, width_of_amount(0), 1);
    check(&rt, width_of_amount(999), 3);
    check(&rt, width_of_amount(1000), 5);
    check(&rt, width_of_amount(18446744073709551615), 26);
}

#[test]
fn text_of_a_constant(rt: HostRuntime) {
    check_bytes(&rt, million(&mut [7; 14]), b"+1,000,000");
    check_bytes(&rt, year_month(2026, 11, &mut [7; 7]), b"2026-11");
    check_bytes(&rt, year_month(33, 4, &mut [7; 7]), b"0033-04");
}

#[test]
fn times_of_day(rt: HostRuntime) {
    let mut time = [7; 6];
    check(&rt, write_time(425, &mut time), 6);
    check(&rt, time, *b"07:05Z");
    check(&rt, write_time(1439, &mut time), 6);
    check(&rt, time, *b"23:59Z");
}

// As Python's `tarfile` writes them for a file of 1000 bytes with the mode 0644, the owner 1000 and the group 100.
#[test]
fn fields_of_a_header(rt: HostRuntime) {
    let mut header = [7; 512];
    write_header("size.txt", 420, 1000, 100, 1000, 3913, &mut header);
    check_bytes(&rt, &header[..9], b"size.txt\x07");
    check_bytes(
        &rt,
        &header[99..136],
        b"\x070000644\x070001750\x070000144\x0700000001750\x07",
    );
    check_bytes(&rt, &header[147..155], b"\x07007511\x07");

    let mut header = [7; 512];
    let end = write_first_fields("size.txt", 420, 1000, 100, 1000, &mut header);
    check(&rt, end, 136);
    check_bytes(&rt, &header[..8], b"size.txt");
    check_bytes(&rt, &header[8..100], &[0; 92]);
    check_bytes(
        &rt,
        &header[100..137],
        b"0000644\x000001750\x000000144\x0000000001750\0\x07",
    );
}

#[test]
fn texts_in_an_arena(rt: HostRuntime) {
    let mut arena = [7; 60];
    let (first, rest) = keep_text(123, &mut arena);
    let (second, rest) = keep_text(-9223372036854775808, rest);
    check_bytes(&rt, first, b"123");
    check_bytes(&rt, second, b"-9223372036854775808");
    check(&rt, rest.len(), 37);
    check(&rt, have_same_kept_texts(-5, -5), true);
    check(&rt, have_same_kept_texts(-5, 5), false);
}

// The first example of the page of lexical_write_integer.
#[test]
fn a_first_use(rt: HostRuntime) {
    let mut buffer = [7u8; 20];
    let text = 1234u64.to_lexical(&mut buffer);
    check_bytes(&rt, text, b"1234");
    check_buffer(&rt, &buffer, 4, b"1234");

    let signed = NumberFormatBuilder::new()
        .required_mantissa_sign(true)
        .build_strict();
    let text = 127i8.to_lexical_with_options(&mut buffer, &signed, &Options::new());
    check_bytes(&rt, text, b"+127");

    let thousands = NumberFormatBuilder::new()
        .digit_grouping(3, b',')
        .build_strict();
    let mut buffer = [7u8; 20];
    let text = 1234567u32.to_lexical_with_options(&mut buffer, &thousands, &Options::new());
    check_bytes(&rt, text, b"1,234,567");
    check_buffer(&rt, &buffer, 9, b"1,234,567");
}
