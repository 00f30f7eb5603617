//! Tests of parts that are joined, and of callers that join parts.

use super::{check, check_buffer, check_part, check_room, check_str};
use crate::csv_row::{Row, try_write_rows};
use crate::digest::write_digest;
use crate::digit_pair::digit_pair;
use crate::dump_line::{characters, write_dump_line, write_hexdump_line};
use crate::ipv6::write_address;
use lexical_parts::{Fixed, HexBytes, Joined, Left, Padded, Part, Right};

#[test]
fn parts_of_each_kind_are_joined(rt: HostRuntime) {
    check_part(&rt, Joined(&[-1, 20], ", "), b"-1, 20");
    let time = Joined(&[Padded(7u8, 2), Padded(5, 2), Padded(9, 2)], ":");
    check_str(&rt, time, &mut [7; 8], "07:05:09");
    let cells = Joined(
        &[Right(Fixed(-5, 2), 7, b' '), Right(Fixed(1200, 2), 7, b' ')],
        "|",
    );
    check_str(&rt, cells, &mut [7; 60], "  -0.05|  12.00");
}

#[test]
fn joined_parts_are_joined(rt: HostRuntime) {
    let rows = [
        Joined(&[1u8, 2], ","),
        Joined(&[], ","),
        Joined(&[255], ","),
    ];
    check_str(&rt, Joined(&rows, ";"), &mut [7; 12], "1,2;;255");
    check_str(&rt, Joined(&["a", "", "°C"], "--"), &mut [7; 8], "a----°C");
}

#[test]
fn rooms_of_joined_parts(rt: HostRuntime) {
    check_room(&rt, Joined::<u8>(&[], ", "), 0);
    check_room(&rt, Joined(&[-5i64], ", "), 20);
    check_room(&rt, Joined(&[1i64, 2, 3], ", "), 64);
    check_room(&rt, Joined(&["a", "bcd", ""], ", "), 8);
    let wide = Left("", usize::MAX, b' ');
    check_room(&rt, Joined(&[wide, wide], ", "), usize::MAX);
    check_room(&rt, HexBytes(&[1, 2, 3], ""), 6);
    check_room(&rt, HexBytes(&[1, 2, 3], ", "), 10);
    check_room(&rt, HexBytes(&[], ", "), 0);
}

// The text of the largest number of each type is known from the language, and so is that of the smallest.
#[test]
fn integers_are_parts(rt: HostRuntime) {
    let mut buffer = [7; 14];
    let count = ("n=", 5, ".").write_to(&mut buffer);
    check_buffer(&rt, &buffer, count, b"n=5.");
    let unsigned = (255u8, " ", 65535u16, " ", 4294967295u32);
    check_str(&rt, unsigned, &mut [7; 20], "255 65535 4294967295");
    let signed = (-128i8, " ", -32768i16, " ", -2147483648i32);
    check_str(&rt, signed, &mut [7; 23], "-128 -32768 -2147483648");
    let largest = "18446744073709551615 -9223372036854775808";
    let wide = (18446744073709551615u64, " ", -9223372036854775808i64);
    check_str(&rt, wide, &mut [7; 41], largest);
    if usize::BITS == 64 {
        check_str(&rt, (usize::MAX, " ", isize::MIN), &mut [7; 41], largest);
    }
}

#[test]
fn rooms_of_integers(rt: HostRuntime) {
    check_room(&rt, 1u8, 3);
    check_room(&rt, 1u16, 5);
    check_room(&rt, 1u32, 10);
    check_room(&rt, 1u64, 20);
    check_room(&rt, 1usize, 20);
    check_room(&rt, 1i8, 4);
    check_room(&rt, 1i16, 6);
    check_room(&rt, 1i32, 11);
    check_room(&rt, 1i64, 20);
    check_room(&rt, 1isize, 20);
}

#[test]
fn addresses(rt: HostRuntime) {
    let mut buffer = [7; 39];
    let groups = [0x2001, 0x0DB8, 0, 0, 8, 0x800, 0x200C, 0x417A];
    let count = write_address(&groups, &mut buffer);
    check_buffer(&rt, &buffer, count, b"2001:db8:0:0:8:800:200c:417a");
    let mut buffer = [7; 39];
    let count = write_address(&[0, 0, 0, 0, 0, 0, 0, 1], &mut buffer);
    check_buffer(&rt, &buffer, count, b"0:0:0:0:0:0:0:1");
    let count = write_address(&[0xFFFF; 8], &mut buffer);
    check_buffer(
        &rt,
        &buffer,
        count,
        b"ffff:ffff:ffff:ffff:ffff:ffff:ffff:ffff",
    );
}

// The SHA-256 of no bytes.
const EMPTY_SHA_256: [u8; 32] = [
    0xE3, 0xB0, 0xC4, 0x42, 0x98, 0xFC, 0x1C, 0x14, 0x9A, 0xFB, 0xF4, 0xC8, 0x99, 0x6F, 0xB9, 0x24,
    0x27, 0xAE, 0x41, 0xE4, 0x64, 0x9B, 0x93, 0x4C, 0xA4, 0x95, 0x99, 0x1B, 0x78, 0x52, 0xB8, 0x55,
];

#[test]
fn digests(rt: HostRuntime) {
    let mut buffer = [7; 64];
    let count = write_digest(&EMPTY_SHA_256, &mut buffer);
    check_buffer(
        &rt,
        &buffer,
        count,
        b"e3b0c44298fc1c149afbf4c8996fb92427ae41e4649b934ca495991b7852b855",
    );
    check_str(&rt, HexBytes(&[0x0F, 0xA0], ""), &mut [7; 4], "0FA0");
    check_str(&rt, HexBytes(&[], ""), &mut [7; 4], "");
    let address = [0x00, 0x1B, 0x44, 0x11, 0x3A, 0xB7];
    check_str(
        &rt,
        HexBytes(&address, ":"),
        &mut [7; 17],
        "00:1B:44:11:3A:B7",
    );
    check_str(&rt, HexBytes(&[255], ":"), &mut [7; 2], "FF");
}

#[test]
fn digits_of_a_byte(rt: HostRuntime) {
    check(&rt, digit_pair(0), *b"00");
    check(&rt, digit_pair(0x9F), *b"9F");
    check(&rt, digit_pair(255), *b"FF");
}

#[test]
fn lines_of_a_dump(rt: HostRuntime) {
    let mut buffer = [7; 34];
    let bytes = [0x01, 0x23, 0xAB, 0xFF, 0, 0x10, 0x9C, 0xDE];
    let count = write_dump_line(0xC0DE, &bytes, &mut buffer);
    check_buffer(&rt, &buffer, count, b"0000C0DE: 01 23 AB FF 00 10 9C DE\n");
    // As `hexdump -C` prints these bytes, but with its digits in uppercase.
    let mut buffer = [7; 79];
    let bytes = *b"Hello, world!\n\x00\xFF";
    let count = write_hexdump_line(16, &bytes, &characters(&bytes), &mut buffer);
    let text = b"00000010  48 65 6C 6C 6F 2C 20 77  6F 72 6C 64 21 0A 00 FF  |Hello, world!...|\n";
    check_buffer(&rt, &buffer, count, text);
}

#[test]
fn rows_of_rows(rt: HostRuntime) {
    let mut buffer = [7; 64];
    let rows = [Row(&[1, -2]), Row(&[]), Row(&[3])];
    check(&rt, try_write_rows(&rows, &mut buffer), Some(8));
    check_buffer(&rt, &buffer, 8, b"1,-2\n\n3\n");
    check(&rt, try_write_rows(&rows, &mut [7; 63]), Some(8));
    check(&rt, try_write_rows(&rows, &mut [7; 8]), Some(8));
    check(&rt, try_write_rows(&rows, &mut [7; 7]), None);
}
