//! Tests of texts at an index of a buffer, of texts after their length, and of numbers of several words.

use super::{check, check_buffer, check_bytes, check_part};
use crate::accounted::Accounted;
use crate::addresses::address;
use crate::alternatives::{write_both, write_content_range, write_joined};
use crate::dump::dump;
use crate::fixed_text::number_and_mask;
use crate::limb::Limb;
use crate::limbs::{limbs, write_digest_of_words, write_limbs, write_wide, write_wide_hexadecimal};
use crate::line_block::LineBlock;
use crate::packet::write_want;
use crate::read_back;
use crate::slots::write_slot;
use crate::time_of_day::hour_and_minute;
use crate::timed::timed_identifier;
use lexical_parts::{Decimal, Joined, Part, write_with_length};

#[test]
fn texts_at_an_index(rt: HostRuntime) {
    let mut table = [b'.'; 18];
    write_slot(42, 1, &mut table);
    check_bytes(&rt, &table, b"......000042......");
    check(&rt, "ab".write_at(16, &mut table), 18);
    check(&rt, "c".write_at(0, &mut table), 1);
    check_bytes(&rt, &table, b"c.....000042....ab");
    let mut block = LineBlock {
        bytes: [7; 256],
        used: 0,
    };
    block.add(7, 0xAB);
    block.add(8, 0);
    check(&rt, block.used, 13);
    check_bytes(&rt, &block.bytes[..14], b"7 0xAB\n8 0x0\n\x07");
    block.used = 239;
    block.add(9, 1);
    check_bytes(&rt, &block.bytes[..14], b"9 0x1\n\n8 0x0\n\x07");
}

#[test]
fn texts_after_their_length(rt: HostRuntime) {
    let mut buffer = [7; 12];
    check(&rt, write_with_length("done\n", 16, 4, 4, &mut buffer), 5);
    check_buffer(&rt, &buffer, 9, b"0009done\n");
    let mut line = [7; 50];
    let count = write_want(&[0xA1; 20], &mut line);
    check_buffer(
        &rt,
        &line,
        count,
        b"0032want a1a1a1a1a1a1a1a1a1a1a1a1a1a1a1a1a1a1a1a1\n",
    );
}

#[test]
fn numbers_of_several_words(rt: HostRuntime) {
    let mut buffer = [7; 39];
    let count = write_wide(1, 5, &mut buffer);
    check_buffer(&rt, &buffer, count, b"10000000000000000005");
    let mut buffer = [7; 32];
    let count = write_wide_hexadecimal(0x12, 0xFF, &mut buffer);
    check_buffer(&rt, &buffer, count, b"1200000000000000FF");
    let mut buffer = [7; 32];
    let count = write_digest_of_words(0x12, 0xFF, &mut buffer);
    check_buffer(&rt, &buffer, count, b"000000000000001200000000000000FF");
    let rest = [Limb { value: 6 }, Limb { value: 78 }];
    let mut buffer = [7; 58];
    let count = write_limbs(5, &rest, &mut buffer);
    check_buffer(
        &rt,
        &buffer,
        count,
        b"500000000000000000060000000000000000078",
    );
    check_bytes(
        &rt,
        limbs(&rest, 1, &mut [7; 38]),
        b"00000000000000000060000000000000000078",
    );
}

#[test]
fn parts_of_a_caller_and_by_reference(rt: HostRuntime) {
    check_part(&rt, Accounted(-1234), b"(12.34)");
    check_part(&rt, Accounted(5), b"0.05");
    check_part(&rt, Accounted(i64::MIN), b"(92233720368547758.08)");
    check_part(&rt, Joined(&[&"a", &"bc"], "-"), b"a-bc");
    let mut buffer = [7; 9];
    let count = write_both(&Decimal(-1i8), &Decimal(2i8), &mut buffer);
    check_buffer(&rt, &buffer, count, b"-1,2");
    let count = write_joined(&Decimal(-1i8), &Decimal(23i8), &mut buffer);
    check_buffer(&rt, &buffer, count, b"-1,23");
    let mut buffer = [7; 85];
    let count = write_content_range(0, 9, None, &mut buffer);
    check_buffer(&rt, &buffer, count, b"Content-Range: bytes 0-9/*\r\n");
}

#[test]
fn texts_that_tell_their_numbers(rt: HostRuntime) {
    check_bytes(&rt, hour_and_minute(7, 5, &mut [7; 5]), b"07:05");
    check_bytes(&rt, address(10, 80, &mut [7; 16]), b"10:80");
    check_bytes(
        &rt,
        timed_identifier(36, 35, &mut [7; 13]),
        b"000000010000Z",
    );
    check_bytes(&rt, number_and_mask(7, 0xFF, &mut [7; 17]), b"7 0xFF");
    check_bytes(&rt, &dump(&[0xA1; 16], 3, &mut [7; 47])[9..14], b"A1 A1");
}

#[test]
fn numbers_that_are_read_back(rt: HostRuntime) {
    check(&rt, read_back::in_decimal(i32::MIN).ok(), Some(i32::MIN));
    check(&rt, read_back::in_radix_36(u64::MAX).ok(), Some(u64::MAX));
    check(&rt, read_back::in_lowercase(-0x7F).ok(), Some(-0x7F));
    check(&rt, read_back::in_eight_digits(42).ok(), Some(42));
    check(&rt, read_back::in_five_characters(-42).ok(), Some(-42));
    check(&rt, read_back::of_any_type(i8::MIN).ok(), Some(i8::MIN));
    check(&rt, read_back::of_one_type(u64::MAX).ok(), Some(u64::MAX));
}
