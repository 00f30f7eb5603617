//! Parts in format strings, and texts in a `Vec` and a `String`.

use super::check;
use crate::csv_row::{Row, push_entries};
use crate::log_lines::{push_line, push_str_line, write_line};
use crate::printed::{amount_string, flags_in_column};
use lexical_parts::{
    Binary, Decimal, Fixed, Formatted, GroupedFixed, Hex, InRadix, Padded, Plus, Shown,
    TrimmedFixed,
};
use lexical_write_integer::NumberFormatBuilder;
use std::alloc::{Alloc, Global};
use std::fmt::Display;
use std::io::{self, Write};
use std::process::Abort;
use std::test::Fail;

// Checks what a format string with its parts, which `format_args!` joins, prints.
fn check_shown<D: Display + Drop>(rt: &impl Abort, alloc: Global, shown: D, text: &str) {
    let printed = format!(in alloc; "{}", shown).expect(rt, text);
    check(rt, printed.as_str(), text);
}

#[test]
#[should_panic(expected = "left: \"FF\"")]
fn a_wrong_text_in_a_format_string_fails(rt: HostRuntime) {
    check_shown(&rt, rt.alloc(), Hex(255u8), "FE");
}

// Parts of a caller, with the options of a `&str`.
#[test]
fn own_parts_in_format_strings(rt: HostRuntime) {
    check_shown(
        &rt,
        rt.alloc(),
        format_args!(
            "{}|{:>8}|{:.3}",
            Shown((Row(&[1, -2]), ";")),
            Shown(Row(&[30, 4])),
            Shown(Row(&[30, 4]))
        ),
        "1,-2;|    30,4|30,",
    );
}

// What Rust writes of the same texts: `format!("{:>8}", "FF")`, and so on.
#[test]
fn parts_in_format_strings(rt: HostRuntime) {
    check_shown(
        &rt,
        rt.alloc(),
        format_args!(
            "{}|{:>8}|{:*^7}|{:<4}|{:+05}|",
            Hex(255u32),
            Hex(255u32),
            Decimal(-12),
            Binary(5u8),
            InRadix::<36, _>(1000u64)
        ),
        "FF|      FF|**-12**|101 |+00RS|",
    );
}

#[test]
fn numbers_in_format_strings(rt: HostRuntime) {
    let thousands = NumberFormatBuilder::new()
        .digit_grouping(3, b',')
        .build_strict();
    let number = Formatted(-1234567, &thousands);
    check_shown(
        &rt,
        rt.alloc(),
        format_args!("{:12}|{:.3}", number, Decimal(98765u64)),
        "  -1,234,567|98765",
    );
}

#[test]
fn decimals_in_format_strings(rt: HostRuntime) {
    let thousands = NumberFormatBuilder::new()
        .digit_grouping(3, b',')
        .build_strict();
    check_shown(
        &rt,
        rt.alloc(),
        format_args!(
            "{}|{:8}|{:08}|{:+}|{:*<10}|{:6}|",
            Fixed(-5i8, 2),
            Fixed(1234u32, 3),
            Fixed(-1234, 2),
            Fixed(7u64, 0),
            GroupedFixed(-123456, 2, &thousands),
            TrimmedFixed(-1500, 3)
        ),
        "-0.05|   1.234|-0012.34|+7|-1,234.56*|  -1.5|",
    );
}

#[test]
fn padded_numbers_in_format_strings(rt: HostRuntime) {
    check_shown(
        &rt,
        rt.alloc(),
        format_args!(
            "{}|{:6}|{:<5}|{:06}|{:+}|{}",
            Padded(7u8, 3),
            Padded(7u32, 3),
            Padded(42u64, 2),
            Padded(7usize, 3),
            Padded(0u16, 1),
            Padded(65535u16, 8)
        ),
        "007|   007|42   |000007|+0|00065535",
    );
}

#[test]
fn signs_in_format_strings(rt: HostRuntime) {
    check_shown(
        &rt,
        rt.alloc(),
        format_args!("{}|{:>6}|{}", Plus(42u8), Plus(0i16), Plus(-42)),
        "+42|    +0|-42",
    );
}

// The longest texts, of which no clause says that `fmt` has room for them.
#[test]
fn longest_texts_in_format_strings(rt: HostRuntime) {
    let largest = Binary(18446744073709551615u64);
    check_shown(
        &rt,
        rt.alloc(),
        format_args!("{}|{}", largest, Hex(18446744073709551615u64)),
        "1111111111111111111111111111111111111111111111111111111111111111|FFFFFFFFFFFFFFFF",
    );
}

#[test]
fn longest_text_of_a_format(rt: HostRuntime) -> Result<(), Fail> {
    let alloc = rt.alloc();
    let ones = NumberFormatBuilder::new()
        .mantissa_radix(2)
        .required_mantissa_sign(true)
        .digit_grouping(1, b'.')
        .build_strict();
    let text = format!(in alloc; "{}", Formatted(-9223372036854775808i64, &ones))?;
    check(&rt, text.len(), 128);
    check(&rt, text.as_bytes().starts_with(b"-1.0.0.0."), true);
    check(&rt, text.as_bytes().ends_with(b".0.0.0"), true);
    Ok(())
}

#[test]
fn styles_of_numbers(rt: HostRuntime) {
    check_shown(
        &rt,
        rt.alloc(),
        format_args!("{:08}|{:+}|{:#}|", Decimal(-5), Decimal(5u8), Hex(5u8)),
        "-0000005|+5|5|",
    );
    check_shown(
        &rt,
        rt.alloc(),
        format_args!("{:05}|{:<4}|{:+}", Plus(5u8), Plus(5u8), Plus(5u8)),
        "+0005|+5  |+5",
    );
}

#[test]
fn strings_of_parts(rt: HostRuntime) -> Result<(), Fail> {
    let alloc = rt.alloc();
    check(&rt, flags_in_column(alloc, 0xBEEF)?.as_str(), "0x****BEEF");
    let thousands = NumberFormatBuilder::new()
        .digit_grouping(3, b',')
        .build_strict();
    let amount = amount_string(alloc, -1234567, &thousands)?;
    check(&rt, amount.as_str(), "-1,234,567");
    println!(rt; "{}", Hex(0xC0DEu32))?;
    Ok(())
}

#[test]
fn lines_of_a_log(rt: HostRuntime) -> Result<(), Fail> {
    let mut log = Vec::new(rt.alloc());
    push_line(&mut log, 4294967295, 65535)?;
    push_line(&mut log, 0, 0)?;
    write_line(&mut log, 12, 255)?;
    check(
        &rt,
        log.as_slice(),
        b"4294967295 0xFFFF\n0 0x0\n12 0xFF\n".as_slice(),
    );
    Ok(())
}

#[test]
fn entries_in_a_vector(rt: HostRuntime) -> Result<(), Fail> {
    let mut entries = Vec::new(rt.alloc());
    push_entries(&mut entries, &[])?;
    push_entries(&mut entries, &[5, -6])?;
    push_entries(&mut entries, &[-9223372036854775808])?;
    check(
        &rt,
        entries.as_slice(),
        b"5;-6;-9223372036854775808;".as_slice(),
    );
    Ok(())
}

#[test]
fn lines_in_a_string(rt: HostRuntime) -> Result<(), Fail> {
    let mut log = String::new(rt.alloc());
    push_str_line(&mut log, 12, 255)?;
    push_str_line(&mut log, 7, 16)?;
    check(&rt, log.as_str(), "12 0xFF\n7 0x10\n");
    Ok(())
}
