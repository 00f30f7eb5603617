//! The longest texts of parts in columns of each width, also of those in which they just fit, or do not.

use super::check;
use lexical_parts::{Binary, Decimal, Formatted, Hex, Plus};
use lexical_write_integer::format::STANDARD;
use lexical_write_integer::radix::Radix;
use lexical_write_integer::{NumberFormatBuilder, ToLexicalWithOptions};
// The second name is that of an allocator which is passed on: without the runtime of Rattle there is no other.
use std::alloc::{Global, Global as Allocator};
use std::fmt::Display;
use std::process::Abort;

// Checks what a part prints in a column of each width up to three more than its text. With an alignment this is what
// both an integer and a string print; without one a part is padded at the left, like an integer.
fn check_widths<D: Display>(rt: &impl Abort, alloc: Global, part: &D, text: &str) {
    let last = text.len().saturating_add(3);
    for width in 0..=last {
        let shown = format!(in alloc; "{part:*<width$}|{part:*^width$}").expect(rt, text);
        let printed = format!(in alloc; "{text:*<width$}|{text:*^width$}").expect(rt, text);
        check(rt, shown.as_str(), printed.as_str());
        let shown = format!(in alloc; "{part:*>width$}|{part:width$}").expect(rt, text);
        let printed = format!(in alloc; "{text:*>width$}|{text:>width$}").expect(rt, text);
        check(rt, shown.as_str(), printed.as_str());
    }
}

// Does so for a number in decimal, whose text the standard library prints.
fn check_decimal<T: ToLexicalWithOptions + Display>(rt: &impl Abort, alloc: Allocator, number: T) {
    let text = format!(in alloc; "{number}").expect(rt, "a number");
    check_widths(rt, alloc, &Decimal(number), text.as_str());
    check_widths(rt, alloc, &Formatted(number, &STANDARD), text.as_str());
    let text = format!(in alloc; "{number:+}").expect(rt, "a number with a sign");
    check_widths(rt, alloc, &Plus(number), text.as_str());
}

// Does so for a number in the radices 16 and 2, whose value is also passed.
fn check_digits<T: Radix>(rt: &impl Abort, alloc: Allocator, number: T, value: u64) {
    let text = format!(in alloc; "{value:X}").expect(rt, "a number in radix 16");
    check_widths(rt, alloc, &Hex(number), text.as_str());
    let text = format!(in alloc; "{value:b}").expect(rt, "a number in radix 2");
    check_widths(rt, alloc, &Binary(number), text.as_str());
}

#[test]
fn unsigned_numbers_at_each_width(rt: HostRuntime) {
    let alloc = rt.alloc();
    check_decimal(&rt, alloc, u8::MAX);
    check_decimal(&rt, alloc, u16::MAX);
    check_decimal(&rt, alloc, u32::MAX);
    check_decimal(&rt, alloc, u64::MAX);
    check_decimal(&rt, alloc, usize::MAX);
}

#[test]
fn signed_numbers_at_each_width(rt: HostRuntime) {
    let alloc = rt.alloc();
    check_decimal(&rt, alloc, i8::MIN);
    check_decimal(&rt, alloc, i16::MIN);
    check_decimal(&rt, alloc, i32::MIN);
    check_decimal(&rt, alloc, i64::MIN);
    check_decimal(&rt, alloc, isize::MIN);
    // With a required sign these are as long.
    check_decimal(&rt, alloc, i8::MAX);
    check_decimal(&rt, alloc, i64::MAX);
}

#[test]
fn digits_at_each_width(rt: HostRuntime) {
    let alloc = rt.alloc();
    check_digits(&rt, alloc, u8::MAX, 0xFF);
    check_digits(&rt, alloc, u16::MAX, 0xFFFF);
    check_digits(&rt, alloc, u32::MAX, 0xFFFF_FFFF);
    check_digits(&rt, alloc, u64::MAX, u64::MAX);
    check_digits(&rt, alloc, usize::MAX, usize::MAX as u64);
}

#[test]
fn longest_text_of_a_format_at_each_width(rt: HostRuntime) {
    let bits = NumberFormatBuilder::new()
        .mantissa_radix(2)
        .required_mantissa_sign(true)
        .digit_grouping(1, b'.')
        .build_strict();
    let text = "-1.0.0.0.0.0.0.0";
    check_widths(&rt, rt.alloc(), &Formatted(i8::MIN, &bits), text);
}
