//! Tests of the texts of numbers of all types, in several formats.

mod groups;
mod radices;
mod signs;

ghost use Rattle.std.specs.Prelude.{◌≡◌, ◌≤◌};
ghost use Rattle.lexical_num.specs.Format.{standard};
ghost use Rattle.lexical_write_integer.specs.Text.{need};

use crate::checks::check_equal;
use crate::integers::checks::{ROOM, check_buffer, valid};
use crate::integers::numbers::NUMBERS;
use crate::integers::rows::read;
use lexical_num::WriteOptions;
use lexical_write_integer::format::STANDARD;
use lexical_write_integer::laws::size_suffices;
use lexical_write_integer::{
    NumberFormat, NumberFormatBuilder, Options, ToLexical, ToLexicalWithOptions,
};
use std::fmt::Debug;
use std::process::Abort;
use std::str::FromStr;

// Checks the text in the standard format, written to a buffer of `room` bytes.
fn check_standard<T: ToLexical + Debug + Drop>(rt: &impl Abort, value: T, room: usize, text: &[u8])
    requires need { need (T.number value) T.DECIMAL_WIDTH standard ≤ room }
    requires room { room ≤ 140 }
{
    let mut buffer = [7u8; ROOM];
    let written = value.to_lexical(&mut buffer[..room]);
    check_equal(rt, (value, room), &*written, text);
    check_buffer(rt, (value, room), &buffer, text);
}

// Checks the text in a format, written to a buffer of `room` bytes.
fn check_in<T: ToLexicalWithOptions + Debug + Drop>(
    rt: &impl Abort,
    value: T,
    format: &NumberFormat,
    options: &T::Options,
    room: usize,
    text: &[u8],
)
    requires need { need (T.number value) T.DECIMAL_WIDTH format.now ≤ room }
    requires room { room ≤ 140 }
{
    let row = (value, format.mantissa_radix(), room);
    let mut buffer = [7u8; ROOM];
    let written = value.to_lexical_with_options(&mut buffer[..room], format, options);
    check_equal(rt, row, &*written, text);
    check_buffer(rt, row, &buffer, text);
}

// Checks the text in a format, written to a buffer of exactly the required length, and to one with three
// more bytes.
pub(crate) fn check_required<T: ToLexicalWithOptions + Debug + Drop>(
    rt: &impl Abort,
    value: T,
    format: &NumberFormat,
    options: &T::Options,
    text: &[u8],
) {
    let count = value.required_len(format);
    check_in(rt, value, format, options, count, text);
    check_in(rt, value, format, options, count + 3, text);
}

// Returns the size, which has to be at most 128.
fn at_most_128(rt: &impl Abort, size: usize) -> usize
    ensures same { result ≡ size }
    ensures most { result ≤ 128 }
{
    assert!(rt; size <= 128, "the size {size}");
    size
}

// Checks the text in a format, written to buffers of the required length, of the size of the type in the
// format, and of 128 bytes.
fn check<T: ToLexicalWithOptions + Debug + Drop>(
    rt: &impl Abort,
    value: T,
    format: &NumberFormat,
    options: &T::Options,
    text: &[u8],
) {
    check_required(rt, value, format, options, text);
    size_suffices(value, format);
    let size = options.buffer_size::<T>(format);
    check_in(rt, value, format, options, at_most_128(rt, size), text);
    check_in(rt, value, format, options, 128, text);
}

// Checks a line: a radix, a number, the required length of its text, the size of its type, and its text.
fn check_line<T: ToLexicalWithOptions + FromStr + Debug + Drop>(
    rt: &impl Abort,
    builder: NumberFormatBuilder,
    options: &T::Options,
    line: &str,
)
where
    T::Err: Drop,
{
    let (radix, rest) = read::<u8>(rt, line);
    let (value, rest) = read::<T>(rt, rest);
    let (required, rest) = read::<usize>(rt, rest);
    let (size, text) = read::<usize>(rt, rest);
    let format = valid(rt, builder.radix(radix));
    check_equal(rt, line, value.required_len(&format), required);
    check_equal(rt, line, options.buffer_size::<T>(&format), size);
    check(rt, value, &format, options, text.as_bytes());
}

// Checks lines of numbers of one type. Their radix is that of the line, and the other parts of their format
// are those of the builder.
fn check_lines<T: ToLexicalWithOptions + FromStr + Debug + Drop>(
    rt: &impl Abort,
    builder: NumberFormatBuilder,
    options: &T::Options,
    lines: &str,
)
where
    T::Err: Drop,
{
    for line in lines.lines() {
        check_line::<T>(rt, builder, options, line);
    }
}

// Checks a number in the standard format, with and without options, and returns whether the type has it.
fn try_number<T: ToLexicalWithOptions + FromStr + Debug + Drop>(
    rt: &impl Abort,
    options: &T::Options,
    text: &str,
) -> bool
where
    T::Err: Drop,
{
    let Ok(value) = text.parse::<T>() else {
        return false;
    };
    let room = value.required_len(&STANDARD);
    check_standard(rt, value, room, text.as_bytes());
    check(rt, value, &STANDARD, options, text.as_bytes());
    true
}

// Checks each of the numbers that the type has, and how many of them it has.
fn check_numbers<T: ToLexicalWithOptions + FromStr + Debug + Drop>(
    rt: &impl Abort,
    options: &T::Options,
    count: u32,
)
where
    T::Err: Drop,
{
    let mut found = 0u32;
    for text in NUMBERS.split(' ') {
        found = found.wrapping_add(u32::from(try_number::<T>(rt, options, text)));
    }
    check_equal(rt, T::BITS, found, count);
}

#[test]
fn decimal_numbers(rt: HostRuntime) {
    let options = Options::new();
    let of_sizes = if usize::BITS == 64 {
        [269, 266]
    } else {
        [132, 132]
    };
    check_numbers::<u8>(&rt, &options, 29);
    check_numbers::<u16>(&rt, &options, 63);
    check_numbers::<u32>(&rt, &options, 132);
    check_numbers::<u64>(&rt, &options, 269);
    check_numbers::<usize>(&rt, &options, of_sizes[0]);
    check_numbers::<i8>(&rt, &options, 27);
    check_numbers::<i16>(&rt, &options, 62);
    check_numbers::<i32>(&rt, &options, 132);
    check_numbers::<i64>(&rt, &options, 266);
    check_numbers::<isize>(&rt, &options, of_sizes[1]);
}
