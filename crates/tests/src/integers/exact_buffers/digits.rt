//! Checks each writer of digits, and each digit count, with unsigned numbers.

ghost use Rattle.std.specs.Prelude.{◌≡◌, ◌≤◌};
ghost use Rattle.lexical_num.specs.Format.{IsRadix};
ghost use Rattle.lexical_write_integer.specs.DigitCount.{digit_count};
ghost use Rattle.lexical_write_integer.specs.Text.{digits_need};

use crate::checks::check_equal;
use crate::integers::checks::{ROOM, check_written};
use lexical_num::{BUFFER_SIZE, LexicalInteger, UnsignedInteger};
use lexical_write_integer::compact::Compact;
use lexical_write_integer::decimal::{Decimal, DecimalCount};
use lexical_write_integer::digit_count::DigitCount;
use lexical_write_integer::laws::digit_count_is_least;
use lexical_write_integer::radix::Radix;
use lexical_write_integer::write::WriteInteger;
use std::process::Abort;

// Checks that the table writer and the compact writer write the digits to a buffer of `room` bytes.
fn check_table_and_compact_writers<U: Radix + Compact>(
    rt: &impl Abort,
    value: U,
    radix: u32,
    room: usize,
    digits: &[u8],
)
    requires radix { IsRadix radix }
    requires need { digit_count radix (U.magnitude value) ≤ room }
    requires room { room ≤ 140 }
{
    let row = (value.as_u64(), radix, room);
    let mut buffer = [7u8; ROOM];
    let count = value.radix(radix, &mut buffer[..room]);
    check_written(rt, row, count, &buffer, digits);
    let mut buffer = [7u8; ROOM];
    let count = value.compact(radix, &mut buffer[..room]);
    check_written(rt, row, count, &buffer, digits);
}

fn check_write_integer<U: WriteInteger>(
    rt: &impl Abort,
    value: U,
    radix: u32,
    room: usize,
    digits: &[u8],
)
    requires radix { IsRadix radix }
    requires need { digits_need radix (U.magnitude value) U.DECIMAL_WIDTH ≤ room }
    requires room { room ≤ 140 }
{
    let mut buffer = [7u8; ROOM];
    let count = value.write_integer(radix, &mut buffer[..room]);
    check_written(rt, (value.as_u64(), radix, room), count, &buffer, digits);
}

fn check_decimal<U: Decimal>(rt: &impl Abort, value: U, room: usize, digits: &[u8])
    requires need { U.DECIMAL_WIDTH ≤ room }
    requires room { room ≤ 140 }
{
    let mut buffer = [7u8; ROOM];
    let count = value.decimal(&mut buffer[..room]);
    check_equal(rt, value.as_u64(), value.decimal_count(), digits.len());
    check_written(rt, (value.as_u64(), 10, room), count, &buffer, digits);
}

// Checks the writers that require the decimal width of the type in radix 10, with a buffer of exactly the
// required length, and with three more bytes.
fn check_wide<U: WriteInteger>(rt: &impl Abort, value: U, radix: u32, count: usize, digits: &[u8])
    requires radix { IsRadix radix }
    requires count { count ≡ digit_count radix (U.magnitude value) }
    requires at_most_64 { count ≤ 64 }
    requires width { U.DECIMAL_WIDTH ≤ 20 }
{
    let required = if radix == 10 { U::DECIMAL_WIDTH } else { count };
    check_write_integer(rt, value, radix, required, digits);
    check_write_integer(rt, value, radix, required + 3, digits);
    if radix == 10 {
        check_decimal(rt, value, required, digits);
        check_decimal(rt, value, required + 3, digits);
    }
}

// Checks the digit counts and all writers of digits, with a buffer of exactly the required length, with three
// more bytes, and with the size that is enough for every number.
fn check_digits<U: Compact + DigitCount + WriteInteger>(
    rt: &impl Abort,
    value: U,
    radix: u32,
    digits: &[u8],
)
    requires radix { IsRadix radix }
    requires width { U.DECIMAL_WIDTH ≤ 20 }
{
    digit_count_is_least(radix, value.as_u64());
    let count = value.digit_count(radix);
    let counts = [count, value.slow_digit_count(radix)];
    check_equal(rt, (value.as_u64(), radix), counts, [digits.len(); 2]);
    check_table_and_compact_writers(rt, value, radix, count, digits);
    check_table_and_compact_writers(rt, value, radix, count + 3, digits);
    check_table_and_compact_writers(rt, value, radix, BUFFER_SIZE, digits);
    check_wide(rt, value, radix, count, digits);
}

// Checks the digits of the number in each unsigned type that has it.
pub(crate) fn check_types(rt: &impl Abort, number: u64, radix: u32, digits: &[u8])
    requires { IsRadix radix }
{
    check_digits(rt, number, radix, digits);
    if let Ok(number) = usize::try_from(number) {
        check_digits(rt, number, radix, digits);
    }
    if let Ok(number) = u32::try_from(number) {
        check_digits(rt, number, radix, digits);
    }
    if let Ok(number) = u16::try_from(number) {
        check_digits(rt, number, radix, digits);
    }
    if let Ok(number) = u8::try_from(number) {
        check_digits(rt, number, radix, digits);
    }
}
