//! The functions that write a number. Each returns the length of the text, or returns 0 and leaves the
//! buffer unchanged if the format is invalid or the text does not fit.

ghost use Rattle.std.specs.Prelude.{◌≡◌, ◌≢◌, ◌≤◌, pos};
ghost use Rattle.lexical_c.specs.Buffer.{WritesOrRefuses};
ghost use Rattle.lexical_c.specs.Format.{HasOnlyRadixAndCase};

use crate::decimal::write_decimal;
use crate::format::CFormat;
use crate::general::write_general;
use crate::hexadecimal::write_hexadecimal;
use crate::integer::CInteger;
use crate::plain::{fitting_format, has_only_radix_and_case, set_lowercase_bit, write_plain};

// Writes a number to the buffer, and returns the text's length, or 0 if the format is invalid or it does not fit.
fn write<T: CInteger>(value: T, format: &CFormat, buffer: &mut [u8]) -> usize
    ensures { WritesOrRefuses (T.number value) format.now buffer.old buffer.new result }
{
    if has_only_radix_and_case(format) & (format.lowercase == 0) {
        write_caseless(value, format, buffer)
    } else {
        write_other(value, format, buffer)
    }
}

// Does what `write` does in any other format.
#[cold]
fn write_other<T: CInteger>(value: T, format: &CFormat, buffer: &mut [u8]) -> usize
    requires { HasOnlyRadixAndCase format.now → format.now.lowercase ≢ 0 }
    ensures { WritesOrRefuses (T.number value) format.now buffer.old buffer.new result }
{
    if !has_only_radix_and_case(format) {
        write_general(value.widen(), format, buffer)
    } else if format.radix <= 10 {
        write_caseless(value, format, buffer)
    } else if format.radix == 16 {
        write_hexadecimal(value.widen(), buffer)
    } else {
        write_in_lowercase(value, format, buffer)
    }
}

// Does what `write` does in a format that has only a radix, or at most 10 as the radix and a case: then the
// text is the same in lowercase. Radix 10 is apart, so a signed number in decimal takes no jump by its radix.
fn write_caseless<T: CInteger>(value: T, format: &CFormat, buffer: &mut [u8]) -> usize
    requires only { HasOnlyRadixAndCase format.now }
    requires case { format.now.lowercase ≢ 0 → format.now.radix ≤ 10 }
    ensures { WritesOrRefuses (T.number value) format.now buffer.old buffer.new result }
{
    if format.radix == 10 {
        write_decimal(value, buffer)
    } else {
        write_caseless_in_radix(value, format, buffer)
    }
}

// Does what `write_caseless` does, under the same conditions.
fn write_caseless_in_radix<T: CInteger>(value: T, format: &CFormat, buffer: &mut [u8]) -> usize
    requires only { HasOnlyRadixAndCase format.now }
    requires case { format.now.lowercase ≢ 0 → format.now.radix ≤ 10 }
    ensures { WritesOrRefuses (T.number value) format.now buffer.old buffer.new result }
{
    value.in_range();
    match fitting_format::<T>(format.radix, buffer.len()) {
        Some(plain) => write_plain(value, &plain, buffer),
        None => write_general(value.widen(), format, buffer),
    }
}

// Does what `write` does in a format that has only a radix and lowercase. `write_in_case` would test the case again.
fn write_in_lowercase<T: CInteger>(value: T, format: &CFormat, buffer: &mut [u8]) -> usize
    requires only { HasOnlyRadixAndCase format.now }
    requires lowercase { format.now.lowercase ≢ 0 }
    ensures { WritesOrRefuses (T.number value) format.now buffer.old buffer.new result }
{
    value.in_range();
    match fitting_format::<T>(format.radix, buffer.len()) {
        Some(plain) => {
            let count = write_plain(value, &plain, buffer);
            set_lowercase_bit(&mut buffer[..count]);
            count
        }
        None => write_general(value.widen(), format, buffer),
    }
}

/// Writes a `uint8_t` to the buffer, and returns the text's length, or 0 if the format is invalid or it does not fit.
#[unsafe(no_mangle)]
pub extern "C" fn lexical_write_u8(value: u8, format: &CFormat, buffer: &mut [u8]) -> usize
    ensures { WritesOrRefuses (pos value) format.now buffer.old buffer.new result }
{
    write::<u8>(value, format, buffer)
}

/// Writes a `uint16_t` to the buffer, and returns the text's length, or 0 if the format is invalid or it does not fit.
#[unsafe(no_mangle)]
pub extern "C" fn lexical_write_u16(value: u16, format: &CFormat, buffer: &mut [u8]) -> usize
    ensures { WritesOrRefuses (pos value) format.now buffer.old buffer.new result }
{
    write::<u16>(value, format, buffer)
}

/// Writes a `uint32_t` to the buffer, and returns the text's length, or 0 if the format is invalid or it does not fit.
#[unsafe(no_mangle)]
pub extern "C" fn lexical_write_u32(value: u32, format: &CFormat, buffer: &mut [u8]) -> usize
    ensures { WritesOrRefuses (pos value) format.now buffer.old buffer.new result }
{
    write::<u32>(value, format, buffer)
}

/// Writes a `uint64_t` to the buffer, and returns the text's length, or 0 if the format is invalid or it does not fit.
#[unsafe(no_mangle)]
pub extern "C" fn lexical_write_u64(value: u64, format: &CFormat, buffer: &mut [u8]) -> usize
    ensures { WritesOrRefuses (pos value) format.now buffer.old buffer.new result }
{
    write::<u64>(value, format, buffer)
}

/// Writes a `size_t` to the buffer, and returns the text's length, or 0 if the format is invalid or it does not fit.
#[unsafe(no_mangle)]
pub extern "C" fn lexical_write_size(value: usize, format: &CFormat, buffer: &mut [u8]) -> usize
    ensures { WritesOrRefuses (pos value) format.now buffer.old buffer.new result }
{
    write::<u64>(value as u64, format, buffer)
}

/// Writes an `int8_t` to the buffer, and returns the text's length, or 0 if the format is invalid or it does not fit.
#[unsafe(no_mangle)]
pub extern "C" fn lexical_write_i8(value: i8, format: &CFormat, buffer: &mut [u8]) -> usize
    ensures { WritesOrRefuses value format.now buffer.old buffer.new result }
{
    write::<i8>(value, format, buffer)
}

/// Writes an `int16_t` to the buffer, and returns the text's length, or 0 if the format is invalid or it does not fit.
#[unsafe(no_mangle)]
pub extern "C" fn lexical_write_i16(value: i16, format: &CFormat, buffer: &mut [u8]) -> usize
    ensures { WritesOrRefuses value format.now buffer.old buffer.new result }
{
    write::<i16>(value, format, buffer)
}

/// Writes an `int32_t` to the buffer, and returns the text's length, or 0 if the format is invalid or it does not fit.
#[unsafe(no_mangle)]
pub extern "C" fn lexical_write_i32(value: i32, format: &CFormat, buffer: &mut [u8]) -> usize
    ensures { WritesOrRefuses value format.now buffer.old buffer.new result }
{
    write::<i32>(value, format, buffer)
}

/// Writes an `int64_t` to the buffer, and returns the text's length, or 0 if the format is invalid or it does not fit.
#[unsafe(no_mangle)]
pub extern "C" fn lexical_write_i64(value: i64, format: &CFormat, buffer: &mut [u8]) -> usize
    ensures { WritesOrRefuses value format.now buffer.old buffer.new result }
{
    write::<i64>(value, format, buffer)
}
