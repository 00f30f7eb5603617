//! Several numbers with a separator between them.

ghost use Rattle.std.specs.Prelude.{◌+◌, ◌*◌, ◌≤◌, length};
ghost use Rattle.lexical_num.specs.Size.{size_in};

use crate::checks::check_equal;
use crate::lines::checks::{UNCHANGED, check_buffer};
use lexical_lines::{join, write_joined};
use lexical_num::format::STANDARD;
use lexical_num::{NumberFormat, NumberFormatBuilder};
use lexical_write_integer::{Options, ToLexicalWithOptions};
use std::process::Abort;

// Borrows the joined values from a buffer of `room` bytes, and overwrites them. The front of the buffer is then
// overwritten, and the bytes after it are unchanged.
fn check_joined<T: ToLexicalWithOptions>(
    rt: &impl Abort,
    values: &[T],
    separator: u8,
    room: usize,
    format: &NumberFormat,
    options: &T::Options,
    text: &str,
)
    requires need { length values.now
        * (size_in T.FORMATTED_SIZE T.FORMATTED_SIZE_DECIMAL format.now + 1) ≤ room }
    requires room { room ≤ 256 }
{
    let mut buffer = UNCHANGED;
    let joined = join(values, separator, &mut buffer[..room], format, options);
    check_equal(rt, text, &*joined, text.as_bytes());
    joined.fill(b'#');
    let overwritten = [b'#'; 32];
    let front = overwritten.get(..text.len()).unwrap_or(b"");
    check_buffer(rt, text, &buffer, front);
}

#[test]
fn no_values_and_three(rt: HostRuntime) {
    let options = Options::new();
    let none = [0i8; 0];
    let count = write_joined(&none, b',', &mut [], &STANDARD, &options);
    check_equal(&rt, "no values", count, 0);
    check_joined(&rt, &none, b',', 0, &STANDARD, &options, "");
    check_joined(&rt, &[1i8, -2, 3], b',', 15, &STANDARD, &options, "1,-2,3");
}

#[test]
fn one_value_with_a_sign(rt: HostRuntime) {
    let format = NumberFormatBuilder::new()
        .required_mantissa_sign(true)
        .build_strict();
    let text = "+18446744073709551615";
    check_joined(&rt, &[u64::MAX], b' ', 22, &format, &Options::new(), text);
}

#[test]
fn texts_in_groups(rt: HostRuntime) {
    let format = NumberFormatBuilder::new()
        .digit_grouping(3, b',')
        .build_strict();
    check_joined(
        &rt,
        &[1000u16, 5],
        b';',
        14,
        &format,
        &Options::new(),
        "1,000;5",
    );
}
