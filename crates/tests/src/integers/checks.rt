//! The assertions of the tests of numbers. Each failure shows the row of the test, which has its inputs.

ghost use Rattle.std.specs.Prelude.{◌≡◌};

use crate::checks::check_equal;
use lexical_num::{NumberFormat, NumberFormatBuilder};
use std::fmt::Debug;
use std::process::Abort;

// The longest buffer of a test: a length for the longest text, three more bytes, and some bytes that are not
// passed to the writer.
pub(crate) const ROOM: usize = 140;

// What the buffers of the tests contain before a call.
const UNCHANGED: [u8; ROOM] = [7; ROOM];

// Checks that the buffer begins with the text, and that every byte after it is still 7.
pub(crate) fn check_buffer<R: Copy + Debug + Drop>(
    rt: &impl Abort,
    row: R,
    buffer: &[u8],
    text: &[u8],
) {
    let is_unchanged = match buffer.strip_prefix(text) {
        Some(rest) => UNCHANGED.ends_with(rest),
        None => false,
    };
    check_equal(rt, (row, text, buffer), is_unchanged, true);
}

// Returns the format that the builder builds.
pub(crate) fn valid(rt: &impl Abort, builder: NumberFormatBuilder) -> NumberFormat
    ensures { result ≡ builder }
{
    builder.build().expect(rt, "a valid format")
}

// Checks the returned length of a text, and the buffer that the text was written to.
pub(crate) fn check_written<R: Copy + Debug + Drop>(
    rt: &impl Abort,
    row: R,
    length: usize,
    buffer: &[u8],
    text: &[u8],
) {
    check_equal(rt, row, length, text.len());
    check_buffer(rt, row, buffer, text);
}

// Does the same, with the text as the row.
pub(crate) fn check_text(rt: &impl Abort, length: usize, buffer: &[u8], text: &[u8]) {
    check_written(rt, text, length, buffer, text);
}

// Uses that must fail, since a check that compares nothing would let every test pass.

#[test]
#[should_panic(expected = "in the row \"first\": 2 in place of 3")]
fn a_wrong_length_fails(rt: HostRuntime) {
    check_written(&rt, "first", 2, b"123\x07", b"123");
}

#[test]
#[should_panic(expected = "false in place of true")]
fn a_wrong_text_fails(rt: HostRuntime) {
    check_text(&rt, 3, b"124\x07", b"123");
}

#[test]
#[should_panic(expected = "false in place of true")]
fn a_changed_byte_after_the_text_fails(rt: HostRuntime) {
    check_text(&rt, 3, b"123\x06", b"123");
}
