//! Tests of single calls with known numbers and buffers of known lengths.

use crate::checks::check_equal;
use crate::integers::checks::check_text;
use lexical_write_integer::format::STANDARD;
use lexical_write_integer::{BUFFER_SIZE, NumberFormatBuilder, ToLexical};

#[test]
fn length_of_a_text(rt: HostRuntime) {
    let mut three = [7; 3];
    let length = 255u8.write_lexical(&mut three);
    check_text(&rt, length, &three, b"255");
}

#[test]
fn changes_to_the_text_are_changes_to_the_buffer(rt: HostRuntime) {
    let mut buffer = [7; 21];
    let text = 1234u64.to_lexical(&mut buffer);
    check_equal(&rt, "the text of 1234", &*text, b"1234");
    text[0] = 57;
    check_text(&rt, 4, &buffer, b"9234");
}

#[test]
fn names_at_the_root(rt: HostRuntime) {
    let is_standard = NumberFormatBuilder::new().build_strict() == STANDARD;
    check_equal(
        &rt,
        "STANDARD, BUFFER_SIZE",
        (is_standard, BUFFER_SIZE),
        (true, 128),
    );
}
